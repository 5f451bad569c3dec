//! The IPv4 address in front of a text, read in one pass.
ghost use Rattle.std.specs.Prelude.{IfSome};
ghost use Rattle.geo_addr.specs.Fronts.{BeginsWithAddress, BeginsWithDigit, BeginsWithDotted};
ghost use Rattle.geo_addr.specs.Fronts.{BeginsWithOctet};

use crate::digits::digit;

/// The IPv4 address that stands in front of a text, and what stands behind it.
///
/// `None` tells nothing of the text: whether it is an address, or why not, is read by its parts.
pub(crate) fn front_address(text: &[u8]) -> Option<(u32, &[u8])>
    ensures { IfSome result (λ read. BeginsWithAddress text.now read.0 read.1.now) }
{
    let (first, behind) = front_dotted(text)?;
    let (second, behind) = front_dotted(behind)?;
    let (third, behind) = front_dotted(behind)?;
    let (fourth, behind) = front_octet(behind)?;
    Some((
        ((first * 256 + second) * 256 + third) * 256 + fourth,
        behind,
    ))
}

/// The octet in front of a dot, and what stands behind the dot.
fn front_dotted(text: &[u8]) -> Option<(u32, &[u8])>
    ensures { IfSome result (λ read. BeginsWithDotted text.now read.0 read.1.now) }
{
    match front_octet(text)? {
        (octet, [b'.', behind @ ..]) => Some((octet, behind)),
        _ => None,
    }
}

/// The octet that the first digits of a text spell, up to three of them, and what stands behind it.
fn front_octet(text: &[u8]) -> Option<(u32, &[u8])>
    ensures { IfSome result (λ read. BeginsWithOctet text.now read.0 read.1.now) }
{
    let (one, behind_one) = front_digit(text)?;
    let Some((second, behind_two)) = front_digit(behind_one) else {
        return Some((one, behind_one));
    };
    if one == 0 {
        return None;
    }
    let two = one * 10 + second;
    let Some((third, behind_three)) = front_digit(behind_two) else {
        return Some((two, behind_two));
    };
    let three = two * 10 + third;
    if three <= 255 {
        Some((three, behind_three))
    } else {
        None
    }
}

/// The number that the digit in front of a text writes, and what stands behind it.
fn front_digit(text: &[u8]) -> Option<(u32, &[u8])>
    ensures { IfSome result (λ read. BeginsWithDigit text.now read.0 read.1.now) }
{
    match text {
        [first, behind @ ..] => Some((digit(*first)?, behind)),
        _ => None,
    }
}
