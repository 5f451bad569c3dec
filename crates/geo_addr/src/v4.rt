//! IPv4 texts, read.
ghost use Rattle.std.specs.Prelude.{◌≡◌, ◌∷◌, ◌≤◌, true, false, ◌<◌, ◌^◌, IfOk, MatchBool};
ghost use Rattle.std.specs.Prelude.{MatchOption};
ghost use Rattle.std.specs.Str.Parse.{digits_value};
ghost use Rattle.geo_addr.specs.Ipv4Texts.{ipv4_in, ipv4_of, is_octet, is_part};
ghost use Rattle.geo_addr.specs.Lines.{pieces};

use crate::digits::short_decimal;
use crate::fault::AddrFault;
use crate::line::cut_near;

/// The number that a part spells: one to three digits.
fn part(text: &[u8]) -> Option<u32>
    ensures { MatchOption result
        (is_part text.now ≡ false)
        (λ value. (is_part text.now ≡ true) × (value ≡ digits_value 10 text.now)) }
{
    short_decimal(text)
}

/// Whether a part that spells `value` is an octet: no zero in front, and at most 255.
#[tactic(auto, unfolding(crate::specs::Ipv4Texts::is_octet))]
fn is_octet(part: &[u8], value: u32) -> bool
    requires { value ≡ digits_value 10 part.now }
    ensures { MatchBool result
        ((is_octet part.now ≡ true) × (value ≤ 255))
        (is_octet part.now ≡ false) }
{
    (part.len() < 2 || part[0] != b'0') && value <= 255
}

/// The address that four decimal numbers with dots between them spell.
#[tactic(auto, unfolding(crate::specs::Ipv4Texts::ipv4_of))]
pub(crate) fn read_v4(text: &[u8]) -> Result<u128, AddrFault>
    ensures value { result ≡ ipv4_in text.now }
    ensures small { IfOk result (λ number. number < 2 ^ 32) }
{
    let (a, Some(rest)) = cut_near(text, b'.') else {
        return Err(AddrFault::Form);
    };
    let (b, Some(rest)) = cut_near(rest, b'.') else {
        return Err(AddrFault::Form);
    };
    let (c, Some(d)) = cut_near(rest, b'.') else {
        return Err(AddrFault::Form);
    };
    read_parts(a, b, c, d)
}

/// The address that the four parts between dots spell.
fn read_parts(a: &[u8], b: &[u8], c: &[u8], d: &[u8]) -> Result<u128, AddrFault>
    ensures value { result ≡ ipv4_of (a.now ∷ b.now ∷ c.now ∷ pieces 46 d.now) }
    ensures small { IfOk result (λ number. number < 2 ^ 32) }
{
    let Some(first) = part(a) else {
        return Err(AddrFault::Form);
    };
    let Some(second) = part(b) else {
        return Err(AddrFault::Form);
    };
    let Some(third) = part(c) else {
        return Err(AddrFault::Form);
    };
    let Some(fourth) = part(d) else {
        return Err(AddrFault::Form);
    };
    if is_octet(a, first) && is_octet(b, second) && is_octet(c, third) && is_octet(d, fourth) {
        Ok(u128::from(((first * 256 + second) * 256 + third) * 256 + fourth))
    } else {
        Err(AddrFault::Octet)
    }
}
