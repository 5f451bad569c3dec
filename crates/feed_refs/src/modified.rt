//! The time of the last change of an object.
ghost use Rattle.std.specs.Prelude.{◌≡◌, ◌≤◌, filter, length};
ghost use Rattle.std.specs.Char.{is_ascii_digit};
ghost use Rattle.std.specs.Str.Parse.{digits_value};
ghost use Rattle.feed_refs.specs.Dates.{fits, fits_byte, modified};

// Each `d` stands for a digit.
const SHAPE: &[u8; 20] = b"dddd-dd-ddTdd:dd:ddZ";

/// The 14 digits of a time as a number, or `None` where the text is out of shape.
#[tactic(auto, using(crate::proofs::DateLemmas::few_digits), unfolding(crate::specs::Dates::modified))]
pub(crate) fn modified_in(text: &[u8]) -> Option<u64>
    ensures { result ≡ modified text.now }
{
    if fits(SHAPE, text) {
        Some(number_in(text))
    } else {
        None
    }
}

fn fits(shape: &[u8], text: &[u8]) -> bool
    ensures { result ≡ fits shape.now text.now }
{
    let mut shape_left = shape;
    let mut left = text;
    while let [in_shape, shape_rest @ ..] = shape_left {
        let [byte, rest @ ..] = left else {
            return false;
        };
        if !fits_byte(*in_shape, *byte) {
            return false;
        }
        shape_left = shape_rest;
        left = rest;
    }
    left.is_empty()
}

fn fits_byte(in_shape: u8, byte: u8) -> bool
    ensures { result ≡ fits_byte in_shape byte }
{
    if in_shape == b'd' {
        byte.is_ascii_digit()
    } else {
        byte == in_shape
    }
}

// The digits of a text as one number.
#[tactic(auto, using(crate::proofs::DateLemmas::step_fits))]
fn number_in(text: &[u8]) -> u64
    requires { length (filter is_ascii_digit text.now) ≤ 19 }
    ensures { result ≡ digits_value 10 (filter is_ascii_digit text.now) }
{
    let mut value: u64 = 0;
    for byte in text {
        if byte.is_ascii_digit() {
            value = value * 10 + u64::from(byte - b'0');
        }
    }
    value
}
