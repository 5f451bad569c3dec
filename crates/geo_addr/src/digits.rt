//! Texts of decimal digits, read.
ghost use Rattle.std.specs.Prelude.{◌≡◌, ◌<◌, ◌≤◌, IsTrue, false, true, length, [], ◌∷◌};
ghost use Rattle.std.specs.Prelude.{IfSome, MatchOption};
ghost use Rattle.std.specs.Char.{digit_value, is_ascii_digit};
ghost use Rattle.std.specs.List.{list_all};
ghost use Rattle.std.specs.Str.Parse.{digits_value};
ghost use Rattle.geo_addr.specs.Decimals.{decimal};

/// The number that a text of decimal digits writes, where it has at least
/// `least` and at most `most` digits.
///
/// Leading zeros count as digits. It is `None` for any other text.
pub fn decimal(text: &[u8], least: usize, most: usize) -> Option<u128>
    requires { most ≤ 38 }
    ensures { result ≡ decimal least most text.now }
{
    if text.len() < least || text.len() > most || !are_digits(text) {
        return None;
    }
    Some(digits_value(text))
}

/// The number that a text of one to three decimal digits writes, which is below 1000.
pub(crate) fn short_decimal(text: &[u8]) -> Option<u32>
    ensures value { result ≡ decimal 1 3 text.now }
    ensures small { IfSome result (λ value. value < 1000) }
{
    match text {
        [ones] => digit(*ones),
        [tens, ones] => two_digits(*tens, *ones),
        [hundreds, tens, ones] => three_digits(*hundreds, *tens, *ones),
        _ => None,
    }
}

/// The number that three digits write.
fn three_digits(hundreds: u8, tens: u8, ones: u8) -> Option<u32>
    ensures value { result ≡ decimal 3 3 (hundreds ∷ tens ∷ ones ∷ []) }
    ensures small { IfSome result (λ value. value < 1000) }
{
    Some(digit(hundreds)? * 100 + two_digits(tens, ones)?)
}

/// The number that two digits write.
fn two_digits(tens: u8, ones: u8) -> Option<u32>
    ensures value { result ≡ decimal 2 2 (tens ∷ ones ∷ []) }
    ensures small { IfSome result (λ value. value < 100) }
{
    Some(digit(tens)? * 10 + digit(ones)?)
}

/// The number that a digit writes.
pub(crate) fn digit(byte: u8) -> Option<u32>
    ensures { MatchOption result
        (is_ascii_digit byte ≡ false)
        (λ value. (is_ascii_digit byte ≡ true) × (value ≡ digit_value byte) × (value ≤ 9)) }
{
    if byte.is_ascii_digit() {
        Some(u32::from(byte - b'0'))
    } else {
        None
    }
}

/// Whether a text has decimal digits alone; the empty text has.
pub fn are_digits(text: &[u8]) -> bool
    ensures { result ≡ list_all is_ascii_digit text.now }
{
    text.iter().all(|b| b.is_ascii_digit())
}

// The value of at most 38 digits, which fits 128 bits.
fn digits_value(text: &[u8]) -> u128
    requires few { length text.now ≤ 38 }
    requires digits { IsTrue (list_all is_ascii_digit text.now) }
    ensures { result ≡ digits_value 10 text.now }
{
    let mut value: u128 = 0;
    for digit in text {
        value = value * 10 + u128::from(digit - b'0');
    }
    value
}
