//! Whether two short texts are the same bytes.
ghost use Rattle.std.specs.Prelude.{◌≡◌};
ghost use Rattle.geo_terms.specs.PlaceForm.{same_text};

/// Whether both are the same bytes; eight at a time are compared as one number.
pub fn same_bytes(x: &[u8], y: &[u8]) -> bool
    ensures { result ≡ same_text x.now y.now }
{
    if x.len() != y.len() {
        return false;
    }
    let (mut left, mut right) = (x, y);
    while let Some((one, rest)) = left.split_first_chunk::<8>() {
        let Some((other, others)) = right.split_first_chunk::<8>() else {
            return false;
        };
        if u64::from_le_bytes(*one) != u64::from_le_bytes(*other) {
            return false;
        }
        left = rest;
        right = others;
    }
    same_few(left, right)
}

// Whether both are the same few bytes.
fn same_few(x: &[u8], y: &[u8]) -> bool
    ensures { result ≡ same_text x.now y.now }
{
    let (mut left, mut right) = (x, y);
    while let [one, rest @ ..] = left {
        let [other, others @ ..] = right else {
            return false;
        };
        if *one != *other {
            return false;
        }
        left = rest;
        right = others;
    }
    right.is_empty()
}
