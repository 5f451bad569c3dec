//! Whether a text is fields with commas between them.
ghost use Rattle.std.specs.Prelude.{◌≡◌, ℕ, [], ◌∷◌, List, MatchOption, IsTrue, false, is_some};
ghost use Rattle.csv_lines.specs.Fields.{passes, values_of};
ghost use Rattle.csv_lines.specs.declared.scan.Spot.TheVariants.{Start};

use memchr::memchr3;

/// Where a text stands, byte by byte.
#[derive(Clone, Copy, Debug)]
pub(crate) enum Spot {
    /// At the start of a field.
    Start,
    /// In a plain field.
    Inside,
    /// Between quotes.
    Within,
    /// Behind a quote that closes the field, or that the next one doubles.
    Closed,
}

/// Whether a text has fields (RFC 4180 section 2), and no line feed and no carriage return.
#[tactic(auto, using(crate::proofs::ScanLemmas::has_values))]
pub fn has_fields(text: &[u8]) -> bool
    ensures { result ≡ is_some (values_of text.now) }
{
    if is_bare(text) {
        return true;
    }
    passes(text)
}

// Whether a text has neither quotes nor line ends, as most have: then it has fields.
#[tactic(auto, using(crate::proofs::ScanLemmas::bare_passes))]
fn is_bare(text: &[u8]) -> bool
    ensures { IsTrue result → IsTrue (passes Start text.now) }
{
    match memchr3(b'"', b'\n', b'\r', text) {
        Some(_) => false,
        None => true,
    }
}

fn passes(text: &[u8]) -> bool
    ensures { result ≡ passes Start text.now }
{
    let mut spot = Spot::Start;
    for byte in text {
        let Some(next) = next_spot(spot, *byte) else {
            return false;
        };
        spot = next;
    }
    may_end(spot)
}

// Whether a text may end there: everywhere but between quotes.
#[tactic(auto, unfolding(crate::specs::Fields::scan))]
fn may_end(spot: Spot) -> bool
    ensures { result ≡ passes spot [] }
{
    match spot {
        Spot::Start => true,
        Spot::Inside => true,
        Spot::Within => false,
        Spot::Closed => true,
    }
}

// Where the text stands after one more byte, unless it cannot go on with that byte.
#[tactic(auto, using(crate::proofs::ScanLemmas::ends_line, crate::proofs::ScanLemmas::start_quote, crate::proofs::ScanLemmas::start_comma, crate::proofs::ScanLemmas::start_other, crate::proofs::ScanLemmas::inside_quote, crate::proofs::ScanLemmas::inside_comma, crate::proofs::ScanLemmas::inside_other, crate::proofs::ScanLemmas::within_quote, crate::proofs::ScanLemmas::within_other, crate::proofs::ScanLemmas::closed_quote, crate::proofs::ScanLemmas::closed_comma, crate::proofs::ScanLemmas::closed_other))]
fn next_spot(spot: Spot, byte: u8) -> Option<Spot>
    ensures { MatchOption result ((left : List ℕ) → passes spot (byte ∷ left) ≡ false)
        (λ next. (left : List ℕ) → passes spot (byte ∷ left) ≡ passes next left) }
{
    if byte == b'\n' || byte == b'\r' {
        return None;
    }
    match spot {
        Spot::Start => match byte {
            b'"' => Some(Spot::Within),
            b',' => Some(Spot::Start),
            _ => Some(Spot::Inside),
        },
        Spot::Inside => match byte {
            b'"' => None,
            b',' => Some(Spot::Start),
            _ => Some(Spot::Inside),
        },
        Spot::Within => match byte {
            b'"' => Some(Spot::Closed),
            _ => Some(Spot::Within),
        },
        Spot::Closed => match byte {
            b'"' => Some(Spot::Within),
            b',' => Some(Spot::Start),
            _ => None,
        },
    }
}
