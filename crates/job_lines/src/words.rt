//! The words of a line.
ghost use Rattle.std.specs.Prelude.{◌≡◌, ◌<◌, ◌≤◌, ◌∷◌, [], length, IfSome, MatchOption};
ghost use Rattle.std.specs.List.{position_or_len, slice_split};
ghost use Rattle.std.specs.Option.{option_copied};
ghost use Rattle.geo_addr.specs.Lines.{is_blank};
ghost use Rattle.job_lines.specs.Words.{is_comment, is_passed_over, pieces_after_blank, words};

use geo_addr::is_blank;

/// Whether a line is passed over: it has no words, or its first word begins with `#`.
pub(crate) fn is_passed_over(line: &[u8]) -> bool
    ensures { result ≡ is_passed_over (words line.now) }
{
    match next_word(line) {
        Some((word, _)) => is_comment(word),
        None => true,
    }
}

fn is_comment(word: &[u8]) -> bool
    ensures { result ≡ is_comment word.now }
{
    match word {
        [first, ..] => *first == b'#',
        [] => false,
    }
}

/// The first word of a text and what stands behind it, or `None` where the text has no words.
pub fn next_word(text: &[u8]) -> Option<(&[u8], &[u8])>
    ensures { MatchOption result (words text.now ≡ [])
        (λ found. words text.now ≡ found.0.now ∷ words found.1.now) }
{
    let mut left = text;
    loop {
        let (piece, after) = cut_blank(left);
        match after {
            Some(rest) => {
                if !piece.is_empty() {
                    return Some((piece, rest));
                }
                left = rest;
            }
            None => {
                if piece.is_empty() {
                    return None;
                }
                return Some((piece, &[]));
            }
        }
    }
}

// The text before the first blank, and the text after it, which is `None` where there is no blank.
#[tactic(auto, using(crate::proofs::WordLemmas::blank_cuts))]
fn cut_blank(text: &[u8]) -> (&[u8], Option<&[u8]>)
    ensures pieces { slice_split is_blank text.now
        ≡ result.0.now ∷ pieces_after_blank (option_copied result.1) }
    ensures shorter { IfSome result.1 (λ rest. length rest.now < length text.now) }
{
    let cut = blank_at(text);
    if cut == text.len() {
        return (text, None);
    }
    (&text[..cut], Some(&text[cut + 1..]))
}

// Where the first blank stands, or the text's length where there is none.
#[tactic(auto, using(crate::proofs::WordLemmas::first_blank))]
fn blank_at(text: &[u8]) -> usize
    ensures cut { result ≡ position_or_len is_blank text.now }
    ensures within { result ≤ length text.now }
{
    for (at, byte) in text.iter().enumerate() {
        if is_blank(*byte) {
            return at;
        }
    }
    text.len()
}
