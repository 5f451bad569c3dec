//! The lines of a text of which more may follow.
ghost use Rattle.std.specs.Prelude.{◌≡◌, ◌++◌, ◌⊎◌, [], ℕ, List};
ghost use Rattle.geo_addr.specs.Lines.{numbered_lines};
ghost use Rattle.line_parts.specs.Parts.{EndsNearMark, EndsWithFeed, behind, feeds};

use crate::cut::has_mark;

/// The lines that end in a text, with their line ends, and what is left, which more may follow.
///
/// Where a byte order mark may stand behind the last of them, which is part of a line, all is left.
pub fn whole_lines(text: &[u8]) -> (&[u8], &[u8])
    ensures joined { result.0.now ++ result.1.now ≡ text.now }
    ensures lines { (more : List ℕ) → numbered_lines (text.now ++ more)
        ≡ numbered_lines result.0.now
        ++ behind (feeds result.0.now) (numbered_lines (result.1.now ++ more)) }
    ensures whole { (feeds result.1.now ≡ 0) ⊎ EndsNearMark text.now }
{
    let (lines, left) = split_behind_last(text);
    if left.len() < MARK || has_mark(left) {
        return (&[], text);
    }
    (lines, left)
}

/// How many bytes a byte order mark has.
const MARK: usize = 3;

// The text up to its last line feed, with it, and what stands after it.
fn split_behind_last(text: &[u8]) -> (&[u8], &[u8])
    ensures joined { result.0.now ++ result.1.now ≡ text.now }
    ensures end { (result.0.now ≡ []) ⊎ EndsWithFeed result.0.now }
    ensures free { feeds result.1.now ≡ 0 }
{
    let mut left = text;
    while let [rest @ .., last] = left {
        if *last == b'\n' {
            break;
        }
        left = rest;
    }
    text.split_at(left.len())
}
