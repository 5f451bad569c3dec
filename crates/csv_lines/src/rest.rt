//! What is left of a line without its comment.
ghost use Rattle.std.specs.Prelude.{◌≡◌};
ghost use Rattle.std.specs.Str.{is_utf8};
ghost use Rattle.csv_lines.specs.Rests.{content_of, rest_of};

use crate::scan::has_fields;
use geo_addr::{cut_at, trim_blanks};
use std::str;

/// What the rest of a line has.
#[derive(Clone, Copy, Debug, PartialEq, Eq)]
pub enum Content {
    /// Nothing: the line is empty, or a comment.
    Blank,
    /// Bytes that are no UTF-8.
    NotText,
    /// A text with a misplaced quote or a carriage return.
    NoFields,
    /// Fields with commas between them.
    Fields,
}

/// The line up to its first `#`, which also counts between quotes, without the blanks around it.
pub fn rest_of(line: &[u8]) -> &[u8]
    ensures { result.now ≡ rest_of line.now }
{
    let (rest, _) = cut_at(line, b'#');
    trim_blanks(rest)
}

/// What a rest has.
pub fn content_of(rest: &[u8]) -> Content
    ensures { result ≡ content_of rest.now }
{
    if rest.is_empty() {
        return Content::Blank;
    }
    if !is_text(rest) {
        return Content::NotText;
    }
    if has_fields(rest) {
        Content::Fields
    } else {
        Content::NoFields
    }
}

#[tactic(auto, using(crate::proofs::RestLemmas::text_is, crate::proofs::RestLemmas::text_is_not))]
pub(crate) fn is_text(bytes: &[u8]) -> bool
    ensures { result ≡ is_utf8 bytes.now }
{
    match str::from_utf8(bytes) {
        Ok(_) => true,
        Err(_) => false,
    }
}
