//! The fields of a text without quotes.
ghost use Rattle.std.specs.Prelude.{◌≡◌, ◌<◌, ◌≤◌, [], ◌∷◌, ◌++◌, true, false, length, IfNone};
ghost use Rattle.std.specs.Prelude.{IfSome, IsSome, MatchOption, OnOk, OnSome};
ghost use Rattle.std.specs.List.{list_all, prefix_len};
ghost use Rattle.std.specs.Option.{option_copied};
ghost use Rattle.csv.specs.Records.{fields_of};
ghost use Rattle.geo_addr.specs.Lines.{pieces, pieces_after, trimmed};
ghost use Rattle.csv_lines.specs.Clean.{AreTexts};
ghost use Rattle.csv_lines.specs.Fields.{goes_on, is_bare, is_unquoted};
ghost use Rattle.csv_lines.specs.Rests.{IsBareLine, content_of, handed, rest_of, row_of};
ghost use Rattle.csv_lines.specs.declared.rest.Content.{Content};

use crate::rest::is_text;
use crate::rows::Row;
use csv::ByteRecord;
use geo_addr::{Memory, cut_at, trim_blanks};
use memchr::memchr;
use std::marker::Model;

/// Whether a text has no quote.
#[tactic(auto, using(crate::proofs::BareLemmas::unquoted, crate::proofs::BareLemmas::quoted))]
pub(crate) fn is_unquoted(text: &[u8]) -> bool
    ensures { result ≡ is_unquoted text.now }
{
    match memchr(b'"', text) {
        Some(_) => false,
        None => true,
    }
}

/// Makes the pieces of a text between its commas the fields of a row.
pub(crate) fn cut_row(text: &[u8], row: &mut ByteRecord) -> Result<(), Memory>
    ensures { OnOk result (fields_of row.new ≡ pieces 44 text.now) }
{
    row.clear();
    let mut left = text;
    'fields: loop {
        let (field, after) = cut_at(left, b',');
        row.push_field(field)?;
        let Some(next) = after else {
            return Ok(());
        };
        left = next;
    }
}

/// The most fields of a row that is kept as slices of its line; few lines have more.
pub(crate) const MOST_FIELDS: usize = 8;

/// The fields of a line without quotes, as slices of the line.
///
/// Contracts see the list of the fields.
#[derive(Drop)]
pub struct BareRow<'a> {
    fields: [&'a [u8]; MOST_FIELDS],
    count: usize,
}

impl<'a> Model for BareRow<'a> {
    ghost use Rattle.std.specs.Prelude.{ℕ, ◌≤◌, List, map, take};
    ghost use Rattle.csv_lines.specs.declared.bare.TheConstants.{MOST_FIELDS};

    ghost Value = { List (List ℕ) };

    ghost view = { λ r. map (λ s. s.now) (take r.count r.fields) };

    ghost invariant = { λ r. r.count ≤ MOST_FIELDS };
}

impl<'a> BareRow<'a> {
    fn new() -> BareRow<'a>
        ensures { result ≡ [] }
    {
        BareRow {
            fields: [&[]; MOST_FIELDS],
            count: 0,
        }
    }

    // Adds one more field, if there is room.
    fn push(&mut self, field: &'a [u8]) -> Option<()>
        ensures pushed { OnSome result (self.new ≡ self.old ++ field.now ∷ []) }
        ensures full { IfNone result (length self.old ≡ MOST_FIELDS) }
    {
        if self.count == MOST_FIELDS {
            return None;
        }
        self.fields[self.count] = field;
        self.count += 1;
        Some(())
    }
}

impl<'a> Row for BareRow<'a> {
    ghost fields = { λ r. r };

    fn field(&self, index: usize) -> Option<&[u8]> {
        if index < self.count {
            Some(self.fields[index])
        } else {
            None
        }
    }
}

/// The fields of a line that has at most `MOST_FIELDS`, and neither quotes nor a comment; else
/// `None`.
pub fn bare_row(line: &[u8]) -> Option<BareRow<'_>>
    ensures content { IsSome result → content_of (rest_of line.now) ≡ Content.Fields }
    ensures row { IfSome result (λ row. row ≡ row_of (rest_of line.now)) }
    ensures texts { IfSome result (λ row. AreTexts row) }
    ensures handed { IsSome result → handed line.now ≡ [] }
    ensures bare { IsSome result → list_all is_bare (trimmed line.now) ≡ true }
    ensures taken { IsBareLine line.now → IsSome result }
{
    let rest = trim_blanks(line);
    if rest.is_empty() || !is_text(rest) {
        return None;
    }
    cut_bare(rest)
}

// The pieces of a text between its commas, where it has few, and no quotes, line ends or `#`.
fn cut_bare(text: &[u8]) -> Option<BareRow<'_>>
    ensures bare { IsSome result → list_all is_bare text.now ≡ true }
    ensures row { IfSome result (λ row. row ≡ pieces 44 text.now) }
    ensures taken { list_all is_bare text.now ≡ true → length (pieces 44 text.now) ≤ MOST_FIELDS
        → IsSome result }
{
    let mut row = BareRow::new();
    let mut left = text;
    'fields: loop {
        let (field, after) = cut_field(left)?;
        row.push(field)?;
        let Some(next) = after else {
            return Some(row);
        };
        left = next;
    }
}

// The first field, and what stands after its comma where it has one;
// `None` where another byte ends it.
fn cut_field(text: &[u8]) -> Option<(&[u8], Option<&[u8]>)>
    ensures pieces { IfSome result
        (λ p. pieces 44 text.now ≡ p.0.now ∷ pieces_after 44 (option_copied p.1)) }
    ensures bare { IfSome result (λ p. MatchOption p.1 (list_all is_bare text.now ≡ true)
        (λ next. list_all is_bare text.now ≡ list_all is_bare next.now)) }
    ensures other { IfNone result (list_all is_bare text.now ≡ false) }
    ensures shorter { IfSome result (λ p. IfSome p.1 (λ next. length next.now < length text.now)) }
{
    let (field, after) = text.split_at(field_len(text));
    let Some((byte, next)) = after.split_first() else {
        return Some((field, None));
    };
    if *byte != b',' {
        return None;
    }
    Some((field, Some(next)))
}

// How many bytes of a text are those of its first field.
fn field_len(text: &[u8]) -> usize
    ensures { result ≡ prefix_len goes_on text.now }
{
    for (index, byte) in text.iter().enumerate() {
        if !goes_on(*byte) {
            return index;
        }
    }
    text.len()
}

// Whether a byte is no comma, quote, line end or start of a comment.
fn goes_on(byte: u8) -> bool
    ensures { result ≡ goes_on byte }
{
    byte != b',' && byte != b'"' && byte != b'#' && byte != b'\n' && byte != b'\r'
}
