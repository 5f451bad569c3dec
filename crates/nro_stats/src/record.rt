//! The fields of a line.
ghost use Rattle.std.specs.Prelude.{◌≡◌, ◌∷◌, ◌&&◌, ◌||◌, [], codes, MatchOption};
ghost use Rattle.std.specs.Option.{option_copied};
ghost use Rattle.geo_addr.specs.Lines.{trimmed};
ghost use Rattle.geo_terms.specs.PlaceForm.{same_text};
ghost use Rattle.nro_stats.specs.Fields.{IsRecord, IsShort, fields, fields_after, first_field};
ghost use Rattle.nro_stats.specs.Fields.{is_skipped, is_summary_line, is_version, is_version_line};
ghost use Rattle.nro_stats.specs.Fields.{later_fields};

use geo_addr::{are_digits, cut_near, is_blank, trim_blanks};

/// The first seven fields of a line; what follows the status does not count.
#[derive(Clone, Copy, Debug)]
pub(crate) struct Record<'a> {
    pub registry: &'a [u8],
    pub country: &'a [u8],
    pub kind: &'a [u8],
    pub start: &'a [u8],
    pub value: &'a [u8],
    pub date: &'a [u8],
    pub status: &'a [u8],
}

impl<'a> Record<'a> {
    /// The record that a line is, or `None` where it has fewer than seven fields.
    pub fn of(line: &'a [u8]) -> Option<Record<'a>>
        ensures { MatchOption result (IsShort (fields line.now))
            (λ found. IsRecord (fields line.now) found) }
    {
        let mut rest = Some(line);
        let registry = take_field(&mut rest);
        let country = take_field(&mut rest);
        let kind = take_field(&mut rest);
        let start = take_field(&mut rest);
        let value = take_field(&mut rest);
        let date = take_field(&mut rest);
        let status = last_field(rest)?;
        Some(Record {
            registry,
            country,
            kind,
            start,
            value,
            date,
            status,
        })
    }
}

/// Whether these are the fields of a version line or of a summary line.
pub(crate) fn is_heading(found: &Record) -> bool
    ensures { result ≡ (is_version found.now.registry.now || (same_text found.now.country.now
        (codes "*") && same_text found.now.date.now (codes "summary"))) }
{
    let is_summary = found.country == b"*".as_slice() && found.date == b"summary".as_slice();
    is_version(found.registry) || is_summary
}

// Takes the field before the first bar, which is empty where no text is left.
fn take_field<'a>(rest: &mut Option<&'a [u8]>) -> &'a [u8]
    ensures field { result.now ≡ first_field (fields_after (option_copied rest.old)) }
    ensures later { fields_after (option_copied rest.new)
        ≡ later_fields (fields_after (option_copied rest.old)) }
{
    let Some(text) = *rest else {
        return b"".as_slice();
    };
    let (piece, after) = cut_near(text, b'|');
    *rest = after;
    trimmed(piece)
}

// The field before the first bar, if any text is left.
fn last_field(rest: Option<&[u8]>) -> Option<&[u8]>
    ensures { MatchOption result (fields_after (option_copied rest.entry) ≡ []) (λ field.
        fields_after (option_copied rest.entry)
        ≡ field.now ∷ later_fields (fields_after (option_copied rest.entry))) }
{
    let (piece, _) = cut_near(rest?, b'|');
    Some(trimmed(piece))
}

// A field without the blanks at both ends; few have any.
#[tactic(auto, using(crate::proofs::TrimLemmas::stays))]
fn trimmed(field: &[u8]) -> &[u8]
    ensures { result.now ≡ trimmed field.now }
{
    match field {
        [first, .., last] if !is_blank(*first) && !is_blank(*last) => field,
        _ => trim_blanks(field),
    }
}

/// Whether a line is passed over: it has blanks alone, or begins with `#`.
#[tactic(auto, using(crate::proofs::TrimLemmas::begun))]
pub(crate) fn is_skipped(line: &[u8]) -> bool
    ensures { result ≡ is_skipped line.now }
{
    match line {
        [first, ..] => *first == b'#' || (is_blank(*first) && trim_blanks(line).is_empty()),
        [] => true,
    }
}

/// Whether a line is a version line, which has a version as its first field, or a summary line,
/// which has `*` as its second field and `summary` as its sixth.
pub(crate) fn is_heading_line(line: &[u8]) -> bool
    ensures { result ≡ (is_version_line (fields line.now) || is_summary_line (fields line.now)) }
{
    is_version_line(line) || is_summary_line(line)
}

// Whether the first field of a line is a version, as `2` or `2.3`.
fn is_version_line(line: &[u8]) -> bool
    ensures { result ≡ is_version_line (fields line.now) }
{
    let (first, _) = cut_near(line, b'|');
    is_version(trimmed(first))
}

fn is_version(field: &[u8]) -> bool
    ensures { result ≡ is_version field.now }
{
    match field {
        [two] => *two == b'2',
        [two, dot, digits @ ..] => {
            *two == b'2' && *dot == b'.' && !digits.is_empty() && are_digits(digits)
        }
        [] => false,
    }
}

// Whether the second field of a line is `*` and its sixth `summary`.
fn is_summary_line(line: &[u8]) -> bool
    ensures { result ≡ is_summary_line (fields line.now) }
{
    let mut rest = Some(line);
    let _registry = take_field(&mut rest);
    let star = take_field(&mut rest);
    let _kind = take_field(&mut rest);
    let _none = take_field(&mut rest);
    let _count = take_field(&mut rest);
    let word = take_field(&mut rest);
    star == b"*".as_slice() && word == b"summary".as_slice()
}
