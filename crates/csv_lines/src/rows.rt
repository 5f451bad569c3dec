//! The fields of all lines that have any; where a file has quotes, one `csv` reader reads the lines
//! with them.
ghost use Rattle.std.specs.Prelude.{◌≡◌, ◌≢◌, [], ◌∷◌, ◌++◌, ◌<◌, ℕ, List, Some, IfOk, OnOk};
ghost use Rattle.std.specs.Prelude.{option_map};
ghost use Rattle.geo_addr.specs.Lines.{numbered_lines};
ghost use Rattle.csv.specs.Records.{field_at, fields_of};
ghost use Rattle.csv_lines.specs.Clean.{AreTexts};
ghost use Rattle.csv_lines.specs.Fields.{values_of};
ghost use Rattle.csv_lines.specs.Rests.{CanRead, Stands, StandsIf, all_handed, column, content_of};
ghost use Rattle.csv_lines.specs.Rests.{handed};
ghost use Rattle.csv_lines.specs.Rests.{handed_text, rest_of, row_of, said_in};
ghost use Rattle.csv_lines.specs.declared.rest.Content.{Content};

use crate::bare::{cut_row, is_unquoted};
use crate::rest::{Content, content_of, rest_of};
use csv::{ByteRecord, Reader, ReaderBuilder};
use geo_addr::{Lines, Memory, trim_blanks};
use geo_terms::{PlaceFault, Said, Texts, place_in};
use std::alloc::Global;
use std::str;

/// What is handed to `csv` of a file: a line feed, and the rest of each line that has fields and a
/// quote, each as a line of its own.
///
/// The line feed in front keeps `csv` from taking a byte order mark off the first rest.
pub fn all_handed(alloc: Global, file: &[u8]) -> Result<Vec<u8>, Memory>
    ensures { IfOk result (λ handed. handed.items ≡ 10 ∷ all_handed (numbered_lines file.now)) }
{
    let mut handed = Vec::new(alloc);
    handed.push(b'\n')?;
    if is_unquoted(file) {
        return Ok(handed);
    }
    for line in Lines::of(file) {
        hand(line.text, &mut handed)?;
    }
    Ok(handed)
}

// Hands over the rest of a line where it has fields and a quote.
#[tactic(auto, unfolding(crate::specs::Rests::handed))]
fn hand(line: &[u8], all: &mut Vec<u8>) -> Result<(), Memory>
    ensures { OnOk result (all.new.items ≡ all.old.items ++ handed line.now) }
{
    let rest = rest_of(line);
    if is_unquoted(rest) {
        return Ok(());
    }
    match content_of(rest) {
        Content::Blank => {}
        Content::NotText => {}
        Content::NoFields => {}
        Content::Fields => {
            all.extend_from_slice(rest)?;
            all.push(b'\n')?;
        }
    }
    Ok(())
}

/// The reader of what was handed over, where that is more than the line feed in front: most files
/// have no quote, and a reader makes its tables first.
pub fn reader_of(alloc: Global, handed: &[u8]) -> Option<Reader<&[u8]>>
    ensures { (left : List ℕ) → handed.now ≡ 10 ∷ left → StandsIf (λ s. Some s.now) result left }
{
    if handed.len() > 1 {
        Some(new_reader(alloc, handed))
    } else {
        None
    }
}

// Were it inlined, its tables would be cleared for each file, also for those without a quote.
#[inline(never)]
fn new_reader(alloc: Global, handed: &[u8]) -> Reader<&[u8]>
    ensures { (left : List ℕ) → handed.now ≡ 10 ∷ left → Stands (λ s. Some s.now) result left }
{
    ReaderBuilder::new()
        .has_headers(false)
        .flexible(true)
        .from_reader(alloc, handed)
}

/// What the rest of a line has; where it has fields, they are put into the row.
///
/// The reader is that of the file of the line, and its lines are taken one after another.
pub fn next_row(
    reader: &mut Option<Reader<&[u8]>>,
    line: &[u8],
    row: &mut ByteRecord,
) -> Result<Content, Memory>
    requires { CanRead (λ s. Some s.now) reader.old line.now }
    ensures content { IfOk result (λ content. content ≡ content_of (rest_of line.now)) }
    ensures row { IfOk result
        (λ content. content ≡ Content.Fields → fields_of row.new ≡ row_of (rest_of line.now)) }
    ensures texts { IfOk result
        (λ content. content ≡ Content.Fields → AreTexts (fields_of row.new)) }
    ensures stands { (left : List ℕ)
        → StandsIf (λ s. Some s.now) reader.old (handed line.now ++ left)
        → OnOk result (StandsIf (λ s. Some s.now) reader.new left) }
{
    let rest = rest_of(line);
    let content = content_of(rest);
    match content {
        Content::Blank => {}
        Content::NotText => {}
        Content::NoFields => {}
        Content::Fields => take_row(reader, rest, row)?,
    }
    Ok(content)
}

// Takes the fields of a text that has them: without quotes they are its pieces, else the next row.
fn take_row(
    reader: &mut Option<Reader<&[u8]>>,
    text: &[u8],
    row: &mut ByteRecord,
) -> Result<(), Memory>
    ensures { (left : List ℕ)
        → (values : List (List ℕ)) → text.now ≢ [] → values_of text.now ≡ Some values
        → StandsIf (λ s. Some s.now) reader.old (handed_text text.now ++ left)
        → OnOk result ((fields_of row.new ≡ values) × StandsIf (λ s. Some s.now) reader.new left) }
{
    if is_unquoted(text) {
        return cut_row(text, row);
    }
    match reader {
        Some(reader) => read_row(reader, row),
        // Nothing was handed over, so no text with a quote comes.
        None => Ok(()),
    }
}

// Reads the next row.
fn read_row(reader: &mut Reader<&[u8]>, row: &mut ByteRecord) -> Result<(), Memory>
    ensures { (text left : List ℕ) → (values : List (List ℕ)) → text ≢ []
        → values_of text ≡ Some values → Stands (λ s. Some s.now) reader.old (text ++ (10 ∷ left))
        → OnOk result ((fields_of row.new ≡ values) × Stands (λ s. Some s.now) reader.new left) }
{
    match reader.read_byte_record(row) {
        Ok(_) => Ok(()),
        Err(_) => Err(Memory),
    }
}

/// The fields of a line.
pub trait Row {
    ghost fields: { Self → List (List ℕ) };

    /// A field by its index from 0, if there is one.
    fn field(&self, index: usize) -> Option<&[u8]>
        ensures { option_map (λ s. s.now) result ≡ field_at (fields self.now) index };
}

impl Row for ByteRecord {
    ghost fields = { fields_of };

    fn field(&self, index: usize) -> Option<&[u8]> {
        self.get(index)
    }
}

/// A field of a row by its index from 0, without the blanks around it; a missing one is empty.
pub fn column<R: Row>(row: &R, index: usize) -> &[u8]
    ensures { result.now ≡ column index (R.fields row.now) }
{
    match row.field(index) {
        Some(field) => trim_blanks(field),
        None => &[],
    }
}

/// What four fields from an index on say of a location, or the first of their faults: country,
/// region, city and postal code.
#[tactic(auto, using(crate::proofs::RestLemmas::fault_told))]
pub fn said_in<R: Row>(
    texts: &mut Texts,
    row: &R,
    index: usize,
) -> Result<Result<Said, PlaceFault>, Memory>
    requires few { index < 8 }
    requires texts { AreTexts (R.fields row.now) }
    ensures { IfOk result (λ said. said ≡ said_in index (R.fields row.now)) }
{
    let country = text_column(row, index);
    let region = text_column(row, index + 1);
    let city = text_column(row, index + 2);
    let postal = text_column(row, index + 3);
    match place_in(texts, country, region, city, postal) {
        Ok(said) => Ok(Ok(said)),
        Err(PlaceFault::Country) => Ok(Err(PlaceFault::Country)),
        Err(PlaceFault::Region) => Ok(Err(PlaceFault::Region)),
        Err(PlaceFault::TooLong) => Ok(Err(PlaceFault::TooLong)),
        Err(PlaceFault::Memory) => Err(Memory),
    }
}

// A field of a row by its index, as a text.
fn text_column<R: Row>(row: &R, index: usize) -> &str
    requires { AreTexts (R.fields row.now) }
    ensures { result.now ≡ column index (R.fields row.now) }
{
    // Its `requires` is that of this function.
    unsafe { str::from_utf8_unchecked(column(row, index)) }
}
