//! What a line says by itself.
ghost use Rattle.std.specs.Prelude.{◌≡◌, ◌++◌, ℕ, List, Some, IfOk, OnOk};
ghost use Rattle.csv_lines.specs.Clean.{AreTexts};
ghost use Rattle.csv_lines.specs.Rests.{CanRead, StandsIf, column, handed};
ghost use Rattle.override_rows.specs.Outcomes.{acted, outcome, row_outcome, set_at};

use csv::{ByteRecord, Reader};
use csv_lines::{Content, Row, bare_row, column, next_row, said_in};
use geo_addr::{Memory, Range, parse_span};
use geo_terms::{Rule, Said, Texts};

/// What a line says: nothing, a rule that it breaks, or what is said of a range.
#[derive(Debug, Drop)]
pub(crate) enum LineOutcome {
    Silent,
    Broken(Rule),
    Accepted(Range, Said),
}

/// What the next line of the reader's file says.
#[tactic(auto, unfolding(crate::specs::Outcomes::outcome))]
pub(crate) fn read_line(
    reader: &mut Option<Reader<&[u8]>>,
    line: &[u8],
    row: &mut ByteRecord,
    texts: &mut Texts,
) -> Result<LineOutcome, Memory>
    requires { CanRead (λ s. Some s.now) reader.old line.now }
    ensures outcome { IfOk result (λ found. found ≡ outcome line.now) }
    ensures stands { (left : List ℕ)
        → StandsIf (λ s. Some s.now) reader.old (handed line.now ++ left)
        → OnOk result (StandsIf (λ s. Some s.now) reader.new left) }
{
    if let Some(bare) = bare_row(line) {
        return row_outcome(texts, &bare);
    }
    match next_row(reader, line, row)? {
        Content::Blank => Ok(LineOutcome::Silent),
        Content::NotText => Ok(LineOutcome::Broken(Rule::O01)),
        Content::NoFields => Ok(LineOutcome::Broken(Rule::O02)),
        Content::Fields => row_outcome(texts, row),
    }
}

// What fields say: the first rule that they break, else a row.
fn row_outcome<R: Row>(texts: &mut Texts, row: &R) -> Result<LineOutcome, Memory>
    requires { AreTexts (R.fields row.now) }
    ensures { IfOk result (λ found. found ≡ row_outcome (R.fields row.now)) }
{
    match parse_span(column(row, 0)) {
        Ok(range) => acted(texts, range, row),
        Err(_) => Ok(LineOutcome::Broken(Rule::O03)),
    }
}

fn acted<R: Row>(texts: &mut Texts, range: Range, row: &R) -> Result<LineOutcome, Memory>
    requires { AreTexts (R.fields row.now) }
    ensures { IfOk result
        (λ found. found ≡ acted range (column 1 (R.fields row.now)) (R.fields row.now)) }
{
    let word = column(row, 1);
    if word == b"void".as_slice() {
        return Ok(LineOutcome::Accepted(range, Said::Nothing));
    }
    if word != b"set".as_slice() {
        return Ok(LineOutcome::Broken(Rule::O04));
    }
    match said_in(texts, row, 2)? {
        Ok(said) => Ok(set_at(range, said)),
        Err(_) => Ok(LineOutcome::Broken(Rule::O05)),
    }
}

fn set_at(range: Range, said: Said) -> LineOutcome
    ensures { result ≡ set_at range said }
{
    match said {
        Said::Nothing => LineOutcome::Broken(Rule::O06),
        Said::At(place) => LineOutcome::Accepted(range, Said::At(place)),
    }
}
