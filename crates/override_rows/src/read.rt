//! A file of overrides.
ghost use Rattle.std.specs.Prelude.{◌≡◌, ◌≢◌, ◌<◌, ◌≤◌, ◌↔◌, ◌++◌, ℕ, List, Some, length};
ghost use Rattle.std.specs.Prelude.{IfOk, IsSome, OnOk, option_to_list};
ghost use Rattle.csv_lines.specs.Rests.{CanRead, StandsIf, handed};
ghost use Rattle.override_rows.specs.File.{AreClean, accepted, refused, row_of_line, fault_of};
ghost use Rattle.override_rows.specs.File.{longest, most, overrides};

use crate::outcome::{LineOutcome, read_line};
use csv::{ByteRecord, Reader};
use csv_lines::{RepeatRules, all_handed, judge, reader_of};
use geo_addr::{Line, Lines, List, Memory};
use geo_terms::{LineNote, Override, Overrides, Rule, SourceFault, Texts};
use std::alloc::Global;

/// The most bytes of a file of overrides.
pub const LONGEST_OVERRIDES: usize = 67_108_864;

/// The most lines that pass the line rules.
pub const MOST: usize = 2_097_152;

/// Reads a file of overrides: the rows and the notes of its lines.
///
/// A file is too long over `LONGEST_OVERRIDES` bytes, and has too many statements where over `MOST`
/// lines pass the rules of a line by itself.
pub fn read_overrides(alloc: Global, bytes: &[u8]) -> Result<Overrides, SourceFault>
    ensures read { IfOk result (λ found. found ≡ overrides bytes.now) }
    ensures clean { IfOk result (λ found. AreClean found.rows) }
    ensures within { OnOk result (length (accepted bytes.now) ≤ most) }
    ensures too_long { (result ≡ Err SourceFault.TooLong) ↔ (longest < length bytes.now) }
    ensures too_many { result ≡ Err SourceFault.TooMany → most < length (accepted bytes.now) }
{
    if bytes.len() > LONGEST_OVERRIDES {
        return Err(SourceFault::TooLong);
    }
    let found = read_lines(alloc, bytes)?;
    let rules = RepeatRules {
        repeats: Rule::O07,
        differs: Rule::O08,
    };
    let judged = judge(alloc, found.rows, found.faults, rules)?;
    Ok(Overrides {
        rows: List::of(judged.rows),
        notes: List::of(judged.faults),
    })
}

// What is found in the lines so far.
#[derive(Drop)]
struct Reading {
    rows: Vec<Override>,
    faults: Vec<LineNote>,
    texts: Texts,
    row: ByteRecord,
}

// The rows and the faults of the lines by themselves.
fn read_lines(alloc: Global, bytes: &[u8]) -> Result<Reading, SourceFault>
    ensures rows { IfOk result (λ found. found.rows.items ≡ accepted bytes.now) }
    ensures faults { IfOk result (λ found. found.faults.items ≡ refused bytes.now) }
    ensures within { IfOk result (λ found. length found.rows.items ≤ most) }
    ensures too_many { result ≡ Err SourceFault.TooMany → most < length (accepted bytes.now) }
    ensures too_long { result ≢ Err SourceFault.TooLong }
{
    let handed = all_handed(alloc, bytes)?;
    let mut reader = reader_of(alloc, handed.as_slice());
    let mut found = Reading {
        rows: Vec::new(alloc),
        faults: Vec::new(alloc),
        texts: Texts::new(alloc),
        row: ByteRecord::new(alloc),
    };
    for line in Lines::of(bytes) {
        take_line(line, &mut reader, &mut found)?;
    }
    Ok(found)
}

// Adds what one more line says.
fn take_line(
    line: Line,
    reader: &mut Option<Reader<&[u8]>>,
    found: &mut Reading,
) -> Result<(), SourceFault>
    requires few { length found.old.rows.items ≤ most }
    requires reads { CanRead (λ s. Some s.now) reader.old line.text.now }
    ensures rows { OnOk result (found.new.rows.items ≡ found.old.rows.items
        ++ option_to_list (row_of_line (line.entry.number, line.entry.text.now))) }
    ensures faults { OnOk result (found.new.faults.items ≡ found.old.faults.items
        ++ option_to_list (fault_of (line.entry.number, line.entry.text.now))) }
    ensures within { OnOk result (length found.new.rows.items ≤ most) }
    ensures stands { (left : List ℕ)
        → StandsIf (λ s. Some s.now) reader.old (handed line.entry.text.now ++ left)
        → OnOk result (StandsIf (λ s. Some s.now) reader.new left) }
    ensures too_many { result ≡ Err SourceFault.TooMany
        → IsSome (row_of_line (line.entry.number, line.entry.text.now))
        × (length found.old.rows.items ≡ most) }
    ensures too_long { result ≢ Err SourceFault.TooLong }
{
    match read_line(reader, line.text, &mut found.row, &mut found.texts)? {
        LineOutcome::Silent => {}
        LineOutcome::Broken(rule) => {
            let fault = LineNote {
                line: line.number,
                rule,
            };
            found.faults.push(fault).map_err(Memory::from)?;
        }
        LineOutcome::Accepted(range, said) => {
            if found.rows.len() == MOST {
                return Err(SourceFault::TooMany);
            }
            let row = Override {
                line: line.number,
                range,
                said,
            };
            found.rows.push(row).map_err(Memory::from)?;
        }
    }
    Ok(())
}
