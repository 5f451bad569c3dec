//! A statistics file.
ghost use Rattle.std.specs.Prelude.{◌≡◌, ◌≢◌, ◌<◌, ◌≤◌, ◌↔◌, ◌++◌, [], length, IfOk, IsSome};
ghost use Rattle.std.specs.Prelude.{OnOk, option_to_list};
ghost use Rattle.nro_stats.specs.File.{longest, most, note_of, row_of, rows, stats};
ghost use Rattle.nro_stats.specs.Parts.{notes_in, rows_in};

use crate::outcome::{LineOutcome, read_line};
use geo_addr::{Line, List, Memory, Text};
use geo_terms::{Delegation, LineNote, SourceFault, Stats, Texts};
use line_parts::LinePart;
use std::alloc::Global;

/// The most bytes of a statistics file.
pub const LONGEST_STATS: usize = 268_435_456;

/// The most delegations of a file.
pub const MOST: usize = 2_097_152;

/// For each so many bytes of a file room for one row is taken ahead; few files have shorter lines
/// on the average.
const SHORT_LINE: usize = 40;

/// Reads a statistics file: the delegations and the notes of its lines.
///
/// A file is too long over `LONGEST_STATS` bytes, and has too many delegations over `MOST`.
pub fn read_stats(alloc: Global, slot: &str, bytes: &[u8]) -> Result<Stats, SourceFault>
    ensures read { IfOk result (λ found. found ≡ stats slot.now bytes.now) }
    ensures within { IfOk result (λ found. length found.rows ≤ most) }
    ensures too_long { (result ≡ Err SourceFault.TooLong) ↔ (longest < length bytes.now) }
    ensures too_many { result ≡ Err SourceFault.TooMany → most < length (rows slot.now bytes.now) }
{
    if bytes.len() > LONGEST_STATS {
        return Err(SourceFault::TooLong);
    }
    let slot = Text::of(alloc, slot)?;
    let rows = usual_rows(bytes.len());
    let found = read_lines(alloc, &slot, LinePart::whole(bytes), rows, MOST)?;
    Ok(Stats {
        slot,
        rows: List::of(found.rows),
        notes: List::of(found.notes),
    })
}

/// What the lines of a part say.
#[derive(Drop)]
pub(crate) struct Gathered {
    pub rows: Vec<Delegation>,
    pub notes: Vec<LineNote>,
}

// What is found in the lines so far.
#[derive(Drop)]
struct Reading {
    rows: Vec<Delegation>,
    notes: Vec<LineNote>,
    texts: Texts,
}

/// Reads the lines of a part of a file, with at most `limit` delegations and room for so many rows.
pub(crate) fn read_lines(
    alloc: Global,
    slot: &Text,
    part: LinePart,
    rows: usize,
    limit: usize,
) -> Result<Gathered, SourceFault>
    ensures rows { IfOk result (λ found. found.rows.items ≡ rows_in slot.now part.entry) }
    ensures notes { IfOk result (λ found. found.notes.items ≡ notes_in part.entry) }
    ensures within { IfOk result (λ found. length found.rows.items ≤ limit) }
    ensures too_many { result ≡ Err SourceFault.TooMany
        → limit < length (rows_in slot.now part.entry) }
    ensures too_long { result ≢ Err SourceFault.TooLong }
{
    let gathered = gathered_with_room(alloc, rows)?;
    let mut found = Reading {
        rows: gathered.rows,
        notes: gathered.notes,
        texts: Texts::new(alloc),
    };
    for line in part.lines() {
        take_line(slot, line, limit, &mut found)?;
    }
    Ok(Gathered {
        rows: found.rows,
        notes: found.notes,
    })
}

/// For how many rows of a file of so many bytes there is room ahead.
pub(crate) fn usual_rows(size: usize) -> usize {
    (size / SHORT_LINE).min(MOST)
}

/// Nothing yet, with room for so many rows, so that they are not moved as they come.
pub(crate) fn gathered_with_room(alloc: Global, rows: usize) -> Result<Gathered, Memory>
    ensures rows { IfOk result (λ found. found.rows.items ≡ []) }
    ensures notes { IfOk result (λ found. found.notes.items ≡ []) }
{
    let rows = Vec::with_capacity(alloc, rows)?;
    let notes = Vec::new(alloc);
    Ok(Gathered { rows, notes })
}

// Adds what one more line says.
fn take_line(slot: &Text, line: Line, limit: usize, found: &mut Reading) -> Result<(), SourceFault>
    requires { length found.old.rows.items ≤ limit }
    ensures rows { OnOk result (found.new.rows.items ≡ found.old.rows.items
        ++ option_to_list (row_of slot.now (line.entry.number, line.entry.text.now))) }
    ensures notes { OnOk result (found.new.notes.items ≡ found.old.notes.items
        ++ option_to_list (note_of (line.entry.number, line.entry.text.now))) }
    ensures within { OnOk result (length found.new.rows.items ≤ limit) }
    ensures too_many { result ≡ Err SourceFault.TooMany
        → IsSome (row_of slot.now (line.entry.number, line.entry.text.now))
        × (length found.old.rows.items ≡ limit) }
    ensures too_long { result ≢ Err SourceFault.TooLong }
{
    match read_line(&mut found.texts, line.text)? {
        LineOutcome::Silent => {}
        LineOutcome::Broken(rule) => {
            let number = line.number;
            let note = LineNote { line: number, rule };
            found.notes.push(note).map_err(Memory::from)?;
        }
        LineOutcome::Delegated(range, place) => {
            if found.rows.len() == limit {
                return Err(SourceFault::TooMany);
            }
            let slot = slot.copied()?;
            let row = Delegation {
                slot,
                line: line.number,
                range,
                place,
            };
            found.rows.push(row).map_err(Memory::from)?;
        }
    }
    Ok(())
}
