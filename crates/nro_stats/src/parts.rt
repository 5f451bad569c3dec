//! Lines of a statistics file, read by parts side by side.
ghost use Rattle.std.specs.Prelude.{◌≡◌, ◌++◌, OnOk};
ghost use Rattle.std.specs.List.{flat_map};
ghost use Rattle.nro_stats.specs.Parts.{found_notes, found_rows, notes_in, notes_of, rows_in};
ghost use Rattle.nro_stats.specs.Parts.{rows_of};

use crate::read::{Gathered, MOST, read_lines, usual_rows};
use fan_work::{Forks, Work, map_pieces};
use geo_addr::{Memory, Text};
use geo_outside::Gate;
use line_parts::{LEAST_PART, LinePart, cut_part, part_size};
use std::alloc::Global;
use std::marker::Sync;
use std::thread::Threads;

/// For each so many bytes of a part room for one row is taken ahead; no line of one is shorter.
const LEAST_LINE: usize = 8;

/// Work that reads the lines of a part of the file in a slot.
#[derive(Drop)]
struct PartReading<'a> {
    alloc: Global,
    slot: &'a str,
    // Whether it stands beside no other part.
    is_alone: bool,
}

impl<'a, 'b> Work<LinePart<'b>, Gathered> for PartReading<'a> {
    ghost use Rattle.nro_stats.specs.Parts.{IsPartRead};

    ghost related = { λ work part found. IsPartRead work.slot.now part found };

    fn done(&self, item: &LinePart<'b>) -> Result<Gathered, Memory> {
        // A text of its own, since all copies of a text are counted in one cell.
        let slot = Text::of(self.alloc, self.slot)?;
        let rows = room_for(item.text.len(), self.is_alone);
        match read_lines(self.alloc, &slot, *item, rows, usize::MAX) {
            Ok(found) => Ok(found),
            Err(_) => Err(Memory),
        }
    }
}

// For how many rows of so many bytes there is room ahead. Beside other parts it is for all that
// there can be: a list that grows leaves what it had, and room that is not used costs nothing.
fn room_for(size: usize, is_alone: bool) -> usize {
    if is_alone {
        usual_rows(size)
    } else {
        (size / LEAST_LINE).min(MOST)
    }
}

/// Puts what some lines of a file say to what those before them say.
///
/// Few bytes are read on the calling thread, and so are all where there is one piece.
pub(crate) fn read_side_by_side<R: Threads + Sync, G: Gate>(
    forks: &Forks<R, G>,
    slot: &str,
    lines: LinePart,
    all: &mut Gathered,
) -> Result<(), Memory>
    ensures rows { OnOk result
        (all.new.rows.items ≡ all.old.rows.items ++ rows_in slot.now lines.entry) }
    ensures notes { OnOk result
        (all.new.notes.items ≡ all.old.notes.items ++ notes_in lines.entry) }
{
    all.rows.reserve(usual_rows(lines.text.len()))?;
    if lines.text.len() <= LEAST_PART || forks.pieces == 1 {
        return read_here(forks.alloc, slot, lines, all);
    }
    let size = part_size(lines.text.len(), forks.pieces as usize);
    let parts = cut_part(forks.alloc, lines, size)?;
    read_parts(forks, slot, parts.as_slice(), all)
}

// Puts what lines say, read on the calling thread, to what was found in those before.
fn read_here(alloc: Global, slot: &str, lines: LinePart, all: &mut Gathered) -> Result<(), Memory>
    ensures rows { OnOk result
        (all.new.rows.items ≡ all.old.rows.items ++ rows_in slot.now lines.entry) }
    ensures notes { OnOk result
        (all.new.notes.items ≡ all.old.notes.items ++ notes_in lines.entry) }
{
    let work = PartReading {
        alloc,
        slot,
        is_alone: true,
    };
    let found = work.done(&lines)?;
    put(found, all)
}

// Puts what is found in parts, each read by a piece, to what was found in those before.
fn read_parts<R: Threads + Sync, G: Gate>(
    forks: &Forks<R, G>,
    slot: &str,
    parts: &[LinePart],
    all: &mut Gathered,
) -> Result<(), Memory>
    ensures rows { OnOk result
        (all.new.rows.items ≡ all.old.rows.items ++ rows_of slot.now parts.now) }
    ensures notes { OnOk result (all.new.notes.items ≡ all.old.notes.items ++ notes_of parts.now) }
{
    let work = PartReading {
        alloc: forks.alloc,
        slot,
        is_alone: false,
    };
    let found = map_pieces(
        forks.rt,
        forks.alloc,
        forks.gate,
        forks.pieces,
        parts,
        &work,
    )?;
    put_all(found, all)?;
    Ok(())
}

// Puts what was found in parts to what was found in those before.
fn put_all(parts: Vec<Gathered>, all: &mut Gathered) -> Result<(), Memory>
    ensures rows { OnOk result (all.new.rows.items
        ≡ all.old.rows.items ++ flat_map found_rows parts.items) }
    ensures notes { OnOk result (all.new.notes.items
        ≡ all.old.notes.items ++ flat_map found_notes parts.items) }
{
    for part in parts {
        put(part, all)?;
    }
    Ok(())
}

fn put(part: Gathered, all: &mut Gathered) -> Result<(), Memory>
    ensures rows { OnOk result (all.new.rows.items ≡ all.old.rows.items ++ part.rows.items) }
    ensures notes { OnOk result (all.new.notes.items ≡ all.old.notes.items ++ part.notes.items) }
{
    let mut part = part;
    all.rows.append(&mut part.rows)?;
    all.notes.append(&mut part.notes)?;
    Ok(())
}
