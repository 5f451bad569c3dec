//! A feed, read by parts side by side.
ghost use Rattle.std.specs.Prelude.{◌≡◌, ◌<◌, ◌≤◌, ◌↔◌, ◌++◌, IfOk, OnOk, length};
ghost use Rattle.std.specs.List.{flat_map};
ghost use Rattle.feed_csv.specs.File.{AreClean, accepted, feed, longest, most, refused};
ghost use Rattle.feed_csv.specs.Parts.{accepted_of, found_entries, found_faults, refused_of};

use crate::read::{Gathered, LONGEST_FEED, MOST, feed_of, gathered_with_room, read_lines};
use csv_lines::{KnownTails, OwnTail};
use fan_work::{Forks, Work, map_pieces};
use geo_addr::Memory;
use geo_outside::Gate;
use geo_terms::{Feed, SourceFault};
use line_parts::{LEAST_PART, LONG_PART, LinePart, first_parts, part_size, parts_of};
use std::alloc::Global;
use std::marker::Sync;
use std::thread::Threads;

/// The least bytes of a part before others: a feed of at most so many is one part.
pub const FEED_PART: usize = LEAST_PART;

/// For each so many bytes of a part room for one entry is taken ahead; most lines are longer. Room
/// for more would be so large that the C library asks the system for it anew at each part.
const LEAST_LINE: usize = 20;

/// Work that reads the lines of a part of a feed.
#[derive(Drop)]
struct PartReading<'b> {
    alloc: Global,
    known: &'b KnownTails,
}

impl<'a, 'b> Work<LinePart<'a>, Gathered> for PartReading<'b> {
    ghost use Rattle.feed_csv.specs.Parts.{IsPartRead};

    ghost related = { λ work part found. IsPartRead part found };

    fn done(&self, item: &LinePart<'a>) -> Result<Gathered, Memory> {
        // Room that is not used costs nothing, and a list that grows leaves what it had.
        let entries = most_entries(item.text.len());
        let faults = most_faults(item.text.len());
        let none = KnownTails::new(self.alloc);
        let known = if is_long(item) { &none } else { self.known };
        match read_lines(self.alloc, *item, known, entries, faults, usize::MAX) {
            Ok(found) => Ok(found),
            Err(_) => Err(Memory),
        }
    }
}

/// Reads a geofeed as `read_feed` does, by parts of it side by side.
///
/// Each part but the last has at least `FEED_PART` bytes, and a long feed has more parts than there
/// are pieces. Whether too many lines pass the line rules is asked once all are read.
pub fn read_feed_by_parts<R: Threads + Sync, G: Gate>(
    forks: &Forks<R, G>,
    url: &str,
    bytes: Vec<u8>,
    known: &KnownTails,
    learned: &mut Vec<OwnTail>,
) -> Result<Feed, SourceFault>
    ensures read { IfOk result (λ found. found ≡ feed url.now bytes.items) }
    ensures clean { IfOk result (λ found. AreClean found.entries) }
    ensures within { OnOk result (length (accepted bytes.items) ≤ most) }
    ensures too_long { (result ≡ Err SourceFault.TooLong) ↔ (longest < length bytes.items) }
    ensures too_many { result ≡ Err SourceFault.TooMany → most < length (accepted bytes.items) }
{
    if bytes.len() > LONGEST_FEED {
        return Err(SourceFault::TooLong);
    }
    let mut all = read_parts(forks, bytes, known)?;
    learned.append(&mut all.tails).map_err(Memory::from)?;
    if all.entries.len() > MOST {
        return Err(SourceFault::TooMany);
    }
    let feed = feed_of(forks.alloc, url, all)?;
    Ok(feed)
}

// Whether a part is so long that most of its tails come often. It then has places of its own, since
// each copy of a place is counted, which is slow where other threads count it too.
fn is_long(part: &LinePart) -> bool {
    part.text.len() > LONG_PART / 4
}

// What is found in all parts of a feed, whose bytes are given back. As many are read at a time as
// there are pieces, and what was found in them is put to the rest before the next are read.
fn read_parts<R: Threads + Sync, G: Gate>(
    forks: &Forks<R, G>,
    bytes: Vec<u8>,
    known: &KnownTails,
) -> Result<Gathered, Memory>
    ensures entries { IfOk result (λ all. all.entries.items ≡ accepted bytes.items) }
    ensures faults { IfOk result (λ all. all.faults.items ≡ refused bytes.items) }
{
    let size = part_size(bytes.len(), forks.pieces as usize);
    let parts = parts_of(forks.alloc, bytes.as_slice(), size)?;
    let (entries, faults) = (most_entries(bytes.len()), most_faults(bytes.len()));
    let mut all = gathered_with_room(forks.alloc, entries, faults)?;
    read_left(forks, parts.as_slice(), known, &mut all)?;
    all.entries.shrink_to_fit();
    all.faults.shrink_to_fit();
    Ok(all)
}

// Puts what is found in the parts that are left to what was found in those before.
fn read_left<R: Threads + Sync, G: Gate>(
    forks: &Forks<R, G>,
    left: &[LinePart],
    known: &KnownTails,
    all: &mut Gathered,
) -> Result<(), Memory>
    ensures entries { OnOk result
        (all.new.entries.items ≡ all.old.entries.items ++ accepted_of left.now) }
    ensures faults { OnOk result
        (all.new.faults.items ≡ all.old.faults.items ++ refused_of left.now) }
{
    if left.is_empty() {
        return Ok(());
    }
    let (some, rest) = first_parts(left, forks.pieces as usize);
    read_some(forks, some, known, all)?;
    read_left(forks, rest, known, all)?;
    Ok(())
}

// For how many entries of so many bytes there is room ahead.
fn most_entries(size: usize) -> usize {
    (size / LEAST_LINE).min(MOST)
}

// The most faults of so many bytes: each has a line of at least two, but for the last.
fn most_faults(size: usize) -> usize {
    size / 2 + 1
}

// Puts what is found in parts, each read by a piece, to what was found in those before.
fn read_some<R: Threads + Sync, G: Gate>(
    forks: &Forks<R, G>,
    parts: &[LinePart],
    known: &KnownTails,
    all: &mut Gathered,
) -> Result<(), Memory>
    ensures entries { OnOk result
        (all.new.entries.items ≡ all.old.entries.items ++ accepted_of parts.now) }
    ensures faults { OnOk result
        (all.new.faults.items ≡ all.old.faults.items ++ refused_of parts.now) }
{
    let work = PartReading {
        alloc: forks.alloc,
        known,
    };
    let found = map_pieces(
        forks.rt,
        forks.alloc,
        forks.gate,
        forks.pieces,
        parts,
        &work,
    )?;
    put_all(found, all)?;
    Ok(())
}

// Puts what was found in parts to what was found in those before.
fn put_all(parts: Vec<Gathered>, all: &mut Gathered) -> Result<(), Memory>
    ensures entries { OnOk result (all.new.entries.items
        ≡ all.old.entries.items ++ flat_map found_entries parts.items) }
    ensures faults { OnOk result (all.new.faults.items
        ≡ all.old.faults.items ++ flat_map found_faults parts.items) }
{
    for part in parts {
        put(part, all)?;
    }
    Ok(())
}

fn put(part: Gathered, all: &mut Gathered) -> Result<(), Memory>
    ensures entries { OnOk result
        (all.new.entries.items ≡ all.old.entries.items ++ part.entries.items) }
    ensures faults { OnOk result
        (all.new.faults.items ≡ all.old.faults.items ++ part.faults.items) }
{
    let mut part = part;
    all.entries.append(&mut part.entries)?;
    all.faults.append(&mut part.faults)?;
    all.tails.append(&mut part.tails)?;
    Ok(())
}
