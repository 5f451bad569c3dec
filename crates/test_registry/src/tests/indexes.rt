//! The index of references beside the plain look-up. The lines that are wanted of the worked
//! references were told from their ranges and dates by hand.
use super::if_done;
use first_index::inetnums::Index;
use first_index::plain::first_at;
use geo_addr::{Addr, Range, Text, parse_block};
use geo_terms::Reference;
use std::alloc::Global;
use std::mem::drop;
use std::test::Fail;

const TOP_V4: u128 = 0xFFFF_FFFF;

const FEED: &str = "f";

const OTHER: &str = "g";

// A reference of the addresses from the first to the last one.
#[derive(Clone, Copy)]
struct ReferenceRow {
    slot: &'static str,
    line: u64,
    first: u128,
    last: u128,
    modified: u64,
    url: &'static str,
}

fn reference(alloc: Global, row: &ReferenceRow) -> Result<Reference, Fail> {
    let (first, last) = (row.first, row.last);
    if first > last {
        return Err(Fail::from("no range"));
    }
    Ok(Reference {
        slot: Text::of(alloc, row.slot)?,
        line: row.line,
        range: Range { first, last },
        modified: row.modified,
        url: Text::of(alloc, row.url)?,
    })
}

// Lines 1 and 2 nest, 3 and 4 overlap, 5 and 6 are of one range and one date in two slots, 7 is
// older than these; the others touch the ends of both families.
static REFERENCES: [ReferenceRow; 12] = [
    ReferenceRow {
        slot: "a",
        line: 1,
        first: 0xC000_0000,
        last: 0xC000_FFFF,
        modified: 0,
        url: FEED,
    },
    ReferenceRow {
        slot: "a",
        line: 2,
        first: 0xC000_0200,
        last: 0xC000_02FF,
        modified: 0,
        url: FEED,
    },
    ReferenceRow {
        slot: "a",
        line: 3,
        first: 0x0A00_0000,
        last: 0x0A00_0009,
        modified: 0,
        url: OTHER,
    },
    ReferenceRow {
        slot: "a",
        line: 4,
        first: 0x0A00_0005,
        last: 0x0A00_0014,
        modified: 0,
        url: OTHER,
    },
    ReferenceRow {
        slot: "b",
        line: 5,
        first: 0x0B00_0000,
        last: 0x0B00_00FF,
        modified: 20,
        url: FEED,
    },
    ReferenceRow {
        slot: "a",
        line: 6,
        first: 0x0B00_0000,
        last: 0x0B00_00FF,
        modified: 20,
        url: FEED,
    },
    ReferenceRow {
        slot: "a",
        line: 7,
        first: 0x0B00_0000,
        last: 0x0B00_00FF,
        modified: 10,
        url: FEED,
    },
    ReferenceRow {
        slot: "a",
        line: 8,
        first: 0,
        last: 0,
        modified: 0,
        url: OTHER,
    },
    ReferenceRow {
        slot: "a",
        line: 9,
        first: TOP_V4,
        last: TOP_V4,
        modified: 0,
        url: OTHER,
    },
    ReferenceRow {
        slot: "a",
        line: 10,
        first: 0,
        last: u128::MAX,
        modified: 0,
        url: OTHER,
    },
    ReferenceRow {
        slot: "a",
        line: 11,
        first: 1 << 32,
        last: 1 << 32,
        modified: 0,
        url: OTHER,
    },
    ReferenceRow {
        slot: "a",
        line: 12,
        first: u128::MAX,
        last: u128::MAX,
        modified: 0,
        url: OTHER,
    },
];

fn reference_rows() -> &'static [ReferenceRow] {
    &REFERENCES
}

fn push_references(alloc: Global, refs: &mut Vec<Reference>) -> Result<(), Fail> {
    for row in reference_rows() {
        refs.push(reference(alloc, row)?)?;
    }
    Ok(())
}

fn references(alloc: Global) -> Result<Vec<Reference>, Fail> {
    let mut refs = Vec::new(alloc);
    let pushed = push_references(alloc, &mut refs);
    if_done(refs, pushed)
}

fn index(alloc: Global) -> Result<Index, Fail> {
    Ok(Index::build(alloc, references(alloc)?)?)
}

fn line_of(found: Option<&Reference>) -> u64 {
    match found {
        Some(reference) => reference.line,
        None => 0,
    }
}

fn best_line(index: &Index, number: u128) -> u64 {
    line_of(index.best_at(Addr(number)))
}

type SmallestRow = (u128, u64);

static SMALLEST: [SmallestRow; 13] = [
    (0xC000_0301, 1),
    (0xC000_02FF, 2),
    (0xC001_0000, 0),
    (0x0A00_0007, 3),
    (0x0A00_000A, 4),
    (0x0B00_00FF, 6),
    (0, 8),
    (1, 0),
    (TOP_V4, 9),
    (1 << 32, 11),
    ((1 << 32) + 1, 10),
    (u128::MAX - 1, 10),
    (u128::MAX, 12),
];

fn smallest() -> &'static [SmallestRow] {
    &SMALLEST
}

// The first row of the table that the index answers otherwise.
fn first_wrong_address(index: &Index) -> Option<usize> {
    for (at, row) in smallest().iter().enumerate() {
        if best_line(index, row.0) != row.1 {
            return Some(at);
        }
    }
    None
}

// The line of the reference that covers a block; 0 where none does, and where the two calls differ.
fn covering_line(index: &Index, url: &str, text: &str) -> Result<u64, Fail> {
    let block = parse_block(text.as_bytes())?;
    let found = index.covering(block, url);
    if index.covers(block, url) == found.is_some() {
        Ok(line_of(found))
    } else {
        Err(Fail::from("two answers"))
    }
}

type CoveredRow = (&'static str, &'static str, u64);

static COVERED: [CoveredRow; 11] = [
    (FEED, "192.0.2.0/25", 2),
    (FEED, "192.0.3.0/24", 1),
    (FEED, "192.0.0.0/15", 0),
    (FEED, "192.0.2.0/24", 2),
    (FEED, "11.0.0.0/28", 6),
    (OTHER, "11.0.0.0/28", 0),
    (OTHER, "10.0.0.8/32", 3),
    (OTHER, "10.0.0.8/30", 4),
    (OTHER, "0.0.0.1/32", 0),
    (OTHER, "::/0", 10),
    ("h", "192.0.2.0/25", 0),
];

fn covered() -> &'static [CoveredRow] {
    &COVERED
}

fn first_wrong_block(index: &Index) -> Result<Option<usize>, Fail> {
    for (at, row) in covered().iter().enumerate() {
        if covering_line(index, row.0, row.1)? != row.2 {
            return Ok(Some(at));
        }
    }
    Ok(None)
}

// By size, then date, then slot; and by the first that contains a block.
#[test]
fn best_and_covering(rt: HostRuntime) -> Result<(), Fail> {
    let index = index(rt.alloc())?;
    let wrong_address = first_wrong_address(&index);
    let wrong_block = first_wrong_block(&index);
    drop(index);
    assert!(rt; wrong_address.is_none());
    assert!(rt; wrong_block?.is_none());
    Ok(())
}

// The next of a row of numbers that look random.
fn next(number: &mut u64) -> u64 {
    *number = number.wrapping_mul(48_271) % 2_147_483_647;
    *number
}

// The next reference, on one of both sides of the border of the families.
fn next_row(line: u64, number: &mut u64) -> ReferenceRow {
    let low = u128::from(next(number) % 4096);
    let first = (TOP_V4 - 0x800).wrapping_add(low);
    let size = u128::from(next(number) % 64);
    let last = first.saturating_add(size);
    let modified = next(number) % 4;
    ReferenceRow {
        slot: "a",
        line,
        first,
        last,
        modified,
        url: FEED,
    }
}

fn push_made(alloc: Global, count: u64, refs: &mut Vec<Reference>) -> Result<(), Fail> {
    let mut number = 1;
    for line in 0..count {
        let row = next_row(line, &mut number);
        refs.push(reference(alloc, &row)?)?;
    }
    Ok(())
}

// Many references whose ranges nest, overlap and repeat.
fn made(alloc: Global, count: u64) -> Result<Vec<Reference>, Fail> {
    let mut refs = Vec::new(alloc);
    let pushed = push_made(alloc, count, &mut refs);
    if_done(refs, pushed)
}

fn plain_line(refs: &[Reference], number: u128) -> u64 {
    line_of(first_at(refs, Addr(number), None))
}

fn first_unlike(index: &Index, refs: &[Reference]) -> Option<u32> {
    for step in 0..600 {
        let at = (TOP_V4 - 0x900) + u128::from(step * 8u32);
        if best_line(index, at) != plain_line(refs, at) {
            return Some(step);
        }
    }
    None
}

fn index_of_made(alloc: Global) -> Result<Index, Fail> {
    Ok(Index::build(alloc, made(alloc, 2000)?)?)
}

// The first step at which an index of the same references answers otherwise.
fn first_unlike_made(alloc: Global, refs: &[Reference]) -> Result<Option<u32>, Fail> {
    let index = index_of_made(alloc)?;
    let unlike = first_unlike(&index, refs);
    drop(index);
    Ok(unlike)
}

#[test]
fn as_the_plain_look_up(rt: HostRuntime) -> Result<(), Fail> {
    let refs = made(rt.alloc(), 2000)?;
    let unlike = first_unlike_made(rt.alloc(), refs.as_slice());
    drop(refs);
    assert!(rt; unlike?.is_none());
    Ok(())
}
