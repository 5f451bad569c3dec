//! Statistics files: delegations, notes, and which delegation decides. What is wanted was told from
//! the lines by hand: the ends of a range are the digits of its address, and its count further.
use fan_work::Forks;
use first_index::plain::{AllSources, spoken_at};
use geo_addr::Addr;
use geo_outside::OpenGate;
use geo_terms::{Delegation, LineNote, Stats};
use nro_stats::{StatsReader, read_stats};
use std::alloc::Global;
use std::marker::Sync;
use std::mem::drop;
use std::test::Fail;
use std::thread::Threads;

// A file, the line of its only delegation, and the ends of the range.
struct DelegationRow {
    file: &'static [u8],
    line: u64,
    first: u128,
    last: u128,
}

static DELEGATIONS: [DelegationRow; 13] = [
    DelegationRow {
        file: b"x|DE|ipv4|192.0.2.0|768||allocated",
        line: 1,
        first: 0xC000_0200,
        last: 0xC000_04FF,
    },
    DelegationRow {
        file: b"x|DE|ipv4|192.0.1.0|512||assigned",
        line: 1,
        first: 0xC000_0100,
        last: 0xC000_02FF,
    },
    DelegationRow {
        file: b"x|DE|ipv4|255.255.255.255|1||allocated",
        line: 1,
        first: 0xFFFF_FFFF,
        last: 0xFFFF_FFFF,
    },
    DelegationRow {
        file: b"x|DE|ipv4|0.0.0.0|4294967296||allocated",
        line: 1,
        first: 0,
        last: 0xFFFF_FFFF,
    },
    DelegationRow {
        file: b"x|DE|ipv4|10.0.0.0|0000000256||allocated",
        line: 1,
        first: 0x0A00_0000,
        last: 0x0A00_00FF,
    },
    DelegationRow {
        file: b"x|de|ipv6|2001:db8::|32||allocated",
        line: 1,
        first: 0x2001_0DB8 << 96,
        last: (0x2001_0DB9 << 96) - 1,
    },
    DelegationRow {
        file: b"x|DE|ipv6|::|95||allocated",
        line: 1,
        first: 0,
        last: (1 << 33) - 1,
    },
    DelegationRow {
        file: b"x | DE |ipv4|\t10.0.0.0 |256||allocated|A1|e-stats",
        line: 1,
        first: 0x0A00_0000,
        last: 0x0A00_00FF,
    },
    DelegationRow {
        file: b"#\r\n\r\nx|DE|ipv4|10.0.0.0|256||allocated\r\n",
        line: 3,
        first: 0x0A00_0000,
        last: 0x0A00_00FF,
    },
    DelegationRow {
        file: b"2.3|nro|20240301\nx|DE|ipv4|10.0.0.0|256||allocated\n",
        line: 2,
        first: 0x0A00_0000,
        last: 0x0A00_00FF,
    },
    DelegationRow {
        file: b"x|DE|ipv4|10.0.0.0|256||allocated\nnro|*|ipv4|*|4|summary\n",
        line: 1,
        first: 0x0A00_0000,
        last: 0x0A00_00FF,
    },
    DelegationRow {
        file: b"x|DE|asn|64496|1||allocated\nx||ipv4|x|y||available\n\
x|DE|ipv4|10.0.0.0|256||allocated",
        line: 3,
        first: 0x0A00_0000,
        last: 0x0A00_00FF,
    },
    DelegationRow {
        file: b"\xEF\xBB\xBF2\nx|DE|ipv4|10.0.0.0|256||allocated",
        line: 2,
        first: 0x0A00_0000,
        last: 0x0A00_00FF,
    },
];

fn delegations() -> &'static [DelegationRow] {
    &DELEGATIONS
}

// Whether this is the only delegation.
fn are_one(rows: &[Delegation], row: &DelegationRow) -> bool {
    match rows {
        [found] => {
            let ends = (found.range.first, found.range.last);
            found.line == row.line && ends == (row.first, row.last)
        }
        _ => false,
    }
}

fn says_one(alloc: Global, row: &DelegationRow) -> Result<bool, Fail> {
    let stats = read_stats(alloc, "x", row.file)?;
    let is_one = are_one(stats.rows.as_slice(), row) && stats.notes.as_slice().is_empty();
    drop(stats);
    Ok(is_one)
}

#[test]
fn one_delegation(rt: HostRuntime) -> Result<(), Fail> {
    for (at, row) in delegations().iter().enumerate() {
        assert!(rt; says_one(rt.alloc(), row)?, "row {at}");
    }
    Ok(())
}

// A file, the line of its only note, and the code of the rule.
type RuleRow = (&'static [u8], u64, &'static [u8]);

static RULES: [RuleRow; 17] = [
    (b"x|DE|ipv4|255.255.255.255|2||allocated", 1, b"S05"),
    (b"x|DE|ipv4|0.0.0.1|4294967296||allocated", 1, b"S05"),
    (
        b"x|DE|ipv4|10.0.0.0|256||allocated\nx|ZZ|ipv4|10.0.1.0|256||allocated\n",
        2,
        b"S06",
    ),
    (
        b"x|ZZ|ipv4|10.0.1.0|256||allocated\nx|DE|ipv4|10.0.0.0|256||allocated\n",
        1,
        b"S06",
    ),
    (b"x|zz|ipv4|10.0.1.0|256||allocated", 1, b"S06"),
    (b"x||ipv4|10.0.1.0|256||allocated", 1, b"S06"),
    (b"x|DE|ipv4|10.0.0.0|256|", 1, b"S01"),
    (b" #", 1, b"S01"),
    (b"2.|DE|IPV4|x|0||held", 1, b"S02"),
    (b"x|ZZ|ipv4|x|0||Allocated", 1, b"S03"),
    (b"x|ZZ|ipv4|::1|0||allocated", 1, b"S04"),
    (b"x|ZZ|ipv6|10.0.0.0|32||allocated", 1, b"S04"),
    (b"x|ZZ|ipv4|10.0.0.0|0||allocated", 1, b"S07"),
    (b"x|ZZ|ipv6|::1.2.3.0|120||allocated", 1, b"S07"),
    (b"x|DE|ipv6|::|96||allocated", 1, b"S07"),
    (b"x|DE|ipv6|2001:db8::1|32||allocated", 1, b"S07"),
    (b"x|DE|ipv6|2001:db8::|129||allocated", 1, b"S07"),
];

fn rules() -> &'static [RuleRow] {
    &RULES
}

// Whether this is the only note.
fn are_noted(notes: &[LineNote], row: &RuleRow) -> bool {
    match notes {
        [note] => note.line == row.1 && note.rule.code().as_bytes() == row.2,
        _ => false,
    }
}

fn notes_one(alloc: Global, row: &RuleRow) -> Result<bool, Fail> {
    let stats = read_stats(alloc, "x", row.0)?;
    let is_noted = are_noted(stats.notes.as_slice(), row);
    drop(stats);
    Ok(is_noted)
}

#[test]
fn first_rule_of_a_line(rt: HostRuntime) -> Result<(), Fail> {
    for (at, row) in rules().iter().enumerate() {
        assert!(rt; notes_one(rt.alloc(), row)?, "row {at}");
    }
    Ok(())
}

// Whether the delegations decide on this country at an address, or on none where it is empty.
fn decide(stats: &[Stats], address: u128, wanted: &[u8]) -> bool {
    let sources = AllSources {
        dumps: &[],
        feeds: &[],
        stats,
        overrides: None,
    };
    match spoken_at(&sources, Addr(address)) {
        Some(place) => place.country().as_bytes() == wanted,
        None => wanted.is_empty(),
    }
}

static NESTED: &[u8] = b"x|DE|ipv4|10.0.0.0|512||allocated\n\
x|AT|ipv4|10.0.0.0|256||allocated\n\
x|CH|ipv4|10.0.1.0|256||allocated";

fn nested() -> &'static [u8] {
    NESTED
}

fn decide_as_nested(stats: &[Stats]) -> bool {
    decide(stats, 0x0A00_0000, b"AT")
        && decide(stats, 0x0A00_01FF, b"CH")
        && decide(stats, 0x0A00_0200, b"")
}

#[test]
fn a_delegation_decides(rt: HostRuntime) -> Result<(), Fail> {
    let stats = [read_stats(rt.alloc(), "x", nested())?];
    let decide = decide_as_nested(&stats);
    drop(stats);
    assert!(rt; decide);
    Ok(())
}

static TWO_LINES: &[u8] =
    b"x|DE|ipv4|192.0.2.0|256||allocated\nx|DE|none|192.0.2.0|256||allocated\n";

fn two_lines() -> &'static [u8] {
    TWO_LINES
}

// Two lines, so many times.
fn made_lines(alloc: Global, count: u32) -> Result<Vec<u8>, Fail> {
    let mut file = Vec::new(alloc);
    for _ in 0..count {
        file.extend_from_slice(two_lines())?;
    }
    Ok(file)
}

// How many delegations there are, and the line of the last one.
fn count_of_rows(rows: &[Delegation]) -> (usize, u64) {
    match rows.last() {
        Some(row) => (rows.len(), row.line),
        None => (0, 0),
    }
}

fn count_of_notes(notes: &[LineNote]) -> (usize, u64) {
    match notes.last() {
        Some(note) => (notes.len(), note.line),
        None => (0, 0),
    }
}

// Gives a reader a file in two pieces, the first of which ends within a line.
fn feed_both<R: Threads + Sync>(
    forks: &Forks<R, OpenGate>,
    reader: &mut StatsReader,
    file: &[u8],
) -> Result<(), Fail> {
    let (first, rest) = file.split_at(file.len() - file.len() / 17);
    reader.feed(forks, first)?;
    reader.feed(forks, rest)?;
    Ok(())
}

fn read_by_parts<R: Threads + Sync>(rt: &R, alloc: Global, file: &[u8]) -> Result<Stats, Fail> {
    let forks = Forks {
        rt,
        alloc,
        gate: &OpenGate,
        pieces: 4,
    };
    let mut reader = StatsReader::new(alloc, "x")?;
    match feed_both(&forks, &mut reader, file) {
        Ok(()) => Ok(reader.finish(&forks)?),
        Err(why) => {
            drop(reader);
            Err(why)
        }
    }
}

// Of 40,000 times two lines, which are read in rounds, the counts of delegations and of notes.
fn counts_by_parts<R: Threads + Sync>(
    rt: &R,
    alloc: Global,
) -> Result<((usize, u64), (usize, u64)), Fail> {
    let file = made_lines(alloc, 40_000)?;
    let read = read_by_parts(rt, alloc, file.as_slice());
    drop(file);
    let stats = read?;
    let rows = count_of_rows(stats.rows.as_slice());
    let notes = count_of_notes(stats.notes.as_slice());
    drop(stats);
    Ok((rows, notes))
}

#[test]
fn a_file_in_pieces(rt: HostRuntime) -> Result<(), Fail> {
    let (rows, notes) = counts_by_parts(&rt, rt.alloc())?;
    assert_eq!(rt; rows, (40_000, 79_999));
    assert_eq!(rt; notes, (40_000, 80_000));
    Ok(())
}
