//! The grounds that an old and a new source of each kind differ on, told from the lines by hand.
use crate::tests::{feeds, overrides};
use geo_addr::{Range, Text};
use geo_terms::{Delegation, Reference, Stats};
use nro_stats::read_stats;
use source_changes::{Compared, GroundList, changed_grounds, keep_all};
use std::alloc::Global;
use std::test::Fail;

// A reference of the addresses from the first to the last one.
#[derive(Clone, Copy)]
struct Row {
    line: u64,
    first: u128,
    last: u128,
    modified: u64,
    url: &'static str,
}

const A: Row = Row {
    line: 1,
    first: 10,
    last: 19,
    modified: 7,
    url: "a",
};

const A_ON_LINE_9: Row = Row { line: 9, ..A };

const A_LATER: Row = Row { modified: 8, ..A };

const A_ELSEWHERE: Row = Row { url: "b", ..A };

const B: Row = Row {
    line: 2,
    first: 20,
    last: 29,
    ..A
};

const B_ON_LINE_1: Row = Row { line: 1, ..B };

const C: Row = Row {
    line: 3,
    first: 15,
    last: 24,
    ..A
};

const BOTH_FAMILIES: Row = Row {
    line: 4,
    first: 5,
    last: 1 << 33,
    ..A
};

fn reference(alloc: Global, row: &Row) -> Result<Reference, Fail> {
    let (first, last) = (row.first, row.last);
    if first > last {
        return Err(Fail::from("no range"));
    }
    Ok(Reference {
        slot: Text::of(alloc, "ripe")?,
        line: row.line,
        range: Range { first, last },
        modified: row.modified,
        url: Text::of(alloc, row.url)?,
    })
}

fn references(alloc: Global, rows: &[Row]) -> Result<Vec<Reference>, Fail> {
    let mut references = Vec::new(alloc);
    for row in rows {
        references.push(reference(alloc, row)?)?;
    }
    Ok(references)
}

// The first and the last address of grounds, and how many there are of these.
type Grounds = (u128, u128, usize);

fn count_of(grounds: &GroundList, wanted: &Grounds) -> usize {
    let mut count = 0usize;
    let mut left = grounds.all();
    for _ in 0..grounds.len() {
        let Some(ground) = left.take() else {
            return count;
        };
        if ground.first == wanted.0 && ground.last == wanted.1 {
            count = count.wrapping_add(1);
        }
    }
    count
}

// Whether these are the grounds, and no others.
fn are_those(grounds: &GroundList, wanted: &[Grounds]) -> bool {
    let mut left = grounds.len();
    for row in wanted {
        if count_of(grounds, row) != row.2 {
            return false;
        }
        left = left.wrapping_sub(row.2);
    }
    left == 0
}

// Whether these grounds changed.
fn differ<S: Compared>(
    alloc: Global,
    old: &[S],
    new: &[S],
    wanted: &[Grounds],
) -> Result<bool, Fail> {
    let grounds = changed_grounds(alloc, old, new)?;
    Ok(are_those(&grounds, wanted))
}

type PartnerRow = (&'static [Row], &'static [Row], &'static [Grounds]);

static PARTNERS: [PartnerRow; 12] = [
    (&[], &[], &[]),
    (&[A, B], &[A, B], &[]),
    (&[A, B], &[B_ON_LINE_1, A_ON_LINE_9], &[]),
    (&[A, C, B], &[A_ON_LINE_9, B], &[(15, 24, 1)]),
    (&[A, B], &[A, A_LATER, B], &[(10, 19, 1)]),
    (&[A, A, B], &[B, A], &[(10, 19, 1)]),
    (&[A, A_LATER], &[A_LATER, A_LATER, A_LATER], &[(10, 19, 3)]),
    (&[A, C], &[A_ELSEWHERE, C], &[(10, 19, 2)]),
    (&[], &[B, A], &[(10, 19, 1), (20, 29, 1)]),
    (&[C, A], &[], &[(10, 19, 1), (15, 24, 1)]),
    (&[A, C, B], &[A_LATER, C, B, B], &[(10, 19, 2), (20, 29, 1)]),
    (&[A, BOTH_FAMILIES], &[A], &[(1 << 32, 1 << 33, 1)]),
];

fn partners() -> &'static [PartnerRow] {
    &PARTNERS
}

fn references_differ(alloc: Global, row: &PartnerRow) -> Result<bool, Fail> {
    let old = references(alloc, row.0)?;
    let new = references(alloc, row.1)?;
    differ(alloc, old.as_slice(), new.as_slice(), row.2)
}

#[test]
fn references_without_a_partner(rt: HostRuntime) -> Result<(), Fail> {
    for (at, row) in partners().iter().enumerate() {
        assert!(rt; references_differ(rt.alloc(), row)?, "row {at}");
    }
    Ok(())
}

enum Kind {
    Overrides,
    Feed,
    Stats,
}

// A kind, an old and a new source of it, and the grounds on which they differ. The slot is that of
// new statistics; the old ones have `ripe`.
struct SourceRow {
    kind: Kind,
    slot: &'static str,
    old: &'static [u8],
    new: &'static [u8],
    grounds: &'static [Grounds],
}

const DELEGATION: &[u8] = b"x|DE|ipv4|0.0.0.1|2||allocated";

static SOURCES: [SourceRow; 9] = [
    SourceRow {
        kind: Kind::Overrides,
        slot: "",
        old: b"0.0.0.1-0.0.0.2,void",
        new: b"\n0.0.0.1-0.0.0.2,void",
        grounds: &[],
    },
    SourceRow {
        kind: Kind::Overrides,
        slot: "",
        old: b"0.0.0.1-0.0.0.2,set,,,Ulm",
        new: b"\n0.0.0.1-0.0.0.2,set,,,Ulm",
        grounds: &[],
    },
    SourceRow {
        kind: Kind::Overrides,
        slot: "",
        old: b"0.0.0.1-0.0.0.2,set,,,Ulm",
        new: b"\n0.0.0.1-0.0.0.2,set,,,Bonn",
        grounds: &[(1, 2, 2)],
    },
    SourceRow {
        kind: Kind::Overrides,
        slot: "",
        old: b"0.0.0.1-0.0.0.2,void",
        new: b"\n0.0.0.1-0.0.0.2,set,,,Ulm",
        grounds: &[(1, 2, 2)],
    },
    SourceRow {
        kind: Kind::Overrides,
        slot: "",
        old: b"0.0.0.1-0.0.0.2,set,,,Ulm",
        new: b"\n0.0.0.1-0.0.0.2,void",
        grounds: &[(1, 2, 2)],
    },
    SourceRow {
        kind: Kind::Feed,
        slot: "",
        old: b"10.0.0.0/8,DE\n10.0.0.0/24,DE\n10.0.1.0/24,FR",
        new: b"10.0.1.0/24,FR\n10.0.0.0/25,DE\n10.0.0.0/8,DE",
        grounds: &[(0x0A00_0000, 0x0A00_007F, 1), (0x0A00_0000, 0x0A00_00FF, 1)],
    },
    SourceRow {
        kind: Kind::Stats,
        slot: "ripe",
        old: DELEGATION,
        new: b"\nx|DE|ipv4|0.0.0.1|2||allocated",
        grounds: &[],
    },
    SourceRow {
        kind: Kind::Stats,
        slot: "ripe",
        old: DELEGATION,
        new: b"\nx|FR|ipv4|0.0.0.1|2||allocated",
        grounds: &[(1, 2, 2)],
    },
    SourceRow {
        kind: Kind::Stats,
        slot: "arin",
        old: DELEGATION,
        new: b"\nx|DE|ipv4|0.0.0.1|2||allocated",
        grounds: &[(1, 2, 2)],
    },
];

fn sources() -> &'static [SourceRow] {
    &SOURCES
}

fn overrides_differ(alloc: Global, row: &SourceRow) -> Result<bool, Fail> {
    let old = overrides::read(alloc, row.old)?;
    let new = overrides::read(alloc, row.new)?;
    differ(alloc, old.rows.as_slice(), new.rows.as_slice(), row.grounds)
}

fn feeds_differ(alloc: Global, row: &SourceRow) -> Result<bool, Fail> {
    let old = feeds::read(alloc, row.old)?;
    let new = feeds::read(alloc, row.new)?;
    differ(
        alloc,
        old.entries.as_slice(),
        new.entries.as_slice(),
        row.grounds,
    )
}

fn delegations(alloc: Global, slot: &str, file: &[u8]) -> Result<Stats, Fail> {
    Ok(read_stats(alloc, slot, file)?)
}

fn keep(rows: &[Delegation]) {
    keep_all(rows);
}

fn stats_differ(alloc: Global, row: &SourceRow) -> Result<bool, Fail> {
    let old = delegations(alloc, "ripe", row.old)?;
    let new = delegations(alloc, row.slot, row.new)?;
    keep(new.rows.as_slice());
    differ(alloc, old.rows.as_slice(), new.rows.as_slice(), row.grounds)
}

fn sources_differ(alloc: Global, row: &SourceRow) -> Result<bool, Fail> {
    match row.kind {
        Kind::Overrides => overrides_differ(alloc, row),
        Kind::Feed => feeds_differ(alloc, row),
        Kind::Stats => stats_differ(alloc, row),
    }
}

#[test]
fn sources_by_what_they_say(rt: HostRuntime) -> Result<(), Fail> {
    for (at, row) in sources().iter().enumerate() {
        assert!(rt; sources_differ(rt.alloc(), row)?, "row {at}");
    }
    Ok(())
}
