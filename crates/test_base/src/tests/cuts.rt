//! The least blocks of ranges, and their cut points, both reckoned by hand.
use geo_addr::{Memory, Range};
use split_core::{blocks, cuts, push_edges, put_in_order};
use std::alloc::Global;
use std::mem::drop;

/// The ends of a range, and its blocks: the first address and the length of each.
type BlocksRow = ((u128, u128), &'static [(u128, u8)]);

/// 192.0.2.0 is 0xC000_0200.
static BLOCKS: [BlocksRow; 4] = [
    (
        (0xC000_0200, 0xC000_04FF),
        &[(0xC000_0200, 119), (0xC000_0400, 120)],
    ),
    (
        (0xC000_0100, 0xC000_02FF),
        &[(0xC000_0100, 120), (0xC000_0200, 120)],
    ),
    ((0, u128::MAX), &[(0, 0)]),
    (
        (u128::MAX - 2, u128::MAX),
        &[(u128::MAX - 2, 128), (u128::MAX - 1, 127)],
    ),
];

fn block_rows() -> &'static [BlocksRow] {
    &BLOCKS
}

fn has_blocks(range: Range, wanted: &[(u128, u8)]) -> bool {
    let mut given = 0;
    for block in blocks(range) {
        if given >= wanted.len() || (block.first, block.len) != wanted[given] {
            return false;
        }
        given += 1;
    }
    given == wanted.len()
}

fn is_cut_so(row: &BlocksRow) -> bool {
    let (first, last) = row.0;
    first <= last && has_blocks(Range { first, last }, row.1)
}

#[test]
fn blocks_of_ranges(rt: HostRuntime) {
    for (at, row) in block_rows().iter().enumerate() {
        assert!(rt; is_cut_so(row), "row {at}");
    }
}

// The cut points, without what is promised of them, which would burden each later line.
fn cuts_in(alloc: Global, ranges: &[Range], within: Range) -> Result<Vec<u128>, Memory> {
    cuts(alloc, ranges, within)
}

fn has_cuts(alloc: Global, ranges: &[Range], within: Range, wanted: &[u128]) -> bool {
    match cuts_in(alloc, ranges, within) {
        Ok(points) => {
            let are_these = points.as_slice() == wanted;
            drop(points);
            are_these
        }
        Err(_) => false,
    }
}

fn whole() -> Range {
    Range {
        first: 0,
        last: u128::MAX,
    }
}

fn three_ranges() -> [Range; 3] {
    [
        Range { first: 8, last: 15 },
        Range {
            first: 16,
            last: 19,
        },
        whole(),
    ]
}

/// The ground of an IPv6 range begins at 2^32 at the earliest, and 2^128 is no cut point.
#[test]
fn cut_points_within_a_range(rt: HostRuntime) {
    let ranges = three_ranges();
    assert!(rt; has_cuts(rt.alloc(), &ranges, whole(), &[8, 16, 20, 1 << 32]));
    let inner = Range { first: 9, last: 20 };
    assert!(rt; has_cuts(rt.alloc(), &ranges, inner, &[16, 20]));
}

// Pushes the edges of ranges within another, one range after the other.
fn push_all(points: &mut Vec<u128>, ranges: &[Range], within: Range) -> bool {
    for range in ranges {
        if push_edges(points, *range, within).is_err() {
            return false;
        }
    }
    true
}

fn sort(points: &mut Vec<u128>) {
    put_in_order(points)
}

fn near_ranges() -> [Range; 3] {
    [
        Range { first: 8, last: 15 },
        Range {
            first: 16,
            last: 30,
        },
        Range { first: 4, last: 15 },
    ]
}

// Whether edges are pushed range by range, and sorted then.
fn has_edges(points: &mut Vec<u128>) -> bool {
    let within = Range { first: 0, last: 30 };
    if !push_all(points, &near_ranges(), within) || points.as_slice() != [8, 16, 4, 16].as_slice() {
        return false;
    }
    sort(points);
    points.as_slice() == [4, 8, 16].as_slice()
}

/// A point that two neighbours share is appended once.
#[test]
fn edges_range_by_range(rt: HostRuntime) {
    let mut points = Vec::new(rt.alloc());
    let has_edges = has_edges(&mut points);
    drop(points);
    assert!(rt; has_edges);
}
