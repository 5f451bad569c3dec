//! Trees that are painted: the leaves of addresses, with grafts too, the order of nodes and leaves,
//! and the least lines under a block. What is wanted is reckoned by hand: there is a node for each
//! bit of a prefix, and equal halves share theirs.
ghost use Rattle.std.specs.Prelude.{◌≡◌, ◌<◌, IfOk};
ghost use Rattle.trie_core.specs.Store.{IsRootOf};

use geo_addr::{Addr, Block, Range, parse_block, range_of};
use geo_outside::Steps;
use least_nodes::{Layout, order};
use publish_least::{Line, least_lines};
use std::alloc::{AllocError, Global};
use std::marker::Brand;
use std::process::Abort;
use std::sync::ledger::{Blank, Ledger};
use std::test::Fail;
use trie_core::{Root, Store, StoreFault};

/// A first and a last address, and the leaf that they and those between have.
pub type Painted = (u128, u128, u32);

/// The root of the tree that has leaf 0 wherever nothing is painted.
pub fn painted<L: Ledger>(
    rt: &impl Abort,
    store: &mut Store,
    parts: &[Painted],
    steps: &mut Steps<L>,
) -> Result<Root, StoreFault>
    ensures { IfOk result (IsRootOf store.new) }
{
    let mut root = store.empty();
    for (first, last, leaf) in parts {
        let (first, last) = (*first, *last);
        assert!(rt; first <= last);
        root = store.paint(root, Range { first, last }, *leaf, steps)?;
    }
    Ok(root)
}

// An address and its leaf.
type Found = (u128, u32);

// A block and its leaf.
type Wanted = (&'static [u8], u32);

// What is asked of a tree, with the answer: the leaves of addresses, at once or after the tree of
// IPv4 was grafted at ::ffff:0:0/96 and at 2002::/16; how many nodes it has, and its leaves in
// their order; the block under which the least lines are wanted, how many they are, and the first.
#[derive(Drop)]
enum Asked {
    Leaves(&'static [Found]),
    Grafted(&'static [Found]),
    Order(usize, &'static [u32]),
    Lines(&'static [u8], usize, &'static [Wanted]),
}

fn finds(store: &Store, root: Root, wanted: &[Found]) -> bool
    requires { IsRootOf store.now root }
{
    for (at, leaf) in wanted {
        if store.find(root, Addr(*at)) != *leaf {
            return false;
        }
    }
    true
}

// The root with the tree of IPv4 at ::ffff:0:0/96 and at 2002::/16 too.
fn grafted<L: Ledger>(
    store: &mut Store,
    root: Root,
    steps: &mut Steps<L>,
) -> Result<Root, StoreFault>
    requires { IsRootOf store.old root }
    ensures { IfOk result (IsRootOf store.new) }
{
    let v4 = store.sub(root, Block { first: 0, len: 96 });
    let mapped = Block {
        first: 0xffff << 32,
        len: 96,
    };
    let root = store.graft(root, mapped, v4, steps)?;
    let six_to_four = Block {
        first: 0x2002 << 112,
        len: 16,
    };
    store.graft(root, six_to_four, v4, steps)
}

fn finds_grafted<L: Ledger>(
    store: &mut Store,
    root: Root,
    wanted: &[Found],
    steps: &mut Steps<L>,
) -> bool
    requires { IsRootOf store.old root }
{
    match grafted(store, root, steps) {
        Ok(root) => finds(store, root, wanted),
        Err(_) => false,
    }
}

fn is_layout(layout: &Layout, nodes: usize, leaves: &[u32]) -> bool {
    layout.nodes.as_slice().len() == nodes && layout.leaves.as_slice() == leaves
}

fn has_order(alloc: Global, store: &Store, root: Root, nodes: usize, leaves: &[u32]) -> bool
    requires { IsRootOf store.now root }
{
    match order(alloc, store, root) {
        Ok(layout) => is_layout(&layout, nodes, leaves),
        Err(_) => false,
    }
}

fn lines_under(
    rt: &impl Abort,
    alloc: Global,
    store: &Store,
    root: Root,
    within: &[u8],
) -> Option<Vec<Line>>
    requires { IsRootOf store.now root }
{
    let within = parse_block(within).ok()?;
    let range = range_of(within);
    assert!(rt; range.last < 1 << 32 || range.first >= 1 << 32);
    least_lines(alloc, store, root, within).ok()
}

fn is_line(line: Line, block: &[u8], leaf: u32) -> bool {
    match parse_block(block) {
        Ok(block) => line.block == block && line.leaf == leaf,
        Err(_) => false,
    }
}

fn begin_so(lines: &[Line], wanted: &[Wanted]) -> bool {
    for (at, (block, leaf)) in wanted.iter().enumerate() {
        match lines.get(at) {
            Some(line) if is_line(*line, block, *leaf) => {}
            _ => return false,
        }
    }
    true
}

fn has_lines(
    rt: &impl Abort,
    alloc: Global,
    store: &Store,
    root: Root,
    within: &[u8],
    count: usize,
    first: &[Wanted],
) -> bool
    requires { IsRootOf store.now root }
{
    match lines_under(rt, alloc, store, root, within) {
        Some(lines) => lines.len() == count && begin_so(&lines, first),
        None => false,
    }
}

fn answers<L: Ledger>(
    rt: &impl Abort,
    alloc: Global,
    store: &mut Store,
    root: Root,
    asked: &Asked,
    steps: &mut Steps<L>,
) -> bool
    requires { IsRootOf store.old root }
{
    match asked {
        Asked::Leaves(wanted) => finds(store, root, wanted),
        Asked::Grafted(wanted) => finds_grafted(store, root, wanted, steps),
        Asked::Order(nodes, leaves) => has_order(alloc, store, root, *nodes, leaves),
        Asked::Lines(within, count, first) => {
            has_lines(rt, alloc, store, root, within, *count, first)
        }
    }
}

fn answers_so<L: Ledger>(
    rt: &impl Abort,
    alloc: Global,
    store: &mut Store,
    parts: &[Painted],
    asked: &Asked,
    steps: &mut Steps<L>,
) -> bool {
    match painted(rt, store, parts, steps) {
        Ok(root) => answers(rt, alloc, store, root, asked, steps),
        Err(_) => false,
    }
}

/// Whether the tree that is painted so answers so.
fn holds<L: Ledger>(
    rt: &impl Abort,
    alloc: Global,
    parts: &[Painted],
    asked: &Asked,
    blank: Blank,
) -> bool
    requires name { blank.name ≡ L.name }
    requires parts { blank.parts ≡ L.parts }
    requires some { 0 < blank.parts }
{
    let mut steps: Steps<L> = Steps::new(blank);
    let mut store = Store::new(alloc);
    answers_so(rt, alloc, &mut store, parts, asked, &mut steps)
}

type Row = (&'static [Painted], Asked);

/// The lower half of all addresses ends before this one, and its lower half before the other.
const HALF: u128 = 1 << 127;

const QUARTER: u128 = 1 << 126;

static ROWS: [Row; 18] = [
    (
        &[(0, 3, 1), (2, 9, 2)],
        Asked::Leaves(&[(0, 1), (1, 1), (2, 2), (9, 2), (10, 0), (u128::MAX, 0)]),
    ),
    // 192.0.2.0/24
    (
        &[(0xc000_0200, 0xc000_02ff, 1)],
        Asked::Grafted(&[
            (0xc000_0207, 1),
            (0xffff_c000_0207, 1),
            (0xffff_c000_0307, 0),
            (0x2002_c000_0207 << 80 | 5, 1),
            (0x2002_c000_0307 << 80 | 5, 0),
            (0x2003_c000_0207 << 80, 0),
        ]),
    ),
    (&[], Asked::Order(0, &[])),
    (&[(0, u128::MAX, 1)], Asked::Order(0, &[1])),
    // 128 addresses from 10.0.0.0 and 128 from 10.0.1.0
    (
        &[(0x0a00_0000, 0x0a00_007f, 1), (0x0a00_0100, 0x0a00_017f, 1)],
        Asked::Order(121, &[1]),
    ),
    // 128 addresses from 192.0.2.0 and 128 from 192.0.2.128
    (
        &[(0xc000_0200, 0xc000_027f, 1), (0xc000_0280, 0xc000_02ff, 1)],
        Asked::Order(120, &[1]),
    ),
    // 256 addresses from 192.0.2.0
    (&[(0xc000_0200, 0xc000_02ff, 1)], Asked::Order(120, &[1])),
    (
        &[(0, HALF - 1, 7), (HALF, u128::MAX, 5)],
        Asked::Order(1, &[7, 5]),
    ),
    // two equal halves, each of two leaves
    (
        &[(QUARTER, HALF - 1, 2), (HALF + QUARTER, u128::MAX, 2)],
        Asked::Order(2, &[2]),
    ),
    // the addresses of 10.0.0.0/24 by halves and quarters, and a block of IPv6
    (&[], Asked::Lines(b"10.0.0.0/8", 0, &[])),
    (
        &[(0x0a00_0000, 0x0a00_00ff, 1), (0x0a00_0080, 0x0a00_00bf, 2)],
        Asked::Lines(
            b"10.0.0.0/8",
            2,
            &[(b"10.0.0.0/24", 1), (b"10.0.0.128/26", 2)],
        ),
    ),
    (
        &[(0x0a00_0000, 0x0a00_007f, 1), (0x0a00_0080, 0x0a00_00ff, 2)],
        Asked::Lines(
            b"10.0.0.0/8",
            2,
            &[(b"10.0.0.0/24", 1), (b"10.0.0.128/25", 2)],
        ),
    ),
    (
        &[(0x0a00_0000, 0x0a00_007f, 1), (0x0a00_00c0, 0x0a00_00ff, 1)],
        Asked::Lines(
            b"10.0.0.0/8",
            2,
            &[(b"10.0.0.0/24", 1), (b"10.0.0.128/26", 0)],
        ),
    ),
    (
        &[(0x0a00_0000, 0x0a00_007f, 1)],
        Asked::Lines(b"10.0.0.0/8", 1, &[(b"10.0.0.0/25", 1)]),
    ),
    (
        &[(0x0a00_0000, 0x0a00_00ff, 1)],
        Asked::Lines(b"10.0.0.5", 1, &[(b"10.0.0.5/32", 1)]),
    ),
    (
        &[(0, u128::MAX, 3)],
        Asked::Lines(b"0.0.0.0/0", 1, &[(b"0.0.0.0/0", 3)]),
    ),
    // the leaf that is met first stands where either would do
    (
        &[
            (0x0a00_0000, 0x0a00_00ff, 2),
            (0x0a00_0040, 0x0a00_007f, 1),
            (0x0a00_0080, 0x0a00_00bf, 1),
        ],
        Asked::Lines(
            b"10.0.0.0/24",
            3,
            &[
                (b"10.0.0.0/24", 2),
                (b"10.0.0.64/26", 1),
                (b"10.0.0.128/26", 1),
            ],
        ),
    ),
    (
        &[
            (0x2001_0db8 << 96, (0x2001_0db9 << 96) - 1, 1),
            (
                (0x2001_0db8 << 96) + (1 << 80),
                (0x2001_0db8 << 96) + (2 << 80) - 1,
                2,
            ),
        ],
        Asked::Lines(
            b"2000::/3",
            2,
            &[(b"2001:db8::/32", 1), (b"2001:db8:1::/48", 2)],
        ),
    ),
];

fn rows() -> &'static [Row] {
    &ROWS
}

#[test]
fn trees_and_answers(rt: HostRuntime) {
    for (at, row) in rows().iter().enumerate() {
        let is_so = holds::<Brand>(&rt, rt.alloc(), row.0, &row.1, Blank::new(1));
        assert!(rt; is_so, "row {at}");
    }
}

// Sixty-four addresses with so many leaves in turn.
fn chequered(alloc: Global, different: u32) -> Result<Vec<Painted>, AllocError>
    requires { 0 < different }
{
    let mut parts = Vec::new(alloc);
    for address in 0..64u32 {
        let at = 0xc000_0200 + u128::from(address);
        parts.push((at, at, 1 + address % different))?;
    }
    Ok(parts)
}

// 64 addresses with two leaves in turn need one line for the block and one for every other address;
// with 64 leaves they need a line each.
#[test]
fn chequered_block(rt: HostRuntime) -> Result<(), Fail> {
    let alloc = rt.alloc();
    for (different, count) in [(2u32, 33), (64, 64)] {
        let parts = chequered(alloc, different)?;
        let asked = Asked::Lines(b"192.0.2.0/26", count, &[]);
        let is_so = holds::<Brand>(&rt, alloc, &parts, &asked, Blank::new(1));
        assert!(rt; is_so, "{different} leaves");
    }
    Ok(())
}
