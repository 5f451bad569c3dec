//! The parallel map: its results, and what its gates see.
use crate::Looking;
use fan_work::{Work, map_pieces};
use geo_addr::Memory;
use geo_outside::{Gate, OpenGate};
use std::alloc::Global;
use std::marker::Sync;
use std::mem::drop;
use std::thread::Threads;

/// Work that adds one.
#[derive(Drop)]
struct AddOne;

impl Work<u32, u64> for AddOne {
    ghost use Rattle.std.specs.Prelude.{◌≡◌, ◌+◌};

    ghost related = { λ work x y. y ≡ x + 1 };

    fn done(&self, item: &u32) -> Result<u64, Memory> {
        Ok(u64::from(*item) + 1)
    }
}

/// Work that says whether the gate had been entered by the piece of the item with this number.
#[derive(Drop)]
struct Witness<'a> {
    gate: &'a Looking,
    pieces: [u32; 5],
}

impl Work<usize, bool> for Witness<'_> {
    ghost use Rattle.std.specs.Prelude.{⊤};

    ghost related = { λ work x y. ⊤ };

    fn done(&self, item: &usize) -> Result<bool, Memory> {
        Ok(self.gate.has_come(self.pieces[*item % 5]))
    }
}

// Whether so many pieces add one to each of these numbers.
fn adds<R: Threads + Sync, G: Gate>(
    rt: &R,
    alloc: Global,
    gate: &G,
    pieces: u32,
    items: &[u32],
    wanted: &[u64],
) -> bool {
    if pieces == 0 || pieces > 64 {
        return false;
    }
    match map_pieces(rt, alloc, gate, pieces, items, &AddOne) {
        Ok(results) => {
            let are_these = results.as_slice() == wanted;
            drop(results);
            are_these
        }
        Err(_) => false,
    }
}

static PIECES: [u32; 3] = [1, 3, 64];

#[test]
fn results_stand_in_the_items_order(rt: HostRuntime) {
    for pieces in &PIECES {
        let n = *pieces;
        assert!(rt;
            adds(
                &rt,
                rt.alloc(),
                &OpenGate,
                n,
                &[1, 2, 3, 4, 5],
                &[2, 3, 4, 5, 6]
            ),
            "{n} pieces"
        );
        assert!(rt; adds(&rt, rt.alloc(), &OpenGate, n, &[], &[]), "{n} pieces");
    }
}

// Whether for each of five items its piece had entered before it.
fn are_seen<R: Threads + Sync>(rt: &R, alloc: Global, pieces: u32, work: &Witness<'_>) -> bool {
    if pieces == 0 || pieces > 64 {
        return false;
    }
    match map_pieces(rt, alloc, work.gate, pieces, &[0, 1, 2, 3, 4], work) {
        Ok(seen) => {
            let are_seen = seen.as_slice() == [true; 5].as_slice();
            drop(seen);
            are_seen
        }
        Err(_) => false,
    }
}

// Whether each piece with items enters once, before its first item.
fn enters_once<R: Threads + Sync>(rt: &R, alloc: Global, pieces: u32, of_items: [u32; 5]) -> bool {
    let gate = Looking::new();
    let work = Witness {
        gate: &gate,
        pieces: of_items,
    };
    let are_seen = are_seen(rt, alloc, pieces, &work);
    let wanted = pieces.min(5);
    let each_once = gate.pieces() == wanted && gate.calls() == u64::from(wanted);
    drop(gate);
    are_seen && each_once
}

// The piece of each of 5 items, reckoned by hand: piece j of n begins with the item j * 5 / n.
static OF_ITEMS: [(u32, [u32; 5]); 4] = [
    (1, [0, 0, 0, 0, 0]),
    (3, [0, 1, 1, 2, 2]),
    (7, [1, 2, 4, 5, 6]),
    (64, [12, 25, 38, 51, 63]),
];

#[test]
fn each_piece_with_items_enters_once_before_its_first(rt: HostRuntime) {
    for (pieces, of_items) in &OF_ITEMS {
        let n = *pieces;
        assert!(rt; enters_once(&rt, rt.alloc(), n, *of_items), "{n} pieces");
    }
}

#[test]
fn two_pieces_meet(rt: HostRuntime) {
    let gate = Looking::waiting();
    assert!(rt; adds(&rt, rt.alloc(), &gate, 2, &[1, 2], &[2, 3]));
    assert_eq!(rt; gate.met(), 2);
}
