//! Which pieces enter while a session emits, and that their number changes no byte.
use crate::tests::emits::{Seen, begun, emit_by};
use crate::tests::given::{Kind, set};
use crate::tests::lines::{Shape, set_lines};
use geo_outside::{Gate, OpenGate};
use std::alloc::Global;
use std::marker::Sync;
use std::mem::drop;
use std::thread::Threads;
use test_base::Looking;
use update_session::Session;

// How many of 64 pieces enter an emit, after the overrides of 64 networks were set, the first of
// which has this country.
fn entered<R: Threads + Sync>(
    rt: &R,
    alloc: Global,
    session: &mut Session,
    first: &str,
) -> Option<u32> {
    set_lines(alloc, session, Shape::Networks, first, 0)?;
    let gate = Looking::new();
    let file = emit_by(rt, alloc, &gate, session, 64);
    let pieces = gate.pieces();
    drop(gate);
    file.and(Some(pieces))
}

// The same of an emit, and of one after which a single network has changed.
fn entered_both<R: Threads + Sync>(
    rt: &R,
    alloc: Global,
    session: &mut Session,
) -> Option<(u32, u32)> {
    let first = entered(rt, alloc, session, "FR")?;
    let second = entered(rt, alloc, session, "DE")?;
    Some((first, second))
}

// The same on a session that has begun. It is let go by name here and below: one that goes at the
// end of each way out costs its function's proof half a minute.
fn entered_two<R: Threads + Sync>(rt: &R, alloc: Global) -> Option<(u32, u32)> {
    let mut session = begun(alloc)?;
    let entered = entered_both(rt, alloc, &mut session);
    drop(session);
    entered
}

#[test]
fn each_piece_with_segments_enters(rt: HostRuntime) {
    let entered = entered_two(&rt, rt.alloc());
    assert!(rt; matches!(entered, Some((64, 1..=3))));
}

static TWO_ROWS: &[u8] = b"10.0.0.0/8,set,FR\n12.0.0.0/8,set,DE\n";

// The text, by a function of its own, so that its letters stand in no other proof.
fn two_rows() -> &'static [u8] {
    TWO_ROWS
}

// The file of a session's overrides of two networks by so many pieces.
fn file_of<R: Threads + Sync, G: Gate>(
    rt: &R,
    alloc: Global,
    gate: &G,
    session: &mut Session,
    pieces: u32,
) -> Option<Seen> {
    set(alloc, session, (Kind::Overrides, "", two_rows()))?;
    emit_by(rt, alloc, gate, session, pieces)
}

// The same of a session that has begun.
fn file_by<R: Threads + Sync, G: Gate>(
    rt: &R,
    alloc: Global,
    gate: &G,
    pieces: u32,
) -> Option<Seen> {
    let mut session = begun(alloc)?;
    let file = file_of(rt, alloc, gate, &mut session, pieces);
    drop(session);
    file
}

// How many pieces met while that file was written by two.
fn meetings<R: Threads + Sync>(rt: &R, alloc: Global) -> Option<u64> {
    let gate = Looking::waiting();
    let file = file_by(rt, alloc, &gate, 2);
    let met = gate.met();
    drop(gate);
    file.and(Some(met))
}

#[test]
fn two_pieces_meet(rt: HostRuntime) {
    assert!(rt; meetings(&rt, rt.alloc()) == Some(2));
}

#[test]
fn pieces_change_no_byte(rt: HostRuntime) {
    let one = file_by(&rt, rt.alloc(), &OpenGate, 1);
    assert!(rt; one.is_some());
    assert!(rt; file_by(&rt, rt.alloc(), &OpenGate, 3) == one);
    assert!(rt; file_by(&rt, rt.alloc(), &OpenGate, 64) == one);
}
