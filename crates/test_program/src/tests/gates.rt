//! The parallel map is used for what a job asks: two pieces are in it at once.
use super::{Files, Left, NONE, speak_at, start};
use geofeed_cmd::Status;
use std::alloc::Global;
use std::marker::Sync;
use std::mem::drop;
use std::thread::Threads;
use test_base::Looking;

/// Two feeds to be parsed, and two segments to be looked up, in two pieces each.
const JOBS: Files = &[
    (
        "f",
        b"epoch 1\npieces 2\nfeed https://a.example/ a\nfeed https://b.example/ b\n",
    ),
    ("o", b"epoch 1\npieces 2\noverrides p\nemit e\n"),
    ("a", b"10.0.0.0/8,FR,,,\n"),
    ("b", b"11.0.0.0/8,DE,,,\n"),
    ("p", b"10.0.0.0/8,set,FR\n12.0.0.0/8,set,DE\n"),
];

/// How many pieces met while the command was done.
fn meetings<R: Threads + Sync>(
    rt: &R,
    alloc: Global,
    command: &str,
    left: &mut Left,
) -> Option<u64> {
    let gate = Looking::waiting();
    let spoken = speak_at(rt, alloc, command, left, &gate);
    let met = gate.met();
    drop(gate);
    if spoken { Some(met) } else { None }
}

/// Whether two pieces met twice.
fn meet<R: Threads + Sync>(rt: &R, alloc: Global, command: &str) -> Option<bool> {
    let mut left = start(alloc, JOBS, NONE)?;
    let met = meetings(rt, alloc, command, &mut left);
    let is_done = left.status == Status::Done;
    drop(left);
    Some(is_done && met == Some(2))
}

#[test]
fn two_pieces_meet(rt: HostRuntime) {
    assert!(rt; meet(&rt, rt.alloc(), "build f") == Some(true));
    assert!(rt; meet(&rt, rt.alloc(), "build o") == Some(true));
}
