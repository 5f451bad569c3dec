//! Reads that are short.
use super::commands::{BOTH, TWICE, stand};
use super::{Faults, Left, NONE, bytes_in, if_done, is_so, left_by, speak, stands, start};
use geofeed_cmd::Status;
use std::alloc::Global;
use std::marker::Sync;
use std::mem::drop;
use std::thread::Threads;

/// Reads give a byte at a time.
fn give_bytes(left: &mut Left) {
    left.folder.short_reads(1);
}

/// The job with reads that give a byte at a time, of which this one fails.
fn by_bytes<R: Threads + Sync>(rt: &R, alloc: Global, read: u64) -> Option<Left> {
    let faults = Faults { read, ..NONE };
    let mut left = start(alloc, TWICE, faults)?;
    give_bytes(&mut left);
    let spoken = speak(rt, alloc, "build j", &mut left);
    if_done(left, spoken)
}

/// What is printed where this read fails: a file is read once for each byte and once for its end,
/// and the job has 36 bytes.
fn stop_at(read: u64) -> &'static str {
    if read <= 37 {
        "stop read j\n"
    } else {
        "stop read s.txt\n"
    }
}

fn stops_at<R: Threads + Sync>(rt: &R, alloc: Global, read: u64) -> Option<bool> {
    let left = by_bytes(rt, alloc, read)?;
    let stops = is_so(&left, Status::ReadFault, stop_at(read)) && stand(&left, false, false);
    drop(left);
    Some(stops)
}

#[test]
fn short_reads_that_fail(rt: HostRuntime) {
    for read in 1..81u64 {
        assert!(rt;
            stops_at(&rt, rt.alloc(), read) == Some(true),
            "read {read}"
        );
    }
}

/// Whether two folders have one file of this name.
fn have_one(one: &Left, other: &Left, name: &str) -> bool {
    stands(one, name) && stands(other, name) && bytes_in(one, name) == bytes_in(other, name)
}

/// Whether short reads end with the whole text and with the files of whole reads.
fn gives_the_same<R: Threads + Sync>(rt: &R, alloc: Global, whole: &Left) -> Option<bool> {
    let left = by_bytes(rt, alloc, 81)?;
    let is_done = is_so(&left, Status::Done, BOTH);
    let have_both = have_one(&left, whole, "a") && have_one(&left, whole, "b");
    drop(left);
    Some(is_done && have_both)
}

fn give_the_same<R: Threads + Sync>(rt: &R, alloc: Global) -> Option<bool> {
    let whole = left_by(rt, alloc, TWICE, "build j", NONE)?;
    let same = gives_the_same(rt, alloc, &whole);
    drop(whole);
    same
}

/// The same files and text come of short reads.
#[test]
fn short_reads(rt: HostRuntime) {
    assert!(rt; give_the_same(&rt, rt.alloc()) == Some(true));
}
