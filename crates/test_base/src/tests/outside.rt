//! The folder and the sink in memory, and whole files that are read from a folder.
use geo_outside::{Folder, FolderErr, MemFolder, MemSink, OutErr, Sink, WholeErr, read_whole};
use std::alloc::Global;
use std::mem::drop;

// Each rich call stands in a function of its own that promises nothing: its facts then burden no
// other proof. A `vec!` costs the proof of its function seconds, so one function has it.

// A list of one number.
fn listing(alloc: Global, number: u64) -> Option<Vec<u64>> {
    match vec![in alloc; number] {
        Ok(list) => Some(list),
        Err(_) => None,
    }
}

// An empty folder, whose reads and puts with these numbers fail.
fn folder_of(alloc: Global, reads: Vec<u64>, puts: Vec<u64>) -> MemFolder {
    MemFolder::new(alloc, reads, puts)
}

// A folder whose read with this number fails.
fn failing_read(alloc: Global, listed: u64) -> Option<MemFolder> {
    Some(folder_of(alloc, listing(alloc, listed)?, Vec::new(alloc)))
}

// A folder whose put with this number fails.
fn failing_put(alloc: Global, listed: u64) -> Option<MemFolder> {
    Some(folder_of(alloc, Vec::new(alloc), listing(alloc, listed)?))
}

// Sets the file `f`.
fn hold(folder: &mut MemFolder, bytes: &[u8]) -> bool {
    folder.hold("f", bytes).is_ok()
}

// What a read into two bytes answers.
fn read_two(folder: &mut MemFolder, name: &str, from: u64) -> Result<usize, FolderErr> {
    folder.read_at(name, from, &mut [0u8; 2])
}

fn read_four(folder: &mut MemFolder, name: &str, from: u64) -> Result<usize, FolderErr> {
    folder.read_at(name, from, &mut [0u8; 4])
}

fn put(folder: &mut MemFolder, name: &str) -> Result<(), OutErr> {
    folder.put(name, b"xy".as_slice())
}

fn is_missing(folder: &MemFolder, name: &str) -> bool {
    folder.bytes_of(name).is_none()
}

// Whether a read fails or gives two bytes, as it has to.
fn reads_as(folder: &mut MemFolder, fails: bool) -> bool {
    let wanted = if fails { Err(FolderErr::Failed) } else { Ok(2) };
    read_two(folder, "f", 0) == wanted
}

fn three_reads(alloc: Global, listed: u64) -> Option<bool> {
    let mut folder = failing_read(alloc, listed)?;
    let is_held = hold(&mut folder, b"abc");
    let first = reads_as(&mut folder, listed == 1);
    let second = reads_as(&mut folder, listed == 2);
    let third = reads_as(&mut folder, listed == 3);
    drop(folder);
    Some(is_held && first && second && third)
}

#[test]
fn a_listed_read_fails_and_no_other(rt: HostRuntime) {
    for listed in 1..4u64 {
        assert!(rt;
            three_reads(rt.alloc(), listed) == Some(true),
            "listed {listed}"
        );
    }
}

// Whether a put fails or is done, as it has to, and leaves no file where it fails.
fn puts_as(folder: &mut MemFolder, name: &str, fails: bool) -> bool {
    let wanted = if fails { Err(OutErr::Failed) } else { Ok(()) };
    put(folder, name) == wanted && is_missing(folder, name) == fails
}

fn three_puts(alloc: Global, listed: u64) -> Option<bool> {
    let mut folder = failing_put(alloc, listed)?;
    let first = puts_as(&mut folder, "a", listed == 1);
    let second = puts_as(&mut folder, "b", listed == 2);
    let third = puts_as(&mut folder, "c", listed == 3);
    let are_two = folder.puts().len() == 2;
    drop(folder);
    Some(first && second && third && are_two)
}

#[test]
fn a_listed_put_fails_and_changes_no_file(rt: HostRuntime) {
    for listed in 1..4u64 {
        assert!(rt;
            three_puts(rt.alloc(), listed) == Some(true),
            "listed {listed}"
        );
    }
}

fn failing_write(alloc: Global, listed: u64) -> Option<MemSink> {
    Some(MemSink::new(alloc, listing(alloc, listed)?))
}

// Whether a write fails or is done, as it has to.
fn writes_as(sink: &mut MemSink, piece: &str, fails: bool) -> bool {
    let wanted = if fails { Err(OutErr::Failed) } else { Ok(()) };
    sink.write_all(piece.as_bytes()) == wanted
}

fn three_writes(alloc: Global, listed: u64, text: &str) -> Option<bool> {
    let mut sink = failing_write(alloc, listed)?;
    let first = writes_as(&mut sink, "a", listed == 1);
    let second = writes_as(&mut sink, "b", listed == 2);
    let third = writes_as(&mut sink, "c", listed == 3);
    let is_written = sink.written() == text.as_bytes();
    drop(sink);
    Some(first && second && third && is_written)
}

// The write that fails, and what is written by the others.
static WRITTEN: [(u64, &str); 4] = [(1, "bc"), (2, "ac"), (3, "ab"), (4, "abc")];

#[test]
fn a_listed_write_fails_and_writes_nothing(rt: HostRuntime) {
    for (listed, text) in &WRITTEN {
        assert!(rt;
            three_writes(rt.alloc(), *listed, text) == Some(true),
            "listed {listed}"
        );
    }
}

fn holds_abc(folder: &MemFolder) -> bool {
    folder.bytes_of("f") == Some(b"abc".as_slice())
}

// Where a read of `abc` begins, and how many bytes it gives.
static READS: [(u64, usize); 5] = [(0, 3), (2, 1), (3, 0), (4, 0), (u64::MAX, 0)];

#[test]
fn reads_end_at_the_end_and_a_name_may_be_missing(rt: HostRuntime) {
    let mut folder = folder_of(rt.alloc(), Vec::new(rt.alloc()), Vec::new(rt.alloc()));
    // It is held twice.
    assert!(rt; hold(&mut folder, b"old") && hold(&mut folder, b"abc"));
    for (from, wanted) in &READS {
        assert!(rt;
            read_four(&mut folder, "f", *from) == Ok(*wanted),
            "from {from}"
        );
    }
    assert!(rt; read_four(&mut folder, "g", 0) == Err(FolderErr::Missing));
    assert!(rt; holds_abc(&folder));
    drop(folder);
}

// The length of a whole file that is read a byte at a time.
fn length_of(
    alloc: Global,
    folder: &mut MemFolder,
    name: &str,
    limit: u64,
) -> Result<usize, WholeErr> {
    folder.short_reads(1);
    match read_whole(alloc, folder, name, limit) {
        Ok(bytes) => {
            let length = bytes.len();
            drop(bytes);
            Ok(length)
        }
        Err(fault) => Err(fault),
    }
}

// The read that fails, the file, the most bytes that it may have, and its length or why it is not
// read.
struct WholeRow {
    failing: u64,
    name: &'static str,
    limit: u64,
    wanted: Result<usize, WholeErr>,
}

// Three bytes take three reads, and a fourth one finds the end.
static WHOLE: [WholeRow; 4] = [
    WholeRow {
        failing: 4,
        name: "f",
        limit: 3,
        wanted: Err(WholeErr::Failed),
    },
    WholeRow {
        failing: 5,
        name: "f",
        limit: 3,
        wanted: Ok(3),
    },
    WholeRow {
        failing: 4,
        name: "f",
        limit: 2,
        wanted: Err(WholeErr::TooLong),
    },
    WholeRow {
        failing: 2,
        name: "g",
        limit: 3,
        wanted: Err(WholeErr::Missing),
    },
];

fn whole_rows() -> &'static [WholeRow] {
    &WHOLE
}

fn is_read(alloc: Global, row: &WholeRow) -> Option<bool> {
    let mut folder = failing_read(alloc, row.failing)?;
    let is_held = hold(&mut folder, b"abc");
    let found = length_of(alloc, &mut folder, row.name, row.limit);
    drop(folder);
    Some(is_held && found == row.wanted)
}

#[test]
fn a_whole_file_is_read_by_short_reads_too(rt: HostRuntime) {
    for (at, row) in whole_rows().iter().enumerate() {
        assert!(rt; is_read(rt.alloc(), row) == Some(true), "row {at}");
    }
}
