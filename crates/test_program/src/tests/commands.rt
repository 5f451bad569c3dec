//! Each command once; and those whose read, put or print fails. What is wanted was told from the
//! files and reckoned by hand: a file has 6 bytes for each of its nodes, 16 zero bytes, its data
//! section, and 203 bytes from the marker on, three less where the epoch has one byte.
use super::{Faults, Files, Left, NONE, is_so, left_by, stands};
use geofeed_cmd::Status;
use std::alloc::Global;
use std::marker::Sync;
use std::mem::drop;
use std::thread::Threads;

/// One object with a feed, and the job that sets both.
const FED: Files = &[
    (
        "j",
        b"epoch 1700000000\nrpsl r d\nfeed https://e.example/f f\n",
    ),
    (
        "d",
        b"inetnum: 192.0.2.0 - 192.0.2.255\ngeofeed: https://e.example/f\n",
    ),
    ("f", b"192.0.2.0/24,DE,,,\n"),
];

/// One node of 24 bits: the lower half of all addresses has the number 7, the upper half none.
const FILE: Files = &[(
    "f",
    b"\0\0\x11\0\0\x01\0\0\0\0\0\0\0\0\0\0\0\0\0\0\0\0\xA1\x07\xAB\xCD\xEFMaxMind.com\xE4\x5B\
binary_format_major_version\xA1\x02\x4Aip_version\xA1\x06\x4Anode_count\xC1\x01\x4B\
record_size\xA1\x18",
)];

/// A job of the epoch 1 that emits twice.
pub(super) const TWICE: Files = &[
    ("j", b"epoch 1\nstats x s.txt\nemit a\nemit b\n"),
    ("s.txt", b"x|DE|ipv4|128.0.0.0|2147483648||allocated\n"),
];

const ONE_LINE: &str = "emit a nodes 124 data 22 bits 24 bytes 982\n";

/// What is printed of both.
pub(super) const BOTH: &str =
    "emit a nodes 124 data 22 bits 24 bytes 982\nemit b nodes 124 data 22 bits 24 bytes 982\n";

/// Files, a command, the calls that fail, how it ends, what is printed, and whether the files `a`
/// and `b` stand then.
struct Row {
    files: Files,
    command: &'static str,
    faults: Faults,
    status: Status,
    printed: &'static str,
    a: bool,
    b: bool,
}

static ROWS: [Row; 28] = [
    Row {
        files: &[("j", b"epoch 1700000000\nemit o\n")],
        command: "build j",
        faults: NONE,
        status: Status::Done,
        printed: "emit o nodes 1 data 0 bits 24 bytes 225\n",
        a: false,
        b: false,
    },
    Row {
        files: FED,
        command: "explain j 192.0.2.1",
        faults: NONE,
        status: Status::Done,
        printed: "address 192.0.2.1\noverride none\n\
speaker r 2 192.0.2.0-192.0.2.255 https://e.example/f\n\
entry 1 192.0.2.0/24 at\ndelegation none\nprefixes none\n\
record {\"country\":{\"iso_code\":\"DE\"}}\n",
        a: false,
        b: false,
    },
    Row {
        files: FED,
        command: "publish j 192.0.2.0/24 o",
        faults: NONE,
        status: Status::Done,
        printed: "publish o lines 1\n",
        a: false,
        b: false,
    },
    Row {
        files: FED,
        command: "check j https://e.example/f",
        faults: NONE,
        status: Status::Done,
        printed: "1 speaks r 2\nlines 1\n",
        a: false,
        b: false,
    },
    Row {
        files: FED,
        command: "census j",
        faults: NONE,
        status: Status::Done,
        printed: "DE 256 309485009821345068724781312\ncountries 1\n",
        a: false,
        b: false,
    },
    Row {
        files: &[],
        command: "gen 1 o",
        faults: NONE,
        status: Status::Done,
        printed: "emit o nodes 151 data 54 bits 24 bytes 1179\n\
emit o nodes 151 data 54 bits 24 bytes 1179\n",
        a: false,
        b: false,
    },
    Row {
        files: &[("j", b"epoch 1\nemit a\n")],
        command: "explain j ::",
        faults: Faults { print: 1, ..NONE },
        status: Status::WriteFault,
        printed: "",
        a: false,
        b: false,
    },
    Row {
        files: &[],
        command: "gen 1 o",
        faults: Faults { put: 2, ..NONE },
        status: Status::WriteFault,
        printed: "emit o nodes 151 data 54 bits 24 bytes 1179\nstop write o\n",
        a: false,
        b: false,
    },
    Row {
        files: &[("j", b"epoch 1\n")],
        command: "publish j 10.0.0.0/24 f",
        faults: Faults { put: 1, ..NONE },
        status: Status::WriteFault,
        printed: "stop write f\n",
        a: false,
        b: false,
    },
    Row {
        files: &[("j", b"epoch 1\n")],
        command: "publish j 10.0.0.0/24 f",
        faults: Faults { print: 1, ..NONE },
        status: Status::WriteFault,
        printed: "",
        a: false,
        b: false,
    },
    Row {
        files: FED,
        command: "check j https://e.example/f",
        faults: Faults { print: 1, ..NONE },
        status: Status::WriteFault,
        printed: "",
        a: false,
        b: false,
    },
    Row {
        files: FED,
        command: "census j",
        faults: Faults { print: 1, ..NONE },
        status: Status::WriteFault,
        printed: "",
        a: false,
        b: false,
    },
    Row {
        files: &[("j", b"epoch 1\nreport\n")],
        command: "build j",
        faults: Faults { print: 1, ..NONE },
        status: Status::WriteFault,
        printed: "",
        a: false,
        b: false,
    },
    Row {
        files: FILE,
        command: "lookup f ::",
        faults: NONE,
        status: Status::Done,
        printed: "7\n",
        a: false,
        b: false,
    },
    Row {
        files: FILE,
        command: "lookup f ::",
        faults: Faults { read: 1, ..NONE },
        status: Status::ReadFault,
        printed: "stop read f\n",
        a: false,
        b: false,
    },
    Row {
        files: FILE,
        command: "lookup f ::",
        faults: Faults { read: 2, ..NONE },
        status: Status::ReadFault,
        printed: "stop read f\n",
        a: false,
        b: false,
    },
    Row {
        files: FILE,
        command: "lookup f ::",
        faults: Faults { print: 1, ..NONE },
        status: Status::WriteFault,
        printed: "",
        a: false,
        b: false,
    },
    // The stop line does not go out, and the status stays.
    Row {
        files: FILE,
        command: "lookup g ::",
        faults: Faults { print: 1, ..NONE },
        status: Status::Missing,
        printed: "",
        a: false,
        b: false,
    },
    Row {
        files: TWICE,
        command: "build j",
        faults: Faults { read: 1, ..NONE },
        status: Status::ReadFault,
        printed: "stop read j\n",
        a: false,
        b: false,
    },
    Row {
        files: TWICE,
        command: "build j",
        faults: Faults { read: 2, ..NONE },
        status: Status::ReadFault,
        printed: "stop read j\n",
        a: false,
        b: false,
    },
    Row {
        files: TWICE,
        command: "build j",
        faults: Faults { read: 3, ..NONE },
        status: Status::ReadFault,
        printed: "stop read s.txt\n",
        a: false,
        b: false,
    },
    Row {
        files: TWICE,
        command: "build j",
        faults: Faults { read: 4, ..NONE },
        status: Status::ReadFault,
        printed: "stop read s.txt\n",
        a: false,
        b: false,
    },
    Row {
        files: TWICE,
        command: "build j",
        faults: Faults { read: 5, ..NONE },
        status: Status::Done,
        printed: BOTH,
        a: true,
        b: true,
    },
    Row {
        files: TWICE,
        command: "build j",
        faults: Faults { put: 1, ..NONE },
        status: Status::WriteFault,
        printed: "stop write a\n",
        a: false,
        b: false,
    },
    Row {
        files: TWICE,
        command: "build j",
        faults: Faults { put: 2, ..NONE },
        status: Status::WriteFault,
        printed: "emit a nodes 124 data 22 bits 24 bytes 982\nstop write b\n",
        a: true,
        b: false,
    },
    Row {
        files: TWICE,
        command: "build j",
        faults: Faults { print: 1, ..NONE },
        status: Status::WriteFault,
        printed: "",
        a: true,
        b: false,
    },
    Row {
        files: TWICE,
        command: "build j",
        faults: Faults { print: 2, ..NONE },
        status: Status::WriteFault,
        printed: ONE_LINE,
        a: true,
        b: true,
    },
    Row {
        files: TWICE,
        command: "build j",
        faults: Faults { print: 3, ..NONE },
        status: Status::Done,
        printed: BOTH,
        a: true,
        b: true,
    },
];

fn rows() -> &'static [Row] {
    &ROWS
}

/// Whether of two files these stand.
pub(super) fn stand(left: &Left, a: bool, b: bool) -> bool {
    stands(left, "a") == a && stands(left, "b") == b
}

fn ends_so<R: Threads + Sync>(rt: &R, alloc: Global, row: &Row) -> Option<bool> {
    let left = left_by(rt, alloc, row.files, row.command, row.faults)?;
    let ends_so = is_so(&left, row.status, row.printed) && stand(&left, row.a, row.b);
    drop(left);
    Some(ends_so)
}

#[test]
fn how_commands_end(rt: HostRuntime) {
    for (at, row) in rows().iter().enumerate() {
        assert!(rt; ends_so(&rt, rt.alloc(), row) == Some(true), "row {at}");
    }
}
