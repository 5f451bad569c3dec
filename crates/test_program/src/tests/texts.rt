//! The texts of stops, where no command of the other tables comes to one: those of docs/stops.md.
use super::is_text;
use geofeed_cmd::stop_line;
use job_lines::JobFault;
use job_run::{Cause, Stop};
use std::alloc::Global;

/// A stop, its line and name, and what is printed.
struct Row {
    stop: Stop,
    line: u64,
    name: &'static str,
    printed: &'static str,
}

/// What is printed at stops that no row reaches, and where nothing is printed.
static TEXTS: [Row; 8] = [
    Row {
        stop: Stop::Blocked(Cause::TooLarge),
        line: 4,
        name: "f",
        printed: "stop large 4\n",
    },
    Row {
        stop: Stop::Blocked(Cause::TooLong),
        line: 0,
        name: "f",
        printed: "stop source 0 bytes\n",
    },
    Row {
        stop: Stop::Blocked(Cause::NoFeed),
        line: 0,
        name: "https://e.example/",
        printed: "stop absent https://e.example/\n",
    },
    Row {
        stop: Stop::Blocked(Cause::Job(JobFault::TooLong)),
        line: 0,
        name: "j",
        printed: "stop job long\n",
    },
    Row {
        stop: Stop::Blocked(Cause::Job(JobFault::Utf8)),
        line: 0,
        name: "j",
        printed: "stop job utf8\n",
    },
    Row {
        stop: Stop::Blocked(Cause::NoMark),
        line: 7,
        name: "m",
        printed: "stop back 7\n",
    },
    Row {
        stop: Stop::SinkFailed,
        line: 3,
        name: "f",
        printed: "",
    },
    Row {
        stop: Stop::Memory,
        line: 3,
        name: "f",
        printed: "",
    },
];

fn texts() -> &'static [Row] {
    &TEXTS
}

fn is_printed(alloc: Global, row: &Row) -> bool {
    is_text(stop_line(alloc, row.stop, row.line, row.name), row.printed)
}

#[test]
fn texts_of_stops(rt: HostRuntime) {
    for row in texts() {
        assert!(rt; is_printed(rt.alloc(), row), "{}", row.printed);
    }
}
