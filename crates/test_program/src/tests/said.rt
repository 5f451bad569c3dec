//! What is said of stops, where the program cannot be brought to them. The words are written here
//! and in checks/trials alone.
use super::is_text;
use geo_addr::Text;
use job_run::{ActKind, Cause, Journal, NotDone, Stop};
use std::alloc::Global;
use std::io::ErrorKind;
use std::mem::drop;
use stop_words::{System, stop_text};

/// What ended `build job`, the line of the job and what it does, what it is about, and what is
/// said.
struct Row {
    stop: Stop,
    step: Option<(u64, ActKind)>,
    name: &'static str,
    said: &'static str,
}

static ROWS: [Row; 8] = [
    Row {
        stop: Stop::ReadFailed,
        step: Some((2, ActKind::Stats)),
        name: "s",
        said: "job:2: the file \"s\" could not be read: why\n",
    },
    Row {
        stop: Stop::Memory,
        step: None,
        name: "",
        said: "geofeed: memory ran out; what was written before stands, \
and the rest needs more memory\n",
    },
    Row {
        stop: Stop::PutFailed,
        step: Some((3, ActKind::Emit)),
        name: "s",
        said: "job:3: the file \"s\" could not be written; the old file is unchanged: why\n",
    },
    Row {
        stop: Stop::SinkFailed,
        step: None,
        name: "",
        said: "geofeed: standard output could not be written: why\n",
    },
    Row {
        stop: Stop::Blocked(Cause::TooMany),
        step: Some((2, ActKind::Rpsl)),
        name: "f",
        said: "job:2: the file \"f\" has more than 2,097,152 references\n",
    },
    Row {
        stop: Stop::Blocked(Cause::TooLarge),
        step: Some((2, ActKind::Emit)),
        name: "f",
        said: "job:2: the file is too large for its format: \
nodes, 16 and the data section together stay below 2^32\n",
    },
    Row {
        stop: Stop::Blocked(Cause::TooLarge),
        step: None,
        name: "",
        said: "geofeed: the sources are too large: \
nodes, 16 and the data section together stay below 2^32\n",
    },
    Row {
        stop: Stop::Blocked(Cause::NoMark),
        step: Some((9, ActKind::Back)),
        name: "a\u{202E}\u{9B}b",
        said: "job:9: no line before this one makes the mark \"a\u{FFFD}\u{FFFD}b\"\n",
    },
];

fn rows() -> &'static [Row] {
    &ROWS
}

/// What a command tells that ends so.
fn journal_of(alloc: Global, row: &Row) -> Option<Journal> {
    let name = Text::of(alloc, row.name).ok()?;
    let mut journal = Journal::new(alloc);
    journal.begin(alloc, "job");
    journal.end(row.stop);
    journal.name = Some(name);
    if let Some((line, kind)) = row.step {
        journal.step = Some(NotDone { line, kind });
    }
    Some(journal)
}

fn is_said(alloc: Global, row: &Row) -> Option<bool> {
    let journal = journal_of(alloc, row)?;
    let system = System {
        kind: ErrorKind::Other,
        text: "why",
    };
    let said = stop_text(alloc, &journal, Some(system));
    drop(journal);
    Some(is_text(said, row.said))
}

#[test]
fn what_is_said_of_stops(rt: HostRuntime) {
    for row in rows() {
        assert!(rt; is_said(rt.alloc(), row) == Some(true), "{}", row.said);
    }
}
