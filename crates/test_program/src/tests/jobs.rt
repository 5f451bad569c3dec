//! Jobs, names, keys, and the texts of faults, told from the words of each job by hand. What each
//! line of a job says is in checks/trials.
use super::is_string;
use job_lines::{Job, JobFault, feed_key, is_name, is_slot, read_job};
use std::alloc::{AllocError, Global};
use std::mem::drop;

/// A job, its epoch, its database type, its number of pieces, and how many steps it has.
struct Row {
    job: &'static str,
    epoch: u64,
    name: &'static str,
    pieces: u32,
    steps: usize,
}

static JOBS: [Row; 5] = [
    Row {
        job: "epoch 1\nemit a\n",
        epoch: 1,
        name: "Geofeed-City",
        pieces: 4,
        steps: 1,
    },
    Row {
        job: "epoch 18446744073709551615\npieces 1",
        epoch: u64::MAX,
        name: "Geofeed-City",
        pieces: 1,
        steps: 0,
    },
    Row {
        job: "epoch 007\npieces 64\n",
        epoch: 7,
        name: "Geofeed-City",
        pieces: 64,
        steps: 0,
    },
    Row {
        job: "epoch 1\ntype !~\npieces 3\nreport",
        epoch: 1,
        name: "!~",
        pieces: 3,
        steps: 1,
    },
    Row {
        job: "epoch 1\npieces 64\ntype T\nfeed HTTPS://Example.com:443/g.csv f.csv\n\
rpsl ripe d/r.db\nemit o\noverrides own.csv\ndrop feed https://example.com/g.csv\n\
stats a-Z_.9 n\nreport\ndrop overrides\ndrop rpsl ripe\n\
drop stats a-Z_.9\nmark m\nback m\ncompact\nemit o",
        epoch: 1,
        name: "T",
        pieces: 64,
        steps: 14,
    },
];

fn jobs() -> &'static [Row] {
    &JOBS
}

fn is_job(job: &Job, row: &Row) -> bool {
    job.meta.epoch == row.epoch
        && job.meta.name.as_str() == row.name
        && job.pieces == row.pieces
        && job.steps.as_slice().len() == row.steps
}

fn is_read(alloc: Global, row: &Row) -> bool {
    match read_job(alloc, row.job.as_bytes()) {
        Ok(job) => {
            let is_job = is_job(&job, row);
            drop(job);
            is_job
        }
        Err(_) => false,
    }
}

#[test]
fn settings_of_jobs(rt: HostRuntime) {
    for row in jobs() {
        assert!(rt; is_read(rt.alloc(), row), "{}", row.job);
    }
}

/// Faults, and how each is printed.
static FAULTS: [(JobFault, &str); 4] = [
    (JobFault::TooLong, "too many bytes"),
    (JobFault::Utf8, "not UTF-8"),
    (JobFault::Line(2), "line 2 is refused"),
    (JobFault::Epoch, "no epoch"),
];

fn faults() -> &'static [(JobFault, &'static str)] {
    &FAULTS
}

fn printed(alloc: Global, fault: JobFault) -> Result<String, AllocError> {
    format!(in alloc; "{fault}")
}

#[test]
fn texts_of_faults(rt: HostRuntime) {
    for row in faults() {
        assert!(rt; is_string(printed(rt.alloc(), row.0), row.1), "{}", row.1);
    }
}

fn has_key(alloc: Global, url: &[u8], wanted: &str) -> bool {
    match feed_key(alloc, url) {
        Ok(Some(key)) => {
            let is_wanted = key.as_str() == wanted;
            drop(key);
            is_wanted
        }
        _ => false,
    }
}

#[test]
fn names_slots_and_keys(rt: HostRuntime) {
    assert!(rt; is_name(b"a/b.c/-") && !is_name(b"a b"));
    assert!(rt; is_slot(b"a-Z_.9") && !is_slot(b"a/b"));
    let wanted = "https://example.com/a%20b";
    assert!(rt; has_key(rt.alloc(), b"https://EXAMPLE.com/a b", wanted));
}
