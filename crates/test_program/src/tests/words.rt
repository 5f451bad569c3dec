//! Words that are a command, and which one, told by hand: a prefix of IPv4 is 96 bits longer there.
use super::{is_string, words_of};
use job_lines::command_in;
use std::alloc::{AllocError, Global};
use std::mem::drop;

/// Words, and the command that they are.
type Row = (&'static str, &'static str);

static ROWS: [Row; 11] = [
    ("build job", "Some(Build(\"job\"))"),
    ("lookup f ::5", "Some(Lookup(\"f\", Addr(5)))"),
    ("explain j 0.0.0.9", "Some(Explain(\"j\", Addr(9)))"),
    ("gen 1 f", "Some(Gen(1, \"f\"))"),
    ("gen 1000000 d/f", "Some(Gen(1000000, \"d/f\"))"),
    (
        "publish j 10.0.0.0/24 f",
        "Some(Publish(\"j\", Block { first: 167772160, len: 120 }, \"f\"))",
    ),
    (
        "publish j 0.0.0.0/0 f",
        "Some(Publish(\"j\", Block { first: 0, len: 96 }, \"f\"))",
    ),
    (
        "publish j ::1:0:0/96 f",
        "Some(Publish(\"j\", Block { first: 4294967296, len: 96 }, \"f\"))",
    ),
    (
        "check j https://a.example/f",
        "Some(Check(\"j\", \"https://a.example/f\"))",
    ),
    ("census j", "Some(Census(\"j\"))"),
    ("census", "None"),
];

fn rows() -> &'static [Row] {
    &ROWS
}

/// The command that words are, spelt.
fn spelt(alloc: Global, words: &[String]) -> Result<String, AllocError> {
    format!(in alloc; "{:?}", command_in(words))
}

fn is_spelt(alloc: Global, row: &Row) -> Option<bool> {
    let words = words_of(alloc, row.0)?;
    let spelt = spelt(alloc, words.as_slice());
    drop(words);
    Some(is_string(spelt, row.1))
}

#[test]
fn words_and_commands(rt: HostRuntime) {
    for row in rows() {
        assert!(rt; is_spelt(rt.alloc(), row) == Some(true), "{}", row.0);
    }
}
