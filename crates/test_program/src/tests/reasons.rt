//! Why lines and words are refused, as the readers say it: told from the words by hand, and spelt
//! as the names of the faults are.
use super::{is_string, words_of};
use job_lines::{JobRefusal, LineFault, Reason, command_or_reason, job_or_reason};
use std::alloc::{AllocError, Global};
use std::mem::drop;

/// A job or words, and the fault that is told of them.
type Row = (&'static str, &'static str);

static LINES: [Row; 14] = [
    ("stat x s", "Some(Unknown)"),
    ("epoch", "Some(Few { at: 1 })"),
    ("epoch 1 # now", "Some(Many { at: 2 })"),
    (
        "epoch now",
        "Some(Word { at: 1, shape: Epoch, fault: EpochDigits })",
    ),
    ("stats x s", "Some(NoEpoch)"),
    ("epoch 1\nepoch 1", "Some(SecondEpoch)"),
    ("epoch 1\nreport\ntype a", "Some(Behind)"),
    ("epoch 1\ntype a\ntype a", "Some(Twice)"),
    ("epoch 1\ndrop fee https://a.example", "Some(Kind)"),
    ("epoch 1\ndrop rpsl", "Some(Few { at: 2 })"),
    (
        "feed http://a.example f",
        "Some(Word { at: 1, shape: Url, fault: Scheme })",
    ),
    (
        "stats a ../s",
        "Some(Word { at: 2, shape: File, fault: UpPart })",
    ),
    ("epoch 1", "None"),
    ("# nothing", "None"),
];

static WORDS: [Row; 7] = [
    ("", "Some(Nothing)"),
    ("bulid j", "Some(Unknown)"),
    ("build", "Some(Few { at: 1 })"),
    ("lookup f 1.2.3.4 5.6.7.8", "Some(Many { at: 3 })"),
    (
        "lookup 1.2.3.4 f",
        "Some(Word { at: 2, shape: Address, fault: Address(Form) })",
    ),
    (
        "publish j 10.0.0.1/8 f",
        "Some(Word { at: 2, shape: Block, fault: Block(HostBits) })",
    ),
    ("build j", "None"),
];

/// Words, and the word before the one that is refused.
static BEFORE: [Row; 3] = [
    ("bulid j", ""),
    ("build", "build"),
    ("lookup 1.2.3.4 f", "1.2.3.4"),
];

fn before() -> &'static [Row] {
    &BEFORE
}

fn has_before(alloc: Global, words: &[String], fault: LineFault, wanted: &str) -> bool {
    match Reason::of_words(alloc, words, fault) {
        Ok(reason) => {
            let is_wanted = reason.before.text.as_str() == wanted;
            drop(reason);
            is_wanted
        }
        Err(_) => false,
    }
}

fn is_before(alloc: Global, row: &Row) -> Option<bool> {
    let words = words_of(alloc, row.0)?;
    let is_before = match fault_of_words(words.as_slice()) {
        Some(fault) => has_before(alloc, words.as_slice(), fault, row.1),
        None => false,
    };
    drop(words);
    Some(is_before)
}

fn lines() -> &'static [Row] {
    &LINES
}

fn words() -> &'static [Row] {
    &WORDS
}

fn fault_in(refusal: &JobRefusal) -> Option<LineFault> {
    match &refusal.reason {
        Some(reason) => Some(reason.fault),
        None => None,
    }
}

fn fault_of_line(alloc: Global, job: &str) -> Option<LineFault> {
    match job_or_reason(alloc, job.as_bytes()) {
        Ok(job) => {
            drop(job);
            None
        }
        Err(refusal) => {
            let fault = fault_in(&refusal);
            drop(refusal);
            fault
        }
    }
}

fn fault_of_words(words: &[String]) -> Option<LineFault> {
    match command_or_reason(words) {
        Ok(_) => None,
        Err(fault) => Some(fault),
    }
}

fn spelt(alloc: Global, fault: Option<LineFault>) -> Result<String, AllocError> {
    format!(in alloc; "{fault:?}")
}

fn is_line_told(alloc: Global, row: &Row) -> bool {
    is_string(spelt(alloc, fault_of_line(alloc, row.0)), row.1)
}

fn are_words_told(alloc: Global, row: &Row) -> Option<bool> {
    let words = words_of(alloc, row.0)?;
    let fault = fault_of_words(words.as_slice());
    drop(words);
    Some(is_string(spelt(alloc, fault), row.1))
}

#[test]
fn why_lines_and_words_are_refused(rt: HostRuntime) {
    for row in lines() {
        assert!(rt; is_line_told(rt.alloc(), row), "{}", row.0);
    }
    for row in words() {
        assert!(rt; are_words_told(rt.alloc(), row) == Some(true), "{}", row.0);
    }
}

#[test]
fn words_before_those_that_are_refused(rt: HostRuntime) {
    for row in before() {
        assert!(rt; is_before(rt.alloc(), row) == Some(true), "{}", row.0);
    }
}
