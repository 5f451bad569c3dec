//! Commands over a folder and a sink in memory, jobs, words, steps and what is said of stops, where
//! the program cannot show it: calls that fail, reads that are short, gates; and each public call
//! once. What it can show stands in checks/trials.
//!
//! A helper answers `None` where memory runs out, which no test expects, so that no error is turned
//! into another one; what goes by itself at each way out would cost the proof of its function.
ghost use Rattle.std.specs.Prelude.{◌≡◌, ◌<◌};

mod commands;
mod gates;
mod jobs;
mod reads;
mod reasons;
mod said;
mod steps;
mod texts;
mod words;

use geo_addr::{Memory, Text};
use geo_outside::{Gate, MemFolder, MemSink, OpenGate, Steps};
use geofeed_cmd::{Status, run};
use std::alloc::{AllocError, Global};
use std::marker::{Brand, Sync};
use std::mem::drop;
use std::sync::ledger::{Blank, Ledger};
use std::thread::Threads;

/// Names and bytes of files.
type Files = &'static [(&'static str, &'static [u8])];

/// The numbers of the read, the put and the print that fail; none has the number 0.
#[derive(Clone, Copy)]
struct Faults {
    read: u64,
    put: u64,
    print: u64,
}

/// No call fails.
const NONE: Faults = Faults {
    read: 0,
    put: 0,
    print: 0,
};

/// What a command left: how it ended, the files, and what was printed.
#[derive(Drop)]
struct Left {
    status: Status,
    folder: MemFolder,
    out: MemSink,
}

/// What was made, if what was done to it since was done. Else it goes here, where it is of any
/// type, so that no proof takes it apart.
fn if_done<T: Drop>(made: T, done: bool) -> Option<T> {
    if done {
        return Some(made);
    }
    drop(made);
    None
}

/// A list of one number.
fn list_of(alloc: Global, number: u64) -> Option<Vec<u64>> {
    match vec![in alloc; number] {
        Ok(list) => Some(list),
        Err(_) => None,
    }
}

/// An empty folder, of which the read and the put with these numbers fail.
fn empty_folder(alloc: Global, read: u64, put: u64) -> Option<MemFolder> {
    let reads = list_of(alloc, read)?;
    let puts = list_of(alloc, put)?;
    Some(MemFolder::new(alloc, reads, puts))
}

/// An empty sink, of which the print with this number fails.
fn empty_sink(alloc: Global, print: u64) -> Option<MemSink> {
    let prints = list_of(alloc, print)?;
    Some(MemSink::new(alloc, prints))
}

/// An empty folder, and nothing printed.
fn nothing(alloc: Global, faults: Faults) -> Option<Left> {
    let out = empty_sink(alloc, faults.print)?;
    let folder = empty_folder(alloc, faults.read, faults.put)?;
    Some(Left {
        status: Status::Done,
        folder,
        out,
    })
}

/// Sets a file.
fn hold(folder: &mut MemFolder, name: &str, bytes: &[u8]) -> bool {
    folder.hold(name, bytes).is_ok()
}

fn hold_all(folder: &mut MemFolder, files: Files) -> bool {
    for file in files {
        if !hold(folder, file.0, file.1) {
            return false;
        }
    }
    true
}

/// A folder of these files, and nothing printed.
fn start(alloc: Global, files: Files, faults: Faults) -> Option<Left> {
    let mut left = nothing(alloc, faults)?;
    let held = hold_all(&mut left.folder, files);
    if_done(left, held)
}

fn push_word(alloc: Global, word: &str, words: &mut Vec<String>) -> bool {
    match String::from_str(alloc, word) {
        Ok(word) => words.push(word).is_ok(),
        Err(_) => false,
    }
}

fn push_words(alloc: Global, command: &str, words: &mut Vec<String>) -> bool {
    for word in command.split_whitespace() {
        if !push_word(alloc, word, words) {
            return false;
        }
    }
    true
}

/// The words of a command.
fn words_of(alloc: Global, command: &str) -> Option<Vec<String>> {
    let mut words = Vec::new(alloc);
    let pushed = push_words(alloc, command, &mut words);
    if_done(words, pushed)
}

/// Whether a text, which goes, was made and is this one.
fn is_text(made: Result<Text, Memory>, wanted: &str) -> bool {
    match made {
        Ok(text) => {
            let is_wanted = text.as_str() == wanted;
            drop(text);
            is_wanted
        }
        Err(_) => false,
    }
}

/// The same of a string.
fn is_string(made: Result<String, AllocError>, wanted: &str) -> bool {
    match made {
        Ok(text) => {
            let is_wanted = text.as_str() == wanted;
            drop(text);
            is_wanted
        }
        Err(_) => false,
    }
}

/// Does the command of these words.
fn do_words<R: Threads + Sync, G: Gate, L: Ledger>(
    rt: &R,
    alloc: Global,
    words: &[String],
    left: &mut Left,
    gate: &G,
    blank: Blank,
) -> Status
    requires name { blank.name ≡ L.name }
    requires parts { blank.parts ≡ L.parts }
    requires some { 0 < blank.parts }
{
    let mut steps: Steps<L> = Steps::new(blank);
    run(
        rt,
        alloc,
        words,
        &mut left.folder,
        &mut left.out,
        gate,
        &mut steps,
    )
}

/// The same, with a counter of its own.
fn ended<R: Threads + Sync, G: Gate>(
    rt: &R,
    alloc: Global,
    words: &[String],
    left: &mut Left,
    gate: &G,
) -> Status {
    do_words::<R, G, Brand>(rt, alloc, words, left, gate, Blank::new(1))
}

/// Does a command at a gate, and says whether its words could be made.
fn speak_at<R: Threads + Sync, G: Gate>(
    rt: &R,
    alloc: Global,
    command: &str,
    left: &mut Left,
    gate: &G,
) -> bool {
    match words_of(alloc, command) {
        Some(words) => {
            left.status = ended(rt, alloc, words.as_slice(), left, gate);
            drop(words);
            true
        }
        None => false,
    }
}

/// Does a command.
fn speak<R: Threads + Sync>(rt: &R, alloc: Global, command: &str, left: &mut Left) -> bool {
    speak_at(rt, alloc, command, left, &OpenGate)
}

/// What a command over these files leaves.
fn left_by<R: Threads + Sync>(
    rt: &R,
    alloc: Global,
    files: Files,
    command: &str,
    faults: Faults,
) -> Option<Left> {
    let mut left = start(alloc, files, faults)?;
    let spoken = speak(rt, alloc, command, &mut left);
    if_done(left, spoken)
}

/// Whether it ended so, and this was printed.
fn is_so(left: &Left, status: Status, printed: &str) -> bool {
    left.status == status && left.out.written() == printed.as_bytes()
}

/// Whether there is such a file.
fn stands(left: &Left, name: &str) -> bool {
    left.folder.bytes_of(name).is_some()
}

/// The bytes of a file, and none where there is no such file.
fn bytes_in<'a>(left: &'a Left, name: &str) -> &'a [u8] {
    left.folder.bytes_of(name).unwrap_or(&[])
}
