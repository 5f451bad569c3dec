//! The program: the current folder, standard output and the words of the command line,
//! handed to `run`.
#![tactic(auto)]

ghost use Rattle.std.specs.Prelude.{◌≡◌, ◌<◌};

mod commit;
mod disk;
mod folder;
mod host;
mod limit;
mod output;
mod sink;
mod told;
mod whole;

use crate::commit::COMMIT;
use crate::folder::DirFolder;
use crate::output::Output;
use crate::sink::StdSink;
use crate::told::{OUT_OF_MEMORY, say, tell, warn};
use geo_outside::{OpenGate, Sink, Steps};
use geofeed_cmd::{Status, run_told};
use job_run::{Journal, Stop};
use std::alloc::{AllocError, Global};
use std::env::Env;
use std::fs::{File, Files};
use std::io::{Eprint, ErrorKind, Print};
use std::marker::{Brand, Sync};
use std::mem::drop;
use std::process::ExitCode;
use std::sync::ledger::{Blank, Ledger};
use std::thread::Threads;
use std::{env, io};

/// What `--version` prints: the program, and the toolchain that it is proved and built with.
const VERSION: &str = "geofeed 0.2.0 (rattle-kit-13f logic dac8208d650f15bf)";

const HELP: &str = "\
geofeed compiles the location of IP addresses into MaxMind DB files.

usage:
  geofeed build JOB               does the job's lines in order
  geofeed lookup FILE ADDR        prints the record of one address in a file
  geofeed explain JOB ADDR        prints by which lines of the sources an address has its record
  geofeed publish JOB BLOCK FILE  writes the shortest geofeed of the records in a prefix
  geofeed check JOB URL           prints what becomes of each line of a feed
  geofeed census JOB              prints how many addresses each country has
  geofeed gen N FILE              writes the file of a generated job of N lines, to measure with
  geofeed -h, --help              prints this
  geofeed -V, --version           prints the version, the toolchain's line, and the commit

JOB and FILE are names at or below the current folder, without blanks, with no part `.` or `..`.
The exit status is 0 where all was done. Each other one has a line on standard error that says why \
and what to do;
docs/stops.md and geofeed(1) have them all.
";

/// A little less than the 32 MiB up to which the C library learns from a block that is let go.
const LARGEST_KEPT: usize = 33_488_896;

fn main(rt: HostRuntime) -> ExitCode {
    keep_memory(rt.alloc());
    let status = match words_of(&rt) {
        Ok(words) => answer::<HostRuntime, Brand>(&rt, words.as_slice(), Blank::new(1)),
        Err(why) if why.kind() == ErrorKind::OutOfMemory => {
            say(&rt, OUT_OF_MEMORY);
            Status::Memory
        }
        Err(_) => {
            say(&rt, "geofeed: a word is not UTF-8\n");
            Status::Words
        }
    };
    ExitCode::from(status as u8)
}

// Takes a large block and lets it go unused: from then on the C library gives blocks of up to that
// size from memory that the program let go before, where it would ask the system for new pages.
fn keep_memory(alloc: Global) {
    let block: Result<Vec<u8>, AllocError> = Vec::with_capacity(alloc, LARGEST_KEPT);
    drop(block);
}

// The words after the program's name.
fn words_of<R: Env + AllocGlobal>(rt: &R) -> io::Result<Vec<String>> {
    let mut words = Vec::new(rt.alloc());
    let mut given = env::args(rt)?;
    let _program = given.next();
    for word in given {
        words.push(word)?;
    }
    Ok(words)
}

fn answer<R: Threads + Sync + Files<File = File> + Print + Eprint + AllocGlobal, L: Ledger>(
    rt: &R,
    words: &[String],
    blank: Blank,
) -> Status
    requires name { blank.name ≡ L.name }
    requires parts { blank.parts ≡ L.parts }
    requires some { 0 < blank.parts }
{
    let mut out = StdSink::new(Output::new(rt));
    let mut folder = DirFolder::new(rt);
    let mut journal = Journal::new(rt.alloc());
    let status = match asked_in(words) {
        Some(Asked::Help) => printed(&mut out, HELP, &mut journal),
        Some(Asked::Version) => version(&mut out, &mut journal),
        None => {
            let mut steps: Steps<L> = Steps::new(blank);
            run_told(
                rt,
                rt.alloc(),
                words,
                &mut folder,
                &mut out,
                &OpenGate,
                &mut steps,
                &mut journal,
            )
        }
    };
    if status != Status::Done {
        let system = match journal.why {
            Some(Stop::ReadFailed | Stop::PutFailed) => folder.why(),
            Some(Stop::SinkFailed) => out.why(),
            _ => None,
        };
        tell(rt, &journal, system);
    }
    warn(rt, &journal, &mut folder);
    status
}

/// What the program says of itself.
enum Asked {
    Help,
    Version,
}

fn asked_in(words: &[String]) -> Option<Asked> {
    match words {
        [word] => match word.as_str() {
            "-h" | "--help" => Some(Asked::Help),
            "-V" | "--version" => Some(Asked::Version),
            _ => None,
        },
        _ => None,
    }
}

fn version(out: &mut impl Sink, journal: &mut Journal) -> Status {
    let before = if COMMIT.is_empty() { "" } else { " commit " };
    for text in [VERSION, before, COMMIT, "\n"] {
        let status = printed(out, text, journal);
        if status != Status::Done {
            return status;
        }
    }
    Status::Done
}

fn printed(out: &mut impl Sink, text: &str, journal: &mut Journal) -> Status {
    match out.write_all(text.as_bytes()) {
        Ok(()) => Status::Done,
        Err(_) => {
            journal.end(Stop::SinkFailed);
            Status::WriteFault
        }
    }
}
