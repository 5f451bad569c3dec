//! What is said of a stop, and of what was noticed, on standard error.

ghost use Rattle.std.specs.Prelude.{◌≤◌};

use crate::folder::DirFolder;
use crate::output::errors_fit;
use geo_addr::{Memory, Text};
use geo_outside::Folder;
use job_run::{Journal, Notice, NoticeKind};
use std::fs::{File, Files};
use std::io;
use std::io::Eprint;
use stop_words::{System, more_text, stop_text, warning_text};

/// How many bytes of a file are looked at, of which nothing was accepted.
const HEAD: usize = 512;

/// What is said where memory ran out, without taking any.
pub(crate) const OUT_OF_MEMORY: &str = "geofeed: memory ran out\n";

/// Says in one line what ended a command: `system` is what the system said of the call that failed.
pub(crate) fn tell<R: Files<File = File> + Eprint + AllocGlobal>(
    rt: &R,
    journal: &Journal,
    system: Option<io::Error>,
) {
    match text_of(rt, journal, system) {
        Ok(text) => say(rt, text.as_str()),
        Err(_) => say(rt, OUT_OF_MEMORY),
    }
}

/// Says in a line each what was noticed of the job. Without memory for a line nothing is said.
pub(crate) fn warn<R: Files<File = File> + Eprint + AllocGlobal>(
    rt: &R,
    journal: &Journal,
    folder: &mut DirFolder<'_, R>,
) {
    let Some(job) = &journal.job else {
        return;
    };
    for notice in journal.notices.as_slice() {
        let mut head = [0; HEAD];
        let got = head_of(folder, notice, &mut head);
        if got == 0 && is_of_file(notice) {
            continue;
        }
        if let Ok(text) = warning_text(rt.alloc(), job.as_str(), notice, &head[..got]) {
            say(rt, text.as_str());
        }
    }
    if journal.notices.more() > 0 {
        if let Ok(text) = more_text(rt.alloc(), job.as_str(), journal.notices.more()) {
            say(rt, text.as_str());
        }
    }
}

// Whether a notice is said of what a file holds, so that an empty one has none.
fn is_of_file(notice: &Notice) -> bool {
    match notice.kind {
        NoticeKind::Nothing(_) => true,
        _ => false,
    }
}

// How many bytes at the beginning of the file of a notice were read: 0 where none are asked for.
fn head_of<F: Folder>(folder: &mut F, notice: &Notice, into: &mut [u8; HEAD]) -> usize
    ensures { result ≤ 512 }
{
    match &notice.name {
        Some(name) if is_of_file(notice) => match folder.read_at(name.as_str(), 0, into) {
            Ok(got) => got,
            Err(_) => 0,
        },
        _ => 0,
    }
}

/// Writes a text to standard error. Where that takes nothing, the status says it.
pub(crate) fn say<R: Files<File = File> + Eprint>(rt: &R, text: &str) {
    if errors_fit(rt, text.len()) {
        let _said = rt.eprint(text);
    }
}

fn text_of<R: AllocGlobal>(
    rt: &R,
    journal: &Journal,
    system: Option<io::Error>,
) -> Result<Text, Memory> {
    match system {
        Some(why) => {
            let text = format!(in rt.alloc(); "{why}")?;
            let system = System {
                kind: why.kind(),
                text: text.as_str(),
            };
            stop_text(rt.alloc(), journal, Some(system))
        }
        None => stop_text(rt.alloc(), journal, None),
    }
}
