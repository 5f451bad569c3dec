//! The line of words for a stop.
use crate::causes::cause_words;
pub use crate::files::System;
use crate::files::{missing_words, name_in, unprinted_words, unread_words, unwritten_words};
use crate::refused::{command_words, line_words, said};
use crate::shown::{bare, grouped, quoted};
use crate::steps::{gone_words, large_words, long_words, many_words, unmarked_words};
use file_lookup::LookupFault;
use geo_addr::{Memory, Text};
use job_lines::{JobFault, LONGEST_JOB};
use job_run::{Cause, Journal, Stop};
use std::alloc::Global;

/// One line for the person who ran the program: what stopped the command, in which line of the job,
/// and what to do.
pub fn stop_text(alloc: Global, journal: &Journal, system: Option<System>) -> Result<Text, Memory> {
    let what = told(alloc, journal, system)?;
    let text = located(alloc, journal, what.as_str())?;
    let text = Text::from_string(text)?;
    Ok(text)
}

fn told(alloc: Global, journal: &Journal, system: Option<System>) -> Result<String, Memory> {
    match journal.why {
        Some(Stop::Blocked(cause)) => cause_told(alloc, journal, cause),
        Some(Stop::ReadFailed) => unread_words(alloc, journal, system),
        Some(Stop::PutFailed) => unwritten_words(alloc, journal, system),
        Some(Stop::SinkFailed) => unprinted_words(alloc, system),
        Some(Stop::Memory) | None => said(
            alloc,
            "memory ran out; what was written before stands, and the rest needs more memory",
        ),
    }
}

fn cause_told(alloc: Global, journal: &Journal, cause: Cause) -> Result<String, Memory> {
    match cause {
        Cause::Words => match &journal.reason {
            Some(reason) => command_words(alloc, reason),
            None => said(alloc, "the words are no command; see geofeed --help"),
        },
        Cause::Job(fault) => job_words(alloc, journal, fault),
        Cause::Missing => missing_words(alloc, journal),
        Cause::TooLong => long_words(alloc, journal),
        Cause::TooMany => many_words(alloc, journal),
        Cause::NotThere => gone_words(alloc, journal),
        Cause::NoMark => unmarked_words(alloc, journal),
        Cause::NoFeed => absent_words(alloc, journal),
        Cause::TooLarge => said(alloc, large_words(journal)),
        Cause::File(fault) => damaged_words(alloc, journal, fault),
    }
}

// A job that is refused.
fn job_words(alloc: Global, journal: &Journal, fault: JobFault) -> Result<String, Memory> {
    if let Some(reason) = &journal.reason {
        return line_words(alloc, reason);
    }
    let what = match fault {
        JobFault::TooLong => {
            let most = grouped(alloc, LONGEST_JOB as u64)?;
            return Ok(format!(in alloc; "the job has more than {} bytes", most.as_str())?);
        }
        JobFault::Utf8 => "the job is not UTF-8",
        JobFault::Line(_) => "the line fits no form, or stands where it may not",
        JobFault::Epoch =>
            "the job has no line but blank ones and comments; it begins with: epoch N",
        JobFault::Memory => "memory ran out",
    };
    said(alloc, what)
}

fn absent_words(alloc: Global, journal: &Journal) -> Result<String, Memory> {
    let url = quoted(alloc, name_in(journal))?;
    let near = near_words(alloc, journal)?;
    Ok(format!(in alloc;
        "no feed of the URL {} is in force at the job's end; {}",
        url.as_str(),
        near.as_str()
    )?)
}

// Which feeds are in force near one that is not.
fn near_words(alloc: Global, journal: &Journal) -> Result<String, Memory> {
    match (&journal.below, &journal.above) {
        (Some(below), Some(above)) => {
            let below = quoted(alloc, below.as_str())?;
            let above = quoted(alloc, above.as_str())?;
            Ok(format!(in alloc; "the nearest are {} and {}", below.as_str(), above.as_str())?)
        }
        (Some(near), None) | (None, Some(near)) => {
            let near = quoted(alloc, near.as_str())?;
            Ok(format!(in alloc; "the nearest is {}", near.as_str())?)
        }
        (None, None) => said(alloc, "no other feed is"),
    }
}

// A file that was looked up in.
fn damaged_words(alloc: Global, journal: &Journal, fault: LookupFault) -> Result<String, Memory> {
    let name = quoted(alloc, name_in(journal))?;
    let name = name.as_str();
    let cause = cause_words(alloc, fault)?;
    let cause = cause.as_str();
    match fault {
        LookupFault::Value { at, .. } => Ok(format!(in alloc;
            "the file {name} {cause}, at byte {at} of the data section"
        )?),
        _ => Ok(format!(in alloc; "the file {name} {cause}")?),
    }
}

// What is said, behind the line of the job that it is said of, where it is said of one.
fn located(alloc: Global, journal: &Journal, what: &str) -> Result<String, Memory> {
    match (&journal.job, line_in(journal)) {
        (Some(job), Some(line)) => {
            let job = bare(alloc, job.as_str())?;
            Ok(format!(in alloc; "{}:{line}: {what}\n", job.as_str())?)
        }
        _ => Ok(format!(in alloc; "geofeed: {what}\n")?),
    }
}

fn line_in(journal: &Journal) -> Option<u64> {
    match (journal.why, &journal.step, &journal.reason) {
        (Some(Stop::SinkFailed | Stop::Memory) | None, _, _) => None,
        (_, Some(step), _) => Some(step.line),
        (_, None, Some(reason)) if reason.line > 0 => Some(reason.line),
        (Some(Stop::Blocked(Cause::Job(JobFault::Line(line)))), None, _) => Some(line),
        _ => None,
    }
}
