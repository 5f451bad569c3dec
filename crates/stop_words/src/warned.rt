//! The line of words for what was noticed of a job that is done.
use crate::looks::looks_like;
use crate::refused::said;
use crate::shown::{bare, quoted};
use geo_addr::{Memory, Text};
use job_run::{ActKind, LATE, Notice, NoticeKind};
use std::alloc::Global;

/// One line for the person who ran the program: what is likely not as it was meant, and in which
/// line of the job. `head` is the beginning of the file that the notice names.
pub fn warning_text(
    alloc: Global,
    job: &str,
    notice: &Notice,
    head: &[u8],
) -> Result<Text, Memory> {
    let what = noticed(alloc, notice, head)?;
    warning(alloc, job, notice.line, what.as_str())
}

/// The line for those beyond the ones that are told.
pub fn more_text(alloc: Global, job: &str, more: u64) -> Result<Text, Memory> {
    let what = format!(in alloc; "{more} more warnings are not shown")?;
    warning(alloc, job, 0, what.as_str())
}

fn warning(alloc: Global, job: &str, line: u64, what: &str) -> Result<Text, Memory> {
    let job = bare(alloc, job)?;
    let job = job.as_str();
    let text = match line {
        0 => format!(in alloc; "warning: {job}: {what}\n")?,
        _ => format!(in alloc; "warning: {job}:{line}: {what}\n")?,
    };
    let text = Text::from_string(text)?;
    Ok(text)
}

fn noticed(alloc: Global, notice: &Notice, head: &[u8]) -> Result<String, Memory> {
    let name = match &notice.name {
        Some(name) => quoted(alloc, name.as_str())?,
        None => String::from_str(alloc, "it")?,
    };
    let name = name.as_str();
    match notice.kind {
        NoticeKind::Nothing(kind) => nothing_words(alloc, kind, name, head),
        NoticeKind::SetAgain { before } => Ok(format!(in alloc;
            "what line {before} set is replaced here, and nothing used it before"
        )?),
        NoticeKind::WritesRead { by } => Ok(format!(in alloc;
            "{name} is written over, and line {by} reads it: \
the next run will read the file that this one wrote"
        )?),
        NoticeKind::WritesJob => Ok(format!(in alloc;
            "{name} is the job itself, and is written over"
        )?),
        NoticeKind::NoRecord => Ok(format!(in alloc;
            "{name} has no record: the sources give no address a place"
        )?),
        NoticeKind::EpochZero => said(
            alloc,
            "the epoch is 0, and some readers refuse such a file; it is the build time in seconds",
        ),
        NoticeKind::EpochLate => Ok(format!(in alloc;
            "the epoch is {LATE} or more: it is counted in seconds, and not in milliseconds"
        )?),
    }
}

fn nothing_words(alloc: Global, kind: ActKind, name: &str, head: &[u8]) -> Result<String, Memory> {
    let what = match kind {
        ActKind::Rpsl => "object",
        ActKind::Stats => "delegation",
        ActKind::Feed => "entry",
        _ => "override",
    };
    let why = match kind {
        ActKind::Rpsl => "points to a geofeed",
        _ => "was accepted",
    };
    match looks_like(kind, head) {
        Some(looks) => Ok(format!(in alloc; "no {what} in {name} {why}: it looks like {looks}")?),
        None => Ok(format!(in alloc; "no {what} in {name} {why}")?),
    }
}
