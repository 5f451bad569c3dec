//! Files that could not be read or written.
use crate::shown::quoted;
use geo_addr::Memory;
use job_run::Journal;
use std::alloc::Global;
use std::io::ErrorKind;

/// What the system said of a call that failed.
#[derive(Clone, Copy, Debug)]
pub struct System<'a> {
    pub kind: ErrorKind,
    /// What the system calls it.
    pub text: &'a str,
}

/// A file that is not there.
pub(crate) fn missing_words(alloc: Global, journal: &Journal) -> Result<String, Memory> {
    let name = name_in(journal);
    let shown = quoted(alloc, name)?;
    let hint = missing_hint(name);
    Ok(format!(in alloc; "{} {} is not there; {hint}", noun(journal), shown.as_str())?)
}

fn missing_hint(name: &str) -> &'static str {
    match name {
        "-" => "- is the name of a file, and not standard input",
        "-h" | "--help" => "for help: geofeed --help",
        _ => {
            if name.contains("\"") || name.contains("'") {
                return "quotes are part of a name";
            }
            "names are looked up from the current folder"
        }
    }
}

/// A file that could not be read.
pub(crate) fn unread_words(
    alloc: Global,
    journal: &Journal,
    system: Option<System>,
) -> Result<String, Memory> {
    let shown = quoted(alloc, name_in(journal))?;
    let why = because(alloc, system)?;
    Ok(format!(in alloc;
        "{} {} could not be read{}",
        noun(journal),
        shown.as_str(),
        why.as_str()
    )?)
}

/// A file that could not be written.
pub(crate) fn unwritten_words(
    alloc: Global,
    journal: &Journal,
    system: Option<System>,
) -> Result<String, Memory> {
    let name = name_in(journal);
    let shown = quoted(alloc, name)?;
    let shown = shown.as_str();
    if let (true, Some((folder, _))) = (
        is_kind(system, ErrorKind::NotFound),
        name.rsplit_once('/'),
    ) {
        let folder = quoted(alloc, folder)?;
        return Ok(format!(in alloc;
            "the file {shown} could not be written: there is no folder {}",
            folder.as_str()
        )?);
    }
    if is_kind(system, ErrorKind::IsADirectory) {
        return Ok(format!(in alloc;
            "the file {shown} could not be written: a folder has this name"
        )?);
    }
    let why = because(alloc, system)?;
    Ok(format!(in alloc;
        "the file {shown} could not be written; the old file is unchanged{}",
        why.as_str()
    )?)
}

/// Standard output, which could not be written.
pub(crate) fn unprinted_words(alloc: Global, system: Option<System>) -> Result<String, Memory> {
    let why = because(alloc, system)?;
    Ok(format!(in alloc; "standard output could not be written{}", why.as_str())?)
}

fn is_kind(system: Option<System>, kind: ErrorKind) -> bool {
    match system {
        Some(why) => why.kind == kind,
        None => false,
    }
}

fn because(alloc: Global, system: Option<System>) -> Result<String, Memory> {
    match system {
        Some(why) => Ok(format!(in alloc; ": {}", why.text)?),
        None => Ok(String::new(alloc)),
    }
}

/// What the stop is about, or nothing.
pub(crate) fn name_in(journal: &Journal) -> &str {
    match &journal.name {
        Some(name) => name.as_str(),
        None => "",
    }
}

// A job that no step reads is the job itself.
fn noun(journal: &Journal) -> &'static str {
    if journal.job.is_some() && journal.step.is_none() {
        "the job"
    } else {
        "the file"
    }
}
