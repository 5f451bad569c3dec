//! Why a line of a job, or the words of the command line, are refused.
use crate::hints::{address_words, host_bits_words, word_hint};
use crate::near::nearest;
use crate::shown::excerpt;
use crate::usage::{command_form, commands, keywords, kinds, last_part, line_form, operands_of};
use geo_addr::{BlockFault, Memory};
use job_lines::{LineFault, Reason, Shape, WordFault};
use std::alloc::Global;

/// Why a line of a job is refused.
pub(crate) fn line_words(alloc: Global, reason: &Reason) -> Result<String, Memory> {
    let first = excerpt(alloc, &reason.first)?;
    let first = first.as_str();
    match reason.fault {
        LineFault::Nothing | LineFault::Unknown => unknown_keyword(alloc, reason),
        LineFault::Kind => unknown_kind(alloc, reason),
        LineFault::Few { at: 1 } if reason.first.text.as_str() == "drop" => Ok(format!(in alloc;
            "the kind of source is missing; the line is one of: {}",
            form_of_line(reason)
        )?),
        LineFault::Few { .. } => {
            let form = form_of_line(reason);
            too_few(alloc, "the line is", form, operands_of(form))
        }
        LineFault::Many { .. } => too_many(alloc, "the line is", form_of_line(reason), reason),
        LineFault::Word { shape, fault, .. } => word_words(alloc, reason, shape, fault),
        LineFault::NoEpoch => Ok(format!(in alloc;
            "{first} comes before the epoch; the first line must be: epoch N"
        )?),
        LineFault::SecondEpoch => Ok(format!(in alloc;
            "a second {first}; it comes once, in the first line"
        )?),
        LineFault::Behind => Ok(format!(in alloc; "{first} must come before the first step")?),
        LineFault::Twice => Ok(format!(in alloc; "a second {first}; it comes once at most")?),
        LineFault::Utf8 => said(alloc, "the line is not UTF-8, as a job has to be"),
        LineFault::Memory => said(alloc, "the line could not be read for want of memory"),
    }
}

/// Why the words of the command line are no command.
pub(crate) fn command_words(alloc: Global, reason: &Reason) -> Result<String, Memory> {
    let form = form_of_command(reason);
    match reason.fault {
        LineFault::Nothing => said(alloc, "a command is missing; see geofeed --help"),
        LineFault::Unknown => unknown_command(alloc, reason),
        LineFault::Few { .. } => too_few(alloc, "usage", form, operands_of(form)),
        LineFault::Many { .. } => too_many(alloc, "usage", form, reason),
        LineFault::Word { shape, fault, .. } => word_words(alloc, reason, shape, fault),
        _ => said(alloc, "the words are no command; see geofeed --help"),
    }
}

/// A text as it stands.
pub(crate) fn said(alloc: Global, text: &str) -> Result<String, Memory> {
    Ok(String::from_str(alloc, text)?)
}

fn form_of_line(reason: &Reason) -> &'static str {
    line_form(reason.first.text.as_str(), reason.before.text.as_str())
}

fn form_of_command(reason: &Reason) -> &'static str {
    command_form(reason.first.text.as_str())
}

fn unknown_keyword(alloc: Global, reason: &Reason) -> Result<String, Memory> {
    let word = excerpt(alloc, &reason.word)?;
    let word = word.as_str();
    match nearest(alloc, reason.word.text.as_str(), keywords())? {
        Some(near) => Ok(format!(in alloc; "unknown keyword {word}; did you mean {near}?")?),
        None => Ok(format!(in alloc;
            "unknown keyword {word}; keywords are epoch, type, pieces, rpsl, stats, feed, \
overrides, drop, emit, report, mark, back and compact"
        )?),
    }
}

fn unknown_kind(alloc: Global, reason: &Reason) -> Result<String, Memory> {
    let word = excerpt(alloc, &reason.word)?;
    let word = word.as_str();
    match nearest(alloc, reason.word.text.as_str(), kinds())? {
        Some(near) => Ok(format!(in alloc; "unknown kind {word}; did you mean drop {near}?")?),
        None => Ok(format!(in alloc;
            "unknown kind {word}; the line is one of: drop rpsl SLOT, drop stats SLOT, \
drop feed URL or drop overrides"
        )?),
    }
}

fn unknown_command(alloc: Global, reason: &Reason) -> Result<String, Memory> {
    let word = excerpt(alloc, &reason.word)?;
    let word = word.as_str();
    if reason.word.text.as_str().starts_with("-") {
        return Ok(format!(in alloc;
            "unknown option {word}; options are -h, --help, -V and --version, each alone"
        )?);
    }
    match nearest(alloc, reason.word.text.as_str(), commands())? {
        Some(near) => Ok(format!(in alloc; "unknown command {word}; did you mean {near}?")?),
        None => Ok(format!(in alloc;
            "unknown command {word}; commands are build, lookup, explain, gen, publish, check \
and census"
        )?),
    }
}

// A word that is missing: the last of the form, where that has no other one that can be.
fn too_few(
    alloc: Global,
    before: &str,
    form: &'static str,
    operands: usize,
) -> Result<String, Memory> {
    let part = match operands {
        1 => last_part(form),
        _ => "a word",
    };
    Ok(format!(in alloc; "{part} is missing; {before}: {form}")?)
}

// A word that is one too many. Many a one begins a comment, or is the rest of a name.
fn too_many(
    alloc: Global,
    before: &str,
    form: &'static str,
    reason: &Reason,
) -> Result<String, Memory> {
    let word = reason.word.text.as_str();
    if reason.line > 0 && word.starts_with("#") {
        return Ok(format!(in alloc; "a comment needs a line of its own; {before}: {form}")?);
    }
    if word == "-h" || word == "--help" {
        return said(alloc, "--help stands alone: geofeed --help");
    }
    let word = excerpt(alloc, &reason.word)?;
    let blanks = if form.ends_with("FILE") {
        "; names have no blanks"
    } else {
        ""
    };
    Ok(format!(in alloc;
        "one word too many: {}; {before}: {form}{blanks}",
        word.as_str()
    )?)
}

fn word_words(
    alloc: Global,
    reason: &Reason,
    shape: Shape,
    fault: WordFault,
) -> Result<String, Memory> {
    match fault {
        WordFault::Address(fault) => address_words(alloc, reason, fault, form_of_command(reason)),
        WordFault::Block(BlockFault::HostBits) => host_bits_words(alloc, &reason.word),
        _ => {
            let what = shape_name(shape);
            let word = excerpt(alloc, &reason.word)?;
            let hint = word_hint(alloc, reason, fault)?;
            Ok(format!(in alloc; "{what} {} {fault}{}", word.as_str(), hint.as_str())?)
        }
    }
}

// What a word has to be, as a person calls it.
fn shape_name(shape: Shape) -> &'static str {
    match shape {
        Shape::Epoch => "the epoch",
        Shape::TypeName => "the database type",
        Shape::Pieces => "the number of pieces",
        Shape::Slot => "the name",
        Shape::File => "the file name",
        Shape::Url => "the URL",
        Shape::Address => "the address",
        Shape::Block => "the prefix",
        Shape::Count => "the number of lines",
    }
}
