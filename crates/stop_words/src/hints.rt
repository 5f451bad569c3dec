//! What was meant by a word that is not what has to stand there.
ghost use Rattle.std.specs.Prelude.{◌≤◌, IfSome};

use crate::shown::{bare, excerpt, quoted};
use geo_addr::{
    Addr, AddrFault, Memory, addr_text, are_digits, cut_at, decimal, is_six, parse_addr, span_of,
};
use job_lines::{Excerpt, Reason, WordFault, is_name};
use std::alloc::Global;

/// What stands behind the words for a fault, or nothing.
pub(crate) fn word_hint(
    alloc: Global,
    reason: &Reason,
    fault: WordFault,
) -> Result<String, Memory> {
    let word = reason.word.text.as_str();
    match fault {
        WordFault::DotPart => dot_hint(alloc, word),
        WordFault::LowBlock => Ok(String::from_str(alloc, low_hint(word))?),
        WordFault::Url => url_hint(alloc, reason.line, word),
        WordFault::Count if !are_digits(word.as_bytes()) => Ok(String::from_str(
            alloc,
            "; usage: geofeed gen N FILE",
        )?),
        _ => Ok(String::new(alloc)),
    }
}

// The name without the parts `.` at its start, where that is a name.
fn dot_hint(alloc: Global, word: &str) -> Result<String, Memory> {
    match word.strip_prefix("./") {
        Some(rest) if is_name(rest.as_bytes()) => {
            let rest = quoted(alloc, rest)?;
            Ok(format!(in alloc; ": {}", rest.as_str())?)
        }
        _ => Ok(String::new(alloc)),
    }
}

fn low_hint(word: &str) -> &'static str {
    if word == "::/0" {
        return "; use 0.0.0.0/0 and 2000::/3, one at a time";
    }
    "; the IPv6 addresses begin at ::1:0:0"
}

fn url_hint(alloc: Global, line: u64, word: &str) -> Result<String, Memory> {
    if word.contains("/") && !word.contains("://") {
        let word = bare(alloc, word)?;
        return Ok(format!(in alloc; "; did you mean https://{}?", word.as_str())?);
    }
    if line == 0 {
        return Ok(String::from_str(alloc, "; it is the URL of a feed line of the job")?);
    }
    Ok(String::new(alloc))
}

/// Why a word is no address, and what is.
pub(crate) fn address_words(
    alloc: Global,
    reason: &Reason,
    fault: AddrFault,
    form: &'static str,
) -> Result<String, Memory> {
    let word = excerpt(alloc, &reason.word)?;
    let word = word.as_str();
    if parse_addr(reason.before.text.as_str().as_bytes()).is_ok() {
        return Ok(format!(in alloc; "the address comes last; usage: {form}")?);
    }
    let hint = address_hint(reason.word.text.as_str());
    if !hint.is_empty() {
        return Ok(format!(in alloc; "{word} is not an address; {hint}")?);
    }
    match fault {
        AddrFault::Form => Ok(format!(in alloc; "{word} is not an address")?),
        _ => Ok(format!(in alloc; "{word} is not an address: {fault}")?),
    }
}

fn address_hint(word: &str) -> &'static str {
    let (front, behind) = cut_at(word.as_bytes(), b'/');
    if behind.is_some() && parse_addr(front).is_ok() {
        return "give one address, without a length";
    }
    if word.starts_with("[") {
        return "leave out the brackets, and a port behind them";
    }
    let (front, behind) = cut_at(word.as_bytes(), b':');
    if behind.is_some() && parse_addr(front).is_ok() {
        return "leave out the port";
    }
    ""
}

/// That a prefix has a bit set behind its length, and the prefix that is meant.
pub(crate) fn host_bits_words(alloc: Global, word: &Excerpt) -> Result<String, Memory> {
    let shown = excerpt(alloc, word)?;
    let shown = shown.as_str();
    match meant_prefix(alloc, word.text.as_str())? {
        Some(meant) => Ok(format!(in alloc;
            "host bits are set in {shown}; the prefix is {}",
            meant.as_str()
        )?),
        None => Ok(format!(in alloc; "host bits are set in {shown}")?),
    }
}

// The prefix of this length in which the address lies.
fn meant_prefix(alloc: Global, word: &str) -> Result<Option<String>, Memory> {
    let (front, behind) = cut_at(word.as_bytes(), b'/');
    let Some(digits) = behind else {
        return Ok(None);
    };
    let (Ok(at), Some(length)) = (parse_addr(front), decimal(digits, 1, 3)) else {
        return Ok(None);
    };
    let six = is_six(front);
    let Some(bits) = bits_of(six, length) else {
        return Ok(None);
    };
    let first = at.0 & !span_of(bits);
    if six != (first >= 1 << 32) {
        return Ok(None);
    }
    let first = addr_text(alloc, Addr(first))?;
    Ok(Some(format!(in alloc; "{}/{length}", first.as_str())?))
}

// The length of a prefix of a family as that of a block.
fn bits_of(six: bool, length: u128) -> Option<u8>
    ensures { IfSome result (λ bits. bits ≤ 128) }
{
    if six {
        if length > 128 {
            return None;
        }
        return Some(length as u8);
    }
    if length > 32 {
        return None;
    }
    Some(length as u8 + 96)
}
