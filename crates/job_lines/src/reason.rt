//! Why a text is no job, and words are no command, for who has to mend it.
ghost use Rattle.std.specs.Prelude.{◌≡◌, ◌≤◌, length, true, IfOk};

use crate::fault::JobFault;
use crate::line_fault::LineFault;
use crate::names::is_text;
use crate::words::next_word;
use geo_addr::{Line, Lines, Memory, Text};
use std::alloc::Global;

/// The most characters that are kept of a word.
const MOST: usize = 100;

/// The first characters of a word, up to 100, and whether that is all of it.
#[derive(Debug, Drop)]
pub struct Excerpt {
    pub text: Text,
    pub whole: bool,
}

/// Why a line is refused.
#[derive(Debug, Drop)]
pub struct Reason {
    /// The number of the line in its job, or 0 for the words of the command line.
    pub line: u64,
    pub fault: LineFault,
    /// The line's first word.
    pub first: Excerpt,
    /// The word before the one of which the fault is said. It is empty where that is the first.
    pub before: Excerpt,
    /// The word of which the fault is said. It is empty where that word is missing.
    pub word: Excerpt,
}

/// Why a text is no job. Where there is no memory for the reason it has none.
#[derive(Debug, Drop)]
pub struct JobRefusal {
    pub fault: JobFault,
    pub reason: Option<Reason>,
}

impl Excerpt {
    fn of(alloc: Global, word: &[u8]) -> Result<Excerpt, Memory>
        ensures { IfOk result (λ e. e.whole ≡ true → e.text ≡ word.now) }
    {
        let end = end_of(word);
        match str::from_utf8(&word[..end]) {
            Ok(text) => Ok(Excerpt {
                text: Text::of(alloc, text)?,
                whole: end == word.len(),
            }),
            Err(_) => Ok(Excerpt {
                text: Text::of(alloc, "")?,
                whole: false,
            }),
        }
    }
}

// Where the characters end that are kept of a word: no byte within a character begins with `10`.
fn end_of(word: &[u8]) -> usize
    ensures { result ≤ length word.now }
{
    let mut left = MOST;
    for (at, byte) in word.iter().enumerate() {
        if byte & 0xC0 != 0x80 {
            if left == 0 {
                return at;
            }
            left -= 1;
        }
    }
    word.len()
}

impl Reason {
    /// Why the words of the command line are no command.
    pub fn of_words(alloc: Global, words: &[String], fault: LineFault) -> Result<Reason, Memory> {
        let at = fault.at() as usize;
        let before = if at == 0 { "" } else { word_of(words, at - 1) };
        Reason::of_word(alloc, fault, word_of(words, 0), before, word_of(words, at))
    }

    /// The same, of the first of these words, the one before the word that is refused, and that.
    pub fn of_word(
        alloc: Global,
        fault: LineFault,
        first: &str,
        before: &str,
        word: &str,
    ) -> Result<Reason, Memory> {
        Ok(Reason {
            line: 0,
            fault,
            first: Excerpt::of(alloc, first.as_bytes())?,
            before: Excerpt::of(alloc, before.as_bytes())?,
            word: Excerpt::of(alloc, word.as_bytes())?,
        })
    }

    // Why a line of a job is refused.
    fn of_line(alloc: Global, line: Line, fault: LineFault) -> Result<Reason, Memory> {
        let at = fault.at();
        Ok(Reason {
            line: line.number,
            fault,
            first: Excerpt::of(alloc, nth_word(line.text, 0))?,
            before: Excerpt::of(alloc, word_before(line.text, at))?,
            word: Excerpt::of(alloc, nth_word(line.text, at))?,
        })
    }
}

fn word_of(words: &[String], at: usize) -> &str {
    match words.get(at) {
        Some(word) => word.as_str(),
        None => "",
    }
}

// The word before the one of this number in a line, or nothing.
fn word_before(line: &[u8], at: u8) -> &[u8] {
    if at == 0 {
        return &[];
    }
    nth_word(line, at - 1)
}

// The word of this number in a line, or nothing.
fn nth_word(line: &[u8], at: u8) -> &[u8] {
    let mut left = line;
    for _ in 0..at {
        left = match next_word(left) {
            Some((_, rest)) => rest,
            None => return &[],
        };
    }
    match next_word(left) {
        Some((word, _)) => word,
        None => &[],
    }
}

impl JobRefusal {
    /// A fault that is of no line.
    pub(crate) fn of(fault: JobFault) -> JobRefusal
        ensures { result.fault ≡ fault }
    {
        JobRefusal {
            fault,
            reason: None,
        }
    }

    /// A line that is refused.
    pub(crate) fn at_line(alloc: Global, line: Line, fault: LineFault) -> JobRefusal
        ensures { result.fault ≡ JobFault.Line line.entry.number }
    {
        JobRefusal {
            fault: JobFault::Line(line.number),
            reason: Reason::of_line(alloc, line, fault).ok(),
        }
    }

    /// A text that is not UTF-8; its first line that is not is the reason.
    pub(crate) fn not_utf8(alloc: Global, bytes: &[u8]) -> JobRefusal
        ensures { result.fault ≡ JobFault.Utf8 }
    {
        JobRefusal {
            fault: JobFault::Utf8,
            reason: first_not_utf8(alloc, bytes),
        }
    }
}

fn first_not_utf8(alloc: Global, bytes: &[u8]) -> Option<Reason> {
    for line in Lines::of(bytes) {
        if !is_text(line.text) {
            return Reason::of_line(alloc, line, LineFault::Utf8).ok();
        }
    }
    None
}

impl From<JobFault> for JobRefusal {
    ghost use Rattle.std.specs.Prelude.{◌≡◌};

    ghost from_gives = { λ fault refusal. refusal.fault ≡ fault };

    fn from(fault: JobFault) -> JobRefusal {
        JobRefusal::of(fault)
    }
}
