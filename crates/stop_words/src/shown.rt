//! Words of a stranger as they are shown: nothing in them acts on a terminal, and none is endless;
//! and numbers as people write them.
ghost use Rattle.std.specs.Prelude.{◌≡◌, false};
ghost use Rattle.stop_words.specs.Letters.{acts};

use geo_addr::Memory;
use job_lines::Excerpt;
use std::alloc::Global;

/// The most characters of a word that are shown.
const MOST: usize = 100;

/// A word in quotes, as much of it as is shown.
pub(crate) fn quoted(alloc: Global, word: &str) -> Result<String, Memory> {
    let mut line = String::from_str(alloc, "\"")?;
    push_shown(&mut line, word)?;
    line.push('"')?;
    Ok(line)
}

/// The same of a word of which the beginning was kept.
pub(crate) fn excerpt(alloc: Global, word: &Excerpt) -> Result<String, Memory> {
    let mut line = String::from_str(alloc, "\"")?;
    push_shown(&mut line, word.text.as_str())?;
    if !word.whole {
        line.push_str("..")?;
    }
    line.push('"')?;
    Ok(line)
}

/// A word without quotes.
pub(crate) fn bare(alloc: Global, word: &str) -> Result<String, Memory> {
    let mut line = String::new(alloc);
    push_shown(&mut line, word)?;
    Ok(line)
}

fn push_shown(line: &mut String, word: &str) -> Result<(), Memory> {
    for (at, letter) in word.chars().enumerate() {
        if at == MOST {
            line.push_str("..")?;
            return Ok(());
        }
        line.push(visible(letter))?;
    }
    Ok(())
}

// The character, or another in place of one that a terminal acts on.
fn visible(letter: char) -> char
    ensures quiet { acts result ≡ false }
    ensures same { acts letter ≡ false → result ≡ letter }
{
    if acts(letter) { '\u{FFFD}' } else { letter }
}

// Whether a terminal acts on a character: controls, what turns the direction of a line, and what
// ends it.
fn acts(letter: char) -> bool
    ensures { result ≡ acts letter }
{
    match letter {
        '\0'..='\u{1F}' | '\u{7F}'..='\u{9F}' | '\u{61C}' => true,
        '\u{200E}'..='\u{200F}' | '\u{2028}'..='\u{202E}' => true,
        '\u{2066}'..='\u{2069}' => true,
        _ => false,
    }
}

/// The number with a comma before each three digits.
pub(crate) fn grouped(alloc: Global, number: u64) -> Result<String, Memory> {
    let digits = format!(in alloc; "{number}")?;
    let len = digits.len();
    let mut text = String::new(alloc);
    for (at, digit) in digits.chars().enumerate() {
        if at > 0 && at % 3 == len % 3 {
            text.push(',')?;
        }
        text.push(digit)?;
    }
    Ok(text)
}
