//! What stands behind the first word of a line, and why it is refused there.
ghost use Rattle.std.specs.Prelude.{◌≡◌, ◌⊎◌, ◌<◌, IfErr, IfOk, IsTrue, None, OnErr, OnOk, Some};
ghost use Rattle.std.specs.Prelude.{false, true};
ghost use Rattle.std.specs.Str.{is_utf8};
ghost use Rattle.job_lines.specs.Acts.{feed_key, file_alone, file_word, slot_alone, slot_and_file};
ghost use Rattle.job_lines.specs.Acts.{slot_file_words, slot_word, url_alone};
ghost use Rattle.job_lines.specs.Faults.{IsSaid};
ghost use Rattle.job_lines.specs.Words.{both, has_none, only, words};

use crate::line_fault::LineFault;
use crate::names::{name_fault, slot_fault};
use crate::word_fault::{Shape, WordFault};
use crate::words::next_word;
use feed_refs::{UrlRead, read_url};
use geo_addr::{Memory, Text};
use std::alloc::Global;

/// A text that has no words; the first one would have this number in its line.
pub(crate) fn nothing(rest: &[u8], at: u8) -> Result<(), LineFault>
    ensures ok { OnOk result (has_none (words rest.now) ≡ true) }
    ensures err { OnErr result (has_none (words rest.now) ≡ false) }
{
    match next_word(rest) {
        Some(_) => Err(LineFault::Many { at }),
        None => Ok(()),
    }
}

/// The word of a text that has one alone, whose number in its line is `at`.
pub(crate) fn only(rest: &[u8], at: u8) -> Result<&[u8], LineFault>
    requires { at < 255 }
    ensures ok { IfOk result (λ word. only (words rest.now) ≡ Some word.now) }
    ensures err { OnErr result (only (words rest.now) ≡ None) }
{
    let Some((word, more)) = next_word(rest) else {
        return Err(LineFault::Few { at });
    };
    match next_word(more) {
        Some(_) => Err(LineFault::Many { at: at + 1 }),
        None => Ok(word),
    }
}

/// The words of a text that has two alone, which are those of the numbers 1 and 2 of its line.
pub(crate) fn both(rest: &[u8]) -> Result<(&[u8], &[u8]), LineFault>
    ensures ok { IfOk result (λ found. both (words rest.now) ≡ Some (found.0.now, found.1.now)) }
    ensures err { OnErr result (both (words rest.now) ≡ None) }
{
    let Some((first, more)) = next_word(rest) else {
        return Err(LineFault::Few { at: 1 });
    };
    let Some((second, more)) = next_word(more) else {
        return Err(LineFault::Few { at: 2 });
    };
    match next_word(more) {
        Some(_) => Err(LineFault::Many { at: 3 }),
        None => Ok((first, second)),
    }
}

/// `FILE`
pub(crate) fn file_alone(alloc: Global, rest: &[u8]) -> Result<Text, LineFault>
    ensures ok { IfOk result (λ file. file_alone (words rest.now) ≡ Some file) }
    ensures err { IfErr result (λ why. (why ≡ LineFault.Memory)
        ⊎ (file_alone (words rest.now) ≡ None)) }
{
    let file = only(rest, 1)?;
    file_at(alloc, file, 1)
}

/// `SLOT`, of this number in its line.
pub(crate) fn slot_alone(alloc: Global, rest: &[u8], at: u8) -> Result<Text, LineFault>
    requires { at < 255 }
    ensures ok { IfOk result (λ slot. slot_alone (words rest.now) ≡ Some slot) }
    ensures err { IfErr result (λ why. (why ≡ LineFault.Memory)
        ⊎ (slot_alone (words rest.now) ≡ None)) }
{
    let slot = only(rest, at)?;
    slot_at(alloc, slot, at)
}

/// `URL`, of this number in its line.
pub(crate) fn url_alone(alloc: Global, rest: &[u8], at: u8) -> Result<Text, LineFault>
    requires { at < 255 }
    ensures ok { IfOk result (λ url. url_alone (words rest.now) ≡ Some url) }
    ensures err { IfErr result (λ why. (why ≡ LineFault.Memory)
        ⊎ (url_alone (words rest.now) ≡ None)) }
{
    let url = only(rest, at)?;
    url_at(alloc, url, at)
}

/// `SLOT FILE`
pub(crate) fn slot_and_file(alloc: Global, rest: &[u8]) -> Result<(Text, Text), LineFault>
    ensures ok { IfOk result (λ found. slot_and_file (words rest.now) ≡ Some found) }
    ensures err { IfErr result (λ why. (why ≡ LineFault.Memory)
        ⊎ (slot_and_file (words rest.now) ≡ None)) }
{
    let (slot, file) = both(rest)?;
    slot_file_words(alloc, slot, file)
}

fn slot_file_words(alloc: Global, slot: &[u8], file: &[u8]) -> Result<(Text, Text), LineFault>
    ensures ok { IfOk result (λ found. slot_file_words slot.now file.now ≡ Some found) }
    ensures err { IfErr result (λ why. (why ≡ LineFault.Memory)
        ⊎ (slot_file_words slot.now file.now ≡ None)) }
{
    let slot = slot_at(alloc, slot, 1)?;
    let file = file_at(alloc, file, 2)?;
    Ok((slot, file))
}

/// The name of a file that is the word of this number.
#[tactic(auto, using(crate::proofs::TextLemmas::words_are_texts))]
pub(crate) fn file_at(alloc: Global, word: &[u8], at: u8) -> Result<Text, LineFault>
    ensures ok { IfOk result (λ file. file_word word.now ≡ Some file) }
    ensures err { IfErr result (λ why. (why ≡ LineFault.Memory) ⊎ (file_word word.now ≡ None)) }
    ensures so { IfErr result (λ why. IsSaid why word.now) }
{
    match name_fault(word) {
        Some(fault) => Err(LineFault::Word {
            at,
            shape: Shape::File,
            fault,
        }),
        None => Ok(text_of(alloc, word)?),
    }
}

/// The slot that is the word of this number.
#[tactic(auto, using(crate::proofs::TextLemmas::words_are_texts))]
fn slot_at(alloc: Global, word: &[u8], at: u8) -> Result<Text, LineFault>
    ensures ok { IfOk result (λ slot. slot_word word.now ≡ Some slot) }
    ensures err { IfErr result (λ why. (why ≡ LineFault.Memory) ⊎ (slot_word word.now ≡ None)) }
    ensures so { IfErr result (λ why. IsSaid why word.now) }
{
    match slot_fault(word) {
        Some(fault) => Err(LineFault::Word {
            at,
            shape: Shape::Slot,
            fault,
        }),
        None => Ok(text_of(alloc, word)?),
    }
}

/// The key of a feed that is the word of this number: its https URL, serialised by the URL
/// Standard (RFC 9632, section 3).
pub fn url_at(alloc: Global, word: &[u8], at: u8) -> Result<Text, LineFault>
    ensures ok { IfOk result (λ key. feed_key word.now ≡ Some key) }
    ensures err { IfErr result (λ why. (why ≡ LineFault.Memory) ⊎ (feed_key word.now ≡ None)) }
    ensures so { IfErr result (λ why. IsSaid why word.now) }
{
    match read_url(alloc, word)? {
        UrlRead::Https(key) => Ok(key),
        UrlRead::Refused => Err(url_fault(at, WordFault::Url)),
        UrlRead::OtherScheme => Err(url_fault(at, WordFault::Scheme)),
    }
}

fn url_fault(at: u8, fault: WordFault) -> LineFault
    ensures { result ≡ LineFault.Word at Shape.Url fault }
{
    LineFault::Word {
        at,
        shape: Shape::Url,
        fault,
    }
}

/// The key of a feed, or `None` where a word is no https URL.
pub fn feed_key(alloc: Global, url: &[u8]) -> Result<Option<Text>, Memory>
    ensures { IfOk result (λ key. key ≡ feed_key url.now) }
{
    match url_at(alloc, url, 0) {
        Ok(key) => Ok(Some(key)),
        Err(LineFault::Memory) => Err(Memory),
        Err(_) => Ok(None),
    }
}

/// The text that a word is which is known to be UTF-8.
#[tactic(auto, using(crate::proofs::TextLemmas::text_tests))]
pub(crate) fn text_of(alloc: Global, word: &[u8]) -> Result<Text, Memory>
    requires { IsTrue (is_utf8 word.now) }
    ensures { IfOk result (λ text. text ≡ word.now) }
{
    match str::from_utf8(word) {
        Ok(text) => Text::of(alloc, text),
        Err(_) => unreachable!(),
    }
}
