//! Names of files, of slots and of a database type.
ghost use Rattle.std.specs.Prelude.{◌≡◌, [], true, IfSome, is_none};
ghost use Rattle.std.specs.List.{list_all};
ghost use Rattle.std.specs.Str.{is_utf8};
ghost use Rattle.geo_addr.specs.Lines.{pieces};
ghost use Rattle.job_lines.specs.Faults.{IsSo, has_part, is_absolute};
ghost use Rattle.job_lines.specs.Names.{is_name, is_name_byte, is_part, is_slot, is_slot_byte};
ghost use Rattle.job_lines.specs.Names.{is_type_name, is_visible};

use crate::word_fault::WordFault;
use geo_addr::{cut_at, is_blank};

/// The most bytes of a file's name.
const LONGEST_NAME: usize = 255;

/// The most bytes of a slot and of a database type.
const LONGEST_WORD: usize = 64;

/// Whether a word is the name of a file: UTF-8, 1 to 255 bytes without blanks and line ends, of
/// parts between single `/`, none of which is empty, `.` or `..`.
pub fn is_name(word: &[u8]) -> bool
    ensures { result ≡ is_name word.now }
{
    name_fault(word).is_none()
}

/// What is wrong with the name of a file, or `None` where it is one.
#[tactic(auto, unfolding(crate::specs::Names::is_name))]
pub fn name_fault(word: &[u8]) -> Option<WordFault>
    ensures found { is_none result ≡ is_name word.now }
    ensures so { IfSome result (λ fault. IsSo fault word.now) }
{
    if word.is_empty() {
        return Some(WordFault::Empty);
    }
    if word.len() > LONGEST_NAME {
        return Some(WordFault::LongName);
    }
    if !is_text(word) {
        return Some(WordFault::Utf8);
    }
    if !has_name_bytes(word) {
        return Some(WordFault::Blank);
    }
    parts_fault(word)
}

/// Whether bytes are UTF-8.
#[tactic(auto, using(crate::proofs::TextLemmas::text_tests))]
pub(crate) fn is_text(word: &[u8]) -> bool
    ensures { result ≡ is_utf8 word.now }
{
    match str::from_utf8(word) {
        Ok(_) => true,
        Err(_) => false,
    }
}

// Whether the bytes of a word may stand in the name of a file: there are no blanks and line ends.
fn has_name_bytes(word: &[u8]) -> bool
    ensures { result ≡ list_all is_name_byte word.now }
{
    word.iter().all(|b| is_name_byte(*b))
}

fn is_name_byte(byte: u8) -> bool
    ensures { result ≡ is_name_byte byte }
{
    !(is_blank(byte) || byte == b'\n' || byte == b'\r')
}

// What is wrong with the first part that is none.
#[tactic(auto, using(crate::proofs::NameLemmas::parts))]
fn parts_fault(word: &[u8]) -> Option<WordFault>
    ensures found { is_none result ≡ list_all is_part (pieces 47 word.now) }
    ensures so { IfSome result (λ fault. IsSo fault word.now) }
{
    let mut left = word;
    'parts: loop {
        let (part, after) = cut_at(left, b'/');
        if part.is_empty() {
            return Some(empty_fault(word));
        }
        if part == b".".as_slice() {
            return Some(WordFault::DotPart);
        }
        if part == b"..".as_slice() {
            return Some(WordFault::UpPart);
        }
        let Some(rest) = after else {
            return None;
        };
        left = rest;
    }
}

// A name with an empty part is absolute where that stands at its start.
fn empty_fault(word: &[u8]) -> WordFault
    requires { has_part [] word.now ≡ true }
    ensures { IsSo result word.now }
{
    if is_absolute(word) {
        return WordFault::Absolute;
    }
    WordFault::EmptyPart
}

fn is_absolute(word: &[u8]) -> bool
    ensures { result ≡ is_absolute word.now }
{
    match word {
        [first, ..] => *first == b'/',
        [] => false,
    }
}

/// Whether a word is a slot: 1 to 64 ASCII letters, digits, `-`, `_` and `.`.
pub fn is_slot(word: &[u8]) -> bool
    ensures { result ≡ is_slot word.now }
{
    slot_fault(word).is_none()
}

/// What is wrong with a slot.
#[tactic(auto, unfolding(crate::specs::Names::is_slot))]
pub(crate) fn slot_fault(word: &[u8]) -> Option<WordFault>
    ensures found { is_none result ≡ is_slot word.now }
    ensures so { IfSome result (λ fault. IsSo fault word.now) }
{
    if word.is_empty() {
        return Some(WordFault::Empty);
    }
    if word.len() > LONGEST_WORD {
        return Some(WordFault::LongWord);
    }
    if !has_slot_bytes(word) {
        return Some(WordFault::SlotByte);
    }
    None
}

// Whether the bytes of a word may stand in a slot.
fn has_slot_bytes(word: &[u8]) -> bool
    ensures { result ≡ list_all is_slot_byte word.now }
{
    word.iter().all(|b| b.is_ascii_alphanumeric() || *b == b'-' || *b == b'.' || *b == b'_')
}

/// What is wrong with a database type, which has 1 to 64 bytes from `!` to `~`.
#[tactic(auto, unfolding(crate::specs::Names::is_type_name))]
pub(crate) fn type_fault(word: &[u8]) -> Option<WordFault>
    ensures found { is_none result ≡ is_type_name word.now }
    ensures so { IfSome result (λ fault. IsSo fault word.now) }
{
    if word.is_empty() {
        return Some(WordFault::Empty);
    }
    if word.len() > LONGEST_WORD {
        return Some(WordFault::LongWord);
    }
    if !has_visible_bytes(word) {
        return Some(WordFault::TypeByte);
    }
    None
}

// Whether the bytes of a word may stand in a database type.
fn has_visible_bytes(word: &[u8]) -> bool
    ensures { result ≡ list_all is_visible word.now }
{
    word.iter().all(|b| *b >= b'!' && *b <= b'~')
}
