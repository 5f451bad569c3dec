//! The lines of a text, with their numbers.
ghost use Rattle.std.specs.Prelude.{◌≡◌, ◌+◌, ◌-◌, ◌<◌, ◌≤◌, ◌^◌, ◌∷◌, ◌++◌, ◌==◌, length};
ghost use Rattle.std.specs.Prelude.{MatchOption, All, ◌≢◌};
ghost use Rattle.std.specs.Iterator.{YieldsFirstBy, item_count};
ghost use Rattle.std.specs.List.{position, position_or_len};
ghost use Rattle.std.specs.Option.{option_copied};
ghost use Rattle.geo_addr.specs.Lines.{is_blank, lines_of, numbered_lines, pieces, pieces_after};
ghost use Rattle.geo_addr.specs.Lines.{trimmed, trimmed_start, trimmed_end, without_mark};
ghost use Rattle.std.specs.Str.Lines.{strip_carriage_return};

use memchr::memchr;
use std::marker::Model;

/// The text before the first `separator`, and the text after it,
/// which is `None` where there is no separator.

pub fn cut_at(text: &[u8], separator: u8) -> (&[u8], Option<&[u8]>)
    ensures pieces { pieces separator text.now
        ≡ result.0.now ∷ pieces_after separator (option_copied result.1) }
    ensures free { All (λ b. b ≢ separator) result.0.now }
    ensures joined { MatchOption result.1
        (text.now ≡ result.0.now)
        (λ after. text.now ≡ result.0.now ++ separator ∷ after.now) }
{
    cut_there(text, separator, first_offset(text, separator))
}

/// The same of a text that is short as far as the separator: its bytes are looked at one by one.
pub fn cut_near(text: &[u8], separator: u8) -> (&[u8], Option<&[u8]>)
    ensures pieces { pieces separator text.now
        ≡ result.0.now ∷ pieces_after separator (option_copied result.1) }
    ensures free { All (λ b. b ≢ separator) result.0.now }
    ensures joined { MatchOption result.1
        (text.now ≡ result.0.now)
        (λ after. text.now ≡ result.0.now ++ separator ∷ after.now) }
{
    cut_there(text, separator, near_offset(text, separator))
}

// The text cut at its first separator, which stands at `offset`.
fn cut_there(text: &[u8], separator: u8, offset: usize) -> (&[u8], Option<&[u8]>)
    requires offset { offset ≡ position_or_len (λ b. b == separator) text.now }
    requires within { offset ≤ length text.now }
    ensures pieces { pieces separator text.now
        ≡ result.0.now ∷ pieces_after separator (option_copied result.1) }
    ensures free { All (λ b. b ≢ separator) result.0.now }
    ensures joined { MatchOption result.1
        (text.now ≡ result.0.now)
        (λ after. text.now ≡ result.0.now ++ separator ∷ after.now) }
{
    if offset == text.len() {
        return (text, None);
    }
    (&text[..offset], Some(&text[offset + 1..]))
}

// Where the byte stands first, or the text's length where it does not.
#[tactic(auto, using(crate::proofs::Cuts::finding))]
fn first_offset(text: &[u8], byte: u8) -> usize
    ensures offset { result ≡ position_or_len (λ b. b == byte) text.now }
    ensures within { result ≤ length text.now }
{
    match memchr(byte, text) {
        Some(offset) => offset,
        None => text.len(),
    }
}

// The same, where a call of `memchr` would cost more than a look at a few bytes.
fn near_offset(text: &[u8], byte: u8) -> usize
    ensures offset { result ≡ position_or_len (λ b. b == byte) text.now }
    ensures within { result ≤ length text.now }
{
    match found_near(text, byte) {
        Some(offset) => offset,
        None => text.len(),
    }
}

fn found_near(text: &[u8], byte: u8) -> Option<usize>
    ensures { result ≡ position (λ b. b == byte) text.now }
{
    text.iter().position(|b| *b == byte)
}

/// Whether the byte is a blank: a space or a tab.
pub fn is_blank(byte: u8) -> bool
    ensures { result ≡ is_blank byte }
{
    byte == b' ' || byte == b'\t'
}

/// The text without the blanks at both ends.
pub fn trim_blanks(text: &[u8]) -> &[u8]
    ensures { result.now ≡ trimmed text.now }
{
    trim_end(trim_start(text))
}

pub(crate) fn trim_start(text: &[u8]) -> &[u8]
    ensures { result.now ≡ trimmed_start text.now }
{
    let mut left = text;
    while let [first, rest @ ..] = left {
        if !is_blank(*first) {
            break;
        }
        left = rest;
    }
    left
}

pub(crate) fn trim_end(text: &[u8]) -> &[u8]
    ensures { result.now ≡ trimmed_end text.now }
{
    let mut left = text;
    while let [rest @ .., last] = left {
        if !is_blank(*last) {
            break;
        }
        left = rest;
    }
    left
}

/// The file without the byte order mark of UTF-8 at its start, if it has one.
pub fn skip_mark(file: &[u8]) -> &[u8]
    ensures { result.now ≡ without_mark file.now }
{
    match file {
        [0xEF, 0xBB, 0xBF, rest @ ..] => rest,
        _ => file,
    }
}

// The line that a piece between line feeds is: without the one carriage return at its end.
fn without_return(piece: &[u8]) -> &[u8]
    ensures { result.now ≡ strip_carriage_return piece.now }
{
    match piece {
        [line @ .., b'\r'] => line,
        _ => piece,
    }
}

/// A line of a file: its number, from 1, and its bytes without the line end.
#[derive(Clone, Copy, Debug)]
pub struct Line<'a> {
    pub number: u64,
    pub text: &'a [u8],
}

/// The lines of a file in order, each with its number.
///
/// Contracts see the list of the lines that are left, each a number and its bytes.
#[derive(Drop)]
pub struct Lines<'a> {
    // The number of the line before.
    number: u64,
    left: &'a [u8],
}

impl<'a> Model for Lines<'a> {
    ghost use Rattle.std.specs.Prelude.{ℕ, ◌+◌, ◌^◌, ◌<◌, List, length};
    ghost use Rattle.std.specs.List.{enumerate_from};
    ghost use Rattle.geo_addr.specs.Lines.{lines_of};

    ghost Value = { List (ℕ × List ℕ) };

    ghost view = { λ l. enumerate_from (l.number + 1) (lines_of l.left.now) };

    ghost invariant = { λ l. l.number + length l.left.now < 2 ^ 64 };
}

impl<'a> Lines<'a> {
    /// The lines of a file, after the byte order mark at its start, if it has one.
    pub fn of(file: &'a [u8]) -> Lines<'a>
        ensures { result ≡ numbered_lines file.now }
    {
        Lines {
            number: 0,
            left: skip_mark(file),
        }
    }
}

impl<'a> Iterator for Lines<'a> {
    type Item = Line<'a>;

    ghost next_gives = { YieldsFirstBy (λ line. (line.number, line.text.now)) (λ left. left) };

    ghost remaining = { item_count (λ left. left) };

    fn next(&mut self) -> Option<Line<'a>> {
        if self.left.is_empty() {
            return None;
        }
        let (text, after) = cut_line(self.left);
        self.left = after;
        self.number += 1;
        let number = self.number;
        Some(Line { number, text })
    }
}

// The first line of a text that is not empty, and what stands after its line feed.
fn cut_line(text: &[u8]) -> (&[u8], &[u8])
    requires { 0 < length text.now }
    ensures lines { lines_of text.now ≡ result.0.now ∷ lines_of result.1.now }
    ensures shorter { length result.1.now < length text.now }
{
    let (piece, after) = cut_at(text, b'\n');
    match after {
        Some(after) => (without_return(piece), after),
        None => (without_return(piece), &[]),
    }
}
