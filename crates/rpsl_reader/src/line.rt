//! The lines of a text, and what kind each is.
ghost use Rattle.std.specs.Prelude.{◌≡◌, ◌≢◌, ◌∷◌, ◌++◌, All, IfOk, MatchOption, drop, false};
ghost use Rattle.std.specs.Prelude.{true};
ghost use Rattle.std.specs.Str.Lines.{strip_carriage_return};
ghost use Rattle.std.specs.Option.{option_copied};
ghost use Rattle.geo_addr.specs.Prefixes.{cut_first};
ghost use Rattle.rpsl_reader.specs.Attributes.{continues, is_comment, is_end};
ghost use Rattle.rpsl_reader.specs.Reading.{line_of};

use crate::front::{WIDE, feed_among};
use geo_addr::{Bytes, Memory, cut_at, is_blank, skip_mark};
use std::alloc::Global;
use std::marker::Model;

/// A line of an open group in a piece, as contracts see it a number and its bytes.
#[derive(Drop)]
pub(crate) struct GroupLine<'a> {
    pub number: u64,
    pub text: &'a [u8],
}

impl<'a> Model for GroupLine<'a> {
    ghost use Rattle.std.specs.Prelude.{ℕ, List};

    ghost Value = { ℕ × List ℕ };

    ghost view = { λ l. (l.number, l.text.now) };
}

/// A line that is kept from one piece to the next.
#[derive(Debug, Drop)]
pub(crate) struct HeldLine {
    pub number: u64,
    pub text: Bytes,
}

impl Model for HeldLine {
    ghost use Rattle.std.specs.Prelude.{ℕ, List};

    ghost Value = { ℕ × List ℕ };

    ghost view = { λ l. (l.number, l.text) };
}

/// The text of the so-manyth line, which stands between two line feeds.
#[tactic(auto, unfolding(crate::specs::Reading::line_of))]
pub(crate) fn text_of(number: u64, piece: &[u8]) -> &[u8]
    ensures { line_of number piece.now ≡ (number, result.now) }
{
    if number == 1 {
        return without_return(skip_mark(piece));
    }
    without_return(piece)
}

// A line without the one carriage return at its end.
fn without_return(piece: &[u8]) -> &[u8]
    ensures { result.now ≡ strip_carriage_return piece.now }
{
    match piece {
        [line @ .., b'\r'] => line,
        _ => piece,
    }
}

/// Whether a line is passed over as if it were not there.
pub(crate) fn is_comment(line: &[u8]) -> bool
    ensures { result ≡ is_comment line.now }
{
    match line {
        [first, ..] => *first == b'%' || *first == b'#',
        [] => false,
    }
}

/// Whether a line ends an object.
pub(crate) fn is_end(line: &[u8]) -> bool
    ensures { result ≡ is_end line.now }
{
    if begins_plain(line) {
        return false;
    }
    line.iter().all(|byte| is_blank(*byte))
}

// Whether a line begins with a byte behind the blanks and the signs of comments: most do.
fn begins_plain(line: &[u8]) -> bool
    ensures { result ≡ true → is_end line.now ≡ false }
{
    match line {
        [first, ..] => *first > b'%',
        [] => false,
    }
}

/// Whether a line goes on with the attribute before it.
pub(crate) fn continues(line: &[u8]) -> bool
    ensures { result ≡ continues line.now }
{
    match line {
        [first, ..] => is_blank(*first) || *first == b'+',
        [] => false,
    }
}

/// A line without its first byte.
pub(crate) fn without_first(line: &[u8]) -> &[u8]
    ensures { result.now ≡ drop 1 line.now }
{
    match line {
        [_, rest @ ..] => rest,
        [] => line,
    }
}

/// What stands before the first `separator` of a text, and what stands behind it.
pub(crate) fn cut_first(text: &[u8], separator: u8) -> (&[u8], Option<&[u8]>)
    ensures { cut_first separator text.now ≡ (result.0.now, option_copied result.1) }
{
    cut_at(text, separator)
}

/// The text before its first line feed, which is mostly near, and what stands behind it.
#[inline(always)]
pub(crate) fn cut_line(text: &[u8]) -> (&[u8], Option<&[u8]>)
    ensures free { All (λ b. b ≢ 10) result.0.now }
    ensures joined { MatchOption result.1
        (text.now ≡ result.0.now)
        (λ after. text.now ≡ result.0.now ++ 10 ∷ after.now) }
{
    if WIDE <= text.len() {
        let end = feed_among(text);
        if end < WIDE {
            return (&text[..end], Some(&text[end + 1..]));
        }
    }
    cut_at(text, b'\n')
}

/// Copies of lines, to be kept.
pub(crate) fn held_lines(alloc: Global, lines: &[GroupLine]) -> Result<Vec<HeldLine>, Memory>
    ensures { IfOk result (λ copies. copies.items ≡ lines.now) }
{
    let mut copies = Vec::with_capacity(alloc, lines.len())?;
    let mut left = lines;
    while let [line, rest @ ..] = left {
        let text = Bytes::of(alloc, line.text)?;
        let number = line.number;
        copies.push(HeldLine { number, text })?;
        left = rest;
    }
    Ok(copies)
}
