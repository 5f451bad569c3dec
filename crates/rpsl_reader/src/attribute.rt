//! The attributes that the lines of an object make.
ghost use Rattle.std.specs.Prelude.{◌≡◌, ◌≤◌, ◌∷◌, ◌++◌, [], false, not, length, map, IfOk, OnOk};
ghost use Rattle.std.specs.Prelude.{IsTrue, MatchOption, filter, true};
ghost use Rattle.std.specs.Char.{to_ascii_lowercase};
ghost use Rattle.std.specs.List.{list_any, position, position_or_len};
ghost use Rattle.rpsl_reader.specs.Attributes.{HasSides, attribute, attribute_in, attributes};
ghost use Rattle.rpsl_reader.specs.Attributes.{continued, is_attribute, is_name, is_name_byte};
ghost use Rattle.rpsl_reader.specs.Attributes.{is_stray, may_begin, name_of, said_of};
ghost use Rattle.rpsl_reader.specs.Selections.{wants_name};

use crate::front::{TOGETHER, lacks_hash, plain_front};
use crate::limits::LONGEST_NAME;
use crate::line::{GroupLine, continues, cut_first, without_first};
use crate::seen::{AttributeSight, Said};
use crate::selection::Selection;
use geo_addr::{Memory, Text, trim_blanks};
use std::alloc::Global;

/// The two sides of the first colon of a line that begins an attribute.
#[derive(Clone, Copy)]
pub(crate) struct Sides<'a> {
    pub name: &'a [u8],
    pub value: &'a [u8],
}

/// The sides of a line that begins an attribute, and none of another line.
pub(crate) fn sides_of(line: &[u8]) -> Option<Sides<'_>>
    ensures { MatchOption result (is_attribute line.now ≡ false)
        (λ sides. HasSides line.now sides.name.now sides.value.now) }
{
    let (name, rest) = line.split_at(name_end(line));
    let [stop, value @ ..] = rest else {
        return None;
    };
    if *stop != b':' || !may_begin(name) {
        return None;
    }
    Some(Sides { name, value })
}

// Where the bytes of a name end: mostly at a colon behind bytes that are looked at together.
fn name_end(line: &[u8]) -> usize
    ensures end { result ≡ position_or_len (λ b. not (is_name_byte b)) line.now }
    ensures within { result ≤ length line.now }
{
    if TOGETHER <= line.len() {
        let end = plain_front(line);
        if end < line.len() && line[end] == b':' {
            return end;
        }
    }
    match other_byte(line) {
        Some(end) => end,
        None => line.len(),
    }
}

// The offset of the first byte that may not stand in a name.
fn other_byte(line: &[u8]) -> Option<usize>
    ensures { result ≡ position (λ b. not (is_name_byte b)) line.now }
{
    line.iter().position(|byte| !is_name_byte(*byte))
}

// Whether bytes that may all stand in a name are one.
fn may_begin(name: &[u8]) -> bool
    ensures { result ≡ may_begin name.now }
{
    match name {
        [first, rest @ ..] => first.is_ascii_alphabetic() && rest.len() <= LONGEST_NAME,
        [] => false,
    }
}

fn is_name_byte(byte: u8) -> bool
    ensures { result ≡ is_name_byte byte }
{
    byte.is_ascii_alphanumeric() || byte == b'-' || byte == b'_'
}

// Whether a line begins an attribute by its first bytes: a small letter, and then others, digits
// and hyphens up to a colon.
#[inline(always)]
fn is_plain(line: &[u8]) -> bool
    ensures { result ≡ true → is_attribute line.now ≡ true }
{
    if line.len() < TOGETHER || !line[0].is_ascii_lowercase() {
        return false;
    }
    let end = plain_front(line);
    end < line.len() && line[end] == b':'
}

// Whether a line begins an attribute by its first bytes, and its first letter is that of no wanted
// name.
#[inline(always)]
fn is_passed(selection: &Selection, line: &[u8]) -> bool
    ensures attribute { result ≡ true → is_attribute line.now ≡ true }
    ensures unwanted { result ≡ true → wants_name selection.now (name_of line.now) ≡ false }
{
    match line {
        [first, ..] => { first.is_ascii_lowercase() && selection.lacks(*first) && is_plain(line) }
        [] => false,
    }
}

/// Whether a line neither begins an attribute nor continues one.
pub(crate) fn is_stray(line: &[u8]) -> bool
    ensures { result ≡ is_stray line.now }
{
    !is_plain(line) && !continues(line) && sides_of(line).is_none()
}

/// A name in lower case.
pub(crate) fn lower_name(alloc: Global, name: &[u8]) -> Result<Text, Memory>
    requires { IsTrue (is_name name.now) }
    ensures { IfOk result (λ text. text ≡ map to_ascii_lowercase name.now) }
{
    match str::from_utf8(name) {
        Ok(text) => {
            let mut lower = String::from_str(alloc, text)?;
            lower.make_ascii_lowercase();
            Text::from_string(lower)
        }
        Err(_) => unreachable!(),
    }
}

// The value that begins behind a colon, with the lines that continue it.
fn value_of<'a>(alloc: Global, first: &'a [u8], lines: &[GroupLine]) -> Result<Said<'a>, Memory>
    ensures { IfOk result (λ value. value ≡ continued (said_of first.entry.now) lines.now) }
{
    let mut value = Said::of(alloc, said_of(first));
    continue_value(&mut value, lines)?;
    Ok(value)
}

// What a text says before its first `#`.
#[tactic(auto, unfolding(crate::specs::Attributes::said_of))]
fn said_of(text: &[u8]) -> &[u8]
    ensures { result.now ≡ said_of text.now }
{
    if lacks_hash(text) {
        return trim_blanks(text);
    }
    let (said, _) = cut_first(text, b'#');
    trim_blanks(said)
}

// Goes on with a value as far as the lines continue it.
#[tactic(auto, unfolding(crate::specs::Attributes::continued))]
fn continue_value(value: &mut Said, lines: &[GroupLine]) -> Result<(), Memory>
    ensures { OnOk result (value.new ≡ continued value.old lines.now) }
{
    let mut left = lines;
    while let [line, rest @ ..] = left {
        if is_plain(line.text) {
            return Ok(());
        }
        if continues(line.text) {
            value.join(said_of(without_first(line.text)))?;
        } else if sides_of(line.text).is_some() {
            return Ok(());
        }
        left = rest;
    }
    Ok(())
}

/// Adds the attributes of some lines, as far as they are wanted, and says whether a line is stray.
#[tactic(auto, unfolding(crate::specs::Attributes::attributes))]
pub(crate) fn push_attributes<'a>(
    alloc: Global,
    selection: &Selection,
    lines: &[GroupLine<'a>],
    parts: &mut Vec<AttributeSight<'a>>,
) -> Result<bool, Memory>
    ensures parts { OnOk result (parts.new.items
        ≡ parts.old.items ++ filter (λ a. wants_name selection.now a.name) (attributes lines.now)) }
    ensures strays { IfOk result (λ strays. strays ≡ list_any (λ l. is_stray l.1) lines.now) }
{
    let mut left = lines;
    let mut strays = false;
    while let [line, rest @ ..] = left {
        if push_line(alloc, selection, line, rest, parts)? {
            strays = true;
        }
        left = rest;
    }
    Ok(strays)
}

// Adds the attribute that a line begins, where it is wanted, or says whether the line is stray.
fn push_line<'a>(
    alloc: Global,
    selection: &Selection,
    line: &GroupLine<'a>,
    lines: &[GroupLine<'a>],
    parts: &mut Vec<AttributeSight<'a>>,
) -> Result<bool, Memory>
    ensures parts { OnOk result (parts.new.items ≡ parts.old.items
        ++ filter (λ a. wants_name selection.now a.name) (attribute_in line.now lines.now)) }
    ensures stray { IfOk result (λ stray. stray ≡ is_stray line.now.1) }
{
    if is_passed(selection, line.text) {
        return Ok(false);
    }
    match sides_of(line.text) {
        Some(sides) => {
            push_attribute(alloc, selection, line, sides, lines, parts)?;
            Ok(false)
        }
        None => Ok(!continues(line.text)),
    }
}

// Adds the attribute that a line begins, where it is wanted.
fn push_attribute<'a>(
    alloc: Global,
    selection: &Selection,
    line: &GroupLine<'a>,
    sides: Sides<'a>,
    lines: &[GroupLine<'a>],
    parts: &mut Vec<AttributeSight<'a>>,
) -> Result<(), Memory>
    requires { HasSides line.now.1 sides.name.now sides.value.now }
    ensures { OnOk result (parts.new.items ≡ parts.old.items
        ++ filter (λ a. wants_name selection.now a.name) (attribute line.now lines.now ∷ [])) }
{
    match selection.attribute_name(alloc, sides.name)? {
        Some(name) => push_named(alloc, name, line, sides.value, lines, parts),
        None => Ok(()),
    }
}

/// Adds the attribute of a name whose value begins on a line.
pub(crate) fn push_named<'a>(
    alloc: Global,
    name: Text,
    line: &GroupLine<'a>,
    first: &'a [u8],
    lines: &[GroupLine<'a>],
    parts: &mut Vec<AttributeSight<'a>>,
) -> Result<(), Memory>
    ensures { OnOk result (parts.new.items ≡ parts.old.items ++ record {
      name = name;
      value = continued (said_of first.entry.now) lines.now;
      line = line.now.0;
    } ∷ []) }
{
    let value = value_of(alloc, first, lines)?;
    let line = line.number;
    let part = AttributeSight { name, value, line };
    parts.push(part).map_err(Memory::from)
}
