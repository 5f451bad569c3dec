//! The open group while a piece is read.
ghost use Rattle.std.specs.Prelude.{◌≡◌, ◌++◌, [], true, false, IfOk, OnOk};
ghost use Rattle.rpsl_reader.specs.Changes.{IsOpen, open_group, open_lines};
ghost use Rattle.rpsl_reader.specs.Reading.{ended_by, first_number, group_after, said_by};
ghost use Rattle.rpsl_reader.specs.Reading.{with_line};
ghost use Rattle.rpsl_reader.specs.Selections.{wanted};

use crate::item::Item;
use crate::limits::LONGEST;
use crate::line::{GroupLine, HeldLine, held_lines, is_comment, is_end};
use crate::object::push_items;
use crate::progress::{Ended, Progress};
use crate::seen::Sights;
use crate::selection::Selection;
use geo_addr::Memory;
use geo_terms::Rule;
use std::alloc::Global;
use std::marker::Model;

/// The open group while a piece is read: its lines that the reader holds, and those of the piece.
#[derive(Drop)]
pub(crate) struct Gathered<'a> {
    alloc: Global,
    held: &'a [HeldLine],
    // Whether the held lines are still in the group.
    keeps: bool,
    // The first line of the group, where it is too long; no line is kept of it then.
    first: Option<u64>,
    bytes: usize,
    lines: Vec<GroupLine<'a>>,
}

impl<'a> Model for Gathered<'a> {
    ghost use Rattle.std.specs.Prelude.{◌++◌, [], if◌then◌else◌};
    ghost use Rattle.rpsl_reader.specs.Changes.{Gathering, IsOpen};

    ghost Value = { Gathering };

    ghost view = { λ g. record {
      held = g.held.now;
      keeps = g.keeps;
      first = g.first;
      bytes = g.bytes;
      lines = g.lines.items;
    } };

    ghost invariant = { λ g.
        IsOpen g.first g.bytes ((if g.keeps then g.held.now else []) ++ g.lines.items) };
}

impl<'a> Gathered<'a> {
    /// The open group as the reader holds it; it takes no memory.
    pub fn of(alloc: Global, held: &'a [HeldLine], first: Option<u64>, bytes: usize) -> Gathered<'a>
        requires { IsOpen first bytes held.now }
        ensures { result
            ≡ record { held = held.now; keeps = true; first = first; bytes = bytes; lines = [] } }
    {
        Gathered {
            alloc,
            held,
            keeps: true,
            first,
            bytes,
            lines: Vec::new(alloc),
        }
    }

    /// Goes on with the next line of the text, and adds what the group says where the line ends it.
    #[tactic(auto, using(crate::proofs::Opens::line_kinds))]
    pub fn take(
        &mut self,
        selection: &Selection,
        number: u64,
        text: &'a [u8],
        found: &mut Sights<'a>,
    ) -> Result<(), Memory>
        ensures held { OnOk result (self.new.held ≡ self.old.held) }
        ensures group { OnOk result
            (open_group self.new ≡ group_after (open_group self.old) (number, text.entry.now)) }
        ensures found { OnOk result (found.new.items ≡ found.old.items
            ++ wanted selection.now (ended_by (open_group self.old) (number, text.entry.now))) }
    {
        if is_comment(text) {
            return Ok(());
        }
        if is_end(text) {
            self.say(selection, found)?;
            self.clear(None);
            return Ok(());
        }
        self.add(number, text)
    }

    // Adds a line that is in the group.
    fn add(&mut self, number: u64, text: &'a [u8]) -> Result<(), Memory>
        ensures held { OnOk result (self.new.held ≡ self.old.held) }
        ensures group { OnOk result
            (open_group self.new ≡ with_line (open_group self.old) (number, text.entry.now)) }
    {
        if self.first.is_some() {
            return Ok(());
        }
        if text.len() > LONGEST - self.bytes {
            let first = self.first_number(number);
            self.clear(Some(first));
            return Ok(());
        }
        self.lines.push(GroupLine { number, text })?;
        self.bytes += text.len();
        Ok(())
    }

    // Forgets the lines.
    fn clear(&mut self, first: Option<u64>)
        ensures { self.new
            ≡ record { held = self.old.held; keeps = false; first = first; bytes = 0; lines = [] } }
    {
        self.keeps = false;
        self.first = first;
        self.bytes = 0;
        self.lines.clear();
    }

    // The number of the first line, or the given one where there is none.
    fn first_number(&self, number: u64) -> u64
        ensures { result ≡ first_number (open_lines self.now) number }
    {
        if self.keeps {
            if let [line, ..] = self.held {
                return line.number;
            }
        }
        match self.lines.as_slice() {
            [line, ..] => line.number,
            [] => number,
        }
    }

    // Adds what the group says.
    fn say(&self, selection: &Selection, found: &mut Sights<'a>) -> Result<(), Memory>
        ensures { OnOk result (found.new.items
            ≡ found.old.items ++ wanted selection.now (said_by (open_group self.now))) }
    {
        if let Some(line) = self.first {
            return found.pass(line, Rule::P01);
        }
        if self.keeps && !self.held.is_empty() {
            let lines = self.whole()?;
            return push_items(self.alloc, selection, lines.as_slice(), found);
        }
        push_items(self.alloc, selection, self.lines.as_slice(), found)
    }

    // The held lines and those of the piece.
    fn whole(&self) -> Result<Vec<GroupLine<'a>>, Memory>
        ensures { IfOk result (λ lines. lines.items ≡ self.now.held ++ self.now.lines) }
    {
        let mut lines = Vec::with_capacity(self.alloc, self.held.len())?;
        push_held(self.held, &mut lines)?;
        push_lines(self.lines.as_slice(), &mut lines)?;
        Ok(lines)
    }

    /// What the piece changes, once its lines are read.
    pub fn progress<'p>(
        &self,
        fed: u64,
        ended: Ended<'p>,
        found: Vec<Item>,
    ) -> Result<Progress<'p>, Memory>
        ensures progress { IfOk result (λ progress. progress ≡ record {
          fed = fed;
          lines = ended.entry.lines;
          ended = true;
          tail = ended.entry.tail.now;
          keeps = self.now.keeps;
          first = self.now.first;
          bytes = self.now.bytes;
          more = self.now.lines;
          found = found.items;
        }) }
        ensures open { IsOpen self.now.first self.now.bytes (open_lines self.now) }
    {
        let more = held_lines(self.alloc, self.lines.as_slice())?;
        Ok(Progress {
            fed,
            lines: ended.lines,
            ended: true,
            tail: ended.tail,
            keeps: self.keeps,
            first: self.first,
            bytes: self.bytes,
            more,
            found,
        })
    }
}

// Adds the held lines.
fn push_held<'a>(held: &'a [HeldLine], lines: &mut Vec<GroupLine<'a>>) -> Result<(), Memory>
    ensures { OnOk result (lines.new.items ≡ lines.old.items ++ held.entry.now) }
{
    let mut left = held;
    while let [line, rest @ ..] = left {
        let number = line.number;
        let text = line.text.as_slice();
        lines.push(GroupLine { number, text })?;
        left = rest;
    }
    Ok(())
}

// Adds lines of the piece.
fn push_lines<'a>(more: &[GroupLine<'a>], lines: &mut Vec<GroupLine<'a>>) -> Result<(), Memory>
    ensures { OnOk result (lines.new.items ≡ lines.old.items ++ more.entry.now) }
{
    let mut left = more;
    while let [line, rest @ ..] = left {
        let number = line.number;
        let text = line.text;
        lines.push(GroupLine { number, text })?;
        left = rest;
    }
    Ok(())
}
