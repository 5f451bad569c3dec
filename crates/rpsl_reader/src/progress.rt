//! What a piece changes, before the reader accepts it.
ghost use Rattle.std.specs.Prelude.{◌≡◌, ◌++◌, [], OnOk, OnErr};

use crate::item::Item;
use crate::line::HeldLine;
use geo_addr::Memory;
use std::marker::Model;

/// How many lines have ended, and what stands behind the last line feed.
#[derive(Drop)]
pub(crate) struct Ended<'a> {
    pub lines: u64,
    pub tail: &'a [u8],
}

/// What reading a piece gives and changes, before the reader takes it.
#[derive(Debug, Drop)]
pub struct Progress<'a> {
    pub(crate) fed: u64,
    pub(crate) lines: u64,
    // Whether a line ended in the piece, so that the tail begins one.
    pub(crate) ended: bool,
    pub(crate) tail: &'a [u8],
    // Whether the lines that the reader holds are still in the open group.
    pub(crate) keeps: bool,
    // The first line of the open group, where it is too long.
    pub(crate) first: Option<u64>,
    pub(crate) bytes: usize,
    pub(crate) more: Vec<HeldLine>,
    pub(crate) found: Vec<Item>,
}

impl<'a> Model for Progress<'a> {
    ghost use Rattle.rpsl_reader.specs.Changes.{Change};

    ghost Value = { Change };

    ghost view = { λ p. record {
      fed = p.fed;
      lines = p.lines;
      ended = p.ended;
      tail = p.tail.now;
      keeps = p.keeps;
      first = p.first;
      bytes = p.bytes;
      more = p.more.items;
      found = p.found.items;
    } };
}

impl<'a> Progress<'a> {
    /// The items of the groups that end in the piece.
    pub fn items(&self) -> &[Item]
        ensures { result.now ≡ self.now.found }
    {
        self.found.as_slice()
    }

    /// The same with copies of items.
    pub(crate) fn with(self, found: Vec<Item>) -> Progress<'a>
        ensures { result ≡ record self.entry { found = found.items } }
    {
        let mut progress = self;
        progress.found = found;
        progress
    }

    /// Moves the items to the end of `out`.
    pub(crate) fn give(&mut self, out: &mut Vec<Item>) -> Result<(), Memory>
        ensures items { OnOk result (out.new.items ≡ out.old.items ++ self.old.found) }
        ensures rest { OnOk result (self.new ≡ record self.old { found = [] }) }
        ensures err_items { OnErr result (out.new.items ≡ out.old.items) }
    {
        out.append(&mut self.found).map_err(Memory::from)
    }
}
