//! Tails of the files that were read so far, which lines of later files have as well.
ghost use Rattle.std.specs.Prelude.{IfSome};
ghost use Rattle.csv_lines.specs.Tails.{IsTail};

use crate::tails::{LineCut, mark_of};
use geo_addr::Memory;
use geo_terms::{Place, same_bytes};
use std::alloc::Global;
use std::marker::Model;
use std::mem;

/// The longest tail that is known to later files, in bytes. Few are longer.
const LONGEST_KNOWN: usize = 256;

/// How many slots there are once a tail is known.
const LEAST_SLOTS: usize = 4_096;

/// How many slots there are at most.
const MOST_SLOTS: usize = 65_536;

/// A tail with bytes of its own, and the place that each line with this tail says.
#[derive(Debug, Drop)]
pub struct OwnTail {
    text: Vec<u8>,
    place: Place,
}

impl Model for OwnTail {
    ghost use Rattle.std.specs.Prelude.{ℕ, List};
    ghost use Rattle.geo_terms.specs.PlaceForm.{PlaceParts};
    ghost use Rattle.csv_lines.specs.Tails.{IsTail};

    ghost Value = { List ℕ × PlaceParts };

    ghost view = { λ t. (t.text.items, t.place) };

    ghost invariant = { λ t. IsTail t.text.items t.place };
}

impl OwnTail {
    // The tail with these bytes, where it is short enough to be known to later files.
    pub(crate) fn of(alloc: Global, text: &[u8], place: &Place) -> Result<Option<OwnTail>, Memory>
        requires { IsTail text.now place.now }
    {
        if text.len() > LONGEST_KNOWN {
            return Ok(None);
        }
        let mut bytes = Vec::with_capacity(alloc, text.len())?;
        bytes.extend_from_slice(text)?;
        let place = place.copied()?;
        Ok(Some(OwnTail { text: bytes, place }))
    }

    // The place of this tail, where it is that of the line.
    fn place_of(&self, cut: &LineCut) -> Option<&Place>
        ensures { IfSome result (λ place. IsTail cut.now.tail place.now) }
    {
        if same_bytes(self.text.as_slice(), cut.tail) {
            Some(&self.place)
        } else {
            None
        }
    }
}

/// Tails of the files that were read so far, and the places that they say. Most feeds name places
/// that others do, and all lines with one tail share one place.
///
/// Which tails it holds changes no answer. A tail has two slots, that of its mark and the one
/// beside it, and one that comes when both are taken puts the older one out. So strangers can have
/// lines read by their fields, and no more.
#[derive(Debug, Drop)]
pub struct KnownTails {
    slots: Vec<Option<OwnTail>>,
    last: u64,
    // How many tails came since the slots were made.
    held: usize,
}

impl KnownTails {
    /// No tail yet; it takes no memory.
    pub fn new(alloc: Global) -> KnownTails {
        KnownTails {
            slots: Vec::new(alloc),
            last: 0,
            held: 0,
        }
    }

    // The place that a line says by its tail, where that is known.
    pub(crate) fn place_of(&self, cut: &LineCut) -> Option<&Place>
        ensures { IfSome result (λ place. IsTail cut.now.tail place.now) }
    {
        let slot = (cut.mark & self.last) as usize;
        match self.in_slot(slot)?.place_of(cut) {
            Some(place) => Some(place),
            None => self.in_slot(slot ^ 1)?.place_of(cut),
        }
    }

    // The tail that has this slot.
    fn in_slot(&self, slot: usize) -> Option<&OwnTail> {
        match self.slots.get(slot) {
            Some(Some(tail)) => Some(tail),
            _ => None,
        }
    }

    // Whether a slot has this tail.
    fn is_in(&self, slot: usize, tail: &OwnTail) -> bool {
        match self.in_slot(slot) {
            Some(other) => other.text.as_slice() == tail.text.as_slice(),
            None => false,
        }
    }

    /// Takes tails in that came new in a file. Whether it holds each from then on, no clause says.
    pub fn learn(&mut self, tails: Vec<OwnTail>) -> Result<(), Memory> {
        for tail in tails {
            self.make_room()?;
            self.put(tail);
        }
        Ok(())
    }

    // Makes more slots where half of them may be taken, up to the most.
    fn make_room(&mut self) -> Result<(), Memory> {
        let count = self.slots.len();
        if self.held < count / 2 || count >= MOST_SLOTS {
            return Ok(());
        }
        let count = (count.saturating_mul(4)).max(LEAST_SLOTS);
        let mut slots = Vec::with_capacity(*self.slots.allocator(), count)?;
        for _ in 0..count {
            slots.push(None)?;
        }
        let before = mem::replace(&mut self.slots, slots);
        self.last = count.saturating_sub(1) as u64;
        self.held = 0;
        self.put_all(before);
        Ok(())
    }

    // Puts tails into slots that had others.
    fn put_all(&mut self, slots: Vec<Option<OwnTail>>) {
        for slot in slots {
            if let Some(tail) = slot {
                self.put(tail);
            }
        }
    }

    // Puts a tail into its slot, and what was there into the one beside it, if neither has it.
    fn put(&mut self, tail: OwnTail) {
        let slot = (mark_of(tail.text.as_slice()) & self.last) as usize;
        if self.is_in(slot, &tail) || self.is_in(slot ^ 1, &tail) {
            return;
        }
        self.held = self.held.saturating_add(1);
        let Some(before) = put_in(&mut self.slots, slot, tail) else {
            return;
        };
        let _oldest = put_in(&mut self.slots, slot ^ 1, before);
    }
}

// Puts a tail into a slot, and gives what was there.
fn put_in(slots: &mut Vec<Option<OwnTail>>, slot: usize, tail: OwnTail) -> Option<OwnTail> {
    let held = slots.get_mut(slot)?;
    mem::replace(held, Some(tail))
}
