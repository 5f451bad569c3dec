//! Lines that end as an earlier line of their file did, behind their first field.
ghost use Rattle.std.specs.Prelude.{◌≡◌, ℕ, List, IfSome, IsSome};
ghost use Rattle.std.specs.List.{prefix_len};
ghost use Rattle.csv_lines.specs.Tails.{IsCut, IsTail, SaysBare, is_word};

use crate::known::{KnownTails, OwnTail};
use geo_addr::{Memory, trim_blanks};
use geo_terms::{Place, mixed, same_bytes};
use std::alloc::Global;
use std::collections::BTreeMap;
use std::marker::Model;
use std::mem;

/// A line cut at its first comma, where the field before it is one word.
///
/// Contracts see the first field and the tail, which is all that stands behind the comma.
#[derive(Drop)]
pub struct LineCut<'a> {
    first: &'a [u8],
    pub(crate) tail: &'a [u8],
    pub(crate) mark: u64,
}

impl<'a> Model for LineCut<'a> {
    ghost use Rattle.csv_lines.specs.Tails.{Cut};

    ghost Value = { Cut };

    ghost view = { λ c. record { first = c.first.now; tail = c.tail.now } };
}

impl<'a> LineCut<'a> {
    /// The first field, which is not empty and has neither blanks nor quotes.
    pub fn first(&self) -> &'a [u8]
        ensures { result.now ≡ self.now.first }
    {
        self.first
    }
}

/// Cuts a line at its first comma; `None` where other bytes than those of a prefix stand before it.
pub fn cut_line(line: &[u8]) -> Option<LineCut<'_>>
    ensures cut { IfSome result (λ cut. IsCut line.now cut.first cut.tail) }
    ensures taken { (first tail : List ℕ) → IsCut line.now first tail → IsSome result }
{
    let rest = trim_blanks(line);
    let (first, after) = rest.split_at(word_len(rest));
    if first.is_empty() {
        return None;
    }
    let Some((byte, tail)) = after.split_first() else {
        return None;
    };
    if *byte != b',' {
        return None;
    }
    let mark = mark_of(tail);
    Some(LineCut { first, tail, mark })
}

// How many bytes of a text are those of its first word.
fn word_len(text: &[u8]) -> usize
    ensures { result ≡ prefix_len is_word text.now }
{
    for (index, byte) in text.iter().enumerate() {
        if !is_word(*byte) {
            return index;
        }
    }
    text.len()
}

// Whether a byte is of those that prefixes have, and others: ASCII above the comma.
fn is_word(byte: u8) -> bool
    ensures { result ≡ is_word byte }
{
    b',' < byte && byte < 128
}

/// A tail, and the place that each line with this tail says.
#[derive(Drop)]
struct Tail<'a> {
    text: &'a [u8],
    place: Place,
}

impl<'a> Model for Tail<'a> {
    ghost use Rattle.std.specs.Prelude.{ℕ, List};
    ghost use Rattle.geo_terms.specs.PlaceForm.{PlaceParts};
    ghost use Rattle.csv_lines.specs.Tails.{IsTail};

    ghost Value = { List ℕ × PlaceParts };

    ghost view = { λ t. (t.text.now, t.place) };

    ghost invariant = { λ t. IsTail t.text.now t.place };
}

impl<'a> Tail<'a> {
    // The place of this tail, where it is that of the line.
    fn place_of(&self, cut: &LineCut) -> Option<&Place>
        ensures { IfSome result (λ place. IsTail cut.now.tail place.now) }
    {
        if same_bytes(self.text, cut.tail) {
            Some(&self.place)
        } else {
            None
        }
    }
}

/// The most slots for the tails of a file.
pub(crate) const MOST_TAILS: usize = 16_384;

/// For each so many bytes of a file one slot is made; most files have longer lines on the average.
const TAIL_BYTES: usize = 32;

/// Tails of one file, and the places that they say, beside those that earlier files had.
///
/// Which tails it holds changes no answer: a line whose tail is not held is read by its fields.
/// A tail has two slots, that of its mark and the one beside it, and the older ones of those whose
/// slots others have are in an ordered map. Once as many came as there are slots, all are let go:
/// so what a file costs follows from how many different tails it has, and not from their marks.
#[derive(Drop)]
pub struct Tails<'a> {
    earlier: &'a KnownTails,
    slots: Vec<Option<Tail<'a>>>,
    others: BTreeMap<&'a [u8], Tail<'a>>,
    last: u64,
    // How many came since the last time that all were let go.
    held: usize,
    // Whether all were let go once.
    overflowed: bool,
}

impl<'a> Tails<'a> {
    /// No tail yet but those of earlier files, with slots for those of a text of so many bytes, at
    /// most `MOST_TAILS`.
    pub fn with_room(
        alloc: Global,
        size: usize,
        earlier: &'a KnownTails,
    ) -> Result<Tails<'a>, Memory> {
        let last = ones((size / TAIL_BYTES).min(MOST_TAILS - 1) as u16);
        let count = usize::from(last) + 1;
        let mut slots = Vec::with_capacity(alloc, count)?;
        for _ in 0..count {
            slots.push(None)?;
        }
        Ok(Tails {
            earlier,
            slots,
            others: BTreeMap::new(alloc),
            last: u64::from(last),
            held: 0,
            overflowed: false,
        })
    }

    /// The place that a line says by its tail, where an earlier file had that, or it is held.
    pub fn known(&self, cut: &LineCut<'a>) -> Option<&Place>
        ensures { IfSome result (λ place. IsTail cut.now.tail place.now) }
    {
        match self.earlier.place_of(cut) {
            Some(place) => Some(place),
            None => self.held_place(cut),
        }
    }

    // The place by a tail of this file.
    fn held_place(&self, cut: &LineCut<'a>) -> Option<&Place>
        ensures { IfSome result (λ place. IsTail cut.now.tail place.now) }
    {
        // A tail's own slot is taken before the one beside it, and both before the map has one.
        let slot = (cut.mark & self.last) as usize;
        match self.in_slot(slot)?.place_of(cut) {
            Some(place) => Some(place),
            None => self.known_beside(slot ^ 1, cut),
        }
    }

    // The place by a tail that is not in its own slot.
    fn known_beside(&self, slot: usize, cut: &LineCut<'a>) -> Option<&Place>
        ensures { IfSome result (λ place. IsTail cut.now.tail place.now) }
    {
        match self.in_slot(slot)?.place_of(cut) {
            Some(place) => Some(place),
            None => self.others.get(&cut.tail)?.place_of(cut),
        }
    }

    // The tail that has this slot.
    fn in_slot(&self, slot: usize) -> Option<&Tail<'a>> {
        match self.slots.get(slot) {
            Some(Some(tail)) => Some(tail),
            _ => None,
        }
    }

    /// Holds the tail of a line that says this place.
    pub fn keep(&mut self, cut: &LineCut<'a>, place: &Place) -> Result<(), Memory>
        requires { (line : List ℕ)
            × IsCut line cut.now.first cut.now.tail × SaysBare line place.now }
    {
        let place = place.copied()?;
        let tail = Tail {
            text: cut.tail,
            place,
        };
        if self.held >= self.slots.len() {
            self.begin_anew();
        }
        self.held = self.held.saturating_add(1);
        match self.put((cut.mark & self.last) as usize, tail) {
            Some(oldest) => self.put_other(oldest),
            None => Ok(()),
        }
    }

    // Lets all tails go.
    fn begin_anew(&mut self) {
        for slot in self.slots.iter_mut() {
            *slot = None;
        }
        self.others = BTreeMap::new(*self.slots.allocator());
        self.held = 0;
        self.overflowed = true;
    }

    /// Puts the tails of this file to those that came new, for files that are read later. Where
    /// there were more of them than slots, none is: such a file hardly has what others have.
    pub fn hand_on(self, alloc: Global, new: &mut Vec<OwnTail>) -> Result<(), Memory> {
        if self.overflowed {
            return Ok(());
        }
        for slot in self.slots {
            if let Some(tail) = slot {
                push_own(alloc, &tail, new)?;
            }
        }
        Ok(())
    }

    // Puts a tail into a slot, and what was there into the one beside it; gives what was there.
    fn put(&mut self, slot: usize, tail: Tail<'a>) -> Option<Tail<'a>> {
        let first = self.slots.get_mut(slot)?;
        let before = mem::replace(first, Some(tail))?;
        match self.slots.get_mut(slot ^ 1) {
            Some(second) => mem::replace(second, Some(before)),
            None => Some(before),
        }
    }

    // Puts a tail that has no slot into the map.
    fn put_other(&mut self, tail: Tail<'a>) -> Result<(), Memory> {
        match self.others.insert(tail.text, tail) {
            Ok(_) => Ok(()),
            Err(_) => Err(Memory),
        }
    }
}

// Adds a tail with bytes of its own, where it is short enough to be known to later files.
fn push_own(alloc: Global, tail: &Tail<'_>, new: &mut Vec<OwnTail>) -> Result<(), Memory> {
    if let Some(own) = OwnTail::of(alloc, tail.text, &tail.place)? {
        new.push(own)?;
    }
    Ok(())
}

// The number whose bits are all ones up to the highest one of this number.
fn ones(number: u16) -> u16 {
    let two = number | number >> 1;
    let four = two | two >> 2;
    let eight = four | four >> 4;
    eight | eight >> 8
}

// A number by which a text is found again; other texts may have it too.
pub(crate) fn mark_of(text: &[u8]) -> u64 {
    let mut mark = text.len() as u64;
    let mut left = text;
    while let [a, b, c, d, e, f, g, h, rest @ ..] = left {
        mark = mixed(mark ^ u64::from_le_bytes([*a, *b, *c, *d, *e, *f, *g, *h]));
        left = rest;
    }
    mixed(mark ^ last_word(text))
}

// The number that the last eight bytes spell; of a shorter text, one that all bytes count for.
fn last_word(text: &[u8]) -> u64 {
    if let [.., a, b, c, d, e, f, g, h] = text {
        return u64::from_le_bytes([*a, *b, *c, *d, *e, *f, *g, *h]);
    }
    let mut word = 0;
    for byte in text {
        word = word << 8 | u64::from(*byte);
    }
    word
}
