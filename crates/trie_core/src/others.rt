//! The pairs of a store to which their later children do not lead.
ghost use Rattle.std.specs.Prelude.{◌≡◌, ◌≢◌, ℕ, suc, ◌+◌, ◌^◌, ◌<◌, ◌≤◌, ◌++◌, ◌∷◌, [], Option};
ghost use Rattle.std.specs.Prelude.{Some, MatchOption, Contains, length, slice_get, set};
ghost use Rattle.std.specs.Prelude.{OnOk, OnErr, IfOk};
ghost use Rattle.trie_core.specs.Pairs.{later, number_of_record, first_slot, Stands, IsPut};
ghost use Rattle.trie_core.specs.Pairs.{AreFound, crowded_at};

use crate::near::mixed;
use crate::node::{Pair, Rec};
use crate::pairs::later;
use geo_addr::Memory;
use std::alloc::Global;
use std::collections::BTreeMap;

/// How many slots, one after the other, may lead to a pair.
const WINDOW: usize = 8;

/// The slots that a table begins with.
const FIRST_SLOTS: usize = 1024;

/// The numbers of pairs, which are found by slots that follow from the pair.
///
/// A pair is at the first slot of its window that was free. Only where none was is it in an ordered
/// map: whatever pairs come, a look-up is a look at one window and a walk down that map.
#[derive(Drop)]
pub(crate) struct Others {
    // One more than the number of a pair, and 0 where none came. Half of them at least are free.
    // There are none before the first pair and after memory was short: then all pairs are searched.
    pub(crate) slots: Vec<u32>,
    pub(crate) crowded: BTreeMap<Pair, u32>,
    // How many more pairs may come before there are more slots.
    room: usize,
}

/// What a slot, or a list of slots, tells of a pair.
pub(crate) enum Told {
    Held(u32),
    Missing,
    Unknown,
}

impl Others {
    /// None; it takes no memory.
    pub(crate) fn new(alloc: Global) -> Others
        ensures slots { result.slots.items ≡ [] }
        ensures crowded { result.crowded.entries ≡ [] }
    {
        Others {
            slots: Vec::new(alloc),
            crowded: BTreeMap::new(alloc),
            room: 0,
        }
    }

    /// The number of the pair in the list, where it is no first one.
    #[inline(always)]
    pub(crate) fn find(&self, pairs: &[Pair], firsts: &[u32], pair: Pair) -> Option<u32>
        requires found { AreFound pairs.now firsts.now self.now.slots.items self.now.crowded }
        requires no_first { (k : ℕ) → slice_get pairs.now k ≡ Some pair
            → slice_get firsts.now (later pair) ≢ Some (suc k) }
        ensures found { MatchOption result (Contains pairs.now pair → ⊥)
            (λ k. slice_get pairs.now k ≡ Some pair) }
    {
        let _ = firsts;
        if self.slots.is_empty() {
            return searched(pairs, pair);
        }
        match in_window(pairs, self.slots.as_slice(), pair) {
            Told::Held(number) => Some(number),
            Told::Missing => None,
            Told::Unknown => match self.crowded.get(&pair) {
                Some(number) => Some(*number),
                None => None,
            },
        }
    }

    /// Puts the number of a new pair, which follows those in the list.
    #[inline(never)]
    pub(crate) fn put(
        &mut self,
        pairs: &[Pair],
        firsts: &[u32],
        pair: Pair,
        number: u32,
    ) -> Result<(), Memory>
        requires number { number ≡ length pairs.now }
        requires few { number + 1 < 2 ^ 32 }
        requires found { AreFound pairs.now firsts.now self.old.slots.items self.old.crowded }
        requires new { Contains pairs.now pair → ⊥ }
        requires taken { (m : ℕ) × (slice_get firsts.now (later pair) ≡ Some (suc m)) }
        ensures put { OnOk result (AreFound (pairs.now ++ pair ∷ []) firsts.now
            self.new.slots.items self.new.crowded) }
        ensures err { OnErr result
            (AreFound pairs.now firsts.now self.new.slots.items self.new.crowded) }
    {
        self.make_room(pairs, firsts)?;
        note(&mut self.slots, &mut self.crowded, pair, number)?;
        Ok(())
    }

    // Takes room for one more pair, and makes more slots where there is none. A refusal may leave
    // no slots.
    fn make_room(&mut self, pairs: &[Pair], firsts: &[u32]) -> Result<(), Memory>
        requires found { AreFound pairs.now firsts.now self.old.slots.items self.old.crowded }
        ensures found { AreFound pairs.now firsts.now self.new.slots.items self.new.crowded }
        ensures wide { OnOk result (8 ≤ length self.new.slots.items) }
    {
        if self.room > 0 && !self.slots.is_empty() {
            self.room -= 1;
            return Ok(());
        }
        let more = self.slots.len() + FIRST_SLOTS;
        let Some(len) = self.slots.len().checked_add(more) else {
            return Err(Memory);
        };
        self.room = more / 2 - 1;
        widen(&mut self.slots, &mut self.crowded, len, pairs, firsts)
    }
}

/// What the slot tells of the pair.
pub(crate) fn at_slot(pairs: &[Pair], slots: &[u32], at: usize, pair: Pair) -> Told
    ensures held { (k : ℕ) → result ≡ Told.Held k → slice_get pairs.now k ≡ Some pair }
    ensures missing { result ≡ Told.Missing → (m : ℕ) → slice_get slots.now at ≢ Some (suc m) }
    ensures unknown { result ≡ Told.Unknown → (k : ℕ) → slice_get pairs.now k ≡ Some pair
        → slice_get slots.now at ≢ Some (suc k) }
{
    let Some(first) = slots.get(at) else {
        return Told::Missing;
    };
    if *first == 0 {
        return Told::Missing;
    }
    let number = *first - 1;
    let Some(held) = pairs.get(number as usize) else {
        return Told::Unknown;
    };
    if *held == pair {
        return Told::Held(number);
    }
    Told::Unknown
}

// What the slots of its window tell of the pair. Not inlined, so that what finds a first pair stays
// short.
#[inline(never)]
fn in_window(pairs: &[Pair], slots: &[u32], pair: Pair) -> Told
    requires { 8 ≤ length slots.now }
    ensures held { (k : ℕ) → result ≡ Told.Held k → slice_get pairs.now k ≡ Some pair }
    ensures missing { result ≡ Told.Missing → (k : ℕ) (rest : Option ℕ)
        → slice_get pairs.now k ≡ Some pair
        → Stands slots.now (first_slot pair (length slots.now)) 8 rest k → ⊥ }
    ensures unknown { result ≡ Told.Unknown → (k : ℕ) (rest : Option ℕ)
        → slice_get pairs.now k ≡ Some pair
        → Stands slots.now (first_slot pair (length slots.now)) 8 rest k → rest ≡ Some k }
{
    let start = slot_of(pair, slots.len());
    for at in start..start + WINDOW {
        match at_slot(pairs, slots, at, pair) {
            Told::Held(number) => return Told::Held(number),
            Told::Missing => return Told::Missing,
            Told::Unknown => {}
        }
    }
    Told::Unknown
}

// The first free slot of a window.
fn free_slot(slots: &[u32], start: usize) -> Option<usize>
    requires { start + 8 ≤ length slots.now }
    ensures { MatchOption result
        ((k : ℕ) → Stands slots.now start 8 (Some k) k)
        (λ at. (slice_get slots.now at ≡ Some 0) × ((k : ℕ) (rest : Option ℕ)
        → Stands (set slots.now at (suc k)) start 8 rest k)) }
{
    for at in start..start + WINDOW {
        if slots[at] == 0 {
            return Some(at);
        }
    }
    None
}

// Makes so many slots, which lead to all pairs that are no first ones; or none.
fn widen(
    slots: &mut Vec<u32>,
    crowded: &mut BTreeMap<Pair, u32>,
    len: usize,
    pairs: &[Pair],
    firsts: &[u32],
) -> Result<(), Memory>
    requires found { AreFound pairs.now firsts.now slots.old.items crowded.old }
    requires some { 8 ≤ len }
    ensures found { AreFound pairs.now firsts.now slots.new.items crowded.new }
    ensures wide { OnOk result (8 ≤ length slots.new.items) }
{
    slots.clear();
    crowded.clear();
    slots.resize(len, 0)?;
    if spread(slots, crowded, pairs, firsts).is_err() {
        slots.clear();
        return Err(Memory);
    }
    Ok(())
}

// Notes the numbers of all pairs that are no first ones.
fn spread(
    slots: &mut Vec<u32>,
    crowded: &mut BTreeMap<Pair, u32>,
    pairs: &[Pair],
    firsts: &[u32],
) -> Result<(), Memory>
    requires wide { 8 ≤ length slots.old.items }
    requires none { crowded.old.entries ≡ [] }
    requires few { length pairs.now < 2 ^ 32 }
    requires once { (i j : ℕ) (p : Pair) → slice_get pairs.now i ≡ Some p
        → slice_get pairs.now j ≡ Some p → i ≡ j }
    requires noted { (n : ℕ) (p : Pair) → slice_get pairs.now n ≡ Some p
        → (m : ℕ) × (slice_get firsts.now (later p) ≡ Some (suc m)) }
    ensures { OnOk result (AreFound pairs.now firsts.now slots.new.items crowded.new
        × (8 ≤ length slots.new.items)) }
{
    for number in 0..pairs.len() {
        let pair = pairs[number];
        if firsts[later(pair)] as usize != number + 1 {
            note(slots, crowded, pair, number as u32)?;
        }
    }
    Ok(())
}

// The number of the pair, by a look at each one.
fn searched(pairs: &[Pair], pair: Pair) -> Option<u32>
    requires { length pairs.now < 2 ^ 32 }
    ensures { MatchOption result (Contains pairs.now pair → ⊥)
        (λ k. slice_get pairs.now k ≡ Some pair) }
{
    for number in 0..pairs.len() {
        if pairs[number] == pair {
            return Some(number as u32);
        }
    }
    None
}

// Notes the number of a new pair at the first free slot of its window, or else in the map.
fn note(
    slots: &mut Vec<u32>,
    crowded: &mut BTreeMap<Pair, u32>,
    pair: Pair,
    number: u32,
) -> Result<(), Memory>
    requires wide { 8 ≤ length slots.old.items }
    requires few { number + 1 < 2 ^ 32 }
    ensures put { OnOk result (IsPut slots.old.items slots.new.items crowded.old crowded.new
        pair number) }
    ensures slots { OnErr result (slots.new.items ≡ slots.old.items) }
    ensures crowded { OnErr result (crowded.new.entries ≡ crowded.old.entries) }
{
    let start = slot_of(pair, slots.len());
    if let Some(at) = free_slot(slots.as_slice(), start) {
        slots[at] = number + 1;
        return Ok(());
    }
    if crowded.insert(pair, number).is_err() {
        return Err(Memory);
    }
    Ok(())
}

// The first slot of the window of a pair, of so many slots.
fn slot_of(pair: Pair, len: usize) -> usize
    requires { 8 ≤ len }
    ensures slot { result ≡ first_slot pair len }
    ensures within { result + 8 ≤ len }
{
    let mixed = mixed(number_of_record(pair.left), number_of_record(pair.right));
    ((mixed >> 32) % (len as u64 - 7)) as usize
}

// A number for each record.
fn number_of_record(rec: Rec) -> u64
    ensures number { result ≡ number_of_record rec }
    ensures few { result < 2 ^ 33 }
{
    match rec {
        Rec::Leaf(leaf) => 2 * u64::from(leaf),
        Rec::Node(id) => 2 * u64::from(id.0) + 1,
    }
}
