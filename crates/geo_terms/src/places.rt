//! Places of texts, and numbers for them.
ghost use Rattle.std.specs.Prelude.{◌≡◌, ℕ, ◌+◌, ◌-◌, ◌*◌, ◌^◌, ◌<◌, ◌≤◌, ◌↔◌, ◌++◌, ◌∷◌, []};
ghost use Rattle.std.specs.Prelude.{length, get_or, IfOk, OnOk, OnErr, IsNone, IfSome, IsTrue};
ghost use Rattle.std.specs.Prelude.{None, Option, Some};
ghost use Rattle.std.specs.Option.{option_copied, unwrap_or};
ghost use Rattle.std.specs.List.{IsDistinct};
ghost use Rattle.geo_terms.specs.Numbers.{number_of, place_at, same_place, with_place};
ghost use Rattle.geo_terms.specs.PlaceTable.{first_slot, slots_of, said, IsTable, IsPut};

pub(crate) mod fields;
mod slots;
pub(crate) mod texts;

use crate::place::Place;
use geo_addr::Memory;
use std::alloc::Global;
use std::collections::BTreeMap;
use std::marker::Model;
use thiserror::Error;

/// Distinct places with their numbers, in the order in which they came.
///
/// The first place has number 1; a number that was given is never changed. Two slots that follow
/// from a place lead to its number, mostly. A place whose slots others had first is in an ordered
/// map, so that no choice of places makes a look-up long.
#[derive(Drop)]
pub struct Places {
    list: Vec<Place>,
    // Numbers, and 0 where none came.
    slots: Vec<u32>,
    others: BTreeMap<Place, u32>,
}

impl Model for Places {
    ghost use Rattle.std.specs.Prelude.{List, ◌^◌, ◌<◌, length};
    ghost use Rattle.std.specs.List.{IsDistinct};
    ghost use Rattle.geo_terms.specs.PlaceForm.{PlaceParts};
    ghost use Rattle.geo_terms.specs.Numbers.{same_place};
    ghost use Rattle.geo_terms.specs.PlaceTable.{IsTable};

    ghost Value = { List PlaceParts };

    ghost view = { λ p. p.list.items };

    ghost invariant = { λ p. IsDistinct same_place p.list.items
        × (length p.list.items < 2 ^ 32) × IsTable p.list.items p.slots.items p.others };
}

/// How many slots are made for the first place.
const FIRST_SLOTS: usize = 64;

/// Why a place has no number.
#[derive(Clone, Copy, Debug, PartialEq, Eq, Error)]
pub enum PlacesFault {
    #[error("no number is left")]
    Full = 1,
    #[error("out of memory")]
    Memory = 2,
}

impl Places {
    /// No places.
    pub fn new(alloc: Global) -> Places
        ensures { result ≡ [] }
    {
        Places {
            list: Vec::new(alloc),
            slots: Vec::new(alloc),
            others: BTreeMap::new(alloc),
        }
    }

    /// The number of the place: the one that it has, or the next one.
    #[tactic(auto, using(crate::proofs::NumberLemmas::position_after_insert, crate::proofs::NumberLemmas::numbers_name_places))]
    pub fn intern(&mut self, place: &Place) -> Result<u32, PlacesFault>
        ensures number { IfOk result (λ number. number_of self.new place.now ≡ Some number) }
        ensures held { IfOk result (λ number. place_at self.new number ≡ Some place.now) }
        ensures table { OnOk result (self.new ≡ with_place self.old place.now) }
        ensures known { IfSome (number_of self.old place.now) (λ number. result ≡ Ok number) }
        ensures full { (result ≡ Err PlacesFault.Full)
            ↔ (IsNone (number_of self.old place.now) × (length self.old ≡ 2 ^ 32 - 1)) }
        ensures err { OnErr result (self.new ≡ self.old) }
    {
        if let Some(number) = self.number(place) {
            return Ok(number);
        }
        if self.list.len() >= u32::MAX as usize {
            return Err(PlacesFault::Full);
        }
        match self.push(place) {
            Ok(number) => Ok(number),
            Err(_refused) => Err(PlacesFault::Memory),
        }
    }

    // The number of the place, if it has one.
    fn number(&self, place: &Place) -> Option<u32>
        ensures { result ≡ number_of self.now place.now }
    {
        if self.slots.is_empty() {
            return None;
        }
        let slot = slot_of(place, self.slots.len());
        let (list, slots) = (self.list.as_slice(), self.slots.as_slice());
        if let Some(answer) = told(list, slots, slot, place) {
            return answer;
        }
        if let Some(answer) = told(list, slots, slot + 1, place) {
            return answer;
        }
        self.others.get(place).copied()
    }

    // Gives the next number to a new place.
    fn push(&mut self, place: &Place) -> Result<u32, Memory>
        requires new { number_of self.old place.now ≡ None }
        requires room { length self.old < 2 ^ 32 - 1 }
        ensures number { IfOk result (λ number. number ≡ length self.old + 1) }
        ensures pushed { OnOk result (self.new ≡ self.old ++ place.now ∷ []) }
        ensures err { OnErr result (self.new ≡ self.old) }
    {
        make_room(&mut self.slots, &mut self.others, &self.list)?;
        self.list.reserve(1)?;
        let copy = place.copied()?;
        let number = self.list.len() as u32 + 1;
        note(&mut self.slots, &mut self.others, number, place)?;
        self.list.push_reserved(copy);
        Ok(number)
    }

    /// The place of a number.
    pub fn get(&self, number: u32) -> Option<&Place>
        ensures { option_copied result ≡ place_at self.now number }
    {
        if number == 0 {
            return None;
        }
        self.list.get(number as usize - 1)
    }

    /// How many places have a number.
    pub fn len(&self) -> u32
        ensures count { result ≡ length self.now }
        ensures distinct { IsDistinct same_place self.now }
    {
        self.list.len() as u32
    }

    /// Whether no place has a number.
    pub fn is_empty(&self) -> bool
        ensures { IsTrue result ↔ (self.now ≡ []) }
    {
        self.list.is_empty()
    }
}

// The first of the two slots of a place, of so many; the second is the next one.
fn slot_of(place: &Place, len: usize) -> usize
    requires { 1 < len }
    ensures slot { result ≡ first_slot place.now len }
    ensures within { result + 1 < len }
{
    place.mark() as usize % (len - 1)
}

// What the slot tells of the place, if anything.
fn told(list: &[Place], slots: &[u32], slot: usize, place: &Place) -> Option<Option<u32>>
    requires { slot < length slots.now }
    ensures { (rest : Option ℕ) → said list.now place.now (get_or slots.now slot 0) rest
        ≡ unwrap_or result rest }
{
    let number = slots[slot];
    if number == 0 {
        return Some(None);
    }
    let found = list.get(number as usize - 1)?;
    if place == found {
        return Some(Some(number));
    }
    None
}

// Makes the table of the list anew where one more place would fill more than half of its slots,
// with room for three times as many more.
fn make_room(
    slots: &mut Vec<u32>,
    others: &mut BTreeMap<Place, u32>,
    list: &Vec<Place>,
) -> Result<(), Memory>
    requires few { length list.now.items < 2 ^ 32 }
    requires distinct { IsDistinct same_place list.now.items }
    requires table { IsTable list.now.items slots.old.items others.old }
    ensures table { IsTable list.now.items slots.new.items others.new }
    ensures some { OnOk result (1 < length slots.new.items) }
{
    // A place in the map takes no slot, so those who crowd it do not have the table made anew.
    let taken = list.len().saturating_sub(others.len());
    if slots.len() >= 2 * taken + 2 {
        return Ok(());
    }
    let alloc = *list.allocator();
    let mut made = Vec::new(alloc);
    made.resize(8 * list.len() + FIRST_SLOTS, 0)?;
    let mut beside = BTreeMap::new(alloc);
    note_all(&mut made, &mut beside, list.as_slice())?;
    *slots = made;
    *others = beside;
    Ok(())
}

// Notes all places of a list in an empty table.
fn note_all(
    slots: &mut Vec<u32>,
    others: &mut BTreeMap<Place, u32>,
    list: &[Place],
) -> Result<(), Memory>
    requires few { length list.now < 2 ^ 32 }
    requires distinct { IsDistinct same_place list.now }
    requires some { 1 < length slots.old.items }
    requires table { IsTable [] slots.old.items others.old }
    ensures table { OnOk result (IsTable list.now slots.new.items others.new) }
    ensures some { 1 < length slots.new.items }
{
    for at in 0..list.len() {
        note(slots, others, at as u32 + 1, &list[at])?;
    }
    Ok(())
}

// Notes the number of a new place in the first free one of its slots, or else among the others.
fn note(
    slots: &mut Vec<u32>,
    others: &mut BTreeMap<Place, u32>,
    number: u32,
    place: &Place,
) -> Result<(), Memory>
    requires { 1 < length slots.old.items }
    ensures put { OnOk result (IsPut slots.old.items slots.new.items others.old others.new number
        place.now (slots_of place.now (length slots.old.items))) }
    ensures len { length slots.new.items ≡ length slots.old.items }
    ensures slots { OnErr result (slots.new.items ≡ slots.old.items) }
    ensures others { OnErr result (others.new.entries ≡ others.old.entries) }
{
    let slot = slot_of(place, slots.len());
    if slots[slot] == 0 {
        slots[slot] = number;
        return Ok(());
    }
    if slots[slot + 1] == 0 {
        slots[slot + 1] = number;
        return Ok(());
    }
    let key = place.copied()?;
    if others.insert(key, number).is_err() {
        return Err(Memory);
    }
    Ok(())
}
