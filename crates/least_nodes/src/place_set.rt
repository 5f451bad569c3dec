//! A set of places in the order in which they came.
ghost use Rattle.std.specs.Prelude.{◌≡◌, ◌<◌, [], ◌∷◌, length, nat_eq, OnOk, OnErr};
ghost use Rattle.std.specs.List.{position};
ghost use Rattle.least_nodes.specs.Layout.{each_once};

use crate::node_set::make_room;
use geo_addr::Memory;
use std::alloc::Global;
use std::marker::Model;

/// A set of numbers of places that keeps the order in which they came.
///
/// Contracts see the list of its numbers. Places are numbered from 1 on, so one is found in a list,
/// of four bytes for each number up to the highest that has come.
#[derive(Drop)]
pub struct PlaceSet {
    numbers: Vec<u32>,
    // At each number one more than its position, and 0 where the set has it not.
    next: Vec<u32>,
}

impl Model for PlaceSet {
    ghost use Rattle.std.specs.Prelude.{ℕ, List};
    ghost use Rattle.least_nodes.specs.NumberSet.{IsFoundBy, own_number};

    ghost Value = { List ℕ };

    ghost view = { λ s. s.numbers.items };

    ghost invariant = { λ s. IsFoundBy own_number s.numbers.items s.next.items };
}

impl PlaceSet {
    /// A set of no places; it takes no memory.
    pub fn new(alloc: Global) -> PlaceSet
        ensures { result ≡ [] }
    {
        PlaceSet {
            numbers: Vec::new(alloc),
            next: Vec::new(alloc),
        }
    }

    /// Puts the number last, unless the set has it.
    #[inline(always)]
    pub fn insert(&mut self, number: u32) -> Result<(), Memory>
        ensures put { OnOk result (self.new ≡ each_once nat_eq self.old (number ∷ [])) }
        ensures err { OnErr result (self.new ≡ self.old) }
    {
        make_room(&mut self.next, number)?;
        if self.next[number as usize] != 0 {
            return Ok(());
        }
        let Ok(next) = u32::try_from(self.numbers.len() + 1) else {
            return Err(Memory);
        };
        self.numbers.push(number)?;
        self.next[number as usize] = next;
        Ok(())
    }

    /// Where the number stands in the order, if the set has it.
    pub fn index_of(&self, number: u32) -> Option<usize>
        ensures { result ≡ position (nat_eq number) self.now }
    {
        let next = self.next.get(number as usize)?;
        (*next as usize).checked_sub(1)
    }

    /// The numbers in order.
    pub fn as_slice(&self) -> &[u32]
        ensures { result.now ≡ self.now }
    {
        self.numbers.as_slice()
    }
}
