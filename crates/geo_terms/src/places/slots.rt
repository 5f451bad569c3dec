//! Values by marks, without chains.
use geo_addr::Memory;
use std::alloc::Global;
use std::collections::BTreeSet;
use std::mem;

/// Values by marks: one has a slot of the group that its mark leads to. Where a group is full, the
/// oldest of it stands in an ordered set. So a look-up is four looks and at most one way down that
/// set, whatever marks strangers make, and nothing that came is let go.
#[derive(Drop)]
pub(crate) struct Slots<T: Ord + Drop> {
    slots: Vec<Option<(u64, T)>>,
    others: BTreeSet<T>,
    // How many have a slot.
    held: u64,
}

/// How many slots are a group.
pub(crate) const TOGETHER: usize = 4;

/// How many slots a table has at first, and at most.
const FIRST: u64 = 1 << 6;

const MOST: u64 = 1 << 22;

impl<T: Ord + Drop> Slots<T> {
    /// No slot yet; it takes no memory.
    pub(crate) fn new(alloc: Global) -> Slots<T> {
        Slots {
            slots: Vec::new(alloc),
            others: BTreeSet::new(alloc),
            held: 0,
        }
    }

    /// What came by this mark and has the slot of its group that is so far beside the mark's own.
    pub(crate) fn held(&self, mark: u64, beside: usize) -> Option<&T> {
        match self.slots.get(self.slot_of(mark) ^ beside) {
            Some(Some((own, value))) if *own == mark => Some(value),
            _ => None,
        }
    }

    /// What equals this value among those without a slot, where all of its group are taken.
    pub(crate) fn other(&self, mark: u64, value: &T) -> Option<&T> {
        let own = self.slot_of(mark);
        for beside in 0..TOGETHER {
            match self.slots.get(own ^ beside) {
                Some(Some(_)) => {}
                _ => return None,
            }
        }
        self.others.get(value)
    }

    /// Puts a value in; the table doubles once half of its slots are taken.
    pub(crate) fn keep(&mut self, alloc: Global, mark: u64, value: T) -> Result<(), Memory> {
        let count = self.slots.len() as u64;
        if self.held >= count / 2 && count < MOST {
            self.grow(alloc, count.saturating_mul(2).max(FIRST))?;
        }
        match self.put_in(mark, value) {
            None => self.held = self.held.saturating_add(1),
            Some((_, oldest)) => {
                if self.others.insert(oldest).is_err() {
                    return Err(Memory);
                }
            }
        }
        Ok(())
    }

    // A group becomes two, so each value finds a slot again.
    fn grow(&mut self, alloc: Global, count: u64) -> Result<(), Memory> {
        let slots = Self::free_slots(alloc, count)?;
        for slot in mem::replace(&mut self.slots, slots) {
            if let Some((mark, value)) = slot {
                drop(self.put_in(mark, value));
            }
        }
        Ok(())
    }

    fn free_slots(alloc: Global, count: u64) -> Result<Vec<Option<(u64, T)>>, Memory> {
        let mut slots = Vec::with_capacity(alloc, count as usize)?;
        for _ in 0..count {
            slots.push(None)?;
        }
        Ok(slots)
    }

    // Puts a value into the slot of its mark, and what was there into the one beside it, and so on
    // up to a free one; gives what has none left.
    fn put_in(&mut self, mark: u64, value: T) -> Option<(u64, T)> {
        let own = self.slot_of(mark);
        let mut moved = Some((mark, value));
        for beside in 0..TOGETHER {
            let Some(slot) = self.slots.get_mut(own ^ beside) else {
                return moved;
            };
            moved = mem::replace(slot, moved);
            if moved.is_none() {
                return None;
            }
        }
        moved
    }

    fn slot_of(&self, mark: u64) -> usize {
        mark as usize & self.slots.len().saturating_sub(1)
    }
}
