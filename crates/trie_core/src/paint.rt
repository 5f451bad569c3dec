//! Painting ranges of addresses with leaves.
ghost use Rattle.std.specs.Prelude.{◌≡◌, ℕ, ◌+◌, ◌-◌, ◌*◌, ◌^◌, ◌<◌, ◌≤◌, ◌↔◌, length, Some, IfOk};
ghost use Rattle.std.specs.Prelude.{OnOk, IsErrOf, MatchOption};
ghost use Rattle.geo_addr.specs.Ranges.{IsWithin};
ghost use Rattle.trie_core.specs.Tree.{height};
ghost use Rattle.trie_core.specs.Store.{meaning, leaf_at, record_of, IsOf, IsRootOf, GrowsBy};
ghost use Rattle.trie_core.specs.Store.{IsKept, AddedUnder, IsSound};
ghost use Rattle.trie_core.specs.Paint.{IsAscending, leaf_in, over, IsPainted, HoldsPainted};
ghost use Rattle.trie_core.specs.Paint.{IsFullWithout, one_part, paint_cost, AllEndFrom, IsCut};
ghost use Rattle.trie_core.specs.Paint.{AreLeft, IsSettled, IsHalved};

use crate::fault::StoreFault;
use crate::node::{Rec, Root};
use crate::store::Store;
use geo_addr::Range;
use geo_outside::Steps;
use std::sync::ledger::Ledger;

/// A range of addresses and the leaf that it is to have.
#[derive(Clone, Copy, Debug, PartialEq, Eq)]
pub struct Part {
    pub range: Range,
    pub leaf: u32,
}

impl Store {
    /// A root that has the leaf on the range and the given root's leaves elsewhere.
    ///
    /// A refusal may leave nodes that were made on the way.
    pub fn paint<L: Ledger>(
        &mut self,
        root: Root,
        range: Range,
        leaf: u32,
        steps: &mut Steps<L>,
    ) -> Result<Root, StoreFault>
        requires { IsRootOf self.old root }
        ensures of { IfOk result (IsRootOf self.new) }
        ensures on_range { IfOk result (λ r. (a : ℕ) → a < 2 ^ 128 → IsWithin range a
            → leaf_at self.new r a ≡ Some leaf) }
        ensures elsewhere { IfOk result (λ r. (a : ℕ) → a < 2 ^ 128 → (IsWithin range a → ⊥)
            → leaf_at self.new r a ≡ leaf_at self.old root a) }
        ensures ticks { steps.old ≤ steps.new }
        ensures few_ticks { steps.new ≤ steps.old + 256 }
        ensures grows { GrowsBy self.old self.new (steps.new - steps.old) }
        ensures kept { IsKept self.old self.new }
        ensures under { IfOk result (λ r. AddedUnder self.old self.new (record_of r)) }
        ensures full { IsErrOf result StoreFault.Full
            ↔ IsFullWithout self.new (leaf_at self.old root) (one_part range leaf) }
        ensures sound { IsSound self.new }
    {
        self.paint_all(root, &[Part { range, leaf }], steps)
    }

    /// A root that has each part's leaf on the part's range and the given root's leaves elsewhere.
    ///
    /// The parts are painted in one pass, so each node that this adds stands under the new root. A
    /// refusal may leave nodes that were made on the way.
    pub fn paint_all<L: Ledger>(
        &mut self,
        root: Root,
        parts: &[Part],
        steps: &mut Steps<L>,
    ) -> Result<Root, StoreFault>
        requires of { IsRootOf self.old root }
        requires ascending { IsAscending parts.now }
        ensures of { IfOk result (IsRootOf self.new) }
        ensures lookups { IfOk result (λ r. (a : ℕ) → a < 2 ^ 128
            → leaf_at self.new r a ≡ over (leaf_in parts.now a) (leaf_at self.old root a)) }
        ensures ticks { steps.old ≤ steps.new }
        ensures few_ticks { steps.new ≤ steps.old + 256 * length parts.now }
        ensures grows { GrowsBy self.old self.new (steps.new - steps.old) }
        ensures kept { IsKept self.old self.new }
        ensures under { IfOk result (λ r. AddedUnder self.old self.new (record_of r)) }
        ensures full { IsErrOf result StoreFault.Full
            ↔ IsFullWithout self.new (leaf_at self.old root) parts.now }
        ensures sound { IsSound self.new }
    {
        let rec = self.rec_of(root);
        let mut rest = parts;
        if let Some(rec) = settled(rec, 0, u128::MAX, &mut rest) {
            return Ok(Root(rec));
        }
        let rec = self.paint_block(rec, 0, u128::MAX, 128, &mut rest, steps)?;
        Ok(Root(rec))
    }

    // The record of the block of 2 ^ bits addresses from first to last, which the first part cuts,
    // with the parts painted on it. Those that end after the block are left.
    fn paint_block<L: Ledger>(
        &mut self,
        rec: Rec,
        first: u128,
        last: u128,
        bits: u32,
        parts: &mut &[Part],
        steps: &mut Steps<L>,
    ) -> Result<Rec, StoreFault>
        requires sound { IsSound self.old }
        requires of { IsOf self.old rec }
        requires low { height (meaning self.old rec) ≤ bits }
        requires bits { bits ≤ 128 }
        requires block { last + 1 ≡ first + 2 ^ bits }
        requires ascending { IsAscending parts.old.now }
        requires begun { AllEndFrom first parts.old.now }
        requires cut { IsCut first last parts.old.now }
        ensures of { IfOk result (IsOf self.new) }
        ensures painted { IfOk result
            (λ r. IsPainted (meaning self.old rec) (meaning self.new r) bits first parts.old.now) }
        ensures left { OnOk result (AreLeft parts.old.now parts.new.now last) }
        ensures ticks { steps.old ≤ steps.new }
        ensures cost { steps.new ≤ steps.old + paint_cost bits first parts.old.now }
        ensures grows { GrowsBy self.old self.new (steps.new - steps.old) }
        ensures kept { IsKept self.old self.new }
        ensures under { IfOk result (AddedUnder self.old self.new) }
        ensures full { IsErrOf result StoreFault.Full → (length self.new + 1 ≡ 2 ^ 32)
            × (HoldsPainted self.new (meaning self.old rec) bits first parts.old.now → ⊥) }
        ensures memory { IsErrOf result StoreFault.Memory → length self.new + 1 < 2 ^ 32 }
        ensures sound { IsSound self.new }
    {
        let middle = first + (last - first) / 2;
        let (left, right) = self.halves(rec);
        let left = match settled(left, first, middle, parts) {
            Some(left) => left,
            None => self.paint_block(left, first, middle, bits - 1, parts, steps)?,
        };
        let right = match settled(right, middle + 1, last, parts) {
            Some(right) => right,
            None => self.paint_block(right, middle + 1, last, bits - 1, parts, steps)?,
        };
        self.mk(left, right, steps)
    }

    // The records of the two halves of a block.
    pub(crate) fn halves(&self, rec: Rec) -> (Rec, Rec)
        requires { IsOf self.now rec }
        ensures { IsHalved self.now rec result.0 result.1 }
    {
        match rec {
            Rec::Leaf(_) => (rec, rec),
            Rec::Node(id) => self.children(id),
        }
    }
}

// The record of a block that no part cuts, which is as it was or a leaf, and which parts are then
// left. `None` where the first part cuts the block.
fn settled(rec: Rec, first: u128, last: u128, parts: &mut &[Part]) -> Option<Rec>
    requires ascending { IsAscending parts.old.now }
    requires begun { AllEndFrom first parts.old.now }
    requires block { first ≤ last }
    ensures { MatchOption result
        (IsCut first last parts.old.now × (parts.new.now ≡ parts.old.now))
        (λ r. IsSettled first last parts.old.now rec r
        × AreLeft parts.old.now parts.new.now last) }
{
    let Some(part) = parts.first() else {
        return Some(rec);
    };
    if last < part.range.first {
        return Some(rec);
    }
    if first < part.range.first || part.range.last < last {
        return None;
    }
    let leaf = part.leaf;
    if part.range.last == last {
        *parts = parts.split_at(1).1;
    }
    Some(Rec::Leaf(leaf))
}
