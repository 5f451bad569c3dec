//! The tree below a block of addresses, and a tree that is put where a block was.
ghost use Rattle.std.specs.Prelude.{◌≡◌, ℕ, ◌+◌, ◌-◌, ◌^◌, ◌<◌, ◌≤◌, ◌↔◌, length, nat_eq, take};
ghost use Rattle.std.specs.Prelude.{IfOk, IsErrOf};
ghost use Rattle.geo_addr.specs.Bits.{bits_of};
ghost use Rattle.geo_addr.specs.Ranges.{IsWithin, range_of_block};
ghost use Rattle.trie_core.specs.Tree.{height, look};
ghost use Rattle.trie_core.specs.Store.{meaning, tree_of, leaf_at, record_of, IsOf, IsRootOf};
ghost use Rattle.trie_core.specs.Store.{GrowsBy, IsKept, AddedUnder, IsSound};
ghost use Rattle.trie_core.specs.Graft.{way_of, sub, graft, HoldsTree, IsFullWithoutTree};

use crate::fault::StoreFault;
use crate::node::{Rec, Root};
use crate::store::Store;
use geo_addr::Block;
use geo_outside::Steps;
use std::sync::ledger::Ledger;

impl Store {
    /// The record to which the walk of the block's bits leads from the root, or the leaf that it
    /// meets before. It takes no memory.
    pub fn sub(&self, root: Root, block: Block) -> Rec
        requires { IsRootOf self.now root }
        ensures of { IsOf self.now result }
        ensures meaning { meaning self.now result ≡ sub (tree_of self.now root) (way_of block) }
        ensures lookups { (a : ℕ) → IsWithin (range_of_block block) a
            → look (meaning self.now result) (bits_of (128 - block.len) a)
            ≡ leaf_at self.now root a }
        ensures low { height (meaning self.now result) + block.len ≤ 128 }
        ensures sound { IsSound self.now }
    {
        let below = 128 - u32::from(block.len);
        let mut rec = self.rec_of(root);
        let mut bits: u32 = 128;
        while below < bits {
            bits -= 1;
            let (left, right) = self.halves(rec);
            rec = if block.first >> bits & 1 == 0 {
                left
            } else {
                right
            };
        }
        rec
    }

    /// A root that answers inside the block as the record does by the bits after the block's
    /// length, and elsewhere as the given root.
    ///
    /// A refusal may leave nodes that were made on the way.
    pub fn graft<L: Ledger>(
        &mut self,
        root: Root,
        block: Block,
        rec: Rec,
        steps: &mut Steps<L>,
    ) -> Result<Root, StoreFault>
        requires root_of { IsRootOf self.old root }
        requires rec_of { IsOf self.old rec }
        requires low { height (meaning self.old rec) + block.len ≤ 128 }
        ensures of { IfOk result (IsRootOf self.new) }
        ensures meaning { IfOk result (λ r. tree_of self.new r
            ≡ graft nat_eq (tree_of self.old root) (way_of block) (meaning self.old rec)) }
        ensures inside { IfOk result (λ r. (a : ℕ) → IsWithin (range_of_block block) a
            → leaf_at self.new r a ≡ look (meaning self.old rec) (bits_of (128 - block.len) a)) }
        ensures elsewhere { IfOk result
            (λ r. (a : ℕ) → a < 2 ^ 128 → (IsWithin (range_of_block block) a → ⊥)
            → leaf_at self.new r a ≡ leaf_at self.old root a) }
        ensures ticks { steps.old ≤ steps.new }
        ensures few_ticks { steps.new ≤ steps.old + block.len }
        ensures grows { GrowsBy self.old self.new (steps.new - steps.old) }
        ensures kept { IsKept self.old self.new }
        ensures under { IfOk result (λ r. AddedUnder self.old self.new (record_of r)) }
        ensures full { IsErrOf result StoreFault.Full ↔ IsFullWithoutTree self.new
            (graft nat_eq (tree_of self.old root) (way_of block) (meaning self.old rec)) }
        ensures sound { IsSound self.new }
    {
        let below = 128 - u32::from(block.len);
        let whole = self.rec_of(root);
        let grafted = self.graft_at(whole, 128, block.first, below, rec, steps)?;
        Ok(Root(grafted))
    }

    // The record of a block of 2 ^ bits addresses with the subtree instead of the block of
    // 2 ^ below addresses that begins at `at`.
    fn graft_at<L: Ledger>(
        &mut self,
        rec: Rec,
        bits: u32,
        at: u128,
        below: u32,
        subtree: Rec,
        steps: &mut Steps<L>,
    ) -> Result<Rec, StoreFault>
        requires sound { IsSound self.old }
        requires of { IsOf self.old rec }
        requires low { height (meaning self.old rec) ≤ bits }
        requires bits { bits ≤ 128 }
        requires below { below ≤ bits }
        requires subtree_of { IsOf self.old subtree }
        requires subtree_low { height (meaning self.old subtree) ≤ below }
        ensures of { IfOk result (IsOf self.new) }
        ensures meaning { IfOk result (λ r. meaning self.new r
            ≡ graft nat_eq (meaning self.old rec) (take (bits - below) (bits_of bits at))
            (meaning self.old subtree)) }
        ensures low { IfOk result (λ r. height (meaning self.new r) ≤ bits) }
        ensures ticks { steps.old ≤ steps.new }
        ensures few_ticks { steps.new + below ≤ steps.old + bits }
        ensures grows { GrowsBy self.old self.new (steps.new - steps.old) }
        ensures kept { IsKept self.old self.new }
        ensures under { IfOk result (AddedUnder self.old self.new) }
        ensures full { IsErrOf result StoreFault.Full → (length self.new + 1 ≡ 2 ^ 32)
            × (HoldsTree self.new (graft nat_eq (meaning self.old rec)
            (take (bits - below) (bits_of bits at)) (meaning self.old subtree)) → ⊥) }
        ensures memory { IsErrOf result StoreFault.Memory → length self.new + 1 < 2 ^ 32 }
        ensures sound { IsSound self.new }
    {
        if bits == below {
            return Ok(subtree);
        }
        let (left, right) = self.halves(rec);
        if at >> (bits - 1) & 1 == 0 {
            let left = self.graft_at(left, bits - 1, at, below, subtree, steps)?;
            self.mk(left, right, steps)
        } else {
            let right = self.graft_at(right, bits - 1, at, below, subtree, steps)?;
            self.mk(left, right, steps)
        }
    }
}
