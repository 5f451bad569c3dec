//! The store of nodes, each pair of children once.
ghost use Rattle.std.specs.Prelude.{◌≡◌, ◌≢◌, ℕ, MatchOption, ◌+◌, ◌-◌, ◌^◌, ◌<◌, ◌≤◌, ◌↔◌, []};
ghost use Rattle.std.specs.Prelude.{length, nat_eq, None, Some, IfOk, OnErr};
ghost use Rattle.std.specs.Prelude.{IsErrOf};
ghost use Rattle.trie_core.specs.Tree.{leaf, node, height, join};
ghost use Rattle.trie_core.specs.Store.{meaning, tree_of, leaf_at, record_of, pair_of, node_number};
ghost use Rattle.trie_core.specs.Store.{IsOf, IsRootOf, GrowsBy, IsKept, NeedsNew, AddedUnder};
ghost use Rattle.trie_core.specs.Store.{IsSound};

use crate::fault::StoreFault;
use crate::node::{NodeId, Pair, Rec, Root};
use crate::pairs::Pairs;
use geo_addr::Addr;
use geo_outside::Steps;
use std::alloc::Global;
use std::marker::Model;
use std::sync::ledger::Ledger;

/// A store of nodes, in which no two nodes have the same children, so that one record stands for
/// each tree (`laws::equal_leaves_equal_records`).
///
/// Contracts see the list of the nodes' children, by the number of the node. The caller hands in
/// only records and roots of this store: those that it gave, before or after whatever refusals.
#[derive(Drop)]
pub struct Store {
    pub(crate) alloc: Global,
    pub(crate) pairs: Pairs,
}

impl Model for Store {
    ghost use Rattle.std.specs.Prelude.{List};
    ghost use Rattle.trie_core.specs.declared.node.Pair.{Pair};
    ghost use Rattle.trie_core.specs.Store.{IsSound};

    ghost Value = { List Pair };

    ghost view = { λ s. s.pairs };

    ghost invariant = { λ s. IsSound s.pairs };
}

impl Store {
    /// A store of no nodes; it takes no memory.
    pub fn new(alloc: Global) -> Store
        ensures { result ≡ [] }
    {
        Store {
            alloc,
            pairs: Pairs::new(alloc),
        }
    }

    /// The root of the tree that is leaf 0.
    pub fn empty(&self) -> Root
        ensures tree { tree_of self.now result ≡ leaf 0 }
        ensures of { IsRootOf self.now result }
    {
        Root(Rec::Leaf(0))
    }

    /// The record of a node with these children, or the leaf where both are that leaf.
    /// It ticks once.
    #[inline(always)]
    pub fn mk<L: Ledger>(
        &mut self,
        left: Rec,
        right: Rec,
        steps: &mut Steps<L>,
    ) -> Result<Rec, StoreFault>
        requires left_of { IsOf self.old left }
        requires right_of { IsOf self.old right }
        requires left_low { height (meaning self.old left) ≤ 127 }
        requires right_low { height (meaning self.old right) ≤ 127 }
        ensures of { IfOk result (IsOf self.new) }
        ensures meaning { IfOk result
            (λ r. meaning self.new r
            ≡ join nat_eq (meaning self.old left) (meaning self.old right)) }
        ensures steps { steps.new ≡ steps.old + 1 }
        ensures grows { GrowsBy self.old self.new 1 }
        ensures kept { IsKept self.old self.new }
        ensures under { IfOk result (AddedUnder self.old self.new) }
        ensures err { OnErr result (self.new ≡ self.old) }
        ensures refused { OnErr result (NeedsNew self.old left right) }
        ensures full { IsErrOf result StoreFault.Full
            ↔ ((length self.old + 1 ≡ 2 ^ 32) × NeedsNew self.old left right) }
        ensures sound { IsSound self.new }
    {
        let _ = &self.pairs;
        steps.tick();
        if let Some(leaf) = same_leaf(left, right) {
            return Ok(Rec::Leaf(leaf));
        }
        let number = self.pairs.add(Pair { left, right })?;
        Ok(Rec::Node(NodeId(number)))
    }

    /// The leaf at which the walk of the address from the root ends.
    pub fn find(&self, root: Root, at: Addr) -> u32
        requires { IsRootOf self.now root }
        ensures { leaf_at self.now root at.0 ≡ Some result }
    {
        let mut rec = self.rec_of(root);
        let mut bits: u32 = 128;
        loop {
            match rec {
                Rec::Leaf(leaf) => return leaf,
                Rec::Node(id) => {
                    let (left, right) = self.children(id);
                    bits -= 1;
                    rec = if at.0 >> bits & 1 == 0 { left } else { right };
                }
            }
        }
    }

    /// The record that the root is.
    pub fn rec_of(&self, root: Root) -> Rec
        requires { IsRootOf self.now root }
        ensures same { result ≡ record_of root }
        ensures of { IsOf self.now result }
        ensures sound { IsSound self.now }
    {
        let _ = &self.pairs;
        root.0
    }

    /// The left and the right record of a node.
    pub fn children(&self, id: NodeId) -> (Rec, Rec)
        requires { IsOf self.now (Rec.Node id) }
        ensures of { IsOf self.now result.0 × IsOf self.now result.1 }
        ensures meaning { meaning self.now (Rec.Node id)
            ≡ node (meaning self.now result.0) (meaning self.now result.1) }
        ensures pair { pair_of self.now id ≡ Some (record { left = result.0; right = result.1 }) }
        ensures sound { IsSound self.now }
    {
        let pair = self.pairs.at(id.0);
        (pair.left, pair.right)
    }

    /// The node with this number. The numbers of a store go from 0 up to its length, and children
    /// have smaller ones than their node.
    pub fn node(&self, number: u32) -> NodeId
        requires { number < length self.now }
        ensures number { node_number result ≡ number }
        ensures of { IsOf self.now (Rec.Node result) }
        ensures sound { IsSound self.now }
    {
        let _ = &self.pairs;
        NodeId(number)
    }

    /// The number of nodes that the store holds.
    pub fn len(&self) -> u32
        ensures len { result ≡ length self.now }
        ensures sound { IsSound self.now }
    {
        self.pairs.len() as u32
    }
}

// The leaf that both records are.
fn same_leaf(left: Rec, right: Rec) -> Option<u32>
    ensures { MatchOption result
        ((k : ℕ) → left ≡ Rec.Leaf k → right ≢ Rec.Leaf k)
        (λ k. (left ≡ Rec.Leaf k) × (right ≡ Rec.Leaf k)) }
{
    match (left, right) {
        (Rec::Leaf(a), Rec::Leaf(b)) if a == b => Some(a),
        _ => None,
    }
}
