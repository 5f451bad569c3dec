//! A store of the nodes under some roots alone.
ghost use Rattle.std.specs.Prelude.{◌≡◌, ◌≤◌, ◌<◌, ◌^◌, [], ◌∷◌, ◌++◌, List, length, slice_get};
ghost use Rattle.std.specs.Prelude.{Some, IfOk, OnOk, IfSome};
ghost use Rattle.trie_core.specs.declared.node.Root.{Root};
ghost use Rattle.trie_core.specs.Store.{meaning, tree_of, IsOf, IsRootOf, IsKept, AddedUnder};
ghost use Rattle.trie_core.specs.Store.{IsSound};
ghost use Rattle.trie_core.specs.Compact.{AreRootsOf, trees_of_roots, HoldsExactly, AreTaken};
ghost use Rattle.trie_core.specs.Compact.{AreRootsTaken, IsNumbered};

use crate::near::Near;
use crate::node::{NodeId, Pair, Rec, Root};
use crate::pairs::Pairs;
use crate::store::Store;
use geo_addr::Memory;
use indexmap::IndexSet;
use std::alloc::Global;

/// The nodes that were taken along, in the order in which they came,
/// and their pairs in the new store.
#[derive(Drop)]
struct Taken {
    nodes: IndexSet<NodeId, Near>,
    pairs: Pairs,
}

impl Store {
    /// A store of exactly the different nodes under these roots, and its roots that mean what these
    /// mean, in the same order.
    ///
    /// The work follows the nodes under the roots and not the size of this store.
    /// It counts no step.
    pub fn compact(&self, roots: &[Root]) -> Result<(Store, Vec<Root>), Memory>
        requires { AreRootsOf self.now roots.now }
        ensures of { IfOk result (λ made. AreRootsOf made.0 made.1.items) }
        ensures meaning { IfOk result
            (λ made. trees_of_roots made.0 made.1.items ≡ trees_of_roots self.now roots.now) }
        ensures exact { IfOk result
            (λ made. HoldsExactly made.0 (trees_of_roots self.now roots.now)) }
        ensures few { IfOk result (λ made. length made.0 ≤ length self.now) }
        ensures sound { IfOk result (λ made. IsSound made.0) }
    {
        let _ = &self.pairs;
        let mut taken = Taken::new(self.alloc);
        let Ok(made) = self.take_roots(roots, &mut taken) else {
            drop(taken);
            return Err(Memory);
        };
        Ok((taken.into_store(self.alloc), made))
    }

    // The roots that mean what these mean, in a new store into which their nodes go.
    fn take_roots(&self, roots: &[Root], taken: &mut Taken) -> Result<Vec<Root>, Memory>
        requires of { AreRootsOf self.now roots.now }
        requires nodes { taken.old.nodes.keys ≡ [] }
        requires pairs { taken.old.pairs ≡ [] }
        ensures { IfOk result (λ made. AreRootsTaken self.now taken.new.nodes.keys
            taken.new.pairs roots.now made.items) }
    {
        let mut made = Vec::with_capacity(self.alloc, roots.len())?;
        for root in roots {
            self.take_root(*root, taken, &mut made)?;
        }
        Ok(made)
    }

    fn take_root(&self, root: Root, taken: &mut Taken, made: &mut Vec<Root>) -> Result<(), Memory>
        requires of { IsRootOf self.now root }
        requires taken { AreTaken self.now taken.old.nodes.keys taken.old.pairs }
        ensures taken { OnOk result (AreTaken self.now taken.new.nodes.keys taken.new.pairs) }
        ensures roots { OnOk result ((roots : List Root)
            → AreRootsTaken self.now taken.old.nodes.keys taken.old.pairs roots made.old.items
            → AreRootsTaken self.now taken.new.nodes.keys taken.new.pairs
            (roots ++ root ∷ []) made.new.items) }
    {
        let rec = self.rec_of(root);
        let rec = self.take(rec, taken)?;
        made.push(Root(rec))?;
        Ok(())
    }

    // The record of the new store that means what the record of this one means. No tree is higher
    // than 128, so the recursion stays shallow.
    fn take(&self, rec: Rec, taken: &mut Taken) -> Result<Rec, Memory>
        requires of { IsOf self.now rec }
        requires taken { AreTaken self.now taken.old.nodes.keys taken.old.pairs }
        ensures taken { OnOk result (AreTaken self.now taken.new.nodes.keys taken.new.pairs) }
        ensures of { IfOk result (IsOf taken.new.pairs) }
        ensures meaning { IfOk result (λ r. meaning taken.new.pairs r ≡ meaning self.now rec) }
        ensures kept { OnOk result (IsKept taken.old.pairs taken.new.pairs) }
        ensures under { IfOk result (AddedUnder taken.old.pairs taken.new.pairs) }
    {
        let Rec::Node(id) = rec else {
            return Ok(rec);
        };
        let (left, right) = self.children(id);
        if let Some(number) = taken.number(id) {
            return Ok(Rec::Node(NodeId(number)));
        }
        let left = self.take(left, taken)?;
        let right = self.take(right, taken)?;
        let number = taken.add(id, Pair { left, right })?;
        Ok(Rec::Node(NodeId(number)))
    }
}

impl Taken {
    // Nothing yet; it takes no memory.
    fn new(alloc: Global) -> Taken
        ensures nodes { result.nodes.keys ≡ [] }
        ensures pairs { result.pairs ≡ [] }
    {
        Taken {
            nodes: IndexSet::with_hasher(alloc, Near::new()),
            pairs: Pairs::new(alloc),
        }
    }

    // The new store.
    fn into_store(self, alloc: Global) -> Store
        requires { IsSound self.pairs }
        ensures { result ≡ self.pairs }
    {
        Store {
            alloc,
            pairs: self.pairs,
        }
    }

    // The number of a node in the new store, where it was taken along.
    fn number(&self, id: NodeId) -> Option<u32>
        requires { length self.now.nodes.keys < 2 ^ 32 }
        ensures { IfSome result (λ k. slice_get self.now.nodes.keys k ≡ Some id) }
    {
        match self.nodes.get_index_of(&id) {
            Some(index) => Some(index as u32),
            None => None,
        }
    }

    // The number of a node with this pair, which goes into the new store where it is not yet there.
    fn add(&mut self, id: NodeId, pair: Pair) -> Result<u32, Memory>
        requires { length self.old.nodes.keys < 2 ^ 32 }
        ensures { IfOk result (IsNumbered self.old.nodes.keys self.new.nodes.keys
            self.old.pairs self.new.pairs id pair) }
    {
        let (index, is_new) = self.nodes.insert_full(id)?;
        if is_new {
            let Ok(_) = self.pairs.add(pair) else {
                return Err(Memory);
            };
        }
        Ok(index as u32)
    }
}
