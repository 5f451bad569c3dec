//! What a walk through a store has come to so far.
ghost use Rattle.std.specs.Prelude.{◌≡◌, [], IfOk, OnOk};
ghost use Rattle.trie_core.specs.Tree.{leaf};
ghost use Rattle.least_nodes.specs.Order.{places_after, IsNoted};

use crate::node_set::NodeSet;
use crate::place_set::PlaceSet;
use geo_addr::Memory;
use std::alloc::Global;
use trie_core::NodeId;

/// The nodes and the places that a walk has come to, each once, in the order of the first visits.
#[derive(Drop)]
pub(crate) struct Seen {
    pub(crate) nodes: NodeSet,
    pub(crate) places: PlaceSet,
    /// How many records the walk was called on.
    pub(crate) calls: u64,
}

impl Seen {
    /// A walk that has not begun; it takes no memory.
    pub(crate) fn new(alloc: Global) -> Seen
        ensures nodes { result.nodes ≡ [] }
        ensures places { result.places ≡ [] }
        ensures calls { result.calls ≡ 0 }
    {
        Seen {
            nodes: NodeSet::new(alloc),
            places: PlaceSet::new(alloc),
            calls: 0,
        }
    }

    /// Notes a node, and says whether it is new.
    #[inline(always)]
    pub(crate) fn note_node(&mut self, id: NodeId) -> Result<bool, Memory>
        ensures noted { IfOk result (IsNoted self.old.nodes self.new.nodes id) }
        ensures places { self.new.places ≡ self.old.places }
        ensures calls { self.new.calls ≡ self.old.calls }
    {
        self.nodes.insert(id)
    }

    /// Notes the place that a leaf is. Leaf 0 is no place.
    #[inline(always)]
    pub(crate) fn note_leaf(&mut self, number: u32) -> Result<(), Memory>
        ensures places { OnOk result
            (self.new.places ≡ places_after self.old.places (leaf number)) }
        ensures nodes { self.new.nodes ≡ self.old.nodes }
        ensures calls { self.new.calls ≡ self.old.calls }
    {
        if number != 0 {
            self.places.insert(number)?;
        }
        Ok(())
    }
}
