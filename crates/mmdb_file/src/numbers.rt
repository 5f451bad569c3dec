//! The numbers that stand for the records of a store.
ghost use Rattle.std.specs.Prelude.{◌≡◌, ◌+◌, ◌^◌, ◌<◌, ◌≤◌, ℕ, [], length, slice_index, IfOk};
ghost use Rattle.mmdb_file.specs.Writing.{record_number};

use least_nodes::{NodeSet, PlaceSet};
use trie_core::{NodeId, Rec};

/// The bytes between the search tree and the data section.
pub(crate) const GAP: u64 = 16;

/// The nodes and the places of a file in order, and where the value of each place begins.
#[derive(Drop)]
pub(crate) struct Numbers {
    pub(crate) count: u32,
    pub(crate) nodes: NodeSet,
    pub(crate) places: PlaceSet,
    pub(crate) starts: Vec<u64>,
}

impl Numbers {
    /// The record as it stands in the file.
    pub(crate) fn record(&self, rec: Rec) -> u32
        requires few { length self.now.nodes < 2 ^ 32 }
        requires low { (k : ℕ)
            → self.now.count + 16 + slice_index self.now.starts.items k < 2 ^ 32 }
        ensures { result ≡ record_number self.now.count self.now.nodes self.now.places
            self.now.starts.items rec }
    {
        match rec {
            Rec::Leaf(number) => self.leaf(number),
            Rec::Node(id) => self.node(id),
        }
    }

    fn leaf(&self, number: u32) -> u32
        requires low { (k : ℕ)
            → self.now.count + 16 + slice_index self.now.starts.items k < 2 ^ 32 }
        ensures { result ≡ record_number self.now.count self.now.nodes self.now.places
            self.now.starts.items (Rec.Leaf number) }
    {
        match self.places.index_of(number) {
            Some(index) => (u64::from(self.count) + GAP + start_at(&self.starts, index)) as u32,
            None => self.count,
        }
    }

    fn node(&self, id: NodeId) -> u32
        requires few { length self.now.nodes < 2 ^ 32 }
        ensures { result ≡ record_number self.now.count self.now.nodes self.now.places
            self.now.starts.items (Rec.Node id) }
    {
        match self.nodes.index_of(id) {
            Some(index) => index as u32,
            None => self.nodes.len() as u32,
        }
    }
}

fn start_at(starts: &[u64], index: usize) -> u64
    ensures { result ≡ slice_index starts.now index }
{
    match starts.get(index) {
        Some(start) => *start,
        None => 0,
    }
}
