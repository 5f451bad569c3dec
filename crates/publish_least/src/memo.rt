//! What a walk through a store keeps.
use indexmap::{IndexMap, IndexSet};
use trie_core::NodeId;

/// What a walk has come to: the leaves in the order of the first visits, leaf 0 before all, and for
/// each node that was seen the indexes of its best leaves in that order, ascending.
#[derive(Drop)]
pub(crate) struct Memo {
    pub(crate) order: IndexSet<u32>,
    pub(crate) sets: IndexMap<NodeId, Vec<usize>>,
}
