//! Nodes of a store, and the records that a node's two children are.
ghost use Rattle.std.specs.Prelude.{◌≡◌};
ghost use Rattle.trie_core.specs.Store.{node_number};

/// The number of a node in its store, which numbers its nodes from 0 on in the order in which they
/// were made.
#[derive(Clone, Copy, Debug, PartialEq, Eq, PartialOrd, Ord, Hash)]
pub struct NodeId(pub(crate) u32);

impl NodeId {
    /// The number, which is below the length of the node's store.
    pub fn number(self) -> u32
        ensures { result ≡ node_number self }
    {
        self.0
    }
}

/// A record: a leaf or a node. Leaf 0 is no place, and leaf k is place number k.
#[derive(Clone, Copy, Debug, PartialEq, Eq, PartialOrd, Ord, Hash)]
pub enum Rec {
    Leaf(u32),
    Node(NodeId),
}

/// The record at which the walk of an address begins.
#[derive(Clone, Copy, Debug, PartialEq, Eq, PartialOrd, Ord, Hash)]
pub struct Root(pub(crate) Rec);

/// The two children of a node: where a 0 of the address leads, and where a 1 does.
#[derive(Clone, Copy, Debug, PartialEq, Eq, PartialOrd, Ord, Hash)]
pub struct Pair {
    pub left: Rec,
    pub right: Rec,
}
