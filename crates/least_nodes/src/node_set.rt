//! A set of nodes in the order in which they came.
ghost use Rattle.std.specs.Prelude.{◌≡◌, ◌<◌, ◌≤◌, ◌-◌, ◌^◌, ◌++◌, [], length, replicate};
ghost use Rattle.std.specs.Prelude.{IfOk, OnOk, OnErr};
ghost use Rattle.std.specs.List.{position};
ghost use Rattle.least_nodes.specs.Order.{same_node, IsNoted};

use crate::marks::Marks;
use geo_addr::Memory;
use std::alloc::Global;
use std::marker::Model;
use trie_core::NodeId;

/// The most nodes whose positions fit, each plus one, in four bytes.
const MOST_NODES: usize = 0xffff_ffff;

/// A set of nodes of one store that keeps the order in which they came.
///
/// Contracts see the list of its nodes. A store numbers its nodes from 0 on, so a node is found by
/// its number in a list, of four bytes for each number up to the highest that has come, and whether
/// the set has it is told by a bit more.
#[derive(Drop)]
pub struct NodeSet {
    ids: Vec<NodeId>,
    // At each number one more than the position of its node, and 0 where the set has none of it.
    next: Vec<u32>,
    // Set where `next` is not 0: so much less memory stays nearer than `next` does.
    marks: Marks,
}

impl Model for NodeSet {
    ghost use Rattle.std.specs.Prelude.{List};
    ghost use Rattle.trie_core.specs.declared.node.NodeId.{NodeId};
    ghost use Rattle.trie_core.specs.Store.{node_number};
    ghost use Rattle.least_nodes.specs.NumberSet.{IsFoundBy, AreMarked};

    ghost Value = { List NodeId };

    ghost view = { λ s. s.ids.items };

    ghost invariant = { λ s. IsFoundBy node_number s.ids.items s.next.items
        × AreMarked s.next.items s.marks.words.items };
}

impl NodeSet {
    /// A set of no nodes; it takes no memory.
    pub fn new(alloc: Global) -> NodeSet
        ensures { result ≡ [] }
    {
        NodeSet {
            ids: Vec::new(alloc),
            next: Vec::new(alloc),
            marks: Marks::new(alloc),
        }
    }

    /// Puts the node last, unless the set has it, and says whether it is new.
    #[inline(always)]
    pub fn insert(&mut self, id: NodeId) -> Result<bool, Memory>
        ensures noted { IfOk result (IsNoted self.old self.new id) }
        ensures err { OnErr result (self.new ≡ self.old) }
    {
        let number = id.number();
        if self.marks.has(number) {
            return Ok(false);
        }
        let len = self.ids.len();
        if len == MOST_NODES {
            return Err(Memory);
        }
        make_room(&mut self.next, number)?;
        self.ids.reserve(1)?;
        self.marks.put(number)?;
        self.ids.push_reserved(id);
        self.next[number as usize] = len as u32 + 1;
        Ok(true)
    }

    /// Where the node stands in the order, if the set has it.
    pub fn index_of(&self, id: NodeId) -> Option<usize>
        ensures { result ≡ position (same_node id) self.now }
    {
        let next = self.next.get(id.number() as usize)?;
        (*next as usize).checked_sub(1)
    }

    /// The nodes in order.
    pub fn as_slice(&self) -> &[NodeId]
        ensures { result.now ≡ self.now }
    {
        self.ids.as_slice()
    }

    /// The number of nodes in the set.
    pub fn len(&self) -> usize
        ensures len { result ≡ length self.now }
        ensures few { length self.now < 2 ^ 32 }
    {
        self.ids.len()
    }
}

/// Puts zeros behind the list until it holds this number.
#[inline(always)]
pub(crate) fn make_room(next: &mut Vec<u32>, number: u32) -> Result<(), Memory>
    ensures zeros { next.new.items
        ≡ next.old.items ++ replicate (length next.new.items - length next.old.items) 0 }
    ensures within { OnOk result (number < length next.new.items) }
    ensures err { OnErr result (next.new.items ≡ next.old.items) }
{
    if (number as usize) < next.len() {
        return Ok(());
    }
    lengthen(next, number as usize + 1)
}

// Puts zeros behind the list until it is so long. Not inlined, since it is seldom called.
#[inline(never)]
fn lengthen(next: &mut Vec<u32>, len: usize) -> Result<(), Memory>
    requires { length next.old.items ≤ len }
    ensures zeros { next.new.items
        ≡ next.old.items ++ replicate (length next.new.items - length next.old.items) 0 }
    ensures within { OnOk result (length next.new.items ≡ len) }
    ensures err { OnErr result (next.new.items ≡ next.old.items) }
{
    next.resize(len, 0)?;
    Ok(())
}
