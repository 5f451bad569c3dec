//! The order in which the nodes and the places of a tree are written.
ghost use Rattle.std.specs.Prelude.{◌≡◌, ◌≤◌, ◌+◌, ◌-◌, ◌*◌, length, nat_eq, Contains, IfOk, OnOk};
ghost use Rattle.trie_core.specs.Tree.{height};
ghost use Rattle.trie_core.specs.Store.{meaning, tree_of, IsOf, IsRootOf};
ghost use Rattle.least_nodes.specs.Layout.{inner, place_order};
ghost use Rattle.least_nodes.specs.Laws.{IsFewest};
ghost use Rattle.least_nodes.specs.Order.{trees_of, AreOf, nodes_after, places_after, IsDoneBelow};

use crate::node_set::NodeSet;
use crate::place_set::PlaceSet;
use crate::seen::Seen;
use geo_addr::Memory;
use std::alloc::Global;
use trie_core::{NodeId, Rec, Root, Store};

/// The different nodes under a root, and the numbers of the different places among their leaves,
/// each in the order in which a walk first comes to them that takes a node before its children and
/// the left child before the right one.
#[derive(Drop)]
pub struct Layout {
    pub nodes: NodeSet,
    pub leaves: PlaceSet,
    /// How many records the walk was called on.
    pub calls: u64,
}

/// The layout of the tree that the root means. A root that is a leaf has no nodes. The walk goes
/// through the nodes under the root alone, and takes four bytes and a bit for each node of the
/// store up to the root's, and four bytes for each number of a place up to the highest.
pub fn order(alloc: Global, store: &Store, root: Root) -> Result<Layout, Memory>
    requires { IsRootOf store.now root }
    ensures nodes { IfOk result
        (λ layout. trees_of store.now layout.nodes ≡ inner nat_eq (tree_of store.now root)) }
    ensures of { IfOk result (λ layout. AreOf store.now layout.nodes) }
    ensures leaves { IfOk result
        (λ layout. layout.leaves ≡ place_order (tree_of store.now root)) }

    // No list of nodes that answers as the tree does is shorter.
    ensures least { IfOk result
        (λ layout. IsFewest 128 (tree_of store.now root) (length layout.nodes)) }
    ensures few { IfOk result (λ layout. length layout.nodes ≤ length store.now) }

    // The root's record and two of each node: nothing below a node is walked a second time.
    ensures calls { IfOk result (λ layout. layout.calls ≡ 2 * length layout.nodes + 1) }
{
    let rec = store.rec_of(root);
    let mut seen = Seen::new(alloc);
    visit(store, rec, &mut seen)?;
    Ok(Layout {
        nodes: seen.nodes,
        leaves: seen.places,
        calls: seen.calls,
    })
}

// Walks through the tree of the record, and passes over what was seen. No tree is higher than 128,
// so the recursion stays shallow. Inlined, so that no leaf and no node that was seen costs a call.
#[cycle(walk)]
#[inline(always)]
fn visit(store: &Store, rec: Rec, seen: &mut Seen) -> Result<(), Memory>
    requires of { IsOf store.now rec }
    requires known { AreOf store.now seen.old.nodes }
    requires done { IsDoneBelow (height (meaning store.now rec))
        (trees_of store.now seen.old.nodes) seen.old.places }
    requires calls { seen.old.calls ≤ 2 * length seen.old.nodes }
    ensures known { OnOk result (AreOf store.now seen.new.nodes) }
    ensures nodes { OnOk result (trees_of store.now seen.new.nodes
        ≡ nodes_after (trees_of store.now seen.old.nodes) (meaning store.now rec)) }
    ensures places { OnOk result (seen.new.places
        ≡ places_after seen.old.places (meaning store.now rec)) }
    ensures calls { OnOk result (seen.new.calls + 2 * length seen.old.nodes
        ≡ seen.old.calls + 2 * length seen.new.nodes + 1) }
{
    // No two nodes of a store mean one tree, and a set has fewer than 2^32, so the sum fits.
    let _ = (store.len(), seen.nodes.len());
    seen.calls += 1;
    match rec {
        Rec::Leaf(number) => seen.note_leaf(number),
        Rec::Node(id) => {
            if !seen.note_node(id)? {
                return Ok(());
            }
            visit_children(store, id, seen)
        }
    }
}

// Walks through the trees of the children of a node that was noted.
#[cycle(walk)]
fn visit_children(store: &Store, id: NodeId, seen: &mut Seen) -> Result<(), Memory>
    requires of { IsOf store.now (Rec.Node id) }
    requires known { AreOf store.now seen.old.nodes }
    requires noted { Contains seen.old.nodes id }
    requires done { IsDoneBelow (height (meaning store.now (Rec.Node id)) - 1)
        (trees_of store.now seen.old.nodes) seen.old.places }
    requires calls { seen.old.calls + 1 ≤ 2 * length seen.old.nodes }
    ensures known { OnOk result (AreOf store.now seen.new.nodes) }
    ensures nodes { OnOk result (trees_of store.now seen.new.nodes
        ≡ nodes_after (trees_of store.now seen.old.nodes) (meaning store.now (Rec.Node id))) }
    ensures places { OnOk result (seen.new.places
        ≡ places_after seen.old.places (meaning store.now (Rec.Node id))) }
    ensures calls { OnOk result (seen.new.calls + 2 * length seen.old.nodes
        ≡ seen.old.calls + 2 * length seen.new.nodes + 2) }
{
    let (left, right) = store.children(id);
    visit(store, left, seen)?;
    visit(store, right, seen)
}
