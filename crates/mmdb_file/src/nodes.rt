//! The bytes of the search tree.
ghost use Rattle.std.specs.Prelude.{◌≡◌, ◌+◌, ◌++◌, ◌<◌, ◌≤◌, ℕ, length, slice_index, OnOk};
ghost use Rattle.std.specs.Prelude.{map as map_list};
ghost use Rattle.mmdb_tree.specs.Nodes.{tree_bytes, limit};
ghost use Rattle.least_nodes.specs.Order.{AreOf};
ghost use Rattle.mmdb_file.specs.Writing.{number_of, node_numbers, nodes_from};

use crate::numbers::Numbers;
use geo_addr::Memory;
use mmdb_tree::{Bits, push_node};
use trie_core::{NodeId, Rec, Store};

/// Appends the nodes with these ids; where there are none, one node that leads to the root on both
/// sides.
pub(crate) fn push_nodes(
    tree: &mut Vec<u8>,
    bits: Bits,
    store: &Store,
    root: Rec,
    ids: &[NodeId],
    numbers: &Numbers,
) -> Result<(), Memory>
    requires of { AreOf store.now ids.now }
    requires keys { length numbers.now.nodes ≤ numbers.now.count }
    requires low { (k : ℕ)
        → numbers.now.count + 16 + slice_index numbers.now.starts.items k < limit bits }
    ensures { OnOk result (tree.new.items ≡ tree.old.items
        ++ tree_bytes bits (nodes_from store.now (number_of numbers.now) root ids.now)) }
{
    if ids.is_empty() {
        let record = numbers.record(root);
        push_node(tree, bits, record, record)?;
        return Ok(());
    }
    push_inner(tree, bits, store, ids, numbers)
}

/// Appends the nodes with these ids.
fn push_inner(
    tree: &mut Vec<u8>,
    bits: Bits,
    store: &Store,
    ids: &[NodeId],
    numbers: &Numbers,
) -> Result<(), Memory>
    requires of { AreOf store.now ids.now }
    requires keys { length numbers.now.nodes ≤ numbers.now.count }
    requires low { (k : ℕ)
        → numbers.now.count + 16 + slice_index numbers.now.starts.items k < limit bits }
    ensures { OnOk result (tree.new.items ≡ tree.old.items
        ++ tree_bytes bits (map_list (node_numbers store.now (number_of numbers.now)) ids.now)) }
{
    for id in ids {
        let (left, right) = store.children(*id);
        push_node(tree, bits, numbers.record(left), numbers.record(right))?;
    }
    Ok(())
}
