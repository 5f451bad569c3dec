//! The tree under a block.
ghost use Rattle.std.specs.Prelude.{◌≡◌, ◌-◌, ◌≤◌, ◌∷◌, []};
ghost use Rattle.geo_addr.specs.Ranges.{IsBlock};
ghost use Rattle.trie_core.specs.Tree.{height};
ghost use Rattle.trie_core.specs.Store.{meaning, tree_of, IsOf, IsRootOf};
ghost use Rattle.least_nodes.specs.Layout.{below};
ghost use Rattle.publish_least.specs.Choice.{part_of};

use geo_addr::Block;
use trie_core::{Rec, Root, Store};

/// The record to which the bits of a block's prefix lead from the root. A leaf stays where it is.
pub(crate) fn part(store: &Store, root: Root, within: Block) -> Rec
    requires { IsRootOf store.now root }
    ensures of { IsOf store.now result }
    ensures meaning { meaning store.now result ≡ part_of (tree_of store.now root) within }
    ensures low { height (meaning store.now result) ≤ 128 - within.len }
    ensures block { IsBlock within }
{
    let Block { first, len } = within;
    let mut rec = store.rec_of(root);
    for depth in 0..len {
        let is_upper = first >> (127 - depth) & 1 == 1;
        rec = child(store, rec, is_upper);
    }
    rec
}

// The record to which a bit leads.
fn child(store: &Store, rec: Rec, is_upper: bool) -> Rec
    requires { IsOf store.now rec }
    ensures of { IsOf store.now result }
    ensures meaning { meaning store.now result ≡ below (meaning store.now rec) (is_upper ∷ []) }
{
    let Rec::Node(id) = rec else {
        return rec;
    };
    let (left, right) = store.children(id);
    if is_upper { right } else { left }
}
