//! The laws of the least tree, as functions that do nothing: what each ensures is the law.
ghost use Rattle.std.specs.Prelude.{List};
ghost use Rattle.trie_core.specs.declared.node.Pair.{Pair};
ghost use Rattle.trie_core.specs.Store.{IsSound};
ghost use Rattle.least_nodes.specs.Together.{CompactCount, RenamedNodes};
ghost use Rattle.least_nodes.specs.Laws.{Apart, CompactLength, LaidOut, Least, LeastFor, OneTree};
ghost use Rattle.least_nodes.specs.Laws.{RenamedLayout};

pub use trie_core::laws::{
    equal_lookups_equal_trees, only_tree_of_function, tree_answers_function,
};

/// Distinct subtrees need distinct nodes: in any list of nodes with the lookups of a reduced tree,
/// the addresses that lead to different nodes of the tree lead to different positions of the list.
pub fn distinct_subtrees_distinct_nodes<A>()
    ensures { Apart A }
{}

/// The fewest nodes: a list of nodes with the lookups of a reduced tree, however it shares or
/// repeats them, is at least as long as the list of the tree's different nodes.
pub fn fewest_nodes<A>()
    ensures { Least A }
{}

/// The fewest nodes for a function: a list of nodes that at every address answers the function is
/// at least as long as the list of the different nodes of the function's tree.
pub fn fewest_nodes_for_function<A>()
    ensures { LeastFor A }
{}

/// The layout answers as the tree: the walk through the nodes that are written for a tree comes,
/// along every list of at least one bit, to the tree's own answer.
pub fn layout_answers_as_tree<A>()
    ensures { LaidOut A }
{}

/// New names, the same layout: where the leaves of a tree get new names, different ones for
/// different leaves, the nodes that are written and the order of the
/// leaves change in the names alone.
pub fn renamed_leaves_same_layout<A, B>()
    ensures { RenamedLayout A B }
{}

/// Equal leaves, equal trees, across stores: where the roots of two stores have the same leaf at
/// every address, both mean the same tree, so `order` lays both out alike.
pub fn equal_leaves_equal_layouts()
    ensures { (one two : List Pair) → IsSound one → IsSound two → OneTree one two }
{}

/// A compact store is as long as the layout of its root, so two of them with the same leaf at every
/// address are equally long.
pub fn compact_store_is_as_long_as_layout()
    ensures { (pairs : List Pair) → IsSound pairs → CompactLength pairs }
{}

/// A store with no other nodes than those of some trees has as many as
/// the trees have different ones.
pub fn compact_store_holds_each_node_once()
    ensures { (pairs : List Pair) → IsSound pairs → CompactCount pairs }
{}

/// New names, as many nodes: where the leaves of some trees get new names, different ones for
/// different leaves, the trees have as many different nodes as before.
pub fn renamed_leaves_as_many_nodes<A, B>()
    ensures { RenamedNodes A B }
{}
