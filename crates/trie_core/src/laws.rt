//! The laws that the store of nodes rests on, as functions that do nothing:
//! what each ensures is the law.
ghost use Rattle.std.specs.Prelude.{List};
ghost use Rattle.trie_core.specs.declared.node.Pair.{Pair};
ghost use Rattle.trie_core.specs.Store.{IsSound};
ghost use Rattle.trie_core.specs.Graft.{BelowAnswers, CopyAnswersAlike, GraftAnswers};
ghost use Rattle.trie_core.specs.Laws.{Canonical, MeansFunction, OneRecord, OnlyTree, Renamed};
ghost use Rattle.trie_core.specs.Laws.{TreeOfFunction};

/// Equal lookups, equal trees: two reduced trees with no leaf below depth n that answer alike along
/// every list of n bits are the same tree.
pub fn equal_lookups_equal_trees<A>()
    ensures { Canonical A }
{}

/// The tree of a function is reduced, and at every address it answers the function.
pub fn tree_answers_function<A>()
    ensures { TreeOfFunction A }
{}

/// A reduced tree that at every address answers a function is that function's tree.
pub fn only_tree_of_function<A>()
    ensures { OnlyTree A }
{}

/// New names for the leaves of a reduced tree, different ones for different leaves, leave it
/// reduced, and it answers the new name of what it answered.
pub fn renamed_tree_is_reduced<A, B>()
    ensures { Renamed A B }
{}

/// Two records of one store that have the same leaf at every address are the same record.
pub fn equal_leaves_equal_records()
    ensures { (pairs : List Pair) → IsSound pairs → OneRecord pairs }
{}

/// A root of a store that answers a function of the addresses means that function's tree.
pub fn root_means_tree_of_function()
    ensures { (pairs : List Pair) → IsSound pairs → MeansFunction pairs }
{}

/// The tree below a way answers along every list of bits as the whole tree does behind that way.
pub fn tree_below_answers<A>()
    ensures { BelowAnswers A }
{}

/// Behind its way the tree of a graft answers, and along every list that
/// parts from the way the old tree.
pub fn graft_answers<A>()
    ensures { GraftAnswers A }
{}

/// After the tree below one way is grafted at another one, which parts from it,
/// both ways answer alike.
pub fn copy_answers_alike<A>()
    ensures { CopyAnswersAlike A }
{}
