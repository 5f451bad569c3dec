//! The walks through a store: what is learnt on the way up, and written on the way down.
ghost use Rattle.std.specs.Prelude.{◌≡◌, ◌≢◌, ℕ, ◌-◌, ◌<◌, ◌≤◌, ◌∷◌, ◌++◌, [], true, length};
ghost use Rattle.std.specs.Prelude.{slice_get, slice_index, Some, None, List, IfOk, OnOk};
ghost use Rattle.std.specs.Prelude.{MatchBool};
ghost use Rattle.trie_core.specs.declared.node.Pair.{Pair};
ghost use Rattle.trie_core.specs.Tree.{node, height};
ghost use Rattle.trie_core.specs.Store.{meaning, IsOf};
ghost use Rattle.publish_least.specs.Price.{has};
ghost use Rattle.publish_least.specs.Choice.{order_after, standing, root_line, lines_below};
ghost use Rattle.publish_least.specs.Memo.{table_of, IsSet, IsKnown, IsMemo, Stays, IsNoted};
ghost use Rattle.publish_least.specs.Memo.{IsSetOf, HasIndex, single};

use crate::half::halves;
use crate::line::Line;
use crate::memo::Memo;
use crate::set::{chosen, joined};
use geo_addr::{Block, Memory};
use indexmap::{IndexMap, IndexSet};
use std::alloc::Global;
use trie_core::{NodeId, Rec, Store};

impl Memo {
    /// A walk that has not begun. Leaf 0 has the first index.
    pub(crate) fn new(alloc: Global) -> Result<Memo, Memory>
        ensures order { IfOk result (λ memo. (table_of memo).order ≡ 0 ∷ []) }
        ensures memo { (pairs : List Pair) → IfOk result (λ memo. IsMemo pairs (table_of memo)) }
    {
        let mut order = IndexSet::new(alloc);
        order.insert(0)?;
        Ok(Memo {
            order,
            sets: IndexMap::new(alloc),
        })
    }

    /// Walks through the tree of a record, and passes over nodes that were seen. No tree is higher
    /// than 128, so the recursion stays shallow.
    pub(crate) fn learn(&mut self, alloc: Global, store: &Store, rec: Rec) -> Result<(), Memory>
        requires of { IsOf store.now rec }
        requires memo { IsMemo store.now (table_of self.old) }
        ensures order { OnOk result ((table_of self.new).order
            ≡ order_after (table_of self.old).order (meaning store.now rec)) }
        ensures memo { OnOk result (IsMemo store.now (table_of self.new)) }
        ensures known { OnOk result (IsKnown (table_of self.new) rec) }
        ensures stays { OnOk result (Stays (table_of self.old) (table_of self.new)) }
    {
        match rec {
            Rec::Leaf(leaf) => self.note_leaf(leaf),
            Rec::Node(id) => {
                if self.is_seen(id) {
                    return Ok(());
                }
                let (left, right) = store.children(id);
                self.learn(alloc, store, left)?;
                self.learn(alloc, store, right)?;
                let set = self.best_of_halves(alloc, left, right)?;
                self.note(id, set)
            }
        }
    }

    // Gives a leaf the next index, unless it has one.
    fn note_leaf(&mut self, leaf: u32) -> Result<(), Memory>
        ensures order { OnOk result ((table_of self.new).order
            ≡ order_after (table_of self.old).order (single leaf)) }
        ensures find { (table_of self.new).find ≡ (table_of self.old).find }
    {
        self.order.insert(leaf)?;
        Ok(())
    }

    // Whether the best leaves of a node are known.
    fn is_seen(&self, id: NodeId) -> bool
        ensures { MatchBool result
            (IsKnown (table_of self.now) (Rec.Node id))
            ((table_of self.now).find id ≡ None) }
    {
        self.sets.contains_key(&id)
    }

    // Notes the best leaves of a node.
    fn note(&mut self, id: NodeId, set: Vec<usize>) -> Result<(), Memory>
        ensures { OnOk result (IsNoted (table_of self.old) (table_of self.new) id set.items) }
    {
        self.sets.insert(id, set)?;
        Ok(())
    }

    // The indexes of the best leaves of a node with these halves.
    fn best_of_halves(&self, alloc: Global, left: Rec, right: Rec) -> Result<Vec<usize>, Memory>
        requires memo { (pairs : List Pair) × IsMemo pairs (table_of self.now) }
        requires left { IsKnown (table_of self.now) left }
        requires right { IsKnown (table_of self.now) right }
        ensures { (pairs : List Pair) → IsMemo pairs (table_of self.now) → IfOk result
            (λ set. IsSet (table_of self.now).order
            (node (meaning pairs left) (meaning pairs right)) set.items) }
    {
        let left_alone = [self.index_of(left)];
        let right_alone = [self.index_of(right)];
        joined(
            alloc,
            self.set_of(left, &left_alone),
            self.set_of(right, &right_alone),
        )
    }

    // The index of a leaf, which is its whole set. A node has none.
    fn index_of(&self, rec: Rec) -> usize
        requires { IsKnown (table_of self.now) rec }
        ensures { HasIndex (table_of self.now).order rec result }
    {
        match rec {
            Rec::Leaf(leaf) => self.order.get_index_of(&leaf).unwrap_or(0),
            Rec::Node(_) => 0,
        }
    }

    // The set of a record: that of a node, or the one index of a leaf.
    fn set_of<'a>(&'a self, rec: Rec, alone: &'a [usize]) -> &'a [usize]
        ensures { IsSetOf (table_of self.now) rec alone.now result.now }
    {
        match rec {
            Rec::Leaf(_) => alone,
            Rec::Node(id) => self.sets.get(&id).map_or(alone, |set| set.as_slice()),
        }
    }

    // The index of the leaf that stands at the root of a record,
    // for which a line is written where it is not inherited.
    fn stand(
        &self,
        rec: Rec,
        block: Block,
        inherited: usize,
        lines: &mut Vec<Line>,
    ) -> Result<usize, Memory>
        requires memo { (pairs : List Pair) × IsMemo pairs (table_of self.now) }
        requires known { IsKnown (table_of self.now) rec }
        requires index { inherited < length (table_of self.now).order }
        ensures index { IfOk result (λ index. index < length (table_of self.now).order) }
        ensures stands { (pairs : List Pair) → IsMemo pairs (table_of self.now) → IfOk result
            (λ index. slice_index (table_of self.now).order index
            ≡ standing (table_of self.now).order (meaning pairs rec)
            (slice_index (table_of self.now).order inherited)) }
        ensures lines { (pairs : List Pair) → IsMemo pairs (table_of self.now) → OnOk result
            (lines.new.items ≡ lines.old.items
            ++ root_line (table_of self.now).order (meaning pairs rec) block
            (slice_index (table_of self.now).order inherited)) }
    {
        let alone = [self.index_of(rec)];
        let Some(index) = chosen(self.set_of(rec, &alone), inherited) else {
            return Ok(inherited);
        };
        let leaf = self.order[index];
        lines.push(Line { block, leaf })?;
        Ok(index)
    }
}

/// Writes the lines of the tree of a record under a block, where the leaf of an index is inherited.
pub(crate) fn write(
    store: &Store,
    memo: &Memo,
    rec: Rec,
    block: Block,
    inherited: usize,
    lines: &mut Vec<Line>,
) -> Result<(), Memory>
    requires of { IsOf store.now rec }
    requires low { height (meaning store.now rec) ≤ 128 - block.len }
    requires memo { IsMemo store.now (table_of memo.now) }
    requires known { IsKnown (table_of memo.now) rec }
    requires index { inherited < length (table_of memo.now).order }
    ensures { OnOk result (lines.new.items ≡ lines.old.items
        ++ lines_below (table_of memo.now).order (meaning store.now rec) block
        (slice_index (table_of memo.now).order inherited)) }
{
    let standing = memo.stand(rec, block, inherited, lines)?;
    let Rec::Node(id) = rec else {
        return Ok(());
    };
    let (left, right) = store.children(id);
    let (lower, upper) = halves(block);
    write(store, memo, left, lower, standing, lines)?;
    write(store, memo, right, upper, standing, lines)
}
