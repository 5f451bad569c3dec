//! The fewest lines under a block.
ghost use Rattle.std.specs.Prelude.{◌≡◌, ◌-◌, ◌≤◌, ◌∷◌, [], length, IfOk};
ghost use Rattle.geo_addr.specs.Ranges.{IsBlock};
ghost use Rattle.trie_core.specs.Tree.{height};
ghost use Rattle.trie_core.specs.Store.{meaning, tree_of, leaf_at, IsOf, IsRootOf};
ghost use Rattle.publish_least.specs.Lines.{AreInside, AnswerAs, AreFewest, InPreorder, IsPlain};
ghost use Rattle.publish_least.specs.Price.{cost};
ghost use Rattle.publish_least.specs.Choice.{lines_of, part_of};
ghost use Rattle.publish_least.specs.Memo.{table_of, IsMemo};

use crate::line::Line;
use crate::memo::Memo;
use crate::part::part;
use crate::walk::write;
use geo_addr::{Block, Memory};
use std::alloc::Global;
use trie_core::{Rec, Root, Store};

/// The fewest lines that answer, by longest match inside a block, as the root does at each address
/// of the block. No line inside the block is taken for given:
/// outside of every line the answer is leaf 0.
///
/// Of several shortest lists it is this one. A leaf is best for a part of the tree where no other
/// leaf, inherited from above, saves a line there. The block begins with leaf 0. Where the
/// inherited leaf is best, there is no line; otherwise there is one of leaf 0 where that is best,
/// else of the best leaf to which a walk through the whole block comes first,
/// low addresses before high ones.
pub fn least_lines(
    alloc: Global,
    store: &Store,
    root: Root,
    within: Block,
) -> Result<Vec<Line>, Memory>
    requires of { IsRootOf store.now root }
    requires plain { IsPlain within }
    ensures lines { IfOk result
        (λ lines. lines.items ≡ lines_of (part_of (tree_of store.now root) within) within) }
    ensures inside { IfOk result (λ lines. AreInside within lines.items) }
    ensures preorder { IfOk result (λ lines. InPreorder lines.items) }
    ensures answers { IfOk result (λ lines. AnswerAs (leaf_at store.now root) within lines.items) }

    // No list of lines inside the block that answers as the root does is shorter.
    ensures fewest { IfOk result
        (λ lines. AreFewest (leaf_at store.now root) within lines.items) }
    ensures price { IfOk result
        (λ lines. length lines.items ≡ cost (part_of (tree_of store.now root) within) 0) }
{
    let rec = part(store, root, within);
    lines_under(alloc, store, rec, within)
}

// The lines of the tree of a record under its block.
fn lines_under(alloc: Global, store: &Store, rec: Rec, within: Block) -> Result<Vec<Line>, Memory>
    requires of { IsOf store.now rec }
    requires low { height (meaning store.now rec) ≤ 128 - within.len }
    ensures { IfOk result (λ lines. lines.items ≡ lines_of (meaning store.now rec) within) }
{
    let mut memo = Memo::new(alloc)?;
    let lines = lines_of_walk(alloc, store, rec, within, &mut memo);
    drop(memo);
    lines
}

// The lines of the tree of a record, of which nothing was learnt yet.
fn lines_of_walk(
    alloc: Global,
    store: &Store,
    rec: Rec,
    within: Block,
    memo: &mut Memo,
) -> Result<Vec<Line>, Memory>
    requires of { IsOf store.now rec }
    requires low { height (meaning store.now rec) ≤ 128 - within.len }
    requires order { (table_of memo.old).order ≡ 0 ∷ [] }
    requires memo { IsMemo store.now (table_of memo.old) }
    ensures { IfOk result (λ lines. lines.items ≡ lines_of (meaning store.now rec) within) }
{
    memo.learn(alloc, store, rec)?;
    let mut lines = Vec::new(alloc);
    write(store, memo, rec, within, 0, &mut lines)?;
    Ok(lines)
}
