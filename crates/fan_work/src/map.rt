//! The map over a list by pieces.
ghost use Rattle.std.specs.Prelude.{◌≡◌, ◌≤◌, ◌<◌, map, length, ℕ, IfOk, OnOk};
ghost use Rattle.std.specs.List.{AllZip};
ghost use Rattle.std.specs.Thread.{IsSync, IsSend};
ghost use Rattle.fan_work.specs.Stretches.{HaveEntered, IsStretch};
ghost use Rattle.fan_work.specs.Pieces.{AllowsOnly, HasItems};
ghost use Rattle.fan_work.specs.declared.forks.TheConstants.{MOST_PIECES};

use crate::stretch::{Stretch, halves};
use crate::work::Work;
use geo_addr::Memory;
use geo_outside::Gate;
use std::alloc::Global;
use std::marker::{Send, Sync};
use std::thread::{Threads, join};

/// The result of the work for each item, in the items' order. The items are cut into pieces of
/// equal numbers of items as far as may be: piece j has the items from `j * n / pieces` up to but
/// not including `(j + 1) * n / pieces`, of n. Each piece that has items enters the gate before its
/// first one, and runs on a thread of its own where one can be had.
pub fn map_pieces<R: Threads + Sync, A: Sync, B: Send + Drop, W: Work<A, B>, G: Gate>(
    rt: &R,
    alloc: Global,
    gate: &G,
    pieces: u32,
    items: &[A],
    work: &W,
) -> Result<Vec<B>, Memory>
    requires some { 0 < pieces }
    requires few { pieces ≤ MOST_PIECES }
    ensures related { IfOk result (λ v. AllZip (W.related work.now) items.now v.items) }
    // Where the relation leaves no choice, nothing tells the answer from that of one thread.
    ensures one_thread { (f : A → B) → AllowsOnly (W.related work.now) f
        → IfOk result (λ v. v.items ≡ map f items.now) }
    ensures entered { OnOk result ((j : ℕ) → HasItems pieces (length items.now) j
        → G.entered gate.now j) }
{
    let whole = Stretch {
        pieces,
        count: items.len(),
        from: 0,
        to: pieces,
    };
    map_some(rt, alloc, gate, whole, items, work)
}

// The results of the items of a stretch: by its halves side by side, down to single pieces.
fn map_some<R: Threads + Sync, A: Sync, B: Send + Drop, W: Work<A, B>, G: Gate>(
    rt: &R,
    alloc: Global,
    gate: &G,
    stretch: Stretch,
    items: &[A],
    work: &W,
) -> Result<Vec<B>, Memory>
    requires { IsStretch stretch (length items.now) }
    ensures related { IfOk result (λ v. AllZip (W.related work.now) items.now v.items) }
    ensures entered { OnOk result (HaveEntered (G.entered gate.now) stretch) }
{
    if items.is_empty() || stretch.to - stretch.from == 1 {
        return map_piece(alloc, gate, stretch.from, items, work);
    }
    let ((left_stretch, left_items), (right_stretch, right_items)) = halves(stretch, items);
    let (left, right) = join(
        rt,
        || -> Result<Vec<B>, Memory>
            requires { IsSync R.row × IsSync A.row × IsSync W.row × IsSync G.row × IsSend B.row
                × IsStretch left_stretch (length left_items.now) }
            ensures related { IfOk result
                (λ v. AllZip (W.related work.entry.now) left_items.entry.now v.items) }
            ensures entered { OnOk result (HaveEntered (G.entered gate.entry.now) left_stretch) }
        { map_some(rt, alloc, gate, left_stretch, left_items, work) },
        || -> Result<Vec<B>, Memory>
            requires { IsSync R.row × IsSync A.row × IsSync W.row × IsSync G.row × IsSend B.row
                × IsStretch right_stretch (length right_items.now) }
            ensures related { IfOk result
                (λ v. AllZip (W.related work.entry.now) right_items.entry.now v.items) }
            ensures entered { OnOk result (HaveEntered (G.entered gate.entry.now) right_stretch) }
        { map_some(rt, alloc, gate, right_stretch, right_items, work) },
    );
    let mut results = left?;
    let mut rest = right?;
    results.append(&mut rest)?;
    Ok(results)
}

// The results of the items of one piece, one after another.
fn map_piece<A, B: Drop, W: Work<A, B>, G: Gate>(
    alloc: Global,
    gate: &G,
    piece: u32,
    items: &[A],
    work: &W,
) -> Result<Vec<B>, Memory>
    ensures related { IfOk result (λ v. AllZip (W.related work.now) items.now v.items) }
    ensures entered { OnOk result (0 < length items.now → G.entered gate.now piece) }
{
    let mut results = Vec::with_capacity(alloc, items.len())?;
    if !items.is_empty() {
        gate.enter(piece);
    }
    for item in items {
        results.push(work.done(item)?)?;
    }
    Ok(results)
}
