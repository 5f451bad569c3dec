//! Touched grounds in fewer ranges: those of one source mostly lie in those of another.
ghost use Rattle.std.specs.Prelude.{◌≡◌, ◌+◌, ◌^◌, ◌<◌, ◌≤◌, ◌||◌, ◌&&◌, ℕ, List, true, IfOk};
ghost use Rattle.std.specs.Prelude.{Contains, IfSome, IsTrue, OnOk, length, max, nat_le};
ghost use Rattle.std.specs.List.Sorted.{IsNonDecreasingBy};
ghost use Rattle.std.specs.Option.{option_to_list};
ghost use Rattle.geo_addr.specs.Ranges.{ground_first, holds};
ghost use Rattle.cut_segments.specs.Segments.{BeginIn, starts_in};
ghost use Rattle.source_changes.specs.Touched.{is_touched};

use crate::hints::Hints;
use geo_addr::{Memory, Range};
use source_changes::GroundList;
use std::alloc::Global;

/// Ranges that hold the same addresses of a chunk, and no others, in the order in which they begin.
/// There are no more of them than grounds, and each begins where a ground does, or the chunk.
///
/// In one pass neighbours become one range, and grounds that lie in an earlier one are left out.
pub fn grounds_in(alloc: Global, touched: &GroundList, chunk: Range) -> Result<Vec<Range>, Memory>
    ensures same { IfOk result (λ fewer. (a : ℕ) → is_touched fewer.items a
        ≡ (is_touched touched.now a && (nat_le chunk.first a && nat_le a chunk.last))) }
    // What is touched are addresses, so a chunk that is the whole space leaves none out.
    ensures below { IfOk result
        (λ fewer. (a : ℕ) → IsTrue (is_touched touched.now a) → a < 2 ^ 128) }
    ensures few { IfOk result (λ fewer. length fewer.items ≤ length touched.now) }
    ensures begun { IfOk result (λ fewer. BeginIn (starts_in touched.now chunk) fewer.items) }
    ensures order { IfOk result
        (λ fewer. IsNonDecreasingBy (λ r. ground_first r) fewer.items) }
{
    let mut grounds = joined(alloc, touched, chunk)?;
    grounds.sort_by_key(|range| range.ground_first())?;
    Ok(grounds)
}

// The same in the order of the grounds, where that serves.
fn joined(alloc: Global, grounds: &GroundList, chunk: Range) -> Result<Vec<Range>, Memory>
    ensures same { IfOk result (λ fewer. (a : ℕ) → is_touched fewer.items a
        ≡ (is_touched grounds.now a && (nat_le chunk.first a && nat_le a chunk.last))) }
    ensures below { IfOk result
        (λ fewer. (a : ℕ) → IsTrue (is_touched grounds.now a) → a < 2 ^ 128) }
    ensures few { IfOk result (λ fewer. length fewer.items ≤ length grounds.now) }
    ensures begun { IfOk result (λ fewer. BeginIn (starts_in grounds.now chunk) fewer.items) }
{
    let mut kept = Vec::new(alloc);
    let mut rest = Vec::new(alloc);
    let mut growing = None;
    let mut hints = Hints::new(alloc);
    let mut left = grounds.all();
    while let Some(next) = left.take() {
        let part = part_in(next, chunk);
        growing = grown_by(&mut kept, &mut rest, growing, part, &mut hints)?;
        left.pass_over(chunk, hints.found(kept.as_slice()));
    }
    if let Some(last) = growing {
        kept.push(last)?;
    }
    kept.append(&mut rest)?;
    Ok(kept)
}

// What a ground holds of a chunk.
fn part_in(ground: Range, chunk: Range) -> Option<Range>
    ensures held { (a : ℕ) → is_touched (option_to_list result) a
        ≡ (holds ground a && (nat_le chunk.first a && nat_le a chunk.last)) }
    ensures begun { IfSome result (λ r. ground_first r ≡ max (ground_first ground) chunk.first) }
    ensures within { ground.last < 2 ^ 128 }
{
    let first = ground.ground_first().max(chunk.first);
    let last = ground.last.min(chunk.last);
    if first > last {
        return None;
    }
    Some(Range { first, last })
}

// Takes a ground in, if there is one more, and hands back the range that grows from then on.
fn grown_by(
    kept: &mut Vec<Range>,
    rest: &mut Vec<Range>,
    growing: Option<Range>,
    next: Option<Range>,
    hints: &mut Hints,
) -> Result<Option<Range>, Memory>
    ensures same { IfOk result (λ grown. (a : ℕ) → (is_touched kept.new.items a
        || (is_touched (option_to_list grown) a || is_touched rest.new.items a))
        ≡ ((is_touched kept.old.items a
        || (is_touched (option_to_list growing) a || is_touched rest.old.items a))
        || is_touched (option_to_list next) a)) }
    ensures few { IfOk result (λ grown. length kept.new.items + length rest.new.items
        + length (option_to_list grown) ≤ length kept.old.items + length rest.old.items
        + length (option_to_list growing) + length (option_to_list next)) }
    ensures begun { IfOk result (λ grown. (starts : List ℕ) → BeginIn starts kept.old.items
        → BeginIn starts rest.old.items → BeginIn starts (option_to_list growing)
        → BeginIn starts (option_to_list next) → BeginIn starts kept.new.items
        × BeginIn starts rest.new.items × BeginIn starts (option_to_list grown)) }
{
    let Some(range) = growing else {
        return Ok(next);
    };
    let Some(more) = next else {
        return Ok(growing);
    };
    let grown = take_in(kept, rest, range, more, hints)?;
    Ok(Some(grown))
}

// Takes one more ground in, and hands back the range that grows from then on. The kept ones stand
// before it and ascend; the rest begin before it and lie in no kept one.
fn take_in(
    kept: &mut Vec<Range>,
    rest: &mut Vec<Range>,
    growing: Range,
    next: Range,
    hints: &mut Hints,
) -> Result<Range, Memory>
    ensures same { IfOk result (λ grown. (a : ℕ)
        → (is_touched kept.new.items a || (holds grown a || is_touched rest.new.items a))
        ≡ ((is_touched kept.old.items a || (holds growing a || is_touched rest.old.items a))
        || holds next a)) }
    ensures few { OnOk result (length kept.new.items + length rest.new.items
        ≤ length kept.old.items + length rest.old.items + 1) }
    ensures begun { IfOk result (λ grown. (starts : List ℕ) → BeginIn starts kept.old.items
        → BeginIn starts rest.old.items → Contains starts (ground_first growing)
        → Contains starts (ground_first next) → BeginIn starts kept.new.items
        × BeginIn starts rest.new.items × Contains starts (ground_first grown)) }
{
    if let Some(both) = both_of(growing, next) {
        return Ok(both);
    }
    if growing.last < next.ground_first() {
        kept.push(growing)?;
        return Ok(next);
    }
    let lies = lies_in_one(kept.as_slice(), next, hints)?;
    if !lies {
        rest.push(next)?;
    }
    Ok(growing)
}

// Two grounds as one, where the second begins in the first one or right behind it.
fn both_of(growing: Range, next: Range) -> Option<Range>
    ensures held { IfSome result
        (λ both. (a : ℕ) → holds both a ≡ (holds growing a || holds next a)) }
    ensures begun { IfSome result (λ both. ground_first both ≡ ground_first growing) }
{
    let begins = next.ground_first();
    if growing.is_v4() != next.is_v4() || begins < growing.ground_first() {
        return None;
    }
    if begins.saturating_sub(1) > growing.last {
        return None;
    }
    Some(Range {
        first: growing.first,
        last: growing.last.max(next.last),
    })
}

// Whether a ground lies in one of ascending ranges: in the one that was found last, or else in the
// first one that does not end before it, which is then the one that was found last.
fn lies_in_one(kept: &[Range], ground: Range, hints: &mut Hints) -> Result<bool, Memory>
    ensures { IfOk result (λ lies. IsTrue lies → (a : ℕ) → holds ground a ≡ true
        → is_touched kept.now a ≡ true) }
{
    if lies_at(kept, ground, hints.near) {
        return Ok(true);
    }
    hints.look_up(kept, ground.first)?;
    Ok(lies_at(kept, ground, hints.near))
}

// Whether a ground lies in the range at an index.
fn lies_at(kept: &[Range], ground: Range, at: usize) -> bool
    ensures { IsTrue result → (a : ℕ) → holds ground a ≡ true → is_touched kept.now a ≡ true }
{
    if at >= kept.len() {
        return false;
    }
    let range = kept[at];
    range.ground_first() <= ground.ground_first() && ground.last <= range.last
}
