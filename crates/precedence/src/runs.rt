//! Runs of cut points, which ascend, joined to one.
ghost use Rattle.std.specs.Prelude.{◌≡◌, ◌↔◌, ◌⊎◌, ◌∷◌, [], ◌+◌, ◌<◌, ℕ, if◌then◌else◌, Any};
ghost use Rattle.std.specs.Prelude.{Contains, IfOk, IsTrue, OnOk, length, nat_eq};
ghost use Rattle.std.specs.List.Sorted.{IsPermutation, IsStrictlyIncreasing};
ghost use Rattle.geo_addr.specs.Ranges.{IsWithin};
ghost use Rattle.precedence.specs.Runs.{points_of};

use cut_segments::part_inside;
use geo_addr::{Memory, Range};
use std::alloc::Global;

/// Adds the part of ascending points that lies inside a range.
pub fn push_run<'a>(
    runs: &mut Vec<&'a [u128]>,
    points: &'a [u128],
    range: Range,
) -> Result<(), Memory>
    requires { IsStrictlyIncreasing points.now }
    ensures { OnOk result ((c : ℕ) → Contains (points_of runs.new.items) c
        ↔ (Contains (points_of runs.old.items) c
        ⊎ (Contains points.now c × Any (λ r. IsWithin r c) (range ∷ [])))) }
{
    runs.push(part_inside(points, range))?;
    Ok(())
}

/// The points of these runs. They ascend, which no clause says: `in_order` makes sure of it, with
/// one look at each.
///
/// A run is taken as far as no other has a lower point, so that the cost is that of the changes
/// from run to run.
pub fn joined(alloc: Global, runs: Vec<&[u128]>) -> Result<Vec<u128>, Memory>
    ensures { IfOk result (λ points. (c : ℕ)
        → Contains points.items c ↔ Contains (points_of runs.entry.items) c) }
{
    let mut left = runs;
    let mut points = Vec::with_capacity(alloc, room_for(left.as_slice()))?;
    // What ascends by its first point is a heap.
    left.sort_unstable_by(|x, y| first_of(x).cmp(&first_of(y)));
    while !left.is_empty() {
        take_lowest(&mut points, &mut left)?;
    }
    Ok(points)
}

// How many points there are.
fn room_for(runs: &[&[u128]]) -> usize {
    let mut room = 0usize;
    for run in runs {
        room = room.saturating_add(run.len());
    }
    room
}

// Takes the front of the run with the lowest point, as far as no other run has a lower one.
fn take_lowest(points: &mut Vec<u128>, left: &mut Vec<&[u128]>) -> Result<(), Memory>
    requires { 0 < length left.old.items }
    ensures same { OnOk result ((c : ℕ) → (Contains points.new.items c
        ⊎ Contains (points_of left.new.items) c) ↔ (Contains points.old.items c
        ⊎ Contains (points_of left.old.items) c)) }
    ensures less { OnOk result (length (points_of left.new.items) + length left.new.items
        < length (points_of left.old.items) + length left.old.items) }
{
    let limit = next_lowest(left.as_slice());
    let run = left.swap_remove(0);
    let (front, back) = run.split_at(count_upto(run, limit).max(1).min(run.len()));
    points.extend_from_slice(front)?;
    put_back(left, back)
}

// Puts what is left of the first run of a heap back, if something is left.
fn put_back<'a>(left: &mut Vec<&'a [u128]>, run: &'a [u128]) -> Result<(), Memory>
    ensures same { OnOk result ((c : ℕ) → Contains (points_of left.new.items) c
        ↔ (Contains (points_of left.old.items) c ⊎ Contains run.now c)) }
    ensures points { OnOk result (length (points_of left.new.items)
        ≡ length (points_of left.old.items) + length run.now) }
    ensures runs { OnOk result (length left.new.items
        ≡ length left.old.items + (if nat_eq (length run.now) 0 then 0 else 1)) }
{
    if run.is_empty() {
        sink(left);
        return Ok(());
    }
    left.push(run)?;
    // The last run took the place of the first.
    let last = left.len() - 1;
    left.swap(0, last);
    sink(left);
    Ok(())
}

// The lowest point of the runs in a heap but the first.
fn next_lowest(runs: &[&[u128]]) -> u128 {
    let child = lower_child(runs, 0);
    if child < runs.len() {
        return first_of(runs[child]);
    }
    u128::MAX
}

// How many points at the front of a run lie at or below a limit.
fn count_upto(run: &[u128], limit: u128) -> usize {
    if let Some(last) = run.last() {
        if *last <= limit {
            return run.len();
        }
    }
    for (count, point) in run.iter().enumerate() {
        if *point > limit {
            return count;
        }
    }
    run.len()
}

// Moves the first run of a heap down to its place.
fn sink(runs: &mut Vec<&[u128]>)
    ensures { IsPermutation runs.old.items runs.new.items }
{
    let mut at = 0;
    for _ in 0..usize::BITS {
        let child = lower_child(runs.as_slice(), at);
        if !is_above(runs.as_slice(), at, child) {
            break;
        }
        runs.swap(at, child);
        at = child;
    }
}

// Whether both runs are there, and the first begins above the second.
fn is_above(runs: &[&[u128]], at: usize, child: usize) -> bool
    ensures { IsTrue result → (at < length runs.now) × (child < length runs.now) }
{
    at < runs.len() && child < runs.len() && first_of(runs[child]) < first_of(runs[at])
}

// The child of a place in a heap whose run begins lower, if it has children.
fn lower_child(runs: &[&[u128]], at: usize) -> usize {
    let left = at.saturating_mul(2).saturating_add(1);
    let right = left.saturating_add(1);
    if is_above(runs, left, right) {
        return right;
    }
    left
}

// The first point of a run; an empty one ends at once wherever it stands.
fn first_of(run: &[u128]) -> u128 {
    match run.first() {
        Some(point) => *point,
        None => 0,
    }
}
