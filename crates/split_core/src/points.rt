//! The points at which ranges cut the address space.
ghost use Rattle.std.specs.Prelude.{◌≡◌, ◌↔◌, ◌⊎◌, ℕ, Contains, IfOk, IsTrue, OnOk};
ghost use Rattle.std.specs.List.Sorted.{IsPermutation, IsSorted, IsStrictlyIncreasing};
ghost use Rattle.std.specs.Ordering.{nat_cmp};
ghost use Rattle.geo_addr.specs.Ranges.{AreCuts, IsEdge, IsWithin};

use geo_addr::{Memory, Range};
use std::alloc::Global;

/// Where the ground of a range begins, and the point past its end, for all the ranges, as far as
/// these points lie within a range: ascending, each once.
pub fn cuts(alloc: Global, ranges: &[Range], within: Range) -> Result<Vec<u128>, Memory>
    ensures exact { IfOk result (λ v. AreCuts ranges.now within v.items) }
    ensures ascending { IfOk result (λ v. IsStrictlyIncreasing v.items) }
{
    let mut points = edges_within(alloc, ranges, within)?;
    put_in_order(&mut points);
    Ok(points)
}

/// The cut points of the ranges within a range, in any order and some of them more than once.
fn edges_within(alloc: Global, ranges: &[Range], within: Range) -> Result<Vec<u128>, Memory>
    ensures { IfOk result (λ v. AreCuts ranges.now within v.items) }
{
    // Of ranges that lie side by side each adds one point.
    let mut points = Vec::with_capacity(alloc, ranges.len())?;
    for &range in ranges {
        push_edges(&mut points, range, within)?;
    }
    Ok(points)
}

/// Appends the two edges of a range, as far as they lie within another, but not once more the point
/// that is the last one already.
pub fn push_edges(points: &mut Vec<u128>, range: Range, within: Range) -> Result<(), Memory>
    ensures { OnOk result ((c : ℕ) → Contains points.new.items c
        ↔ (Contains points.old.items c ⊎ (IsEdge c range × IsWithin within c))) }
{
    push_within(points, range.ground_first(), within)?;
    // The point past the range lies within only if it does not overflow.
    if range.last < within.last {
        push_within(points, range.last + 1, within)?;
    }
    Ok(())
}

/// Appends a point that lies within a range.
fn push_within(points: &mut Vec<u128>, point: u128, within: Range) -> Result<(), Memory>
    ensures { OnOk result ((c : ℕ) → Contains points.new.items c
        ↔ (Contains points.old.items c ⊎ ((c ≡ point) × IsWithin within c))) }
{
    if within.first <= point && point <= within.last {
        push_new(points, point)?;
    }
    Ok(())
}

/// Appends a point, unless it is the last one already.
fn push_new(points: &mut Vec<u128>, point: u128) -> Result<(), Memory>
    ensures { OnOk result
        ((c : ℕ) → Contains points.new.items c ↔ (Contains points.old.items c ⊎ (c ≡ point))) }
{
    if !ends_with(points.as_slice(), point) {
        points.push(point)?;
    }
    Ok(())
}

fn ends_with(points: &[u128], point: u128) -> bool
    ensures { IsTrue result → Contains points.now point }
{
    match points.last() {
        Some(last) => *last == point,
        None => false,
    }
}

/// Puts points in ascending order, each once.
pub fn put_in_order(points: &mut Vec<u128>)
    ensures same { (c : ℕ) → Contains points.new.items c ↔ Contains points.old.items c }
    ensures ascending { IsStrictlyIncreasing points.new.items }
{
    sort(points);
    points.dedup();
}

// Points of a file come in a few runs that ascend, and a stable sort only joins runs. It takes
// memory, and where there is none, the points are sorted where they stand.
fn sort(points: &mut Vec<u128>)
    ensures permutation { IsPermutation points.old.items points.new.items }
    ensures sorted { IsSorted nat_cmp points.new.items }
{
    if points.sort().is_err() {
        points.sort_unstable();
    }
}
