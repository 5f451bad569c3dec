//! Touched grounds cut into segments.
ghost use Rattle.std.specs.Prelude.{◌≡◌, ◌∷◌, ◌+◌, ◌<◌, ◌≤◌, [], All, IfOk, IfSome, IsSome};
ghost use Rattle.std.specs.Prelude.{Contains, MatchOption, length, max};
ghost use Rattle.std.specs.List.Sorted.{IsNonDecreasing, IsNonDecreasingBy};
ghost use Rattle.std.specs.Option.{option_to_list};
ghost use Rattle.geo_addr.specs.Ranges.{IsRange, ground_first};
ghost use Rattle.cut_segments.specs.Marks.{ground_mark, cut_mark, merged, next_at, past_of};
ghost use Rattle.cut_segments.specs.Marks.{piece, stop_at, sweep};
ghost use Rattle.cut_segments.specs.Segments.{AreSegments, starts_of};

use crate::joined::grounds_in;
use crate::points::whole;
use geo_addr::{Memory, Range};
use source_changes::GroundList;
use std::alloc::Global;

// A point where the pieces change: a touched ground begins, which reaches to its last address, or a
// cut point stands.
#[derive(Clone, Copy)]
struct Mark {
    at: u128,
    reach: Option<u128>,
}

/// The touched grounds as ascending ranges that are disjoint, cut at ascending points.
///
/// The grounds may overlap and come in any order.
pub fn segments_between(
    alloc: Global,
    touched: &GroundList,
    points: &[u128],
) -> Result<Vec<Range>, Memory>
    requires { IsNonDecreasing points.now }
    ensures { IfOk result (λ segments. AreSegments touched.now points.now segments.items) }
{
    let grounds = grounds_in(alloc, touched, whole())?;
    let segments = segments_of(alloc, grounds.as_slice(), points)?;
    Ok(segments)
}

/// The touched grounds, in the order in which they begin, as ascending ranges that are disjoint,
/// cut at ascending points: each begins where a ground does, or at a point.
pub fn segments_of(alloc: Global, touched: &[Range], points: &[u128]) -> Result<Vec<Range>, Memory>
    requires order { IsNonDecreasingBy (λ r. ground_first r) touched.now }
    requires ascending { IsNonDecreasing points.now }
    ensures segments { IfOk result (λ segments. AreSegments touched.now points.now segments.items) }
    ensures begun { IfOk result (λ segments.
        All (λ r. Contains (starts_of touched.now points.now) r.first) segments.items) }
{
    let pieces = sweep(alloc, touched, points)?;
    Ok(pieces)
}

fn ground_mark(range: Range) -> Mark
    ensures { result ≡ ground_mark range }
{
    Mark {
        at: range.ground_first(),
        reach: Some(range.last),
    }
}

fn cut_mark(cut: u128) -> Mark
    ensures { result ≡ cut_mark cut }
{
    Mark {
        at: cut,
        reach: None,
    }
}

// One pass over grounds and cut points in order, with the farthest touched address so far.
fn sweep(alloc: Global, grounds: &[Range], points: &[u128]) -> Result<Vec<Range>, Memory>
    ensures found { IfOk result (λ pieces. pieces.items ≡ sweep 0 (merged grounds.now points.now)) }
    ensures ranges { IfOk result (λ pieces. All IsRange pieces.items) }
{
    // Most grounds begin at a cut point.
    let room = grounds.len().max(points.len());
    let mut pieces = Vec::with_capacity(alloc, room)?;
    let mut reach = None;
    let mut grounds = grounds;
    let mut points = points;
    while let Some(mark) = take_mark(&mut grounds, &mut points) {
        reach = farther(reach, mark.reach);
        if let Some(range) = piece(mark.at, reach, next_at(grounds, points)) {
            pieces.push(range)?;
        }
    }
    Ok(pieces)
}

// Takes the first mark of those that are left.
fn take_mark(grounds: &mut &[Range], points: &mut &[u128]) -> Option<Mark>
    ensures first { MatchOption result (merged grounds.old.now points.old.now ≡ []) (λ mark.
        merged grounds.old.now points.old.now ≡ mark ∷ merged grounds.new.now points.new.now) }
    ensures fewer { IsSome result → length grounds.new.now + length points.new.now
        < length grounds.old.now + length points.old.now }
{
    match (grounds.split_first(), points.split_first()) {
        (Some((range, later)), None) => {
            *grounds = later;
            Some(ground_mark(*range))
        }
        (Some((range, later)), Some((point, _))) if range.ground_first() <= *point => {
            *grounds = later;
            Some(ground_mark(*range))
        }
        (_, Some((point, later))) => {
            *points = later;
            Some(cut_mark(*point))
        }
        (None, None) => None,
    }
}

// Where the first mark stands of those that are left.
fn next_at(grounds: &[Range], points: &[u128]) -> Option<u128>
    ensures { result ≡ next_at (merged grounds.now points.now) }
{
    match (grounds.first(), points.first()) {
        (Some(range), Some(point)) => Some(range.ground_first().min(*point)),
        (Some(range), None) => Some(range.ground_first()),
        (None, Some(point)) => Some(*point),
        (None, None) => None,
    }
}

fn farther(x: Option<u128>, y: Option<u128>) -> Option<u128>
    ensures { past_of result ≡ max (past_of x) (past_of y) }
{
    match (x, y) {
        (Some(x), Some(y)) => Some(x.max(y)),
        (Some(x), None) => Some(x),
        (None, y) => y,
    }
}

// What is touched from a mark on, up to the next one.
fn piece(at: u128, reach: Option<u128>, next: Option<u128>) -> Option<Range>
    ensures found { option_to_list result ≡ piece at (stop_at (past_of reach) next) }
    ensures range { IfSome result IsRange }
{
    let last = last_of(reach?, next)?;
    if at > last {
        return None;
    }
    Some(Range { first: at, last })
}

// The last address up to which is touched that stands before the next mark.
fn last_of(reach: u128, next: Option<u128>) -> Option<u128>
    ensures { past_of result ≡ stop_at (reach + 1) next }
{
    match next {
        None => Some(reach),
        Some(next) if next > reach => Some(reach),
        Some(0) => None,
        Some(next) => Some(next - 1),
    }
}
