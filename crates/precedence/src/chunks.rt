//! Where the address space is cut into chunks.
ghost use Rattle.std.specs.Prelude.{◌≡◌, ◌+◌, ◌++◌, ◌∷◌, [], ◌<◌, ◌≤◌, ◌^◌, ◌⊎◌, All, Contains};
ghost use Rattle.std.specs.Prelude.{IfOk, OnOk, ℕ, map};
ghost use Rattle.std.specs.List.Sorted.{IsNonDecreasing};
ghost use Rattle.geo_addr.specs.Ranges.{Ends, IsWithin, ground_first};
ghost use Rattle.precedence.specs.Chunks.{BeginAt, IsLimit, Tiles};

use geo_addr::{Memory, Range};
use source_changes::GroundList;
use std::alloc::Global;

// From how many touched grounds the limits of chunks are taken, at most.
const MOST_SAMPLES: usize = 1000;

/// Where touched grounds begin, a sample of them in order.
pub(crate) fn begins_of(alloc: Global, touched: &GroundList) -> Result<Vec<u128>, Memory>
    ensures { IfOk result (λ begins.
        All (Contains (map (λ r. ground_first r) touched.now)) begins.items) }
{
    let step = touched.len() / MOST_SAMPLES + 1;
    let mut begins = Vec::new(alloc);
    let mut left = touched.all();
    // How many grounds are passed over before the next one is taken.
    let mut skipped = 0;
    while let Some(ground) = left.take() {
        if skipped == 0 {
            begins.push(ground.ground_first())?;
            skipped = step;
        }
        skipped -= 1;
    }
    begins.sort_unstable();
    Ok(begins)
}

/// The address space in chunks that begin at some of these limits, at most so many.
pub(crate) fn chunks_at(alloc: Global, limits: &[u128], pieces: u32) -> Result<Vec<Range>, Memory>
    requires { 0 < pieces }
    ensures tiles { IfOk result (λ chunks. Tiles 0 chunks.items (2 ^ 128)) }
    ensures begun { IfOk result (λ chunks. BeginAt limits.now chunks.items) }
{
    let mut chunks = Vec::new(alloc);
    let mut first = 0;
    for piece in 1..pieces {
        let at = limits.len().saturating_mul(piece as usize) / pieces as usize;
        first = cut_off(&mut chunks, first, limits, at)?;
    }
    chunks.push(Range {
        first,
        last: u128::MAX,
    })?;
    Ok(chunks)
}

/// A chunk, cut at ascending points that lie inside it.
pub(crate) fn pieces_at(alloc: Global, points: &[u128], chunk: Range) -> Result<Vec<Range>, Memory>
    requires ascending { IsNonDecreasing points.now }
    requires within { All (IsWithin chunk) points.now }
    ensures tiles { IfOk result (λ pieces. Tiles chunk.first pieces.items (chunk.last + 1)) }
    ensures begun { IfOk result
        (λ pieces. All (λ r. (r.first ≡ chunk.first) ⊎ Contains points.now r.first) pieces.items) }
    ensures uncut { IfOk result (λ pieces. (c : ℕ) → Contains points.now c
        → All (λ r. r.first < c → r.last < c) pieces.items) }
{
    let mut pieces = Vec::with_capacity(alloc, points.len() + 1)?;
    let mut first = chunk.first;
    for point in points {
        first = cut_before(&mut pieces, first, *point)?;
    }
    let last = chunk.last;
    pieces.push(Range { first, last })?;
    Ok(pieces)
}

// Adds the piece that ends before a point, if there is one, and tells where the next one begins.
fn cut_before(pieces: &mut Vec<Range>, first: u128, point: u128) -> Result<u128, Memory>
    requires { first ≤ point }
    ensures next { IfOk result (λ next. next ≡ point) }
    ensures tiles { OnOk result
        ((low : ℕ) → Tiles low pieces.old.items first → Tiles low pieces.new.items point) }
    ensures added { OnOk result ((pieces.new.items ≡ pieces.old.items)
        ⊎ ((r : Ends) × (pieces.new.items ≡ pieces.old.items ++ r ∷ []) × (r.first ≡ first)
        × (r.last + 1 ≡ point))) }
{
    if first < point {
        let last = point - 1;
        pieces.push(Range { first, last })?;
    }
    Ok(point)
}

// Adds the chunk up to a limit, if that lies ahead, and tells where the next one begins.
fn cut_off(chunks: &mut Vec<Range>, first: u128, limits: &[u128], at: usize) -> Result<u128, Memory>
    ensures tiles { IfOk result
        (λ next. Tiles 0 chunks.old.items first → Tiles 0 chunks.new.items next) }
    ensures begun { IfOk result (λ next. IsLimit limits.now first
        → BeginAt limits.now chunks.old.items
        → IsLimit limits.now next × BeginAt limits.now chunks.new.items) }
    ensures fits { IfOk result (λ next. next < 2 ^ 128) }
{
    match limits.get(at) {
        Some(limit) if first < *limit => {
            let last = *limit - 1;
            chunks.push(Range { first, last })?;
            Ok(*limit)
        }
        _ => Ok(first),
    }
}
