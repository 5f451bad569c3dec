//! Sets of indexes, as ascending lists.
ghost use Rattle.std.specs.Prelude.{◌≡◌, ℕ, ◌<◌, true, false, ◌||◌, length, slice_get, Some, IfOk};
ghost use Rattle.std.specs.Prelude.{MatchOption};
ghost use Rattle.std.specs.List.Sorted.{IsNonDecreasing};
ghost use Rattle.publish_least.specs.Price.{has, shared};
ghost use Rattle.publish_least.specs.Sets.{IsJoined};

use geo_addr::Memory;
use std::alloc::Global;

/// What two sets share, or where they share nothing what is in either.
pub(crate) fn joined(alloc: Global, xs: &[usize], ys: &[usize]) -> Result<Vec<usize>, Memory>
    requires first { IsNonDecreasing xs.now }
    requires second { IsNonDecreasing ys.now }
    ensures { IfOk result (λ set. IsJoined xs.now ys.now set.items) }
{
    let both = both(alloc, xs, ys)?;
    if both.is_empty() {
        either(alloc, xs, ys)
    } else {
        Ok(both)
    }
}

/// The index to take where this one is inherited: None where it is in the set,
/// else the first of the set.
pub(crate) fn chosen(set: &[usize], inherited: usize) -> Option<usize>
    requires rises { IsNonDecreasing set.now }
    requires some { 0 < length set.now }
    ensures { MatchOption result
        (has set.now inherited ≡ true)
        (λ at. (has set.now inherited ≡ false) × (slice_get set.now 0 ≡ Some at)) }
{
    if is_in(set, inherited) {
        None
    } else {
        Some(set[0])
    }
}

// What two sets share. The smaller one is walked through.
fn both(alloc: Global, xs: &[usize], ys: &[usize]) -> Result<Vec<usize>, Memory>
    requires first { IsNonDecreasing xs.now }
    requires second { IsNonDecreasing ys.now }
    ensures rises { IfOk result (λ set. IsNonDecreasing set.items) }
    ensures says { IfOk result (λ set. (i : ℕ) → has set.items i ≡ has (shared xs.now ys.now) i) }
{
    if xs.len() <= ys.len() {
        common(alloc, xs, ys)
    } else {
        common(alloc, ys, xs)
    }
}

// Those of a few indexes that are among many, which are halved to find each.
fn common(alloc: Global, few: &[usize], many: &[usize]) -> Result<Vec<usize>, Memory>
    requires { IsNonDecreasing many.now }
    ensures { IfOk result (λ set. set.items ≡ shared few.now many.now) }
{
    let mut both = Vec::new(alloc);
    for at in few {
        if is_in(many, *at) {
            both.push(*at)?;
        }
    }
    Ok(both)
}

// The indexes of two sets that share none.
fn either(alloc: Global, xs: &[usize], ys: &[usize]) -> Result<Vec<usize>, Memory>
    ensures rises { IfOk result (λ set. IsNonDecreasing set.items) }
    ensures says { IfOk result (λ set. (i : ℕ) → has set.items i ≡ (has xs.now i || has ys.now i)) }
{
    let mut all = xs.to_vec(alloc)?;
    all.extend_from_slice(ys)?;
    all.sort()?;
    Ok(all)
}

// Whether an index is in a set.
fn is_in(set: &[usize], at: usize) -> bool
    requires { IsNonDecreasing set.now }
    ensures { result ≡ has set.now at }
{
    set.binary_search(&at).is_ok()
}
