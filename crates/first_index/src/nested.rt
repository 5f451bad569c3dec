//! The boundaries of grounds that nest, by one pass.
ghost use Rattle.std.specs.Prelude.{◌≡◌, ◌<◌, ◌≤◌, ◌+◌, ◌-◌, ◌^◌, ◌++◌, ◌∷◌, [], ℕ, All, IfOk};
ghost use Rattle.std.specs.Prelude.{IfSome};
ghost use Rattle.std.specs.Prelude.{IsTrue, MatchOption, length, None, OnOk, Some, nat_lt};
ghost use Rattle.std.specs.Prelude.{option_map};
ghost use Rattle.std.specs.Option.{unwrap_or};
ghost use Rattle.std.specs.Ordering.{is_lt};
ghost use Rattle.geo_terms.specs.First.{better};
ghost use Rattle.first_index.specs.FirstIndex.{index_cmp};
ghost use Rattle.first_index.specs.Nested.{AreBoundariesOf, ArePassed, Closes, IsPut, Nest, Reach};
ghost use Rattle.first_index.specs.Nested.{top};

use crate::index::FirstIndex;
use geo_addr::Memory;
use geo_terms::Statement;
use std::alloc::Global;
use std::cmp::Ordering;

/// The index of statements whose grounds nest, where each outer one comes before those in it;
/// `None` where they do not.
pub fn nested_of<S: Statement>(
    alloc: Global,
    indexed: &[(usize, &S)],
) -> Result<Option<FirstIndex>, Memory>
    ensures found { IfOk result (λ found. IfSome found (λ index. AreBoundariesOf
        (λ x y. S.order x.now y.now) (λ x. S.range x.now) indexed.entry.now index)) }
    ensures kept { IfOk result (λ found. IfSome found
        (λ _. All (λ x. S.kept x.1.now) indexed.entry.now)) }
{
    let mut index = FirstIndex::with_room(alloc, indexed.len())?;
    // each with its last address, and the first statement that holds it up to there
    let mut opened = Vec::new(alloc);
    let mut low = 0;
    for statement in indexed {
        let Some(first) = pass(&mut index, &mut opened, low, *statement)? else {
            return Ok(None);
        };
        low = first;
    }
    close(&mut index, &mut opened, None)?;
    index.fit();
    Ok(Some(index))
}

// Passes one more statement, and answers where its ground begins; `None` where it does not nest.
fn pass<'a, S: Statement>(
    index: &mut FirstIndex,
    opened: &mut Vec<(u128, (usize, &'a S))>,
    low: u128,
    statement: (usize, &'a S),
) -> Result<Option<u128>, Memory>
    ensures passed { IfOk result (λ next. IfSome next (λ first. (cs : _) → ArePassed
        (λ x y. S.order x.now y.now)
        (λ x. S.range x.now) cs low index.old opened.old.items
        → ArePassed (λ x y. S.order x.now y.now) (λ x. S.range x.now) (cs
        ++ statement.entry ∷ []) first
        index.new opened.new.items)) }
    ensures kept { IfOk result (λ next. IfSome next (λ _. S.kept statement.entry.1.now)) }
{
    let range = statement.1.range();
    let first = range.ground_first();
    if first < low {
        return Ok(None);
    }
    close(index, opened, Some(first))?;
    if !lies_within(range.last, opened.as_slice()) {
        return Ok(None);
    }
    let best = better(innermost(opened.as_slice()), statement);
    index.put(first, Some(best.0))?;
    opened.push((range.last, best))?;
    Ok(Some(first))
}

// Closes the open grounds that end before an address, or all.
#[inline(always)]
fn close<S: Statement>(
    index: &mut FirstIndex,
    opened: &mut Vec<(u128, (usize, &S))>,
    next: Option<u128>,
) -> Result<(), Memory>
    ensures { OnOk result (Closes (λ x y. S.order x.now y.now) (λ x. S.range x.now)
        (unwrap_or next (2 ^ 128)) index.old opened.old.items index.new
        opened.new.items) }
{
    while let Some(last) = take_ended(opened, next) {
        put_end(index, last, innermost(opened.as_slice()))?;
    }
    Ok(())
}

// Takes the innermost open ground out where it ends before an address.
fn take_ended<S>(opened: &mut Vec<(u128, (usize, &S))>, next: Option<u128>) -> Option<u128>
    ensures stays { MatchOption result ((opened.new.items ≡ opened.old.items)
        × (Nest (2 ^ 128 - 1) opened.old.items
        → Reach (unwrap_or next (2 ^ 128) + 1) opened.old.items)) (λ last.
        (last < unwrap_or next (2 ^ 128)) × (x : _) × (opened.old.items
        ≡ opened.new.items ++ (last, x) ∷ [])) }
    ensures fewer { IfSome result (λ _. length opened.new.items < length opened.old.items) }
{
    let last = opened.last()?.0;
    if !is_before(last, next) {
        return None;
    }
    let _ended = opened.pop();
    Some(last)
}

fn is_before(last: u128, next: Option<u128>) -> bool
    ensures { result ≡ nat_lt last (unwrap_or next (2 ^ 128)) }
{
    match next {
        Some(next) => last < next,
        None => true,
    }
}

// Whether an address lies before the ends of all open grounds, which nest.
fn lies_within<S>(last: u128, opened: &[(u128, (usize, &S))]) -> bool
    ensures { IsTrue result → Nest (2 ^ 128 - 1) opened.entry.now
        → Reach (last + 1) opened.entry.now }
{
    match opened.last() {
        Some((end, _)) => last <= *end,
        None => true,
    }
}

// The first statement that holds the innermost open ground.
fn innermost<'a, S>(opened: &[(u128, (usize, &'a S))]) -> Option<(usize, &'a S)>
    ensures { result ≡ top None opened.entry.now }
{
    Some(opened.last()?.1)
}

// The one that goes first; those that tie go by their indexes.
fn better<'a, S: Statement>(
    best: Option<(usize, &'a S)>,
    statement: (usize, &'a S),
) -> (usize, &'a S)
    ensures { Some result
        ≡ better (λ x y. is_lt (index_cmp (λ v w. S.order v.now w.now) x y)) best.entry
        statement.entry }
{
    let Some(best) = best else {
        return statement;
    };
    if order(&statement, &best).is_lt() {
        statement
    } else {
        best
    }
}

/// How two statements stand: those that tie go by their indexes.
pub fn order<S: Statement>(x: &(usize, &S), y: &(usize, &S)) -> Ordering
    ensures { result
        ≡ index_cmp S.order (x.entry.now.0, x.entry.now.1.now) (y.entry.now.0, y.entry.now.1.now) }
{
    x.1.order(y.1).then(x.0.cmp(&y.0))
}

// The boundary behind the end of a ground; behind the last address there is none.
fn put_end<S>(index: &mut FirstIndex, last: u128, outer: Option<(usize, &S)>) -> Result<(), Memory>
    ensures put { OnOk result (last < 2 ^ 128 - 1
        → IsPut (last + 1) (option_map
        (λ c. c.0) outer.entry) index.old index.new) }
    ensures none { OnOk result (last ≡ 2 ^ 128 - 1 → index.new ≡ index.old) }
{
    if let Some(at) = last.checked_add(1) {
        index.put(at, index_of(outer))?;
    }
    Ok(())
}

fn index_of<S>(outer: Option<(usize, &S)>) -> Option<usize>
    ensures { result ≡ option_map (λ c. c.0) outer.entry }
{
    Some(outer?.0)
}
