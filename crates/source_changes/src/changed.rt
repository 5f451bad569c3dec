//! The grounds of the statements that changed.
ghost use Rattle.std.specs.Prelude.{◌≡◌, ◌≤◌, ◌++◌, ◌-◌, true, All, IfOk, OnOk, map, length, take};
ghost use Rattle.std.specs.Prelude.{drop};
ghost use Rattle.std.specs.List.{AllZip};
ghost use Rattle.std.specs.List.Sorted.{IsPermutation, IsSorted};
ghost use Rattle.source_changes.specs.Changed.{changed};
ghost use Rattle.source_changes.specs.Merging.{differing};
ghost use Rattle.source_changes.specs.Sorting.{range_cmp, whole_cmp};
ghost use Rattle.source_changes.specs.Touched.{ground_of};

use crate::compared::Compared;
use crate::ground_list::GroundList;
use geo_addr::{Memory, Range};
use geo_terms::Statement;
use std::alloc::Global;
use std::cmp::Ordering;

/// The grounds of the statements of two lists that have no partner in the other one, in any order.
/// They are packed at once, since there may be as many as there are statements.
///
/// What both lists begin with, what both end with, and what is the same at the same index between
/// these is passed over first, so where a few lines of a long file changed nothing long is sorted.
pub fn changed_grounds<S: Compared>(
    alloc: Global,
    old: &[S],
    new: &[S],
) -> Result<GroundList, Memory>
    ensures { IfOk result (λ grounds. IsPermutation
        (map (λ x. ground_of (S.range x)) (changed S.same old.now new.now)) grounds) }
{
    let (old, new) = trimmed(old, new);
    let mut grounds = GroundList::new(alloc);
    if old.is_empty() {
        push_all(&mut grounds, new)?;
        return Ok(grounds);
    }
    if new.is_empty() {
        push_all(&mut grounds, old)?;
        return Ok(grounds);
    }
    let (mut old, mut new) = unpaired(alloc, old, new)?;
    sort_statements(&mut old);
    sort_statements(&mut new);
    push_differing(&mut grounds, old.as_slice(), new.as_slice())?;
    Ok(grounds)
}

/// Reads each of the statements: so each is known to keep what its type keeps.
pub fn keep_all<S: Statement>(statements: &[S])
    ensures { All S.kept statements.now }
{
    for statement in statements {
        statement.range();
    }
}

// Both lists without what they both begin with and without what they both end with.
fn trimmed<'a, S: Compared>(old: &'a [S], new: &'a [S]) -> (&'a [S], &'a [S])
    ensures { IsPermutation (map (λ x. ground_of (S.range x)) (changed S.same old.now new.now))
        (map (λ x. ground_of (S.range x)) (changed S.same result.0.now result.1.now)) }
{
    let start = common_start(old, new);
    let (_, old) = old.split_at(start);
    let (_, new) = new.split_at(start);
    let end = common_end(old, new);
    let (old, _) = old.split_at(old.len() - end);
    let (new, _) = new.split_at(new.len() - end);
    (old, new)
}

// How many statements both lists begin with.
fn common_start<S: Compared>(old: &[S], new: &[S]) -> usize
    ensures in_old { result ≤ length old.now }
    ensures in_new { result ≤ length new.now }
    ensures same { AllZip (λ x y. S.same x y ≡ true) (take result old.now) (take result new.now) }
{
    let shorter = old.len().min(new.len());
    for i in 0..shorter {
        if !is_same(&old[i], &new[i]) {
            return i;
        }
    }
    shorter
}

// How many statements both lists end with.
fn common_end<S: Compared>(old: &[S], new: &[S]) -> usize
    ensures in_old { result ≤ length old.now }
    ensures in_new { result ≤ length new.now }
    ensures same { AllZip (λ x y. S.same x y ≡ true) (drop (length old.now - result) old.now)
        (drop (length new.now - result) new.now) }
{
    let shorter = old.len().min(new.len());
    for i in 0..shorter {
        if !is_same(&old[old.len() - 1 - i], &new[new.len() - 1 - i]) {
            return i;
        }
    }
    shorter
}

fn is_same<S: Compared>(x: &S, y: &S) -> bool
    ensures { result ≡ S.same x.now y.now }
{
    compare(x, y).is_eq()
}

// By the range, and then by the rest.
fn compare<S: Compared>(x: &S, y: &S) -> Ordering
    ensures { result ≡ whole_cmp S.range S.rest x.now y.now }
{
    compare_ranges(x.range(), y.range()).then_with(|| x.compare_rest(y))
}

fn compare_ranges(x: Range, y: Range) -> Ordering
    ensures { result ≡ range_cmp x y }
{
    x.first.cmp(&y.first).then(x.last.cmp(&y.last))
}

// Both lists without the statements that are the same at the same index of both, borrowed.
fn unpaired<'a, S: Compared>(
    alloc: Global,
    old: &'a [S],
    new: &'a [S],
) -> Result<(Vec<&'a S>, Vec<&'a S>), Memory>
    ensures { IfOk result (λ left. IsPermutation (map (λ x. ground_of (S.range x))
        (changed S.same old.entry.now new.entry.now)) (map (λ x. ground_of (S.range x))
        (changed S.same (map (λ s. s.now) left.0.items) (map (λ s. s.now) left.1.items)))) }
{
    let mut old_left = Vec::new(alloc);
    let mut new_left = Vec::new(alloc);
    let shorter = old.len().min(new.len());
    for i in 0..shorter {
        if !is_same(&old[i], &new[i]) {
            old_left.push(&old[i])?;
            new_left.push(&new[i])?;
        }
    }
    push_borrows(&mut old_left, &old[shorter..])?;
    push_borrows(&mut new_left, &new[shorter..])?;
    Ok((old_left, new_left))
}

/// Appends a borrow of each statement.
pub fn push_borrows<'a, S>(borrows: &mut Vec<&'a S>, statements: &'a [S]) -> Result<(), Memory>
    ensures { OnOk result (map (λ s. s.now) borrows.new.items
        ≡ map (λ s. s.now) borrows.old.items ++ statements.entry.now) }
{
    borrows.reserve(statements.len())?;
    for statement in statements {
        borrows.push(statement)?;
    }
    Ok(())
}

// Puts statements in the order in which they are compared.
fn sort_statements<S: Compared>(statements: &mut Vec<&S>)
    ensures same { IsPermutation (map (λ s. s.now) statements.old.items)
        (map (λ s. s.now) statements.new.items) }
    ensures sorted { IsSorted (whole_cmp S.range S.rest) (map (λ s. s.now) statements.new.items) }
{
    statements.sort_unstable_by(|x, y| compare_borrowed(x, y));
}

fn compare_borrowed<S: Compared>(x: &&S, y: &&S) -> Ordering
    ensures { result ≡ whole_cmp S.range S.rest x.entry.now.now y.entry.now.now }
{
    compare(*x, *y)
}

// One pass over both lists in order: the grounds of those that stand in one of them alone.
fn push_differing<S: Compared>(
    grounds: &mut GroundList,
    old: &[&S],
    new: &[&S],
) -> Result<(), Memory>
    ensures { OnOk result (grounds.new ≡ grounds.old
        ++ map (λ x. ground_of (S.range x)) (differing (whole_cmp S.range S.rest)
        (map (λ s. s.now) old.entry.now) (map (λ s. s.now) new.entry.now))) }
{
    let mut i = 0;
    let mut j = 0;
    while i < old.len() && j < new.len() {
        match compare_borrowed(&old[i], &new[j]) {
            Ordering::Less => {
                grounds.push(ground_of(old[i].range()))?;
                i += 1;
            }
            Ordering::Equal => {
                i += 1;
                j += 1;
            }
            Ordering::Greater => {
                grounds.push(ground_of(new[j].range()))?;
                j += 1;
            }
        }
    }
    push_rest(grounds, &old[i..])?;
    push_rest(grounds, &new[j..])?;
    Ok(())
}

fn push_rest<S: Compared>(grounds: &mut GroundList, statements: &[&S]) -> Result<(), Memory>
    ensures { OnOk result (grounds.new
        ≡ grounds.old ++ map (λ x. ground_of (S.range x.now)) statements.entry.now) }
{
    for statement in statements {
        grounds.push(ground_of(statement.range()))?;
    }
    Ok(())
}

fn push_all<S: Compared>(grounds: &mut GroundList, statements: &[S]) -> Result<(), Memory>
    ensures { OnOk result
        (grounds.new ≡ grounds.old ++ map (λ x. ground_of (S.range x)) statements.now) }
{
    grounds.reserve(statements.len())?;
    for statement in statements {
        grounds.push(ground_of(statement.range()))?;
    }
    Ok(())
}

fn ground_of(range: Range) -> Range
    ensures { result ≡ ground_of range }
{
    Range {
        first: range.ground_first(),
        last: range.last,
    }
}
