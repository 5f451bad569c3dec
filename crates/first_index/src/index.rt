//! The first of several statements that holds an address, by halving.
ghost use Rattle.std.specs.Prelude.{◌≡◌, ◌++◌, ◌∷◌, [], ℕ, All, IfOk, IfSome, OnOk};
ghost use Rattle.std.specs.Prelude.{None, map, option_and_then, slice_get};
ghost use Rattle.std.specs.List.Sorted.{IsNonDecreasingBy, IsPermutation, IsStrictlyIncreasing};
ghost use Rattle.first_index.specs.Boundaries.{told};
ghost use Rattle.first_index.specs.Columns.{last_ones};
ghost use Rattle.first_index.specs.FirstIndex.{StandAtCuts, TellsFirst, with_index};
ghost use Rattle.first_index.specs.Nested.{AreBoundariesOf, IsPut};

use crate::boundaries::{Boundary, boundaries_of};
use crate::columns::{coded, is_past, put_column, set_last, stands_at, told};
use crate::near::told_near;
use crate::nested::{nested_of, order};
use crate::numbered::Numbered;
use geo_addr::{Addr, Memory, Range};
use geo_terms::Statement;
use std::alloc::Global;
use std::cmp::Ordering;
use std::marker::Model;

/// Tells for each address which of several statements is the first in their order that holds it.
///
/// It has the boundaries at which that changes, each with where the statement stands in the list
/// that the index was made of, so a look-up is one halving and takes no memory. It holds no
/// statement: whoever has the list reads it there.
#[derive(Debug, Drop)]
pub struct FirstIndex {
    points: Vec<u128>,
    codes: Vec<u32>,
}

impl Model for FirstIndex {
    ghost use Rattle.std.specs.Prelude.{List};
    ghost use Rattle.first_index.specs.Columns.{AreColumns, of_columns};
    ghost use Rattle.first_index.specs.declared.boundaries.Boundary.{Boundary};

    ghost Value = { List Boundary };

    ghost view = { λ i. of_columns i.points.items i.codes.items };

    ghost invariant = { λ i. AreColumns i.points.items i.codes.items };
}

impl FirstIndex {
    /// The index of no statements.
    pub fn new(alloc: Global) -> FirstIndex
        ensures { result ≡ [] }
    {
        FirstIndex {
            points: Vec::new(alloc),
            codes: Vec::new(alloc),
        }
    }

    // Room for the boundaries of so many statements; `fit` gives back what of it is not filled.
    pub(crate) fn with_room(alloc: Global, statements: usize) -> Result<FirstIndex, Memory>
        ensures { IfOk result (λ index. index ≡ []) }
    {
        let room = statements.saturating_mul(2).saturating_add(1);
        let points = Vec::with_capacity(alloc, room)?;
        let codes = Vec::with_capacity(alloc, room)?;
        Ok(FirstIndex { points, codes })
    }

    // Puts a boundary behind those that there are, in place of the last one where that stands at
    // the same address. With one more caller it was no longer inlined, nor with one more of `pass`,
    // and a statement took twice the instructions.
    #[inline(always)]
    pub(crate) fn put(&mut self, at: u128, first: Option<usize>) -> Result<(), Memory>
        ensures { OnOk result (IsPut at first self.old self.new) }
    {
        let code = coded(first)?;
        if is_past(self.points.as_slice(), at) {
            put_column(&mut self.points, &mut self.codes, at, code)?;
            return Ok(());
        }
        set_last(&mut self.codes, code);
        Ok(())
    }

    // Gives back the room that was not filled.
    pub(crate) fn fit(&mut self)
        ensures { self.new ≡ self.old }
    {
        self.points.shrink_to_fit();
        self.codes.shrink_to_fit();
    }

    /// The index of these statements.
    ///
    /// Where of any two grounds that share an address one lies in the other, that is one pass over
    /// them, behind a sort by where grounds begin if they do not ascend. Else it is a sort by their
    /// order, and one pass over the ends of their grounds. For more than 2 ^ 32 - 1 statements
    /// there is no memory.
    pub fn of<S: Statement>(alloc: Global, statements: Numbered<S>) -> Result<FirstIndex, Memory>
        ensures told { IfOk result (λ index. TellsFirst S.order S.range statements.entry index) }
        ensures cuts { IfOk result (λ index. StandAtCuts S.range statements.entry index) }
        ensures kept { OnOk result (All S.kept statements.entry) }
    {
        let mut ranked = statements.into_vec();
        if let Some(index) = nested_in_some_order(alloc, &mut ranked)? {
            return Ok(index);
        }
        ranked.sort_unstable_by(|x, y| order(x, y));
        let ranges = ranges_of(alloc, ranked.as_slice())?;
        let mut boundaries = boundaries_of(alloc, ranges.as_slice())?;
        let indexes = indexes_of(alloc, ranked.as_slice())?;
        put_indexes(&mut boundaries, indexes.as_slice());
        let index = in_columns(alloc, boundaries.as_slice())?;
        Ok(index)
    }

    /// The addresses at which the boundaries stand, ascending, each once.
    pub fn cut_points(&self) -> &[u128]
        ensures same { result.now ≡ map (λ b. b.at) self.now }
        ensures ascending { IsStrictlyIncreasing result.now }
    {
        self.points.as_slice()
    }

    /// The index of the first statement that holds an address.
    pub fn index_at(&self, at: Addr) -> Option<usize>
        ensures { result ≡ told None self.now at.0 }
    {
        told(self.points.as_slice(), self.codes.as_slice(), at.0)
    }

    /// The index of the first statement that holds an address, as `index_at` gives it.
    ///
    /// It is looked for first where `near` says, which is then where it was found: that spares
    /// halvings where addresses ascend. Any number serves, as 0 at first.
    pub fn index_near(&self, at: Addr, near: &mut usize) -> Option<usize>
        ensures { result ≡ told None self.now at.0 }
    {
        told_near(self.points.as_slice(), self.codes.as_slice(), at.0, near)
    }
}

// The index that has boundaries in order, of those at one address the last.
fn in_columns(alloc: Global, boundaries: &[Boundary]) -> Result<FirstIndex, Memory>
    requires { IsNonDecreasingBy (λ b. b.at) boundaries.now }
    ensures { IfOk result (λ index. index ≡ last_ones boundaries.now) }
{
    let mut points = Vec::with_capacity(alloc, boundaries.len())?;
    let mut codes = Vec::with_capacity(alloc, boundaries.len())?;
    for (index, boundary) in boundaries.iter().enumerate() {
        if !stands_at(boundaries, index + 1, boundary.at) {
            let code = coded(boundary.first)?;
            put_column(&mut points, &mut codes, boundary.at, code)?;
        }
    }
    Ok(FirstIndex { points, codes })
}

// The index of grounds that nest, in the order that the statements are put in; `None` where two
// cross.
fn nested_in_some_order<S: Statement>(
    alloc: Global,
    indexed: &mut Vec<(usize, &S)>,
) -> Result<Option<FirstIndex>, Memory>
    ensures moved { IsPermutation indexed.old.items indexed.new.items }
    ensures found { IfOk result (λ found. IfSome found (λ index. AreBoundariesOf
        (λ x y. S.order x.now y.now) (λ x. S.range x.now) indexed.new.items index)) }
    ensures kept { IfOk result (λ found. IfSome found
        (λ _. All (λ x. S.kept x.1.now) indexed.new.items)) }
{
    let found = nested_of(alloc, indexed.as_slice())?;
    if found.is_some() {
        return Ok(found);
    }
    put_outer_first(indexed)?;
    nested_of(alloc, indexed.as_slice())
}

// Puts statements in the order in which their grounds begin, the largest first of those that begin
// at one address. A list of few runs that ascend is sorted by joining them, any other in place.
fn put_outer_first<S: Statement>(indexed: &mut Vec<(usize, &S)>) -> Result<(), Memory>
    ensures { IsPermutation indexed.old.items indexed.new.items }
{
    if falls(indexed.as_slice()) < indexed.len() / RUN {
        indexed.sort_by(|x, y| outer_first(x, y))?;
    } else {
        indexed.sort_unstable_by(|x, y| outer_first(x, y));
    }
    Ok(())
}

// How many statements a run has at least on average where joining runs pays.
const RUN: usize = 32;

// How often a statement belongs before the one in front of it.
fn falls<S: Statement>(indexed: &[(usize, &S)]) -> usize {
    let mut count: usize = 0;
    for at in 1..indexed.len() {
        if outer_first(&indexed[at], &indexed[at - 1]).is_lt() {
            count = count.saturating_add(1);
        }
    }
    count
}

// Grounds ascend, and of those that begin at one address the largest comes first.
fn outer_first<S: Statement>(x: &(usize, &S), y: &(usize, &S)) -> Ordering {
    let (x, y) = (x.1.range(), y.1.range());
    match x.ground_first().cmp(&y.ground_first()) {
        Ordering::Equal => y.last.cmp(&x.last),
        apart => apart,
    }
}

fn ranges_of<S: Statement>(alloc: Global, ranked: &[(usize, &S)]) -> Result<Vec<Range>, Memory>
    ensures ranges { IfOk result
        (λ ranges. ranges.items ≡ map (λ x. S.range x.1.now) ranked.entry.now) }
    ensures kept { OnOk result (All (λ x. S.kept x.1.now) ranked.entry.now) }
{
    let mut ranges = Vec::with_capacity(alloc, ranked.len())?;
    for (_, statement) in ranked {
        ranges.push(statement.range())?;
    }
    Ok(ranges)
}

fn indexes_of<S: Statement>(alloc: Global, ranked: &[(usize, &S)]) -> Result<Vec<usize>, Memory>
    ensures { IfOk result (λ indexes. indexes.items ≡ map (λ x. x.0) ranked.entry.now) }
{
    let indexes = ranked.iter().map(|(index, _)| *index).collect(alloc)?;
    Ok(indexes)
}

// Indexes instead of ranks.
fn put_indexes(boundaries: &mut Vec<Boundary>, indexes: &[usize])
    ensures { boundaries.new.items ≡ map (with_index indexes.now) boundaries.old.items }
{
    for boundary in boundaries.iter_mut() {
        boundary.first = index_of(boundary.first, indexes);
    }
}

fn index_of(rank: Option<usize>, indexes: &[usize]) -> Option<usize>
    ensures { result ≡ option_and_then (slice_get indexes.now) rank }
{
    indexes.get(rank?).copied()
}
