//! Grounds in little memory.
ghost use Rattle.std.specs.Prelude.{◌^◌, ◌<◌, ◌⊎◌, ℕ, IsTrue};
ghost use Rattle.std.specs.Option.{option_to_list};
ghost use Rattle.geo_addr.specs.Ranges.{IsWithin, holds};
ghost use Rattle.source_changes.specs.Packing.{ends_of};
ghost use Rattle.source_changes.specs.Passing.{IsPassed};
ghost use Rattle.source_changes.specs.Touched.{is_touched};

use geo_addr::{Memory, Range};
use std::alloc::Global;
use std::marker::Model;

/// A ground of IPv4 addresses by its two ends, or, where the first is above the last, the place of
/// another ground.
#[derive(Clone, Copy, Debug)]
pub(crate) struct Packed {
    first: u32,
    last: u32,
}

/// Grounds in the order in which they came; those of IPv4 addresses take eight bytes each, and the
/// others forty.
///
/// Contracts see the list of the grounds.
#[derive(Debug, Drop)]
pub struct GroundList {
    packed: Vec<Packed>,
    // The other grounds, in the order of their places.
    others: Vec<Range>,
}

impl Model for GroundList {
    ghost use Rattle.std.specs.Prelude.{List};
    ghost use Rattle.geo_addr.specs.Ranges.{Ends};
    ghost use Rattle.source_changes.specs.Packing.{ArePlaced, unpacked};

    ghost Value = { List Ends };

    ghost view = { λ g. unpacked g.packed.items g.others.items };

    ghost invariant = { λ g. ArePlaced g.packed.items g.others.items };
}

impl GroundList {
    ghost use Rattle.std.specs.Prelude.{◌≡◌, ◌↔◌, ◌∷◌, ◌++◌, [], length, take, IfOk, IsTrue};
    ghost use Rattle.std.specs.Prelude.{OnErr, OnOk, ◌<◌};
    ghost use Rattle.geo_addr.specs.Ranges.{Ends};

    /// No grounds; it takes no memory.
    pub fn new(alloc: Global) -> GroundList
        ensures { result ≡ [] }
    {
        GroundList {
            packed: Vec::new(alloc),
            others: Vec::new(alloc),
        }
    }

    /// Takes room ahead for so many more grounds of IPv4 addresses.
    pub(crate) fn reserve(&mut self, more: usize) -> Result<(), Memory>
        ensures { self.new ≡ self.old }
    {
        self.packed.reserve(more)?;
        Ok(())
    }

    /// Puts a ground behind the others.
    pub fn push(&mut self, range: Range) -> Result<(), Memory>
        ensures ok { OnOk result (self.new ≡ self.old ++ range ∷ []) }
        ensures err { OnErr result (self.new ≡ self.old) }
    {
        if range.is_v4() {
            let (first, last) = (range.first as u32, range.last as u32);
            self.packed.push(Packed { first, last })?;
            return Ok(());
        }
        self.others.reserve(1)?;
        self.packed.push(Packed { first: 1, last: 0 })?;
        self.others.push_reserved(range);
        Ok(())
    }

    /// Puts the grounds of another list behind the others.
    pub fn append(&mut self, more: GroundList) -> Result<(), Memory>
        ensures ok { OnOk result (self.new ≡ self.old ++ more) }
        ensures err { OnErr result (self.new ≡ self.old) }
    {
        if self.packed.is_empty() {
            *self = more;
            return Ok(());
        }
        let mut more = more;
        self.packed.reserve(more.packed.len())?;
        self.others.append(&mut more.others)?;
        let _moved = self.packed.append(&mut more.packed);
        Ok(())
    }

    /// Leaves the first so many grounds.
    pub fn truncate(&mut self, len: usize)
        ensures { self.new ≡ take len self.old }
    {
        while self.len() > len {
            self.drop_last();
        }
    }

    // Takes the last ground off.
    fn drop_last(&mut self)
        requires { 0 < length self.old }
        ensures { (last : Ends) × (self.old ≡ self.new ++ last ∷ []) }
    {
        let Some(last) = self.packed.pop() else {
            return;
        };
        if last.first > last.last {
            let _ground = self.others.pop();
        }
    }

    /// Leaves no ground, and keeps the memory.
    pub fn clear(&mut self)
        ensures { self.new ≡ [] }
    {
        self.packed.clear();
        self.others.clear();
    }

    /// How many grounds there are.
    pub fn len(&self) -> usize
        ensures { result ≡ length self.now }
    {
        self.packed.len()
    }

    /// Whether there are no grounds.
    pub fn is_empty(&self) -> bool
        ensures { IsTrue result ↔ (self.now ≡ []) }
    {
        self.packed.is_empty()
    }

    /// The same grounds in a list of their own.
    pub fn copied(&self, alloc: Global) -> Result<GroundList, Memory>
        ensures { IfOk result (λ copy. copy ≡ self.now) }
    {
        let mut packed = Vec::with_capacity(alloc, self.packed.len())?;
        packed.extend_from_slice(self.packed.as_slice())?;
        let mut others = Vec::with_capacity(alloc, self.others.len())?;
        others.extend_from_slice(self.others.as_slice())?;
        Ok(GroundList { packed, others })
    }

    /// The grounds, to be taken one after another.
    pub fn all(&self) -> GroundsLeft<'_>
        ensures { result ≡ self.now }
    {
        GroundsLeft {
            packed: self.packed.as_slice(),
            others: self.others.as_slice(),
        }
    }
}

/// The grounds of a list that are left to take.
#[derive(Drop)]
pub struct GroundsLeft<'a> {
    packed: &'a [Packed],
    others: &'a [Range],
}

impl<'a> Model for GroundsLeft<'a> {
    ghost use Rattle.std.specs.Prelude.{List};
    ghost use Rattle.geo_addr.specs.Ranges.{Ends};
    ghost use Rattle.source_changes.specs.Packing.{ArePlaced, unpacked};

    ghost Value = { List Ends };

    ghost view = { λ g. unpacked g.packed.now g.others.now };

    ghost invariant = { λ g. ArePlaced g.packed.now g.others.now };
}

impl<'a> GroundsLeft<'a> {
    ghost use Rattle.std.specs.Prelude.{◌≡◌, ◌++◌, ◌∷◌, ◌^◌, ◌<◌, [], IsTrue, List, MatchOption};
    ghost use Rattle.std.specs.Prelude.{false, ℕ};
    ghost use Rattle.geo_addr.specs.Ranges.{Ends, IsWithin};
    ghost use Rattle.source_changes.specs.Packing.{ends_of};
    ghost use Rattle.source_changes.specs.Passing.{LieIn, LiesIn};

    /// Takes the first ground that is left.
    pub fn take(&mut self) -> Option<Range>
        ensures { MatchOption result (self.old ≡ []) (λ first. self.old ≡ first ∷ self.new) }
    {
        let Some((one, packed)) = self.packed.split_first() else {
            return None;
        };
        if one.first <= one.last {
            self.packed = packed;
            let (first, last) = (u128::from(one.first), u128::from(one.last));
            return Some(Range { first, last });
        }
        let Some((ground, others)) = self.others.split_first() else {
            unreachable!();
        };
        self.packed = packed;
        self.others = others;
        Some(*ground)
    }

    /// Passes over the first grounds of which all that a chunk has lies in a range, if there is
    /// one. How many of them it passes over, no clause says.
    pub fn pass_over(&mut self, chunk: Range, held: Option<Range>)
        ensures { (passed : List Ends) × ((self.old ≡ passed ++ self.new)
            × LieIn chunk held passed) }
    {
        let around = around_v4(chunk);
        let within = within_v4(held);
        while self.pass_one(chunk, around, within) {}
    }

    // Passes over the first ground, if all that a chunk has of it lies between these ends.
    fn pass_one(&mut self, chunk: Range, around: Packed, within: Packed) -> bool
        requires { (a : ℕ) → a < 2 ^ 32 → IsWithin chunk a → IsWithin (ends_of around) a }
        ensures passed { IsTrue result
            → (one : Ends) × ((self.old ≡ one ∷ self.new) × LiesIn chunk within one) }
        ensures left { result ≡ false → self.new ≡ self.old }
    {
        let Some((one, packed)) = self.packed.split_first() else {
            return false;
        };
        if is_passed(*one, around, within) {
            self.packed = packed;
            return true;
        }
        if one.first <= one.last {
            return false;
        }
        let Some((ground, others)) = self.others.split_first() else {
            return false;
        };
        if !is_apart(*ground, chunk) {
            return false;
        }
        self.packed = packed;
        self.others = others;
        true
    }
}

// Whether two ranges have no address in common.
fn is_apart(x: Range, y: Range) -> bool
    ensures apart { IsTrue result → (x.last < y.first) ⊎ (y.last < x.first) }
    ensures address { x.last < 2 ^ 128 }
{
    x.last < y.first || y.last < x.first
}

// The IPv4 addresses of a range by their ends, if it has any.
fn around_v4(chunk: Range) -> Packed
    ensures { (a : ℕ) → a < 2 ^ 32 → IsWithin chunk a → IsWithin (ends_of result) a }
{
    let Ok(first) = u32::try_from(chunk.first) else {
        return Packed { first: 1, last: 0 };
    };
    let last = match u32::try_from(chunk.last) {
        Ok(last) => last,
        Err(_) => u32::MAX,
    };
    Packed { first, last }
}

// The addresses of a ground by their ends, if there is one, and it is IPv4.
fn within_v4(held: Option<Range>) -> Packed
    ensures { (a : ℕ) → IsWithin (ends_of result) a → IsTrue (is_touched (option_to_list held) a) }
{
    match held {
        Some(range) => own_v4(range),
        None => Packed { first: 1, last: 0 },
    }
}

// The addresses of a ground by their ends, if it is IPv4.
fn own_v4(range: Range) -> Packed
    ensures { (a : ℕ) → IsWithin (ends_of result) a → IsTrue (holds range a) }
{
    if !range.is_v4() {
        return Packed { first: 1, last: 0 };
    }
    Packed {
        first: range.first as u32,
        last: range.last as u32,
    }
}

// Whether a pair is a ground and all that a chunk has of it is held.
fn is_passed(one: Packed, chunk: Packed, held: Packed) -> bool
    ensures { IsTrue result → IsPassed chunk held one }
{
    if one.first > one.last {
        return false;
    }
    if one.last < chunk.first || chunk.last < one.first {
        return true;
    }
    held.first <= one.first && one.last <= held.last
}
