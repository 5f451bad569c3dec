//! Lines about the same range.
ghost use Rattle.std.specs.Prelude.{◌≡◌, ◌+◌, ◌<◌, ℕ, IfOk, IsTrue, All, AllPairs, filter, length};
ghost use Rattle.std.specs.Prelude.{filter_map, map, OnOk, MatchOption, Option, ◌++◌, ◌||◌, Bool};
ghost use Rattle.std.specs.Prelude.{false, option_to_list, slice_index_or, if◌then◌else◌};
ghost use Rattle.std.specs.Option.{option_copied};
ghost use Rattle.geo_addr.specs.Ranges.{Ends};
ghost use Rattle.geo_terms.specs.Report.{same_ends};
ghost use Rattle.geo_terms.specs.declared.place.Said.{Said};
ghost use Rattle.std.specs.BTreeMap.{get};
ghost use Rattle.csv_lines.specs.Repeats.{Rises, fate, fault_by, is_kept_by, kept, merged};
ghost use Rattle.csv_lines.specs.Repeats.{repeat_faults, same_said};
ghost use Rattle.csv_lines.specs.Doubled.{IsAlone, IsBelow, Shown, counted, ends_cmp};
ghost use Rattle.csv_lines.specs.Doubled.{fate_by, is_next, is_shared, slot};
ghost use Rattle.csv_lines.specs.Doubled.{places_from, shown, with_row};
ghost use Rattle.csv_lines.specs.declared.fate.Fate.{Fate};
ghost use Rattle.csv_lines.specs.declared.fate.Fate.TheVariants.{Kept};

use crate::fault::merged;
use geo_addr::{Memory, Range, range_of};
use geo_terms::{Entry, LineNote, Override, Rule, Said};
use std::alloc::Global;
use std::collections::BTreeMap;
use std::marker::Model;

/// A line that was accepted: what it is about and what it says.
pub trait Accepted {
    ghost line: { Self → ℕ };

    ghost range: { Self → Ends };

    ghost said: { Self → Said };

    fn line(&self) -> u64
        ensures { result ≡ line self.now };

    /// The addresses that the line is about.
    fn range(&self) -> Range
        ensures { result ≡ range self.now };

    fn said(&self) -> &Said
        ensures { result.now ≡ said self.now };
}

impl Accepted for Entry {
    ghost use Rattle.geo_addr.specs.Ranges.{range_of_block};

    ghost line = { λ e. e.line };

    ghost range = { λ e. range_of_block e.block };

    ghost said = { λ e. e.said };

    fn line(&self) -> u64 {
        self.line
    }

    fn range(&self) -> Range {
        range_of(self.block)
    }

    fn said(&self) -> &Said {
        &self.said
    }
}

impl Accepted for Override {
    ghost line = { λ o. o.line };

    ghost range = { λ o. o.range };

    ghost said = { λ o. o.said };

    fn line(&self) -> u64 {
        self.line
    }

    fn range(&self) -> Range {
        self.range
    }

    fn said(&self) -> &Said {
        &self.said
    }
}

/// What becomes of an accepted line among those of the same range.
#[derive(Clone, Copy, Debug, PartialEq, Eq)]
pub enum Fate {
    /// It is the first, and all say the same.
    Kept,
    /// An earlier one says the same.
    Repeats,
    /// Two of them differ.
    Differs,
}

/// The rules that repeated lines break.
#[derive(Clone, Copy, Debug)]
pub struct RepeatRules {
    /// A line that repeats an earlier one.
    pub repeats: Rule,
    /// A line of a range of which two lines differ.
    pub differs: Rule,
}

/// Lines in line order of which those that speak are left, and the faults.
#[derive(Debug, Drop)]
pub struct Judged<T> {
    pub rows: Vec<T>,
    pub faults: Vec<LineNote>,
}

/// Leaves of the accepted lines those that speak, and puts the faults of the others to those of the
/// refused lines.
///
/// Both lists are in line order, and share no line.
pub fn judge<T: Accepted + Drop>(
    alloc: Global,
    rows: Vec<T>,
    faults: Vec<LineNote>,
    rules: RepeatRules,
) -> Result<Judged<T>, Memory>
    requires { Rises 0 (map T.line rows.items) }
    ensures rows { IfOk result
        (λ judged. judged.rows.items ≡ kept T.line T.range T.said rows.items) }
    ensures faults { IfOk result (λ judged. judged.faults.items
        ≡ merged (repeat_faults T.line T.range T.said rules rows.items) faults.items) }
{
    if rises(rows.as_slice()) {
        return Ok(Judged { rows, faults });
    }
    let counts = counts_of(alloc, rows.as_slice())?;
    let places = places_in(alloc, rows.as_slice(), counts.as_slice())?;
    let mut rows = rows;
    let fates = fates(alloc, rows.as_slice(), places.as_slice())?;
    let repeated = repeat_faults(
        alloc,
        rows.as_slice(),
        places.as_slice(),
        fates.as_slice(),
        rules,
    )?;
    let faults = merged(alloc, repeated.as_slice(), faults.as_slice())?;
    keep(&mut rows, places.as_slice(), fates.as_slice());
    Ok(Judged { rows, faults })
}

// Whether each range is above the one before: then no two are the same.
fn rises<T: Accepted>(rows: &[T]) -> bool
    ensures { IsTrue result → AllPairs (λ x y. IsBelow (T.range x) (T.range y)) rows.now }
{
    let mut before: Option<Range> = None;
    for row in rows {
        let range = row.range();
        if !follows(before, range) {
            return false;
        }
        before = Some(range);
    }
    true
}

// Whether a range is above the one before, if there is one.
fn follows(before: Option<Range>, range: Range) -> bool
    ensures { IsTrue result → MatchOption before (Unit {0}) (λ b. IsBelow b range) }
{
    match before {
        Some(before) => is_below(before, range),
        None => true,
    }
}

fn is_below(one: Range, other: Range) -> bool
    ensures { IsTrue result → IsBelow one other }
{
    if one.first == other.first {
        one.last < other.last
    } else {
        one.first < other.first
    }
}

// What becomes of the lines at these places, which hold each line of a range that one of them has.
fn fates<T: Accepted>(alloc: Global, rows: &[T], places: &[usize]) -> Result<Vec<Fate>, Memory>
    requires rising { Rises 0 (map T.line rows.now) }
    requires within { All (λ i. i < length rows.now) places.now }
    ensures { (q : Ends → Bool) → places.now ≡ places_from (λ x. q (T.range x)) 0 rows.now
        → IfOk result (λ fates. fates.items ≡ map (fate T.line T.range T.said rows.now)
        (filter (λ x. q (T.range x)) rows.now)) }
{
    let seen = seen_in(alloc, rows, places)?;
    let mut fates = Vec::with_capacity(alloc, places.len())?;
    for at in 0..places.len() {
        fates.push(fate_in(&seen, &rows[places[at]]))?;
    }
    Ok(fates)
}

// What is held of a range that more than one line has: its first line, what that says, and whether
// a later one differs.
#[derive(Debug, Drop)]
struct Doubled<'a> {
    line: u64,
    said: &'a Said,
    differs: bool,
}

impl<'a> Model for Doubled<'a> {
    ghost use Rattle.csv_lines.specs.Doubled.{Shown};

    ghost Value = { Shown };

    ghost view = { λ s. record { line = s.line; said = s.said.now; differs = s.differs } };
}

// What the lines at these places show, by their ranges.
fn seen_in<'a, T: Accepted>(
    alloc: Global,
    rows: &'a [T],
    places: &[usize],
) -> Result<BTreeMap<Range, Doubled<'a>>, Memory>
    requires { All (λ i. i < length rows.now) places.now }
    ensures { (p : T → Bool) → places.now ≡ places_from p 0 rows.now
        → IfOk result (λ seen. (k : Ends)
        → get ends_cmp seen k ≡ shown T.line T.range T.said (filter p rows.now) k) }
{
    let mut seen: BTreeMap<Range, Doubled<'a>> = BTreeMap::new(alloc);
    for at in 0..places.len() {
        see(&mut seen, &rows[places[at]])?;
    }
    Ok(seen)
}

// The places of the lines that share a slot with another.
fn places_in<T: Accepted>(alloc: Global, rows: &[T], counts: &[u8]) -> Result<Vec<usize>, Memory>
    requires { 0 < length counts.now }
    ensures { IfOk result (λ places. places.items
        ≡ places_from (λ x. is_shared counts.now (T.range x)) 0 rows.now) }
{
    let mut places = Vec::new(alloc);
    for at in 0..rows.len() {
        if is_shared(counts, rows[at].range()) {
            places.push(at)?;
        }
    }
    Ok(places)
}

// Whether more than one line is counted in the slot of a range.
fn is_shared(counts: &[u8], range: Range) -> bool
    requires { 0 < length counts.now }
    ensures { result ≡ is_shared counts.now range }
{
    1 < counts[slot_of(range, counts.len())]
}

// How many slots there are for each line: few lines share one that have no range in common.
const SLOTS: usize = 32;

// How many lines are counted in each slot: those of one range are counted in the same.
//
// Few lines of a file share their range with another, and so these are found without an order.
fn counts_of<T: Accepted>(alloc: Global, rows: &[T]) -> Result<Vec<u8>, Memory>
    ensures some { IfOk result (λ counts. 0 < length counts.items) }
    ensures alone { IfOk result (λ counts. (k : Ends) → is_shared counts.items k ≡ false
        → IsAlone k (map T.range rows.now)) }
{
    let slots = rows.len().saturating_mul(SLOTS).saturating_add(1);
    let mut counts = vec![in alloc; 0; slots]?;
    for row in rows {
        count_in(&mut counts, row.range());
    }
    Ok(counts)
}

// Counts one more line of a range; 255 stands for more, too.
fn count_in(counts: &mut Vec<u8>, range: Range)
    requires { 0 < length counts.old.items }
    ensures { counts.new.items ≡ counted counts.old.items range }
{
    let slot = slot_of(range, counts.len());
    counts[slot] = counts[slot].saturating_add(1);
}

// The slot of a range, among so many: blocks spread over them, as the ends of no two have one sum.
fn slot_of(range: Range, slots: usize) -> usize
    requires { 0 < slots }
    ensures slot { result ≡ slot slots range }
    ensures within { result < slots }
{
    let sum = range.first.wrapping_add(range.last);
    let spread = sum.wrapping_mul(0x9e37_79b9_7f4a_7c15_f39c_c060_5ced_c835) >> 64;
    (spread * slots as u128 >> 64) as usize
}

// Takes one more line.
fn see<'a, T: Accepted>(seen: &mut BTreeMap<Range, Doubled<'a>>, row: &'a T) -> Result<(), Memory>
    ensures { (k : Ends) → OnOk result (get ends_cmp seen.new k
        ≡ with_row T.line T.range T.said (get ends_cmp seen.old k) row.now k) }
{
    let range = row.range();
    if let Some(found) = seen.get_mut(&range) {
        if !says_same(row.said(), found.said) {
            found.differs = true;
        }
        return Ok(());
    }
    let first = Doubled {
        line: row.line(),
        said: row.said(),
        differs: false,
    };
    let Ok(_) = seen.insert(range, first) else {
        return Err(Memory);
    };
    Ok(())
}

fn says_same(one: &Said, other: &Said) -> bool
    ensures { result ≡ same_said one.now other.now }
{
    match one {
        Said::Nothing => match other {
            Said::Nothing => true,
            Said::At(_) => false,
        },
        Said::At(place) => match other {
            Said::Nothing => false,
            Said::At(other) => place == other,
        },
    }
}

fn fate_in<T: Accepted>(seen: &BTreeMap<Range, Doubled<'_>>, row: &T) -> Fate
    ensures { result ≡ fate_by (get ends_cmp seen.now (T.range row.now)) (T.line row.now) }
{
    fate_of(seen.get(&row.range()), row.line())
}

fn fate_of(seen: Option<&Doubled<'_>>, line: u64) -> Fate
    ensures { result ≡ fate_by (option_copied seen.entry) line }
{
    let Some(seen) = seen else {
        return Fate::Kept;
    };
    if seen.differs {
        Fate::Differs
    } else if seen.line < line {
        Fate::Repeats
    } else {
        Fate::Kept
    }
}

// The faults of the lines at these places that do not speak.
fn repeat_faults<T: Accepted>(
    alloc: Global,
    rows: &[T],
    places: &[usize],
    fates: &[Fate],
    rules: RepeatRules,
) -> Result<Vec<LineNote>, Memory>
    requires within { All (λ i. i < length rows.now) places.now }
    requires long { length fates.now ≡ length places.now }
    ensures { (f : T → Fate) (p : T → Bool) → places.now ≡ places_from p 0 rows.now
        → fates.now ≡ map f (filter p rows.now) → IfOk result (λ faults. faults.items
        ≡ filter_map (λ x. fault_by rules (T.line x) (f x)) (filter p rows.now)) }
{
    let mut faults = Vec::new(alloc);
    for at in 0..places.len() {
        push_some(
            &mut faults,
            fault_of(rules, rows[places[at]].line(), fates[at]),
        )?;
    }
    Ok(faults)
}

fn push_some(faults: &mut Vec<LineNote>, fault: Option<LineNote>) -> Result<(), Memory>
    ensures { OnOk result (faults.new.items ≡ faults.old.items ++ option_to_list fault) }
{
    if let Some(fault) = fault {
        faults.push(fault)?;
    }
    Ok(())
}

fn fault_of(rules: RepeatRules, line: u64, fate: Fate) -> Option<LineNote>
    ensures { result ≡ fault_by rules line fate }
{
    match fate {
        Fate::Kept => None,
        Fate::Repeats => Some(LineNote {
            line,
            rule: rules.repeats,
        }),
        Fate::Differs => Some(LineNote {
            line,
            rule: rules.differs,
        }),
    }
}

// Leaves the lines that are kept, where those at other places than these are.
fn keep<T: Drop>(rows: &mut Vec<T>, places: &[usize], fates: &[Fate])
    requires { length fates.now ≡ length places.now }
    ensures { (f : T → Fate) (p : T → Bool) → places.now ≡ places_from p 0 rows.old.items
        → fates.now ≡ map f (filter p rows.old.items)
        → All (λ x. p x ≡ false → f x ≡ Kept) rows.old.items
        → rows.new.items ≡ filter (λ x. is_kept_by (f x)) rows.old.items }
{
    let mut count = 0;
    let mut next = 0;
    for at in 0..rows.len() {
        if is_kept(next_fate(places, fates, &mut next, at)) {
            rows.swap(count, at);
            count += 1;
        }
    }
    rows.truncate(count);
}

// What becomes of a line, by the next of these places, which is passed where it is the line's own.
fn next_fate(places: &[usize], fates: &[Fate], next: &mut usize, at: usize) -> Fate
    requires { length fates.now ≡ length places.now }
    ensures told { result ≡ (if is_next places.now next.old at
        then slice_index_or fates.now next.old Kept else Kept) }
    ensures passed { next.new ≡ (if is_next places.now next.old at
        then next.old + 1 else next.old) }
{
    let now = *next;
    if now < places.len() && places[now] == at {
        *next = now + 1;
        fates[now]
    } else {
        Fate::Kept
    }
}

fn is_kept(fate: Fate) -> bool
    ensures { result ≡ is_kept_by fate }
{
    match fate {
        Fate::Kept => true,
        Fate::Repeats => false,
        Fate::Differs => false,
    }
}
