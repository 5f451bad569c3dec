//! Where the values of a section stand in full, by their spellings.
ghost use Rattle.std.specs.Prelude.{◌≡◌, ◌+◌, ◌^◌, ◌<◌, ◌++◌, ◌∷◌, [], None, Option, ℕ, length};
ghost use Rattle.std.specs.Prelude.{take, nat_eq, IfOk, OnOk, OnErr};
ghost use Rattle.std.specs.Option.{unwrap_or};
ghost use Rattle.std.specs.Cmp.Lexicographic.{pointwise};
ghost use Rattle.std.specs.Map.{lookup};
ghost use Rattle.mmdb_data.specs.FullValues.{mixed, mixed_again, slot_by, held, ranked, told};
ghost use Rattle.mmdb_data.specs.FullValues.{AreNew, IsTable, IsPut, IsAlike};

use crate::spelled_list::SpelledList;
use geo_addr::Memory;
use std::alloc::Global;
use std::collections::BTreeMap;
use std::hash::{FoldHasher, Hasher};
use std::marker::Model;

/// Spellings with their offsets, in the order in which they came, each once.
///
/// Two slots that follow from a spelling lead to it, mostly. Of those whose slots others had first
/// an ordered map has the ranks, second numbers of theirs, and of those whose rank another had
/// first an ordered map has the spellings, so that no choice of values makes a look-up long.
#[derive(Debug, Drop)]
pub(crate) struct FullValues {
    alloc: Global,
    list: SpelledList,
    table: Table,
}

/// What leads to the spellings of a list. Slots and ranks have one more than the number of a
/// spelling in the list; a slot has 0 where none came. There are no slots before the first
/// spelling, and after some were taken off.
#[derive(Debug, Drop)]
struct Table {
    slots: Vec<u32>,
    ranks: BTreeMap<u128, u32>,
    others: BTreeMap<Vec<u8>, u64>,
}

impl Model for FullValues {
    ghost use Rattle.std.specs.Prelude.{◌<◌, ℕ, length};
    ghost use Rattle.mmdb_data.specs.FullValues.{Entries, AreNew, IsTable};

    ghost Value = { Entries };

    ghost view = { λ s. s.list };

    ghost invariant = { λ s. AreNew s.list
        × (0 < length s.table.slots.items → IsTable s.list s.table) };
}

impl FullValues {
    /// No spellings; it takes no memory.
    pub(crate) fn new(alloc: Global) -> FullValues
        ensures { result ≡ [] }
    {
        FullValues {
            alloc,
            list: SpelledList::new(alloc),
            table: Table::new(alloc),
        }
    }

    /// How many spellings there are.
    pub(crate) fn len(&self) -> usize
        ensures { result ≡ length self.now }
    {
        self.list.len()
    }

    /// The offset of the spelling, which is mixed to `first`.
    pub(crate) fn get(&self, spelled: &[u8], first: u64) -> Option<u64>
        requires { first ≡ mixed spelled.now }
        ensures { result ≡ lookup (pointwise nat_eq spelled.now) self.now }
    {
        let (list, table) = (&self.list, &self.table);
        if table.slots.is_empty() {
            return searched(list, spelled);
        }
        let slot = slot_by(first, table.slots.len());
        if let Some(answer) = said(list, table.slots[slot], spelled) {
            return answer;
        }
        if let Some(answer) = said(list, table.slots[slot + 1], spelled) {
            return answer;
        }
        let rank = mixed_again(first, spelled);
        if let Some(answer) = said(list, table.at_rank(rank), spelled) {
            return answer;
        }
        table.others.get(spelled).copied()
    }

    /// Puts a new spelling last, which is mixed to `first`.
    pub(crate) fn push(&mut self, spelled: &[u8], first: u64, at: u64) -> Result<(), Memory>
        requires new { lookup (pointwise nat_eq spelled.now) self.old ≡ None }
        requires first { first ≡ mixed spelled.now }
        ensures pushed { OnOk result (self.new ≡ self.old ++ (spelled.now, at) ∷ []) }
        ensures err { OnErr result (self.new ≡ self.old) }
    {
        let number = self.list.len();
        if number >= MOST_NUMBERS {
            return Err(Memory);
        }
        // A spelling in a map takes no slot, so whoever crowds one has no table made anew.
        let beside = self.table.ranks.len() + self.table.others.len();
        let taken = number.saturating_sub(beside);
        if self.table.slots.len() < 2 * taken + 2 {
            self.table = table_of(self.alloc, &self.list)?;
        }
        self.list.push(spelled, at)?;
        let (alloc, table) = (self.alloc, &mut self.table);
        match note(alloc, table, number as u32, spelled, first, at) {
            Ok(()) => Ok(()),
            Err(refused) => {
                self.list.truncate(number);
                Err(refused)
            }
        }
    }

    /// Takes off the last ones, until so many are left.
    pub(crate) fn truncate(&mut self, len: usize)
        ensures { self.new ≡ take len self.old }
    {
        self.table.slots.clear();
        self.table.ranks.clear();
        self.table.others.clear();
        self.list.truncate(len);
    }
}

impl Table {
    // No slots.
    fn new(alloc: Global) -> Table
        ensures slots { result.slots.items ≡ [] }
        ensures ranks { result.ranks.entries ≡ [] }
        ensures others { result.others.entries ≡ [] }
    {
        Table {
            slots: Vec::new(alloc),
            ranks: BTreeMap::new(alloc),
            others: BTreeMap::new(alloc),
        }
    }

    // What the rank has, and 0 where none of it came.
    fn at_rank(&self, rank: u128) -> u32
        ensures { result ≡ held self.now (ranked rank) }
    {
        self.ranks.get(&rank).copied().unwrap_or(0)
    }
}

/// How many slots are made for the first spelling.
const FIRST_SLOTS: usize = 64;

/// The most spellings that a slot can tell apart.
const MOST_NUMBERS: usize = 0xffff_ffff;

/// What a spelling is mixed to.
pub(crate) fn mixed(spelled: &[u8]) -> u64
    ensures { result ≡ mixed spelled.now }
{
    let mut hasher = FoldHasher::default();
    hasher.write(spelled);
    hasher.finish()
}

// What it is mixed to twice more, each time behind what it was mixed to before, so that spellings
// which were made for the first number do not share this one.
fn mixed_again(first: u64, spelled: &[u8]) -> u128
    requires { first ≡ mixed spelled.now }
    ensures { result ≡ mixed_again spelled.now }
{
    let mut hasher = FoldHasher::default();
    hasher.write(&first.to_le_bytes());
    hasher.write(spelled);
    let second = hasher.finish();
    hasher.write(spelled);
    u128::from(second) * (1 << 64) + u128::from(hasher.finish())
}

// The first of the two slots that follow from a number.
fn slot_by(first: u64, len: usize) -> usize
    requires { 1 < len }
    ensures slot { result ≡ slot_by first len }
    ensures within { result + 1 < len }
{
    (first % (len as u64 - 1)) as usize
}

// What a slot or a rank that has this tells of the spelling, if anything.
fn said(list: &SpelledList, held: u32, spelled: &[u8]) -> Option<Option<u64>>
    ensures { (rest : Option ℕ) → told list.now spelled.now held rest ≡ unwrap_or result rest }
{
    let Some(number) = held.checked_sub(1) else {
        return Some(None);
    };
    let (own, at) = list.get(number as usize)?;
    if own == spelled {
        return Some(Some(at));
    }
    None
}

// The offset of the spelling, by a look at each one.
fn searched(list: &SpelledList, spelled: &[u8]) -> Option<u64>
    ensures { result ≡ lookup (pointwise nat_eq spelled.now) list.now }
{
    for number in 0..list.len() {
        let (own, at) = list.entry(number);
        if own == spelled {
            return Some(at);
        }
    }
    None
}

// A table that finds all spellings of the list, with room for three times as many more.
fn table_of(alloc: Global, list: &SpelledList) -> Result<Table, Memory>
    requires few { length list.now < 2 ^ 32 }
    requires new { AreNew list.now }
    ensures { IfOk result (λ table. IsTable list.now table) }
{
    let mut table = Table::new(alloc);
    table.slots.resize(8 * list.len() + FIRST_SLOTS, 0)?;
    for number in 0..list.len() {
        let (spelled, at) = list.entry(number);
        let first = mixed(spelled);
        note(alloc, &mut table, number as u32, spelled, first, at)?;
    }
    Ok(table)
}

// Notes the number of a new spelling, mixed to `first`, at the first free one of its slots, or else
// at its rank, or else the spelling among the others.
fn note(
    alloc: Global,
    table: &mut Table,
    number: u32,
    spelled: &[u8],
    first: u64,
    at: u64,
) -> Result<(), Memory>
    requires first { first ≡ mixed spelled.now }
    requires some { 1 < length table.old.slots.items }
    requires few { number + 1 < 2 ^ 32 }
    ensures put { OnOk result (IsPut table.old table.new number spelled.now at) }
    ensures err { OnErr result (IsAlike table.old table.new) }
{
    let slot = slot_by(first, table.slots.len());
    if table.slots[slot] == 0 {
        table.slots[slot] = number + 1;
        return Ok(());
    }
    if table.slots[slot + 1] == 0 {
        table.slots[slot + 1] = number + 1;
        return Ok(());
    }
    let rank = mixed_again(first, spelled);
    if table.at_rank(rank) == 0 {
        if table.ranks.insert(rank, number + 1).is_err() {
            return Err(Memory);
        }
        return Ok(());
    }
    let key = Vec::from_slice(alloc, spelled)?;
    if table.others.insert(key, at).is_err() {
        return Err(Memory);
    }
    Ok(())
}
