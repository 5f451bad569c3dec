//! The bytes of a packed data section, and where values stand in full.

ghost use Rattle.std.specs.Prelude.{◌≡◌, ◌≤◌, ◌<◌, ◌^◌, ◌++◌, None, OnOk, OnErr, length};
ghost use Rattle.std.specs.Prelude.{option_map};
ghost use Rattle.mmdb_data.specs.ValueTree.{most};
ghost use Rattle.mmdb_data.specs.Kinds.{kind_code};
ghost use Rattle.mmdb_data.specs.Spelling.{head, sized};
ghost use Rattle.mmdb_data.specs.Packing.{pointer, nothing_packed, offset_of, with_bytes, noted};
ghost use Rattle.mmdb_data.specs.Packing.{full_by, shorter_pointer, part_by, key_part, IsKept};
ghost use Rattle.mmdb_data.specs.FullValues.{mixed};
ghost use Rattle.mmdb_data.specs.Section.{packed_of};

use crate::full_values::mixed;
use crate::kind::Kind;
use crate::noted_values::NotedValues;
use crate::writing::{put_head, put_sized};
use geo_addr::Memory;
use std::alloc::Global;

/// A data section while it grows.
#[derive(Debug, Drop)]
pub(crate) struct Section {
    pub(crate) alloc: Global,
    pub(crate) bytes: Vec<u8>,
    /// Where each value stands in full, by its spelling, in the order in which they ended.
    pub(crate) full: NotedValues,
    /// The key that is looked up. It is reused, so that looking up takes no memory.
    key: Vec<u8>,
}

/// Where a spelling stands in full, if it does, and what it is mixed to.
#[derive(Clone, Copy)]
pub(crate) struct Found {
    pub(crate) at: Option<u64>,
    pub(crate) mixed: u64,
}

impl Section {
    pub(crate) fn new(alloc: Global) -> Section
        ensures { packed_of result ≡ nothing_packed }
    {
        Section {
            alloc,
            bytes: Vec::new(alloc),
            full: NotedValues::new(alloc),
            key: Vec::new(alloc),
        }
    }

    fn spell_key(&mut self, key: &str) -> Result<(), Memory>
        requires { length key.now ≤ most }
        ensures spelled { OnOk result (self.new.key.items ≡ sized 2 key.now) }
        ensures same { packed_of self.new ≡ packed_of self.old }
    {
        self.key.clear();
        put_sized(&mut self.key, Kind::Text, key.as_bytes())
    }

    /// Where the value of this spelling stands in full.
    pub(crate) fn found(&self, spelled: &[u8]) -> Found
        ensures at { result.at ≡ offset_of spelled.now (packed_of self.now) }
        ensures mixed { result.mixed ≡ mixed spelled.now }
    {
        let mixed = mixed(spelled);
        Found {
            at: self.full.get(spelled, mixed),
            mixed,
        }
    }

    pub(crate) fn append(&mut self, spelled: &[u8]) -> Result<(), Memory>
        ensures appended { OnOk result
            (packed_of self.new ≡ with_bytes spelled.now (packed_of self.old)) }
        ensures refused { OnErr result (packed_of self.new ≡ packed_of self.old) }
    {
        self.bytes.extend_from_slice(spelled)?;
        Ok(())
    }

    pub(crate) fn append_head(&mut self, kind: Kind, size: usize) -> Result<(), Memory>
        requires { size ≤ most }
        ensures appended { OnOk result
            (packed_of self.new ≡ with_bytes (head (kind_code kind) size) (packed_of self.old)) }
        ensures kept { IsKept (packed_of self.old) (packed_of self.new) }
    {
        put_head(&mut self.bytes, kind, size)
    }

    pub(crate) fn append_pointer(&mut self, to: u32) -> Result<(), Memory>
        ensures appended { OnOk result
            (packed_of self.new ≡ with_bytes (pointer to) (packed_of self.old)) }
        ensures refused { OnErr result (packed_of self.new ≡ packed_of self.old) }
    {
        put_pointer(&mut self.bytes, to)
    }

    /// The value is one that stands nowhere in full yet, and is mixed to `first`.
    pub(crate) fn note(&mut self, spelled: &[u8], first: u64, at: u64) -> Result<(), Memory>
        requires new { offset_of spelled.now (packed_of self.old) ≡ None }
        requires first { first ≡ mixed spelled.now }
        ensures noted { OnOk result
            (packed_of self.new ≡ noted spelled.now at (packed_of self.old)) }
        ensures refused { OnErr result (packed_of self.new ≡ packed_of self.old) }
    {
        self.full.push(spelled, first, at)?;
        Ok(())
    }

    /// The key that is looked up, in full.
    fn append_key_full(&mut self, found: Found) -> Result<(), Memory>
        requires known { found.at ≡ offset_of self.old.key.items (packed_of self.old) }
        requires mixed { found.mixed ≡ mixed self.old.key.items }
        ensures appended { OnOk result (packed_of self.new
            ≡ full_by self.old.key.items (with_bytes self.old.key.items) (packed_of self.old)) }
        ensures kept { IsKept (packed_of self.old) (packed_of self.new) }
    {
        let at = self.bytes.len() as u64;
        self.bytes.extend_from_slice(&self.key)?;
        if found.at.is_some() {
            return Ok(());
        }
        self.full.push(&self.key, found.mixed, at)
    }

    pub(crate) fn append_key(&mut self, key: &str) -> Result<(), Memory>
        requires { length key.now ≤ most }
        ensures appended { OnOk result
            (packed_of self.new ≡ key_part key.now (packed_of self.old)) }
        ensures kept { IsKept (packed_of self.old) (packed_of self.new) }
    {
        if let Some(to) = self.full.known_key(key) {
            return self.append_pointer(to);
        }
        self.spell_key(key)?;
        let found = self.found(&self.key);
        match shorter(found.at, &self.key) {
            Some(to) => {
                self.full.learn(key, to)?;
                self.append_pointer(to)
            }
            None => self.append_key_full(found),
        }
    }
}

/// The offset, if a pointer to it is in reach and shorter than the spelling.
pub(crate) fn shorter(found: Option<u64>, spelled: &[u8]) -> Option<u32>
    ensures { option_map pointer result ≡ shorter_pointer spelled.now found }
{
    let to = found?;
    if to < 1 << 32 && pointer_len(to) < spelled.len() {
        Some(to as u32)
    } else {
        None
    }
}

#[tactic(auto, unfolding(crate::specs::Packing::pointer))]
fn pointer_len(to: u64) -> usize
    ensures { result ≡ length (pointer to) }
{
    if to < 2_048 {
        2
    } else if to < 526_336 {
        3
    } else if to < 134_744_064 {
        4
    } else {
        5
    }
}

#[tactic(auto, unfolding(crate::specs::Packing::pointer))]
fn put_pointer(out: &mut Vec<u8>, to: u32) -> Result<(), Memory>
    ensures put { OnOk result (out.new.items ≡ out.old.items ++ pointer to) }
    ensures refused { OnErr result (out.new.items ≡ out.old.items) }
{
    if to < 2_048 {
        out.extend_from_slice(&[32 + (to / 256) as u8, (to % 256) as u8])?;
    } else if to < 526_336 {
        let beyond = to - 2_048;
        let (high, low) = ((beyond / 256 % 256) as u8, (beyond % 256) as u8);
        out.extend_from_slice(&[40 + (beyond / 65_536) as u8, high, low])?;
    } else if to < 134_744_064 {
        let beyond = to - 526_336;
        let (high, mid) = ((beyond / 65_536 % 256) as u8, (beyond / 256 % 256) as u8);
        let low = (beyond % 256) as u8;
        out.extend_from_slice(&[48 + (beyond / 16_777_216) as u8, high, mid, low])?;
    } else {
        let [a, b, c, d] = to.to_be_bytes();
        out.extend_from_slice(&[56, a, b, c, d])?;
    }
    Ok(())
}
