//! A file that was adopted, and the walk through it.
ghost use Rattle.std.specs.Prelude.{◌≡◌, ◌+◌, ◌≤◌, length, codes, IfSome};
ghost use Rattle.std.specs.Option.{option_map};
ghost use Rattle.geo_addr.specs.Bits.{bits_of};
ghost use Rattle.mmdb_data.specs.Reading.{reads};
ghost use Rattle.mmdb_data.specs.View.{value_tree, members_view};
ghost use Rattle.mmdb_tree.specs.Nodes.{node_record};
ghost use Rattle.mmdb_file.specs.Adopting.{Gives, Tells, told_view};
ghost use Rattle.mmdb_file.specs.Walk.{told_of, told_of_value, opened, opened_with, offset_at};
ghost use Rattle.mmdb_file.specs.Walk.{seek};
ghost use Rattle.mmdb_file.specs.Walk.{number_field as number_of_field, field as field_of};
ghost use Rattle.mmdb_file.specs.Walk.{count_of as count_from, bits_of_size as bits_from};
ghost use Rattle.mmdb_file.specs.Walk.{cut as cut_from};

use crate::fault::{OpenFault, WalkFault};
use crate::marker::{MARKER_LEN, last_marker};
use crate::numbers::GAP;
use geo_addr::{Addr, Text};
use mmdb_data::{DataFault, Value, decode};
use mmdb_tree::{Bits, get_record};
use std::alloc::Global;
use std::marker::Model;

/// A MaxMind DB file whose metadata was read: its search tree and its data section.
#[derive(Debug, Drop)]
pub struct Mmdb<'a> {
    bits: Bits,
    nodes: u32,
    tree: &'a [u8],
    section: &'a [u8],
}

impl<'a> Model for Mmdb<'a> {
    ghost use Rattle.std.specs.Prelude.{◌≡◌, ◌<◌, ◌*◌, length};
    ghost use Rattle.mmdb_tree.specs.Nodes.{width};
    ghost use Rattle.mmdb_file.specs.Walk.{Opened};

    ghost Value = { Opened };

    ghost view = { λ m. record {
      bits = m.bits;
      nodes = m.nodes;
      tree = m.tree.now;
      section = m.section.now;
    } };

    ghost invariant = { λ m. length m.tree.now ≡ m.nodes * width m.bits };
}

/// What the metadata must tell.
#[derive(Drop)]
struct Metadata {
    nodes: u32,
    bits: Bits,
    major: u128,
    ip_version: u128,
}

impl<'a> Mmdb<'a> {
    /// The file that these bytes are.
    ///
    /// The data section ends at the last marker; what stands after the metadata map is passed over.
    #[tactic(auto, unfolding(crate::specs::Walk::opened))]
    pub fn adopt(alloc: Global, bytes: &'a [u8]) -> Result<Mmdb<'a>, OpenFault>
        ensures { Gives result (opened bytes.now) }
    {
        let Some(offset) = last_marker(bytes) else {
            return Err(OpenFault::NoMarker);
        };
        match metadata_in(alloc, &bytes[offset + MARKER_LEN..]) {
            Ok(Some(metadata)) => open_with(&bytes[..offset], metadata),
            Ok(None) => Err(OpenFault::Metadata),
            Err(fault) => Err(fault),
        }
    }

    /// Where the value of the address stands in the data section, if it has one.
    #[tactic(auto, unfolding(crate::specs::Walk::offset_at))]
    pub fn find(&self, at: Addr) -> Result<Option<u64>, WalkFault>
        ensures { result ≡ offset_at self.now (bits_of 128 at.0) }
    {
        let Some(record) = self.seek(at) else {
            return Err(WalkFault::NotEnded);
        };
        if record == self.nodes {
            return Ok(None);
        }
        let (record, start) = (u64::from(record), u64::from(self.nodes) + GAP);
        if record < start || record - start >= self.section.len() as u64 {
            return Err(WalkFault::OutOfSection);
        }
        Ok(Some(record - start))
    }

    /// The data section.
    pub fn section(&self) -> &'a [u8]
        ensures { result.now ≡ self.now.section }
    {
        self.section
    }

    fn seek(&self, at: Addr) -> Option<u32>
        ensures { result
            ≡ seek (node_record self.now.bits self.now.tree) self.now.nodes 0 (bits_of 128 at.0) }
    {
        let mut record = 0;
        let mut left: u32 = 128;
        while record < self.nodes {
            if left == 0 {
                return None;
            }
            left -= 1;
            let right = at.0 >> left & 1 == 1;
            record = get_record(self.tree, self.bits, record, right);
        }
        Some(record)
    }
}

#[tactic(auto, unfolding(crate::specs::Walk::is_known))]
fn open_with(front: &[u8], metadata: Metadata) -> Result<Mmdb<'_>, OpenFault>
    ensures { result ≡ opened_with front.now (Some (told_view metadata)) }
{
    if metadata.major != 2 || metadata.ip_version != 6 {
        return Err(OpenFault::Version);
    }
    cut(front, metadata)
}

#[tactic(auto, unfolding(crate::specs::Walk::cut))]
fn cut(front: &[u8], metadata: Metadata) -> Result<Mmdb<'_>, OpenFault>
    ensures { result ≡ cut_from front.now (told_view metadata) }
{
    let tree_len = metadata.nodes as usize * metadata.bits.width();
    let section_at = tree_len + GAP as usize;
    if front.len() < section_at {
        return Err(OpenFault::TreeCut);
    }
    Ok(Mmdb {
        bits: metadata.bits,
        nodes: metadata.nodes,
        tree: &front[..tree_len],
        section: &front[section_at..],
    })
}

fn metadata_in(alloc: Global, bytes: &[u8]) -> Result<Option<Metadata>, OpenFault>
    ensures { Tells result (told_of_value (reads bytes.now 0)) }
{
    match decode(alloc, bytes, 0) {
        Ok(Value::Map(members)) => Ok(metadata_of(&members)),
        Ok(_) => Ok(None),
        Err(DataFault::Bad { .. }) => Ok(None),
        Err(DataFault::Memory) => Err(OpenFault::Memory),
    }
}

#[tactic(auto, unfolding(crate::specs::Walk::told_of))]
fn metadata_of(members: &[(Text, Value)]) -> Option<Metadata>
    ensures { option_map told_view result ≡ told_of (members_view members.now) }
{
    let nodes = number_field(members, "node_count")?;
    let size = number_field(members, "record_size")?;
    let major = number_field(members, "binary_format_major_version")?;
    let ip_version = number_field(members, "ip_version")?;
    Some(Metadata {
        nodes: count_of(nodes)?,
        bits: bits_of_size(size)?,
        major,
        ip_version,
    })
}

#[tactic(auto, unfolding(crate::specs::Walk::count_of))]
fn count_of(nodes: u128) -> Option<u32>
    ensures { result ≡ count_from nodes }
{
    if nodes > 0 && nodes < 1 << 32 {
        Some(nodes as u32)
    } else {
        None
    }
}

#[tactic(auto, unfolding(crate::specs::Walk::bits_of_size))]
fn bits_of_size(size: u128) -> Option<Bits>
    ensures { result ≡ bits_from size }
{
    match size {
        24 => Some(Bits::B24),
        28 => Some(Bits::B28),
        32 => Some(Bits::B32),
        _ => None,
    }
}

#[tactic(auto, unfolding(crate::specs::Walk::number_field))]
fn number_field(members: &[(Text, Value)], key: &str) -> Option<u128>
    ensures { result ≡ number_of_field key.now (members_view members.now) }
{
    match field(members, key) {
        Some(Value::U16(n)) => Some(u128::from(*n)),
        Some(Value::U32(n)) => Some(u128::from(*n)),
        Some(Value::U64(n)) => Some(u128::from(*n)),
        Some(Value::U128(n)) => Some(*n),
        _ => None,
    }
}

/// The value of a key: of equal keys the last counts.
fn field<'a>(members: &'a [(Text, Value)], key: &str) -> Option<&'a Value>
    ensures { option_map (λ v. value_tree v.now) result
        ≡ field_of key.now (members_view members.now) None }
{
    let mut found = None;
    for (name, value) in members {
        if name.as_str() == key {
            found = Some(value);
        }
    }
    found
}
