//! The metadata of a file that is written.
ghost use Rattle.std.specs.Prelude.{◌≡◌, ◌++◌, ◌<◌, ◌^◌, IfOk, OnOk, map as map_list};
ghost use Rattle.std.specs.Prelude.{[], ◌∷◌, codes};
ghost use Rattle.std.specs.Str.{IsUtf8};
ghost use Rattle.mmdb_data.specs.ValueTree.{map as map_tree, u16 as u16_tree, u32 as u32_tree};
ghost use Rattle.mmdb_data.specs.ValueTree.{u64 as u64_tree, text as text_tree};
ghost use Rattle.mmdb_data.specs.View.{value_tree, pair_view};
ghost use Rattle.mmdb_tree.specs.Nodes.{record_size};
ghost use Rattle.mmdb_file.specs.Metadata.{kind_members, tree_members, told_members, english};

use crate::place::{add, list_of, map_of, text};
use geo_addr::{Memory, Text};
use mmdb_data::Value;
use mmdb_tree::Bits;
use std::alloc::Global;

/// What the metadata of a file tells besides its sizes.
#[derive(Debug, Drop)]
pub struct Meta {
    /// When the file was built, in seconds since 1970 began.
    pub epoch: u64,
    /// The database type, which is the description too.
    pub name: Text,
}

/// The metadata map.
#[tactic(auto, unfolding(crate::specs::Metadata::told_members))]
pub(crate) fn metadata_of(
    alloc: Global,
    meta: &Meta,
    nodes: u32,
    bits: Bits,
) -> Result<Value, Memory>
    ensures value { IfOk result (λ value. value_tree value
        ≡ map_tree (told_members meta.now.epoch meta.now.name nodes (record_size bits))) }
    ensures typed { IfOk result (λ _. (meta.now.epoch < 2 ^ 64) × IsUtf8 meta.now.name) }
{
    let mut members = Vec::new(alloc);
    add_kind(alloc, &mut members, meta.epoch, meta.name.as_str())?;
    add_tree(alloc, &mut members, nodes, bits)?;
    Ok(Value::Map(members))
}

fn add_kind(
    alloc: Global,
    members: &mut Vec<(Text, Value)>,
    epoch: u64,
    name: &str,
) -> Result<(), Memory>
    ensures { OnOk result (map_list pair_view members.new.items
        ≡ map_list pair_view members.old.items ++ kind_members epoch name.now) }
{
    add(alloc, members, "binary_format_major_version", number16(2))?;
    add(alloc, members, "binary_format_minor_version", number16(0))?;
    add(alloc, members, "build_epoch", number64(epoch))?;
    add_name(alloc, members, name)?;
    Ok(())
}

/// The name as the database type, and as the description in English.
#[tactic(auto, unfolding(crate::specs::Metadata::english))]
fn add_name(alloc: Global, members: &mut Vec<(Text, Value)>, name: &str) -> Result<(), Memory>
    ensures { OnOk result (map_list pair_view members.new.items
        ≡ map_list pair_view members.old.items ++ (codes "database_type", text_tree name.now)
        ∷ (codes "description", english name.now) ∷ []) }
{
    let kind = text(alloc, name)?;
    add(alloc, members, "database_type", kind)?;
    let english = map_of(alloc, "en", text(alloc, name)?)?;
    add(alloc, members, "description", english)?;
    Ok(())
}

fn add_tree(
    alloc: Global,
    members: &mut Vec<(Text, Value)>,
    nodes: u32,
    bits: Bits,
) -> Result<(), Memory>
    ensures { OnOk result (map_list pair_view members.new.items
        ≡ map_list pair_view members.old.items ++ tree_members nodes (record_size bits)) }
{
    add(alloc, members, "ip_version", number16(6))?;
    let languages = list_of(alloc, text(alloc, "en")?)?;
    add(alloc, members, "languages", languages)?;
    add(alloc, members, "node_count", number32(nodes))?;
    let size = number16(u16::from(bits.size()));
    add(alloc, members, "record_size", size)?;
    Ok(())
}

fn number16(n: u16) -> Value
    ensures { value_tree result ≡ u16_tree n }
{
    Value::U16(n)
}

fn number32(n: u32) -> Value
    ensures { value_tree result ≡ u32_tree n }
{
    Value::U32(n)
}

fn number64(n: u64) -> Value
    ensures { value_tree result ≡ u64_tree n }
{
    Value::U64(n)
}
