//! Values with their parts, each part a pointer where one is shorter.

ghost use Rattle.std.specs.Prelude.{◌≡◌, OnOk, IfOk};
ghost use Rattle.mmdb_data.specs.ValueTree.{IsNarrow, MembersAreNarrow, ItemsAreNarrow, IsTyped};
ghost use Rattle.mmdb_data.specs.Spelling.{spelling};
ghost use Rattle.mmdb_data.specs.View.{value_tree, items_view, members_view};
ghost use Rattle.mmdb_data.specs.Packing.{offset_of, part_by, content_in, members_in, items_in};
ghost use Rattle.mmdb_data.specs.Packing.{in_full, IsKept};
ghost use Rattle.mmdb_data.specs.FullValues.{mixed};
ghost use Rattle.mmdb_data.specs.Section.{packed_of};

use crate::kind::Kind;
use crate::section::{Found, Section, shorter};
use crate::value::Value;
use crate::writing::put_value;
use geo_addr::{Memory, Text};
use std::alloc::Global;

/// The value in full, whether it stands already or not.
pub(crate) fn append_top(section: &mut Section, value: &Value) -> Result<(), Memory>
    requires { IsNarrow (value_tree value.now) }
    ensures appended { OnOk result
        (packed_of section.new ≡ in_full (value_tree value.now) (packed_of section.old)) }
    ensures kept { IsKept (packed_of section.old) (packed_of section.new) }
    ensures typed { OnOk result (IsTyped (value_tree value.now)) }
{
    let spelled = spelling_of(section.alloc, value)?;
    let found = section.found(&spelled);
    append_full(section, &spelled, value, found)
}

fn spelling_of(alloc: Global, value: &Value) -> Result<Vec<u8>, Memory>
    requires { IsNarrow (value_tree value.now) }
    ensures spelled { IfOk result (λ made. made.items ≡ spelling (value_tree value.now)) }
    ensures typed { OnOk result (IsTyped (value_tree value.now)) }
{
    let mut made = Vec::new(alloc);
    put_value(&mut made, value)?;
    Ok(made)
}

#[cycle(packing)]
fn append_part(section: &mut Section, value: &Value) -> Result<(), Memory>
    requires { IsNarrow (value_tree value.now) }
    ensures appended { OnOk result (packed_of section.new
        ≡ part_by (spelling (value_tree value.now)) (content_in (value_tree value.now))
        (packed_of section.old)) }
    ensures kept { IsKept (packed_of section.old) (packed_of section.new) }
{
    let spelled = spelling_of(section.alloc, value)?;
    let found = section.found(&spelled);
    match shorter(found.at, &spelled) {
        Some(to) => section.append_pointer(to),
        None => append_full(section, &spelled, value, found),
    }
}

#[cycle(packing)]
fn append_full(
    section: &mut Section,
    spelled: &[u8],
    value: &Value,
    found: Found,
) -> Result<(), Memory>
    requires narrow { IsNarrow (value_tree value.now) }
    requires spelled { spelled.now ≡ spelling (value_tree value.now) }
    requires known { found.at ≡ offset_of spelled.now (packed_of section.old) }
    requires mixed { found.mixed ≡ mixed spelled.now }
    ensures appended { OnOk result
        (packed_of section.new ≡ in_full (value_tree value.now) (packed_of section.old)) }
    ensures kept { IsKept (packed_of section.old) (packed_of section.new) }
{
    let at = section.bytes.len() as u64;
    append_content(section, spelled, value)?;
    if found.at.is_some() {
        return Ok(());
    }
    section.note(spelled, found.mixed, at)
}

#[cycle(packing)]
fn append_content(section: &mut Section, spelled: &[u8], value: &Value) -> Result<(), Memory>
    requires narrow { IsNarrow (value_tree value.now) }
    requires spelled { spelled.now ≡ spelling (value_tree value.now) }
    ensures appended { OnOk result
        (packed_of section.new ≡ content_in (value_tree value.now) (packed_of section.old)) }
    ensures kept { IsKept (packed_of section.old) (packed_of section.new) }
{
    match value {
        Value::Map(pairs) => {
            section.append_head(Kind::Map, pairs.len())?;
            append_members(section, pairs)
        }
        Value::List(values) => {
            section.append_head(Kind::List, values.len())?;
            append_items(section, values)
        }
        // A value without parts.
        _ => section.append(spelled),
    }
}

#[cycle(packing)]
fn append_members(section: &mut Section, pairs: &[(Text, Value)]) -> Result<(), Memory>
    requires { MembersAreNarrow (members_view pairs.now) }
    ensures appended { OnOk result
        (packed_of section.new ≡ members_in (members_view pairs.now) (packed_of section.old)) }
    ensures kept { IsKept (packed_of section.old) (packed_of section.new) }
{
    for (key, value) in pairs {
        section.append_key(key.as_str())?;
        append_part(section, value)?;
    }
    Ok(())
}

#[cycle(packing)]
fn append_items(section: &mut Section, values: &[Value]) -> Result<(), Memory>
    requires { ItemsAreNarrow (items_view values.now) }
    ensures appended { OnOk result
        (packed_of section.new ≡ items_in (items_view values.now) (packed_of section.old)) }
    ensures kept { IsKept (packed_of section.old) (packed_of section.new) }
{
    for value in values {
        append_part(section, value)?;
    }
    Ok(())
}
