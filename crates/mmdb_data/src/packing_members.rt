//! A map whose members borrow their texts, each part a pointer where one is shorter.

ghost use Rattle.std.specs.Prelude.{◌≡◌, ◌++◌, OnOk};
ghost use Rattle.mmdb_data.specs.ValueTree.{map as map_tree, IsNarrow, MembersAreNarrow};
ghost use Rattle.mmdb_data.specs.Spelling.{spelling, members_spelling};
ghost use Rattle.mmdb_data.specs.Member.{nested, member_list, around_in, HasNarrowKey};
ghost use Rattle.mmdb_data.specs.Packing.{offset_of, part_by, content_in, members_in, in_full};
ghost use Rattle.mmdb_data.specs.Packing.{IsKept};
ghost use Rattle.mmdb_data.specs.FullValues.{mixed};
ghost use Rattle.mmdb_data.specs.Section.{packed_of};

use crate::kind::Kind;
use crate::member::{Around, Member, around_len, put_nested, value_in};
use crate::section::{Found, Section, shorter};
use crate::writing::{head_len, put_head, put_sized};
use geo_addr::Memory;

/// Appends the spelling of the map.
pub(crate) fn spell_map(out: &mut Vec<u8>, members: &[Member<'_>]) -> Result<(), Memory>
    requires { IsNarrow (map_tree (member_list members.now)) }
    ensures { OnOk result (out.new.items
        ≡ out.old.items ++ spelling (map_tree (member_list members.now))) }
{
    put_head(out, Kind::Map, members.len())?;
    put_member_list(out, members)
}

fn put_member_list(out: &mut Vec<u8>, members: &[Member<'_>]) -> Result<(), Memory>
    requires { MembersAreNarrow (member_list members.now) }
    ensures { OnOk result (out.new.items
        ≡ out.old.items ++ members_spelling (member_list members.now)) }
{
    for member in members {
        put_sized(out, Kind::Text, member.key.as_bytes())?;
        put_nested(out, member.around, member.text)?;
    }
    Ok(())
}

/// The map in full, whether it stands already or not, by its spelling.
pub(crate) fn append_map(
    section: &mut Section,
    spelled: &[u8],
    members: &[Member<'_>],
) -> Result<(), Memory>
    requires narrow { IsNarrow (map_tree (member_list members.now)) }
    requires spelled { spelled.now ≡ spelling (map_tree (member_list members.now)) }
    ensures appended { OnOk result (packed_of section.new
        ≡ in_full (map_tree (member_list members.now)) (packed_of section.old)) }
    ensures kept { IsKept (packed_of section.old) (packed_of section.new) }
{
    let found = section.found(spelled);
    let at = section.bytes.len() as u64;
    append_map_content(section, spelled, members)?;
    if found.at.is_some() {
        return Ok(());
    }
    section.note(spelled, found.mixed, at)
}

fn append_map_content(
    section: &mut Section,
    spelled: &[u8],
    members: &[Member<'_>],
) -> Result<(), Memory>
    requires narrow { IsNarrow (map_tree (member_list members.now)) }
    requires spelled { spelled.now ≡ spelling (map_tree (member_list members.now)) }
    ensures appended { OnOk result (packed_of section.new
        ≡ content_in (map_tree (member_list members.now)) (packed_of section.old)) }
    ensures kept { IsKept (packed_of section.old) (packed_of section.new) }
{
    section.append_head(Kind::Map, members.len())?;
    let (_, behind) = spelled.split_at(head_len(Kind::Map, members.len()));
    append_member_list(section, behind, members)
}

fn append_member_list(
    section: &mut Section,
    spelled: &[u8],
    members: &[Member<'_>],
) -> Result<(), Memory>
    requires narrow { MembersAreNarrow (member_list members.now) }
    requires spelled { spelled.now ≡ members_spelling (member_list members.now) }
    ensures appended { OnOk result (packed_of section.new
        ≡ members_in (member_list members.now) (packed_of section.old)) }
    ensures kept { IsKept (packed_of section.old) (packed_of section.new) }
{
    let mut rest = spelled;
    for member in members {
        let (value, behind) = value_in(rest, member);
        section.append_key(member.key)?;
        append_nested(section, value, member.around, member.text)?;
        rest = behind;
    }
    Ok(())
}

#[cycle(nesting)]
fn append_nested(
    section: &mut Section,
    spelled: &[u8],
    around: &[Around<'_>],
    text: &str,
) -> Result<(), Memory>
    requires narrow { IsNarrow (nested around.now text.now) }
    requires spelled { spelled.now ≡ spelling (nested around.now text.now) }
    ensures appended { OnOk result (packed_of section.new
        ≡ part_by (spelling (nested around.now text.now)) (content_in (nested around.now text.now))
        (packed_of section.old)) }
    ensures kept { IsKept (packed_of section.old) (packed_of section.new) }
{
    let found = section.found(spelled);
    match shorter(found.at, spelled) {
        Some(to) => section.append_pointer(to),
        None => append_nested_full(section, spelled, around, text, found),
    }
}

#[cycle(nesting)]
fn append_nested_full(
    section: &mut Section,
    spelled: &[u8],
    around: &[Around<'_>],
    text: &str,
    found: Found,
) -> Result<(), Memory>
    requires narrow { IsNarrow (nested around.now text.now) }
    requires spelled { spelled.now ≡ spelling (nested around.now text.now) }
    requires known { found.at ≡ offset_of spelled.now (packed_of section.old) }
    requires mixed { found.mixed ≡ mixed spelled.now }
    ensures appended { OnOk result (packed_of section.new
        ≡ in_full (nested around.now text.now) (packed_of section.old)) }
    ensures kept { IsKept (packed_of section.old) (packed_of section.new) }
{
    let at = section.bytes.len() as u64;
    append_nested_content(section, spelled, around, text)?;
    if found.at.is_some() {
        return Ok(());
    }
    section.note(spelled, found.mixed, at)
}

#[cycle(nesting)]
fn append_nested_content(
    section: &mut Section,
    spelled: &[u8],
    around: &[Around<'_>],
    text: &str,
) -> Result<(), Memory>
    requires narrow { IsNarrow (nested around.now text.now) }
    requires spelled { spelled.now ≡ spelling (nested around.now text.now) }
    ensures appended { OnOk result (packed_of section.new
        ≡ content_in (nested around.now text.now) (packed_of section.old)) }
    ensures kept { IsKept (packed_of section.old) (packed_of section.new) }
{
    let [outer, rest @ ..] = around else {
        return section.append(spelled);
    };
    append_around(section, outer)?;
    append_nested(section, &spelled[around_len(outer)..], rest, text)
}

/// What stands before the value, its key a pointer where one is shorter.
fn append_around(section: &mut Section, outer: &Around<'_>) -> Result<(), Memory>
    requires { HasNarrowKey outer.now }
    ensures appended { OnOk result
        (packed_of section.new ≡ around_in outer.now (packed_of section.old)) }
    ensures kept { IsKept (packed_of section.old) (packed_of section.new) }
{
    match outer {
        Around::Map(key) => {
            section.append_head(Kind::Map, 1)?;
            section.append_key(key)
        }
        Around::List => section.append_head(Kind::List, 1),
    }
}
