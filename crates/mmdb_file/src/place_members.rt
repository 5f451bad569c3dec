//! A place put into a data section, with its texts where they are.
ghost use Rattle.std.specs.Prelude.{◌≡◌, ◌++◌, IfOk, OnOk, length, map as map_list};
ghost use Rattle.mmdb_data.specs.ValueTree.{CanBeReadBack, map as map_tree};
ghost use Rattle.mmdb_data.specs.Member.{member_list, member_pair, nested};
ghost use Rattle.mmdb_data.specs.Packing.{in_full};
ghost use Rattle.mmdb_file.specs.PlaceValue.{place_value, unless_empty};

use crate::place::subdivision;
use geo_addr::Memory;
use geo_terms::Place;
use mmdb_data::{Around, Member, Packer};
use std::alloc::Global;

/// How many members the value of a place has at most.
const MOST_MEMBERS: usize = 4;

/// Appends the value of the place, and answers the offset at which it stands.
pub(crate) fn put_place(alloc: Global, section: &mut Packer, place: &Place) -> Result<u64, Memory>
    ensures packed { OnOk result (section.new ≡ in_full (place_value place.now) section.old) }
    ensures at { IfOk result (λ at. at ≡ length section.old.bytes) }
    ensures readable { CanBeReadBack (place_value place.now) }
{
    let (country, region) = (place.country(), place.region());
    put_parts(
        alloc,
        section,
        country,
        region,
        place.city(),
        place.postal(),
    )
}

fn put_parts(
    alloc: Global,
    section: &mut Packer,
    country: &str,
    region: &str,
    city: &str,
    postal: &str,
) -> Result<u64, Memory>
    requires { CanBeReadBack (place_value (record {
      country = country.now;
      region = region.now;
      city = city.now;
      postal = postal.now;
    })) }
    ensures packed { OnOk result (section.new ≡ in_full (place_value (record {
      country = country.now;
      region = region.now;
      city = city.now;
      postal = postal.now;
    })) section.old) }
    ensures at { IfOk result (λ at. at ≡ length section.old.bytes) }
{
    let members = members_of_parts(alloc, country, region, city, postal)?;
    let start = section.put_map(&members);
    drop(members);
    let start = start?;
    Ok(start)
}

/// The members of a place's value, which borrow its texts.
#[tactic(auto, unfolding(crate::specs::PlaceValue::place_value))]
fn members_of_parts<'a>(
    alloc: Global,
    country: &'a str,
    region: &'a str,
    city: &'a str,
    postal: &'a str,
) -> Result<Vec<Member<'a>>, Memory>
    ensures { IfOk result (λ members. map_tree (member_list members.items) ≡ place_value (record {
      country = country.now;
      region = region.now;
      city = city.now;
      postal = postal.now;
    })) }
{
    let mut members = Vec::with_capacity(alloc, MOST_MEMBERS)?;
    let named = &[Around::Map("names"), Around::Map("en")];
    add_member(&mut members, city, "city", named, city)?;
    let coded = &[Around::Map("iso_code")];
    add_member(&mut members, country, "country", coded, country)?;
    let postal_code = &[Around::Map("code")];
    add_member(&mut members, postal, "postal", postal_code, postal)?;
    let listed = &[Around::List, Around::Map("iso_code")];
    add_member(
        &mut members,
        region,
        "subdivisions",
        listed,
        subdivision(region),
    )?;
    Ok(members)
}

/// Adds a member, unless what it tells of is empty.
fn add_member<'a>(
    members: &mut Vec<Member<'a>>,
    told: &str,
    key: &'a str,
    around: &'a [Around<'a>],
    text: &'a str,
) -> Result<(), Memory>
    ensures { OnOk result (map_list member_pair members.new.items
        ≡ map_list member_pair members.old.items
        ++ unless_empty told.now key.now (nested around.now text.now)) }
{
    if told.is_empty() {
        return Ok(());
    }
    members.push(Member { key, around, text })?;
    Ok(())
}
