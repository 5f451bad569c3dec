//! The value that stands for a place in the data section.
ghost use Rattle.std.specs.Prelude.{◌≡◌, [], ◌∷◌, ◌++◌, IfOk, OnOk, map as map_list, codes};
ghost use Rattle.mmdb_data.specs.ValueTree.{CanBeReadBack, text as text_tree, list as list_tree};
ghost use Rattle.mmdb_data.specs.ValueTree.{item};
ghost use Rattle.mmdb_data.specs.ValueTree.{no_items};
ghost use Rattle.mmdb_data.specs.View.{value_tree, pair_view};
ghost use Rattle.mmdb_file.specs.PlaceValue.{one, subdivision as subdivision_of, city_member};
ghost use Rattle.mmdb_file.specs.PlaceValue.{country_member, postal_member, region_member};
ghost use Rattle.mmdb_file.specs.PlaceValue.{subdivision_list, place_value as value_of_place};

use geo_addr::{Memory, Text};
use geo_terms::Place;
use mmdb_data::Value;
use std::alloc::Global;

/// The value of a place: a map of its parts by the names that readers of city files know, empty
/// parts left out.
pub fn place_value(alloc: Global, place: &Place) -> Result<Value, Memory>
    ensures value { IfOk result (λ value. value_tree value ≡ value_of_place place.now) }
    ensures readable { IfOk result (λ value. CanBeReadBack (value_tree value)) }
{
    let (country, region) = (place.country(), place.region());
    let value = value_of_parts(alloc, country, region, place.city(), place.postal())?;
    Ok(value)
}

#[tactic(auto, unfolding(crate::specs::PlaceValue::place_value))]
fn value_of_parts(
    alloc: Global,
    country: &str,
    region: &str,
    city: &str,
    postal: &str,
) -> Result<Value, Memory>
    ensures { IfOk result (λ value. value_tree value ≡ value_of_place (record {
      country = country.now;
      region = region.now;
      city = city.now;
      postal = postal.now;
    })) }
{
    let mut members = Vec::new(alloc);
    add_city(alloc, &mut members, city)?;
    add_country(alloc, &mut members, country)?;
    add_postal(alloc, &mut members, postal)?;
    add_region(alloc, &mut members, region)?;
    Ok(Value::Map(members))
}

fn add_city(alloc: Global, members: &mut Vec<(Text, Value)>, city: &str) -> Result<(), Memory>
    ensures { OnOk result (map_list pair_view members.new.items
        ≡ map_list pair_view members.old.items ++ city_member city.now) }
{
    if city.is_empty() {
        return Ok(());
    }
    let english = map_of(alloc, "en", text(alloc, city)?)?;
    let names = map_of(alloc, "names", english)?;
    add(alloc, members, "city", names)
}

fn add_country(alloc: Global, members: &mut Vec<(Text, Value)>, country: &str) -> Result<(), Memory>
    ensures { OnOk result (map_list pair_view members.new.items
        ≡ map_list pair_view members.old.items ++ country_member country.now) }
{
    if country.is_empty() {
        return Ok(());
    }
    let code = iso_code(alloc, country)?;
    add(alloc, members, "country", code)
}

fn add_postal(alloc: Global, members: &mut Vec<(Text, Value)>, postal: &str) -> Result<(), Memory>
    ensures { OnOk result (map_list pair_view members.new.items
        ≡ map_list pair_view members.old.items ++ postal_member postal.now) }
{
    if postal.is_empty() {
        return Ok(());
    }
    let code = map_of(alloc, "code", text(alloc, postal)?)?;
    add(alloc, members, "postal", code)
}

fn add_region(alloc: Global, members: &mut Vec<(Text, Value)>, region: &str) -> Result<(), Memory>
    ensures { OnOk result (map_list pair_view members.new.items
        ≡ map_list pair_view members.old.items ++ region_member region.now) }
{
    if region.is_empty() {
        return Ok(());
    }
    let subdivisions = subdivisions(alloc, region)?;
    add(alloc, members, "subdivisions", subdivisions)
}

fn subdivisions(alloc: Global, region: &str) -> Result<Value, Memory>
    ensures { IfOk result (λ list. value_tree list ≡ subdivision_list region.now) }
{
    let code = iso_code(alloc, subdivision(region))?;
    list_of(alloc, code)
}

fn iso_code(alloc: Global, code: &str) -> Result<Value, Memory>
    ensures { IfOk result (λ map. value_tree map ≡ one (codes "iso_code") (text_tree code.now)) }
{
    map_of(alloc, "iso_code", text(alloc, code)?)
}

#[tactic(auto, unfolding(crate::specs::PlaceValue::subdivision))]
pub(crate) fn subdivision(region: &str) -> &str
    ensures { result.now ≡ subdivision_of region.now }
{
    match region.split_once('-') {
        Some((_, part)) => part,
        None => "",
    }
}

/// Adds a member.
pub(crate) fn add(
    alloc: Global,
    members: &mut Vec<(Text, Value)>,
    key: &str,
    value: Value,
) -> Result<(), Memory>
    ensures { OnOk result (map_list pair_view members.new.items
        ≡ map_list pair_view members.old.items ++ (key.now, value_tree value) ∷ []) }
{
    let key = Text::of(alloc, key)?;
    members.push((key, value))?;
    Ok(())
}

/// A map of one member.
pub(crate) fn map_of(alloc: Global, key: &str, value: Value) -> Result<Value, Memory>
    ensures { IfOk result (λ map. value_tree map ≡ one key.now (value_tree value)) }
{
    let mut members = Vec::new(alloc);
    add(alloc, &mut members, key, value)?;
    Ok(Value::Map(members))
}

/// A list of one value.
pub(crate) fn list_of(alloc: Global, value: Value) -> Result<Value, Memory>
    ensures { IfOk result (λ list. value_tree list ≡ list_tree (item (value_tree value) no_items)) }
{
    let mut values = Vec::new(alloc);
    values.push(value)?;
    Ok(Value::List(values))
}

/// A text.
pub(crate) fn text(alloc: Global, text: &str) -> Result<Value, Memory>
    ensures { IfOk result (λ value. value_tree value ≡ text_tree text.now) }
{
    let text = Text::of(alloc, text)?;
    Ok(Value::Text(text))
}
