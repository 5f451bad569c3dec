//! The data section of a file.
ghost use Rattle.std.specs.Prelude.{◌≡◌, ◌++◌, [], ◌∷◌, length, IfOk, OnOk};
ghost use Rattle.mmdb_data.specs.ValueTree.{CanBeReadBack};
ghost use Rattle.mmdb_data.specs.Packing.{in_full};
ghost use Rattle.geo_terms.specs.Numbers.{place_at};
ghost use Rattle.mmdb_file.specs.FileImage.{answer_value};
ghost use Rattle.mmdb_file.specs.Section.{Holds, section_of};
ghost use Rattle.mmdb_file.specs.Writing.{values_of};

use crate::place_members::put_place;
use geo_addr::Memory;
use geo_terms::Places;
use mmdb_data::Packer;
use std::alloc::Global;

/// A data section, and where each of its values begins.
#[derive(Drop)]
pub(crate) struct Data {
    pub(crate) section: Packer,
    pub(crate) starts: Vec<u64>,
}

/// The data section of the places with these numbers, in this order.
#[tactic(auto, unfolding(crate::specs::Section::section_of))]
pub(crate) fn data_of(alloc: Global, places: &Places, numbers: &[u32]) -> Result<Data, Memory>
    ensures section { IfOk result
        (λ made. made.section.bytes ≡ (section_of (values_of places.now numbers.now)).bytes) }
    ensures starts { IfOk result
        (λ made. made.starts.items ≡ (section_of (values_of places.now numbers.now)).starts) }
    ensures holds { IfOk result
        (λ _. Holds (section_of (values_of places.now numbers.now))
        (values_of places.now numbers.now)) }
{
    let mut made = Data {
        section: Packer::new(alloc),
        starts: Vec::new(alloc),
    };
    for number in numbers {
        add(alloc, &mut made, places, *number)?;
    }
    Ok(made)
}

fn add(alloc: Global, made: &mut Data, places: &Places, number: u32) -> Result<(), Memory>
    ensures section { OnOk result
        (made.new.section ≡ in_full (answer_value (place_at places.now number)) made.old.section) }
    ensures starts { OnOk result
        (made.new.starts.items ≡ made.old.starts.items ++ length made.old.section.bytes ∷ []) }
    ensures readable { OnOk result (CanBeReadBack (answer_value (place_at places.now number))) }
{
    let start = put_answer(alloc, &mut made.section, places, number)?;
    made.starts.push(start)?;
    Ok(())
}

/// Appends the value of the place of this number, and answers the offset at which it stands.
fn put_answer(
    alloc: Global,
    section: &mut Packer,
    places: &Places,
    number: u32,
) -> Result<u64, Memory>
    ensures packed { OnOk result
        (section.new ≡ in_full (answer_value (place_at places.now number)) section.old) }
    ensures at { IfOk result (λ at. at ≡ length section.old.bytes) }
    ensures readable { OnOk result (CanBeReadBack (answer_value (place_at places.now number))) }
{
    match places.get(number) {
        Some(place) => put_place(alloc, section, place),
        None => section.put_map(&[]),
    }
}
