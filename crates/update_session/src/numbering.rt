//! Numbers of places in the one table of a session.
ghost use Rattle.std.specs.Prelude.{◌≡◌, ◌+◌, ◌^◌, ◌≤◌, ◌<◌, Some, Err, length, map, IfOk};
ghost use Rattle.std.specs.Option.{option_copied};
ghost use Rattle.geo_terms.specs.Numbers.{place_at};
ghost use Rattle.update_session.specs.Build.{IsKnown, StandFor, renamed, said_in};
ghost use Rattle.update_session.specs.Kept.{GrowsBy};

use crate::choosing::Chosen;
use crate::fault::EmitFault;
use geo_terms::{Place, Places, PlacesFault};
use std::alloc::Global;
use trie_core::Part;

/// The number of what is said of a segment, or 0 where nothing is.
pub(crate) fn leaf_of(places: &mut Places, said: Option<&Place>) -> Result<u32, EmitFault>
    ensures few { IfOk result (λ leaf. leaf ≤ length places.new) }
    ensures place { IfOk result (λ leaf. place_at places.new leaf ≡ option_copied said.entry) }
    ensures places { GrowsBy places.old places.new 1 }
    ensures full { result ≡ Err EmitFault.TooLarge → length places.new + 1 ≡ 2 ^ 32 }
{
    match said {
        Some(place) => number_of(places, place),
        None => Ok(0),
    }
}

// The number of a place.
fn number_of(places: &mut Places, place: &Place) -> Result<u32, EmitFault>
    ensures few { IfOk result (λ number. number ≤ length places.new) }
    ensures held { IfOk result (λ number. place_at places.new number ≡ Some place.now) }
    ensures places { GrowsBy places.old places.new 1 }
    ensures full { result ≡ Err EmitFault.TooLarge → length places.new + 1 ≡ 2 ^ 32 }
{
    match places.intern(place) {
        Ok(number) => Ok(number),
        Err(PlacesFault::Full) => Err(EmitFault::TooLarge),
        Err(PlacesFault::Memory) => Err(EmitFault::Memory),
    }
}

/// The segments of a chunk, each with the number of what is said of it.
pub(crate) fn parts_of(
    alloc: Global,
    one: &Chosen,
    places: &mut Places,
) -> Result<Vec<Part>, EmitFault>
    requires { IsKnown one.now }
    ensures ranges { IfOk result
        (λ parts. map (λ p. p.range) parts.items ≡ one.now.segments.items) }
    ensures leaves { IfOk result
        (λ parts. StandFor places.new (map (λ p. p.leaf) parts.items) (said_in one.now)) }
    ensures places { GrowsBy places.old places.new (length one.now.places) }
    ensures full { result ≡ Err EmitFault.TooLarge → length places.new + 1 ≡ 2 ^ 32 }
{
    let names = names_of(alloc, &one.places, places)?;
    let mut parts = Vec::with_capacity(alloc, one.segments.len())?;
    for (at, range) in one.segments.iter().enumerate() {
        let (range, leaf) = (*range, name_of(names.as_slice(), one.leaves[at]));
        parts.push(Part { range, leaf })?;
    }
    Ok(parts)
}

// The number in the session's table for one of a run.
fn name_of(names: &[u32], leaf: u32) -> u32
    ensures { result ≡ renamed names.now leaf }
{
    if leaf == 0 {
        return 0;
    }
    match names.get(leaf as usize - 1) {
        Some(name) => *name,
        None => 0,
    }
}

// The numbers that the places of a table have in another.
fn names_of(alloc: Global, local: &Places, places: &mut Places) -> Result<Vec<u32>, EmitFault>
    ensures names { IfOk result (λ names. StandFor places.new names.items (map Some local.now)) }
    ensures places { GrowsBy places.old places.new (length local.now) }
    ensures full { result ≡ Err EmitFault.TooLarge → length places.new + 1 ≡ 2 ^ 32 }
{
    let mut names = Vec::with_capacity(alloc, local.len() as usize)?;
    for at in 0..local.len() {
        let name = leaf_of(places, local.get(at + 1))?;
        names.push(name)?;
    }
    Ok(names)
}
