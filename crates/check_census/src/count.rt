//! Counts of addresses by country.
ghost use Rattle.std.specs.Prelude.{◌≡◌, ℕ, ◌+◌, ◌^◌, ◌<◌, ◌≤◌, List, Some, IfOk, OnOk, length};
ghost use Rattle.std.specs.Prelude.{slice_index, option_map};
ghost use Rattle.std.specs.List.Sorted.{IsBinarySearchResult, IsSearchInRange};
ghost use Rattle.std.specs.Option.{option_copied};
ghost use Rattle.geo_terms.specs.Precedence.{text_cmp};
ghost use Rattle.geo_terms.specs.SlotOrder.{AreInOrder};
ghost use Rattle.check_census.specs.Census.{added, count_of, v4_in, v6_in};
ghost use Rattle.check_census.specs.Counts.{counts_of, with_country};
ghost use Rattle.check_census.specs.Spread.{ended_at, every};

use geo_addr::{Memory, Text};
use geo_terms::{Place, Places};
use std::alloc::Global;

/// How many addresses have a place of a country, which is empty for places without one.
#[derive(Debug, Drop)]
pub struct Count {
    /// The country's code, or nothing.
    pub country: Text,
    /// How many IPv4 addresses.
    pub v4: u128,
    /// How many other addresses.
    pub v6: u128,
}

/// The counts of countries, where so many addresses of each family have the place of a number.
pub(crate) fn counts_of(
    alloc: Global,
    places: &Places,
    v4: &[u128],
    v6: &[u128],
) -> Result<Vec<Count>, Memory>
    requires slots { length v4.now ≡ length places.now + 1 }
    requires alike { length v6.now ≡ length v4.now }
    requires few_v4 { ended_at every v4.now (length v4.now) < 2 ^ 128 }
    requires few_v6 { ended_at every v6.now (length v6.now) < 2 ^ 128 }
    ensures { IfOk result
        (λ counts. counts.items ≡ counts_of places.now v4.now v6.now (length v4.now)) }
{
    let _places = places.len();
    let mut counts = Vec::new(alloc);
    for (number, v4) in v4.iter().enumerate() {
        add_place(&mut counts, places.get(number as u32), *v4, v6[number])?;
    }
    Ok(counts)
}

// Adds the addresses of a place to the count of its country.
fn add_place(
    counts: &mut Vec<Count>,
    place: Option<&Place>,
    v4: u128,
    v6: u128,
) -> Result<(), Memory>
    requires order { AreInOrder (λ n. n.country) counts.old.items }
    requires room_v4 { (c : List ℕ) → v4_in (count_of c counts.old.items) + v4 < 2 ^ 128 }
    requires room_v6 { (c : List ℕ) → v6_in (count_of c counts.old.items) + v6 < 2 ^ 128 }
    ensures { OnOk result (counts.new.items
        ≡ with_country (option_map (λ p. p.country) (option_copied place.entry)) v4 v6
        counts.old.items) }
{
    let Some(place) = place else {
        return Ok(());
    };
    if v4 == 0 && v6 == 0 {
        return Ok(());
    }
    add(counts, place.country(), v4, v6)
}

// Adds addresses to the count of a country.
fn add(counts: &mut Vec<Count>, country: &str, v4: u128, v6: u128) -> Result<(), Memory>
    requires order { AreInOrder (λ n. n.country) counts.old.items }
    requires room_v4 { (c : List ℕ) → v4_in (count_of c counts.old.items) + v4 < 2 ^ 128 }
    requires room_v6 { (c : List ℕ) → v6_in (count_of c counts.old.items) + v6 < 2 ^ 128 }
    ensures { OnOk result (counts.new.items ≡ added country.now v4 v6 counts.old.items) }
{
    match search_counts(counts.as_slice(), country) {
        Ok(index) => {
            let old = &counts[index];
            let (v4, v6) = (old.v4 + v4, old.v6 + v6);
            let country = old.country.copied()?;
            counts[index] = Count { country, v4, v6 };
            Ok(())
        }
        Err(index) => {
            let country = Text::of(*counts.allocator(), country)?;
            counts.insert(index, Count { country, v4, v6 })?;
            Ok(())
        }
    }
}

// Where the count of a country stands, or where one is to be put.
fn search_counts(counts: &[Count], country: &str) -> Result<usize, usize>
    ensures within { IsSearchInRange result (length counts.now) }
    ensures found { IsBinarySearchResult
        (λ n. text_cmp n.country country.now) counts.now result }
{
    counts.binary_search_by(|count| count.country.as_str().cmp(country))
}
