//! How many addresses under a root have a place of each country.
ghost use Rattle.std.specs.Prelude.{◌≡◌, ℕ, ◌+◌, ◌^◌, ◌<◌, ◌≤◌, Bool, length, IfOk, OnOk};
ghost use Rattle.trie_core.specs.Tree.{height};
ghost use Rattle.trie_core.specs.Store.{meaning, record_of, tree_of, IsOf, IsRootOf};
ghost use Rattle.check_census.specs.Census.{census, country_at};
ghost use Rattle.check_census.specs.Spread.{IsPlain, ended_at, every};
ghost use Rattle.check_census.specs.Tally.{low_part, tally, tally_beyond};

use crate::count::{Count, counts_of};
use crate::spread::Weights;
use geo_addr::Memory;
use geo_terms::Places;
use std::alloc::Global;
use trie_core::{Rec, Root, Store};

/// How many IPv4 addresses and how many others under a root have a place of each country that some
/// address has, ascending by the bytes of the countries.
///
/// The tree is not expanded: a node's addresses are shared out to its children once, whichever ways
/// lead to it, so the cost is the number of nodes of the store and of the places.
pub fn census(
    alloc: Global,
    store: &Store,
    root: Root,
    places: &Places,
) -> Result<Vec<Count>, Memory>
    requires { IsRootOf store.now root }
    ensures { IfOk result
        (λ counts. counts.items ≡ census (country_at store.now root places.now)) }
{
    let slots = places.len() as usize + 1;
    let rec = store.rec_of(root);
    let (low, v6) = high_sums(alloc, store, rec, slots)?;
    let v4 = low_sums(alloc, store, low, slots)?;
    let counts = counts_of(alloc, places, v4.as_slice(), v6.as_slice())?;
    Ok(counts)
}

// How many addresses other than IPv4 end at each leaf, and the record of the IPv4 addresses.
fn high_sums(
    alloc: Global,
    store: &Store,
    rec: Rec,
    slots: usize,
) -> Result<(Rec, Vec<u128>), Memory>
    requires of { IsOf store.now rec }
    requires slots { 0 < slots }
    ensures of { IfOk result (λ r. IsOf store.now r.0) }
    ensures low { IfOk result
        (λ r. meaning store.now r.0 ≡ low_part 96 (meaning store.now rec)) }
    ensures slots { IfOk result (λ r. length r.1.items ≡ slots) }
    ensures few { IfOk result (λ r. ended_at every r.1.items slots < 2 ^ 128) }
    ensures sums { IfOk result (λ r. (test : ℕ → Bool) → IsPlain slots test
        → ended_at test r.1.items slots ≡ tally_beyond test 32 96 (meaning store.now rec)) }
{
    let mut weights = Weights::new(alloc, store, slots)?;
    let low = weights.put_beyond(store, rec);
    weights.spread(store);
    let Weights { ended, .. } = weights;
    Ok((low, ended))
}

// How many IPv4 addresses end at each leaf, from their record.
fn low_sums(alloc: Global, store: &Store, rec: Rec, slots: usize) -> Result<Vec<u128>, Memory>
    requires of { IsOf store.now rec }
    requires low { height (meaning store.now rec) ≤ 32 }
    requires slots { 0 < slots }
    ensures slots { IfOk result (λ sums. length sums.items ≡ slots) }
    ensures few { IfOk result (λ sums. ended_at every sums.items slots < 2 ^ 128) }
    ensures sums { IfOk result (λ sums. (test : ℕ → Bool) → IsPlain slots test
        → ended_at test sums.items slots ≡ tally test (2 ^ 32) (meaning store.now rec)) }
{
    let mut weights = Weights::new(alloc, store, slots)?;
    weights.put(store, rec, 1 << 32);
    weights.spread(store);
    let Weights { ended, .. } = weights;
    Ok(ended)
}
