//! The file of a tree that was built.
ghost use Rattle.std.specs.Prelude.{◌≡◌, ◌^◌, ◌<◌, ◌≤◌, ℕ, List, Option, length, option_map, IfOk};
ghost use Rattle.std.specs.Prelude.{IsTrue, Some, Ok, Err};
ghost use Rattle.geo_addr.specs.Bits.{bits_of};
ghost use Rattle.geo_terms.specs.PlaceForm.{PlaceParts};
ghost use Rattle.geo_terms.specs.Precedence.{record_at};
ghost use Rattle.geo_terms.specs.Sources.{InForce};
ghost use Rattle.least_nodes.specs.NodeList.{Member};
ghost use Rattle.least_nodes.specs.Laws.{Finds};
ghost use Rattle.mmdb_file.specs.FileImage.{record_tree};
ghost use Rattle.mmdb_file.specs.PlaceValue.{place_value};
ghost use Rattle.mmdb_file.specs.Walk.{nodes_told, walk};
ghost use Rattle.mmdb_file.specs.Writing.{place_tree};
ghost use Rattle.trie_core.specs.Store.{leaf_at, IsRootOf};
ghost use Rattle.update_session.specs.Kept.{AnswersAll};
ghost use Rattle.update_session.specs.State.{file_of, value_of, is_too_large};

use crate::fault::EmitFault;
use geo_terms::Places;
use mmdb_file::{Emitted, Meta, numbers_to_places, write_file};
use std::alloc::Global;
use trie_core::{Root, Store};

/// The file of the tree that the root means, which is that of a fresh build of any sources whose
/// record the root answers.
pub fn write(
    alloc: Global,
    store: &Store,
    places: &Places,
    root: Root,
    meta: &Meta,
) -> Result<Emitted, EmitFault>
    requires root { IsRootOf store.now root }
    requires numbers { (address k : ℕ) → address < 2 ^ 128 → leaf_at store.now root address ≡ Some k
        → k ≤ length places.now }
    requires name { length meta.now.name ≤ 64 }
    ensures file { IfOk result (λ file. (s : InForce) → AnswersAll store.now places.now root s
        → file_of (record { sources = s; epoch = meta.now.epoch; name = meta.now.name })
        ≡ Some (value_of file)) }
    ensures walked { IfOk result
        (λ file. (s : InForce) → AnswersAll store.now places.now root s → (a : ℕ) → a < 2 ^ 128
        → walk file.bytes.items (bits_of 128 a) ≡ Ok (option_map place_value (record_at s a))) }
    ensures fewest { IfOk result (λ file. (s : InForce) → AnswersAll store.now places.now root s
        → (nodes : List (Member (Option PlaceParts) × Member (Option PlaceParts)))
        → Finds 128 nodes (record_at s) → file.nodes ≤ length nodes) }
    ensures told { IfOk result (λ file. nodes_told file.bytes.items ≡ Some file.nodes) }
    ensures too_large { result ≡ Err EmitFault.TooLarge
        → (s : InForce) → AnswersAll store.now places.now root s
        → IsTrue
        (is_too_large (record { sources = s; epoch = meta.now.epoch; name = meta.now.name })) }
{
    let file = write_file(alloc, store, root, places, meta)?;
    Ok(file)
}

/// The law that a root that answers a record means the record's tree. Calling it does nothing.
pub(crate) fn means_records(store: &Store, root: Root, places: &Places)
    requires root { IsRootOf store.now root }
    requires numbers { (address k : ℕ) → address < 2 ^ 128 → leaf_at store.now root address ≡ Some k
        → k ≤ length places.now }
    ensures { (s : InForce) → AnswersAll store.now places.now root s
        → place_tree places.now store.now root ≡ record_tree s }
{
    numbers_to_places(store, root, places);
}
