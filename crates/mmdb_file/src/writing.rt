//! Writing a file.
ghost use Rattle.std.specs.Prelude.{◌≡◌, ◌+◌, ◌*◌, ◌^◌, ◌<◌, ◌≤◌, ◌++◌, ℕ, length, max, IfOk, OnOk};
ghost use Rattle.std.specs.Prelude.{IfSome, slice_index_or, slice_index, [], nat_eq, List};
ghost use Rattle.std.specs.Prelude.{replicate, option_map, Option, Some, None, Ok, Err};
ghost use Rattle.std.specs.Str.{IsUtf8};
ghost use Rattle.geo_addr.specs.Bits.{bits_of};
ghost use Rattle.mmdb_file.specs.PlaceValue.{place_value};
ghost use Rattle.mmdb_file.specs.Walk.{walk, nodes_told};
ghost use Rattle.geo_terms.specs.Numbers.{place_at};
ghost use Rattle.trie_core.specs.Tree.{tree};
ghost use Rattle.trie_core.specs.Store.{IsOf, IsRootOf, leaf_at, tree_of};
ghost use Rattle.geo_terms.specs.PlaceForm.{PlaceParts};
ghost use Rattle.least_nodes.specs.Order.{AreOf};
ghost use Rattle.mmdb_file.specs.Writing.{nodes_from, number_of, place_tree, count_for};
ghost use Rattle.mmdb_file.specs.Marker.{marker};
ghost use Rattle.mmdb_file.specs.Metadata.{metadata};
ghost use Rattle.mmdb_file.specs.Writing.{section_for, end_for, AnswersPlaces, AreParts};
ghost use Rattle.mmdb_file.specs.Writing.{FindsPlaces};
ghost use Rattle.least_nodes.specs.NodeList.{Member};
ghost use Rattle.mmdb_tree.specs.Laws.{NodeFits};
ghost use Rattle.mmdb_tree.specs.Nodes.{limit, smallest, record_size, tree_bytes};
ghost use Rattle.mmdb_file.specs.FileImage.{file, file_of, file_with, file_nodes, file_section};
ghost use Rattle.mmdb_file.specs.FileImage.{file_end, same_answer};
ghost use Rattle.mmdb_file.specs.declared.fault.FileFault.TheVariants as faults;

use crate::data::data_of;
use crate::fault::FileFault;
use crate::laws::written_file_is_walked;
use crate::marker::MARKER;
use crate::metadata::{Meta, metadata_of};
use crate::nodes::push_nodes;
use crate::numbers::Numbers;
use geo_addr::Memory;
use geo_terms::Places;
use least_nodes::{Layout, order};
use mmdb_data::{Packer, encode};
use mmdb_tree::{Bits, record_bits};
use std::alloc::Global;
use trie_core::{NodeId, Rec, Root, Store};

// Room for the bytes that are neither nodes nor data, so that a file is not moved as it grows.
const END_ROOM: usize = 512;

/// A file that was written, and its counts.
#[derive(Debug, Drop)]
pub struct Emitted {
    pub bytes: Vec<u8>,
    pub nodes: u64,
    /// The bytes of the data section.
    pub section: u64,
    /// The bits of a record.
    pub bits: u8,
}

/// The file of the tree that the root means, whose leaf 0 is no data and whose leaf k is the place
/// of number k.
///
/// Each node and each place stands once, in the order of a walk that takes a node before its
/// children and the left child before the right one.
pub fn write_file(
    alloc: Global,
    store: &Store,
    root: Root,
    places: &Places,
    meta: &Meta,
) -> Result<Emitted, FileFault>
    requires root { IsRootOf store.now root }
    requires numbers { (address k : ℕ) → address < 2 ^ 128 → leaf_at store.now root address ≡ Some k
        → k ≤ length places.now }
    requires name { length meta.now.name ≤ 64 }

    // What is written is decided by the places of the addresses, whatever their numbers are.
    ensures places { (answer : ℕ → Option PlaceParts)
        → AnswersPlaces places.now store.now root answer
        → place_tree places.now store.now root ≡ tree same_answer answer 128 0 }
    ensures bytes { IfOk result (λ written. file (place_tree places.now store.now root)
        meta.now.epoch meta.now.name ≡ Some written.bytes.items) }

    // Whoever follows the public standard through the bytes comes to
    // the value of the address's place.
    ensures walked { IfOk result
        (λ written. (address k : ℕ) → leaf_at store.now root address ≡ Some k
        → walk written.bytes.items (bits_of 128 address)
        ≡ Ok (option_map place_value (place_at places.now k))) }
    ensures nodes { IfOk result
        (λ written. written.nodes ≡ file_nodes (place_tree places.now store.now root)) }

    // The count is the one that whoever opens the bytes reads in them.
    ensures told { IfOk result (λ written. nodes_told written.bytes.items ≡ Some written.nodes) }

    // No list of nodes that answers each address with the same place is shorter.
    ensures fewest { IfOk result
        (λ written. (nodes : List (Member (Option PlaceParts) × Member (Option PlaceParts)))
        → FindsPlaces places.now store.now root nodes → written.nodes ≤ length nodes) }
    ensures section { IfOk result
        (λ written. written.section
        ≡ length (file_section (place_tree places.now store.now root))) }
    ensures bits { IfOk result (λ written. option_map record_size
        (smallest (file_end (place_tree places.now store.now root))) ≡ Some written.bits) }
    ensures too_large { result ≡ Err faults.TooLarge
        → smallest (file_end (place_tree places.now store.now root)) ≡ None }
{
    written_file_is_walked();
    numbers_to_places(store, root, places);
    let tree = store.rec_of(root);
    let parts = parts_of(alloc, store, root, places)?;
    let made = file_of_parts(alloc, store, tree, &parts, meta);
    drop(parts);
    let made = made?;
    Ok(made)
}

/// What a file is written from: the numbers of its records, the data section, and the bits of a
/// record.
#[derive(Drop)]
struct Parts {
    numbers: Numbers,
    section: Packer,
    bits: Bits,
}

/// What the file of the tree that the root means is written from.
fn parts_of(alloc: Global, store: &Store, root: Root, places: &Places) -> Result<Parts, FileFault>
    requires root { IsRootOf store.now root }
    ensures parts { IfOk result
        (λ parts. AreParts store.now places.now (tree_of store.now root) parts) }
    ensures too_large { result ≡ Err faults.TooLarge
        → smallest (end_for places.now (tree_of store.now root)) ≡ None }
{
    let layout = order(alloc, store, root)?;
    let leaves = layout.leaves.as_slice();
    let data = data_of(alloc, places, leaves)?;
    let packed = data.section.bytes();
    let count = layout.nodes.len().max(1);
    let len = packed.len();
    let Some(bits) = bits_for(count, len) else {
        drop(data);
        drop(layout);
        return Err(FileFault::TooLarge);
    };
    let numbers = numbers_of(count as u32, layout, data.starts);
    Ok(Parts {
        numbers,
        section: data.section,
        bits,
    })
}

/// The file of these parts under the root's record, and its counts.
fn file_of_parts(
    alloc: Global,
    store: &Store,
    root: Rec,
    parts: &Parts,
    meta: &Meta,
) -> Result<Emitted, Memory>
    requires root { IsOf store.now root }
    requires of { AreOf store.now parts.now.numbers.nodes }
    requires name { length meta.now.name ≤ 64 }
    requires ids { length parts.now.numbers.nodes ≤ parts.now.numbers.count }
    requires low { (k : ℕ) → parts.now.numbers.count + 16
        + slice_index parts.now.numbers.starts.items k < limit parts.now.bits }
    ensures bytes { IfOk result (λ made. made.bytes.items ≡ file_of parts.now.bits
        (nodes_from store.now (number_of parts.now.numbers) root parts.now.numbers.nodes)
        parts.now.section.bytes meta.now.epoch meta.now.name) }
    ensures typed { IfOk result (λ _. (meta.now.epoch < 2 ^ 64) × IsUtf8 meta.now.name) }
    ensures fits { (k : ℕ)
        → k < length (nodes_from store.now (number_of parts.now.numbers) root
        parts.now.numbers.nodes)
        → NodeFits parts.now.bits (slice_index_or (nodes_from store.now
        (number_of parts.now.numbers) root parts.now.numbers.nodes) k (0, 0)) }
    ensures nodes { IfOk result (λ made. made.nodes ≡ parts.now.numbers.count) }
    ensures section { IfOk result (λ made. made.section ≡ length parts.now.section.bytes) }
    ensures bits { IfOk result (λ made. made.bits ≡ record_size parts.now.bits) }
{
    let numbers = &parts.numbers;
    let ids = numbers.nodes.as_slice();
    let packed = parts.section.bytes();
    let bytes = written(alloc, store, root, ids, numbers, parts.bits, packed, meta)?;
    Ok(Emitted {
        bytes,
        nodes: u64::from(numbers.count),
        section: packed.len() as u64,
        bits: parts.bits.size(),
    })
}

/// The law that the tree that a root means, with its leaves as the places that they number, is the
/// tree of those places, and that the file of the numbers and its counts are those of the places.
/// Calling it does nothing.
pub fn numbers_to_places(store: &Store, root: Root, places: &Places)
    requires root { IsRootOf store.now root }
    requires numbers { (address k : ℕ) → address < 2 ^ 128 → leaf_at store.now root address ≡ Some k
        → k ≤ length places.now }
    ensures places { (answer : ℕ → Option PlaceParts)
        → AnswersPlaces places.now store.now root answer
        → place_tree places.now store.now root ≡ tree same_answer answer 128 0 }
    ensures bytes { (epoch : ℕ) (name : List ℕ)
        → file_with nat_eq (place_at places.now) (tree_of store.now root) epoch name
        ≡ file (place_tree places.now store.now root) epoch name }
    ensures nodes { file_nodes (place_tree places.now store.now root)
        ≡ count_for (tree_of store.now root) }
    ensures fewest { (nodes : List (Member (Option PlaceParts) × Member (Option PlaceParts)))
        → FindsPlaces places.now store.now root nodes
        → count_for (tree_of store.now root) ≤ length nodes }
    ensures section { file_section (place_tree places.now store.now root)
        ≡ (section_for places.now (tree_of store.now root)).bytes }
    ensures end { file_end (place_tree places.now store.now root)
        ≡ end_for places.now (tree_of store.now root) }
{
    let _ = store.rec_of(root);
    let _ = places.len();
}

fn numbers_of(count: u32, layout: Layout, starts: Vec<u64>) -> Numbers
    ensures count { result.count ≡ count }
    ensures nodes { result.nodes ≡ layout.nodes }
    ensures places { result.places ≡ layout.leaves }
    ensures starts { result.starts.items ≡ starts.items }
{
    Numbers {
        count,
        nodes: layout.nodes,
        places: layout.leaves,
        starts,
    }
}

fn written(
    alloc: Global,
    store: &Store,
    root: Rec,
    ids: &[NodeId],
    numbers: &Numbers,
    bits: Bits,
    section: &[u8],
    meta: &Meta,
) -> Result<Vec<u8>, Memory>
    requires root { IsOf store.now root }
    requires of { AreOf store.now ids.now }
    requires name { length meta.now.name ≤ 64 }
    requires ids { length ids.now ≤ numbers.now.count }
    requires keys { length numbers.now.nodes ≤ numbers.now.count }
    requires low { (k : ℕ)
        → numbers.now.count + 16 + slice_index numbers.now.starts.items k < limit bits }
    ensures bytes { IfOk result (λ bytes. bytes.items ≡ file_of bits
        (nodes_from store.now (number_of numbers.now) root ids.now) section.now meta.now.epoch
        meta.now.name) }
    ensures typed { IfOk result (λ _. (meta.now.epoch < 2 ^ 64) × IsUtf8 meta.now.name) }
    ensures fits { (k : ℕ) → k < length (nodes_from store.now (number_of numbers.now) root ids.now)
        → NodeFits bits
        (slice_index_or (nodes_from store.now (number_of numbers.now) root ids.now) k (0, 0)) }
{
    let tree = tree_of_nodes(alloc, store, root, ids, numbers, bits, section.len())?;
    file_bytes(alloc, tree, bits, ids.len().max(1) as u32, section, meta)
}

fn bits_for(nodes: usize, section_len: usize) -> Option<Bits>
    ensures bits { result ≡ smallest (nodes + 16 + section_len) }
    ensures low { IfSome result (λ bits. nodes + 16 + section_len < limit bits) }
{
    if nodes >= 1 << 32 || section_len >= 1 << 32 {
        return None;
    }
    record_bits(nodes as u64, section_len as u64)
}

/// The file that begins with these bytes of the tree's nodes.
fn file_bytes(
    alloc: Global,
    tree: Vec<u8>,
    bits: Bits,
    nodes: u32,
    section: &[u8],
    meta: &Meta,
) -> Result<Vec<u8>, Memory>
    requires name { length meta.now.name ≤ 64 }
    ensures bytes { IfOk result (λ bytes. bytes.items
        ≡ (((tree.items ++ replicate 16 0) ++ section.now) ++ marker)
        ++ metadata meta.now.epoch meta.now.name nodes (record_size bits)) }
    ensures typed { IfOk result (λ _. (meta.now.epoch < 2 ^ 64) × IsUtf8 meta.now.name) }
{
    let mut bytes = tree;
    push_section(&mut bytes, section)?;
    push_metadata(alloc, &mut bytes, meta, nodes, bits)?;
    Ok(bytes)
}

/// Appends the data section between the bytes that divide it from the tree and the marker.
#[tactic(auto, unfolding(crate::specs::Marker::marker))]
fn push_section(bytes: &mut Vec<u8>, section: &[u8]) -> Result<(), Memory>
    ensures { OnOk result (bytes.new.items
        ≡ ((bytes.old.items ++ replicate 16 0) ++ section.now) ++ marker) }
{
    bytes.extend_from_slice(&[0; 16])?;
    bytes.extend_from_slice(section)?;
    bytes.extend_from_slice(&MARKER)?;
    Ok(())
}

/// Appends the metadata, which ends the file.
fn push_metadata(
    alloc: Global,
    bytes: &mut Vec<u8>,
    meta: &Meta,
    nodes: u32,
    bits: Bits,
) -> Result<(), Memory>
    requires { length meta.now.name ≤ 64 }
    ensures bytes { OnOk result (bytes.new.items
        ≡ bytes.old.items ++ metadata meta.now.epoch meta.now.name nodes (record_size bits)) }
    ensures typed { OnOk result ((meta.now.epoch < 2 ^ 64) × IsUtf8 meta.now.name) }
{
    let metadata = metadata_of(alloc, meta, nodes, bits)?;
    let put = encode(alloc, &metadata, bytes);
    drop(metadata);
    put?;
    Ok(())
}

/// The bytes of the tree's nodes, with room for all that follows them in the file.
fn tree_of_nodes(
    alloc: Global,
    store: &Store,
    root: Rec,
    ids: &[NodeId],
    numbers: &Numbers,
    bits: Bits,
    section_len: usize,
) -> Result<Vec<u8>, Memory>
    requires of { AreOf store.now ids.now }
    requires short { section_len < 2 ^ 63 }
    requires ids { length ids.now ≤ numbers.now.count }
    requires keys { length numbers.now.nodes ≤ numbers.now.count }
    requires low { (k : ℕ)
        → numbers.now.count + 16 + slice_index numbers.now.starts.items k < limit bits }
    ensures { IfOk result (λ tree. tree.items
        ≡ tree_bytes bits (nodes_from store.now (number_of numbers.now) root ids.now)) }
{
    let room = ids.len().max(1) * bits.width() + section_len + END_ROOM;
    let mut tree = Vec::with_capacity(alloc, room)?;
    push_nodes(&mut tree, bits, store, root, ids, numbers)?;
    Ok(tree)
}
