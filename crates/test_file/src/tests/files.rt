//! Whole files: their bytes and sizes. All are reckoned by hand: a file has 6 bytes for each of its
//! nodes, 16 zero bytes, the data section, and 203 bytes from the marker on; the bytes are those of
//! the MaxMind DB format, version 2.0.
ghost use Rattle.std.specs.Prelude.{◌≡◌, ℕ, ◌^◌, ◌<◌, ◌≤◌, Some, length, IfOk};
ghost use Rattle.trie_core.specs.Store.{IsRootOf, leaf_at};

use geo_addr::{Range, Text};
use geo_outside::Steps;
use geo_terms::{Places, Texts, country_place};
use mmdb_file::{Emitted, Meta, write_file};
use std::alloc::{AllocError, Global};
use std::marker::Brand;
use std::process::Abort;
use std::sync::ledger::{Blank, Ledger};
use std::test::Fail;
use trie_core::{Root, Store, StoreFault};

/// A first and a last address.
type Ends = (u128, u128);

/// The root in which the range has the leaf too.
fn with_range<L: Ledger>(
    store: &mut Store,
    root: Root,
    range: Range,
    leaf: u32,
    steps: &mut Steps<L>,
) -> Result<Root, StoreFault>
    requires of { IsRootOf store.old root }
    requires low { (a k : ℕ) → a < 2 ^ 128 → leaf_at store.old root a ≡ Some k → k ≤ leaf }
    ensures of { IfOk result (IsRootOf store.new) }
    ensures low { IfOk result
        (λ r. (a k : ℕ) → a < 2 ^ 128 → leaf_at store.new r a ≡ Some k → k ≤ leaf) }
{
    store.paint(root, range, leaf, steps)
}

/// The root whose addresses on the ranges have the leaf, and whose others have leaf 0.
fn painted<L: Ledger>(
    rt: &impl Abort,
    store: &mut Store,
    ranges: &[Ends],
    leaf: u32,
    steps: &mut Steps<L>,
) -> Result<Root, StoreFault>
    ensures of { IfOk result (IsRootOf store.new) }
    ensures low { IfOk result
        (λ r. (a k : ℕ) → a < 2 ^ 128 → leaf_at store.new r a ≡ Some k → k ≤ leaf) }
{
    let mut root = store.empty();
    for (first, last) in ranges {
        let (first, last) = (*first, *last);
        assert!(rt; first <= last);
        root = with_range(store, root, Range { first, last }, leaf, steps)?;
    }
    Ok(root)
}

/// The number of a country's place.
fn number(alloc: Global, places: &mut Places, country: &[u8]) -> Result<u32, Fail>
    ensures { IfOk result (λ n. n ≤ length places.new) }
{
    if let Some(place) = country_place(&mut Texts::new(alloc), country)? {
        places.intern(&place)?;
    }
    Ok(places.len())
}

/// The file of the root, of the epoch 1700000000 and the type `Geofeed-City`.
fn written(alloc: Global, store: &Store, root: Root, places: &Places) -> Result<Emitted, Fail>
    requires of { IsRootOf store.now root }
    requires numbers { (a k : ℕ) → a < 2 ^ 128 → leaf_at store.now root a ≡ Some k
        → k ≤ length places.now }
{
    let meta = Meta {
        epoch: 1_700_000_000,
        name: Text::of(alloc, "Geofeed-City")?,
    };
    Ok(write_file(alloc, store, root, places, &meta)?)
}

/// The file in which the addresses of these ranges have the country, and no others have a place.
fn file_in<L: Ledger>(
    rt: &impl Abort,
    alloc: Global,
    store: &mut Store,
    places: &mut Places,
    row: &Row,
    steps: &mut Steps<L>,
) -> Result<Emitted, Fail> {
    let leaf = number(alloc, places, row.country)?;
    let root = painted(rt, store, row.ranges, leaf, steps)?;
    written(alloc, store, root, places)
}

fn file_of<L: Ledger>(
    rt: &impl Abort,
    alloc: Global,
    row: &Row,
    blank: Blank,
) -> Result<Emitted, Fail>
    requires name { blank.name ≡ L.name }
    requires parts { blank.parts ≡ L.parts }
    requires some { 0 < blank.parts }
{
    let mut steps: Steps<L> = Steps::new(blank);
    let mut store = Store::new(alloc);
    let mut places = Places::new(alloc);
    file_in(rt, alloc, &mut store, &mut places, row, &mut steps)
}

// A country and its ranges; how many nodes their file has, how long its data section and all of it
// are; and, where the bytes are compared, the last node, 16 zero bytes and the data section.
struct Row {
    country: &'static [u8],
    ranges: &'static [Ends],
    nodes: u8,
    section: u64,
    length: usize,
    bytes: &'static [u8],
}

static FILES: [Row; 8] = [
    // no data
    Row {
        country: b"",
        ranges: &[],
        nodes: 1,
        section: 0,
        length: 225,
        bytes: b"\0\0\x01\0\0\x01\0\0\0\0\0\0\0\0\0\0\0\0\0\0\0\0",
    },
    // 128.0.0.0/1: a node for each of the first 96 bits, which are 0, and for the last one, which
    // is 1
    Row {
        country: b"DE",
        ranges: &[(0x8000_0000, 0xffff_ffff)],
        nodes: 97,
        section: 22,
        length: 823,
        bytes: b"\0\0\x61\0\0\x71\0\0\0\0\0\0\0\0\0\0\0\0\0\0\0\0\
\xE1\x47country\xE1\x48iso_code\x42DE",
    },
    // all addresses: one node, whose records are the one place
    Row {
        country: b"FR",
        ranges: &[(0, 0xffff_ffff), (1 << 32, u128::MAX)],
        nodes: 1,
        section: 22,
        length: 247,
        bytes: b"\0\0\x11\0\0\x11\0\0\0\0\0\0\0\0\0\0\0\0\0\0\0\0\
\xE1\x47country\xE1\x48iso_code\x42FR",
    },
    Row {
        country: b"DE",
        ranges: &[(0, 0xffff_ffff), (1 << 32, u128::MAX)],
        nodes: 1,
        section: 22,
        length: 247,
        bytes: b"",
    },
    // 768 addresses from 192.0.2.0
    Row {
        country: b"DE",
        ranges: &[(0xc000_0200, 0xc000_04ff)],
        nodes: 121,
        section: 22,
        length: 967,
        bytes: b"",
    },
    // 128 addresses from 10.0.0.0 and from 10.0.1.0
    Row {
        country: b"DE",
        ranges: &[(0x0a00_0000, 0x0a00_007f), (0x0a00_0100, 0x0a00_017f)],
        nodes: 121,
        section: 22,
        length: 967,
        bytes: b"",
    },
    // 128 addresses from 192.0.2.0 and from 192.0.2.128
    Row {
        country: b"DE",
        ranges: &[(0xc000_0200, 0xc000_027f), (0xc000_0280, 0xc000_02ff)],
        nodes: 120,
        section: 22,
        length: 961,
        bytes: b"",
    },
    // 256 addresses from 192.0.2.0
    Row {
        country: b"DE",
        ranges: &[(0xc000_0200, 0xc000_02ff)],
        nodes: 120,
        section: 22,
        length: 961,
        bytes: b"",
    },
];

fn files() -> &'static [Row] {
    &FILES
}

fn has_sizes(file: &Emitted, row: &Row) -> bool {
    let sizes = (file.nodes, file.section, file.bits);
    sizes == (u64::from(row.nodes), row.section, 24) && file.bytes.len() == row.length
}

/// The marker and the metadata of the epoch 1700000000 and the type `Geofeed-City`, before and
/// behind the number of nodes.
static METADATA: &[u8] = b"\xAB\xCD\xEFMaxMind.com\xE9\x5Bbinary_format_major_version\xA1\x02\
\x5Bbinary_format_minor_version\xA0\x4Bbuild_epoch\x04\x02\x65\x53\xF1\x00\
\x4Ddatabase_type\x4CGeofeed-City\x4Bdescription\xE1\x42en\x4CGeofeed-City\
\x4Aip_version\xA1\x06\x49languages\x01\x04\x42en\x4Anode_count\xC1";

fn metadata() -> &'static [u8] {
    METADATA
}

const RECORD_SIZE: &[u8] = b"\x4Brecord_size\xA1\x18";

// The bytes of a file of so many nodes of 24 bits, of which all but the last have no data on their
// right, the bits of 1, and the next one on their left.
fn wanted(alloc: Global, nodes: u8, behind: &[u8]) -> Result<Vec<u8>, AllocError> {
    let mut bytes = Vec::new(alloc);
    for next in 1..nodes {
        bytes.extend_from_slice(&[0, 0, next, 0, 0, nodes])?;
    }
    bytes.extend_from_slice(behind)?;
    bytes.extend_from_slice(metadata())?;
    bytes.push(nodes)?;
    bytes.extend_from_slice(RECORD_SIZE)?;
    Ok(bytes)
}

fn has_bytes(alloc: Global, file: &Emitted, row: &Row) -> bool {
    match wanted(alloc, row.nodes, row.bytes) {
        Ok(bytes) => file.bytes.as_slice() == bytes.as_slice(),
        Err(_) => false,
    }
}

fn is_so(alloc: Global, file: &Emitted, row: &Row) -> bool {
    has_sizes(file, row) && (row.bytes.is_empty() || has_bytes(alloc, file, row))
}

#[test]
fn sizes_and_bytes(rt: HostRuntime) -> Result<(), Fail> {
    for (at, row) in files().iter().enumerate() {
        let file = file_of::<Brand>(&rt, rt.alloc(), row, Blank::new(1))?;
        assert!(rt; is_so(rt.alloc(), &file, row), "row {at}");
    }
    Ok(())
}

static WHOLE: Row = Row {
    country: b"DE",
    ranges: &[(0xc000_0200, 0xc000_02ff)],
    nodes: 120,
    section: 22,
    length: 961,
    bytes: b"",
};

static HALVES: Row = Row {
    country: b"DE",
    ranges: &[(0xc000_0280, 0xc000_02ff), (0xc000_0200, 0xc000_027f)],
    nodes: 120,
    section: 22,
    length: 961,
    bytes: b"",
};

#[test]
fn equal_trees_equal_files(rt: HostRuntime) -> Result<(), Fail> {
    let one = file_of::<Brand>(&rt, rt.alloc(), &WHOLE, Blank::new(1))?;
    let two = file_of::<Brand>(&rt, rt.alloc(), &HALVES, Blank::new(1))?;
    assert!(rt; one.bytes == two.bytes);
    Ok(())
}
