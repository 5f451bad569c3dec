//! Places from fields, numbers of places, shared texts, homes of addresses, and first statements.
//! What is wanted was told from the fields, texts and ranges by hand.
use first_index::{FirstIndex, Numbered};
use geo_addr::{Addr, Range, parse_addr, parse_span};
use geo_terms::{
    Override, Place, PlaceFault, Places, Said, Texts, country_place, home, is_alias, lies_in_alias,
    place_of,
};
use std::alloc::Global;

// The country and the region of a place.
fn fields_of(place: &Place) -> (&str, &str) {
    (place.country(), place.region())
}

fn shown(said: &Result<Said, PlaceFault>) -> (&str, &str) {
    match said {
        Ok(Said::At(place)) => fields_of(place),
        Ok(Said::Nothing) => ("nothing", ""),
        Err(PlaceFault::Country) => ("refused", "country"),
        Err(PlaceFault::Region) => ("refused", "region"),
        Err(PlaceFault::TooLong) => ("refused", "length"),
        Err(PlaceFault::Memory) => ("refused", "memory"),
    }
}

/// A country, a region, a city and how often it is repeated, and the country and region of the
/// place, or why there is none.
struct PlaceRow {
    country: &'static str,
    region: &'static str,
    city: &'static str,
    count: usize,
    wanted: (&'static str, &'static str),
}

static FIELDS: [PlaceRow; 7] = [
    PlaceRow {
        country: "",
        region: "de-by",
        city: "",
        count: 1,
        wanted: ("DE", "DE-BY"),
    },
    PlaceRow {
        country: "zz",
        region: "",
        city: "X",
        count: 1,
        wanted: ("nothing", ""),
    },
    PlaceRow {
        country: "",
        region: "ZZ-1",
        city: "",
        count: 1,
        wanted: ("nothing", ""),
    },
    PlaceRow {
        country: "",
        region: "",
        city: "",
        count: 1,
        wanted: ("nothing", ""),
    },
    PlaceRow {
        country: "A1",
        region: "DEBY",
        city: "",
        count: 1,
        wanted: ("refused", "country"),
    },
    PlaceRow {
        country: "DE",
        region: "DEBY",
        city: "",
        count: 1,
        wanted: ("refused", "region"),
    },
    PlaceRow {
        country: "DE",
        region: "",
        city: "x",
        count: 1025,
        wanted: ("refused", "length"),
    },
];

fn fields() -> &'static [PlaceRow] {
    &FIELDS
}

fn name_a_place(alloc: Global, row: &PlaceRow) -> Option<bool> {
    let city = row.city.repeat(alloc, row.count).ok()?;
    let said = place_of(alloc, row.country, row.region, city.as_str(), "");
    Some(shown(&said) == row.wanted)
}

#[test]
fn fields_name_places(rt: HostRuntime) {
    for row in fields() {
        assert!(rt; matches!(name_a_place(rt.alloc(), row), Some(true)));
    }
}

// The number that the place of a country gets.
fn number(texts: &mut Texts, places: &mut Places, country: &[u8]) -> Option<u32> {
    let place = country_place(texts, country).ok()??;
    places.intern(&place).ok()
}

// The country of the place with a number.
fn country_at(places: &Places, number: u32) -> &str {
    match places.get(number) {
        Some(place) => fields_of(place).0,
        None => "",
    }
}

fn are_numbered(texts: &mut Texts, places: &mut Places) -> bool {
    number(texts, places, b"de") == Some(1)
        && number(texts, places, b"AT") == Some(2)
        && number(texts, places, b"DE") == Some(1)
        && country_at(places, 2) == "AT"
        && country_at(places, 0).is_empty()
        && country_at(places, 3).is_empty()
}

#[test]
fn equal_places_have_one_number(rt: HostRuntime) {
    let mut texts = Texts::new(rt.alloc());
    let mut places = Places::new(rt.alloc());
    assert!(rt; are_numbered(&mut texts, &mut places));
}

static WORDS: [&str; 6] = ["Zürich", "", "ZH", "Zürich", "", "ZH"];

fn is_shared(texts: &mut Texts, text: &str) -> bool {
    match texts.shared(text) {
        Ok(shared) => shared.as_str() == text,
        Err(_) => false,
    }
}

#[test]
fn texts_come_again(rt: HostRuntime) {
    let mut texts = Texts::new(rt.alloc());
    for text in &WORDS {
        assert!(rt; is_shared(&mut texts, text));
    }
}

/// Addresses, and their homes.
static HOMES: [(&str, &str); 8] = [
    ("::ffff:128.0.0.1", "128.0.0.1"),
    ("::fffe:ffff:ffff", "::fffe:ffff:ffff"),
    ("::1:0:0:0", "::1:0:0:0"),
    ("2002:a00:1::", "10.0.0.1"),
    ("2002:a00:1:ffff:ffff:ffff:ffff:ffff", "10.0.0.1"),
    ("2001:ffff::1", "2001:ffff::1"),
    ("2003::", "2003::"),
    ("10.0.0.1", "10.0.0.1"),
];

fn is_home(at: &str, at_home: &str) -> Option<bool> {
    let at = parse_addr(at.as_bytes()).ok()?;
    let at_home = parse_addr(at_home.as_bytes()).ok()?;
    Some(home(at) == at_home && is_alias(at) == (at != at_home))
}

/// Ranges, and whether what is said of one speaks nowhere.
static NOWHERE: [(&str, bool); 7] = [
    ("2002:a00::/24", true),
    ("2002::/16", true),
    ("2002::/15", false),
    ("::ffff:0:0/96", true),
    ("::ffff:0:0-::1:0:0:0", false),
    ("::1-2002::", false),
    ("0.0.0.0/0", false),
];

fn speaks_nowhere(range: &str) -> Option<bool> {
    let range = parse_span(range.as_bytes()).ok()?;
    Some(lies_in_alias(range))
}

#[test]
fn homes_and_statements_that_speak_nowhere(rt: HostRuntime) {
    for (at, at_home) in &HOMES {
        assert!(rt; is_home(at, at_home) == Some(true));
    }
    for (range, nowhere) in &NOWHERE {
        assert!(rt; speaks_nowhere(range) == Some(*nowhere));
    }
}

/// The ends of ranges, the index of the first range at some addresses, and the points at which the
/// grounds of the ranges begin or have ended.
type Firsts = (
    &'static [(u128, u128)],
    &'static [(u128, Option<usize>)],
    &'static [u128],
);

static FIRSTS: [Firsts; 7] = [
    (
        &[
            (0x0100_0000, 0x0100_00FF),
            (0x0100_0200, 0x0100_02FF),
            (0x2001_0DB8 << 96, (0x2001_0DB9 << 96) - 1),
        ],
        &[
            (0x00FF_FFFF, None),
            (0x0100_00FF, Some(0)),
            (0x0100_0100, None),
            (0x0100_0200, Some(1)),
            (0x2001_0DB9 << 96, None),
        ],
        &[
            0x0100_0000,
            0x0100_0100,
            0x0100_0200,
            0x0100_0300,
            0x2001_0DB8 << 96,
            0x2001_0DB9 << 96,
        ],
    ),
    (
        &[
            (0x0100_0200, 0x0100_02FF),
            (0x2001_0DB8 << 96, (0x2001_0DB9 << 96) - 1),
            (0x0100_0000, 0x0100_00FF),
        ],
        &[
            (0x0100_00FF, Some(2)),
            (0x0100_01FF, None),
            (0x2001_0DB8 << 96, Some(1)),
        ],
        &[
            0x0100_0000,
            0x0100_0100,
            0x0100_0200,
            0x0100_0300,
            0x2001_0DB8 << 96,
            0x2001_0DB9 << 96,
        ],
    ),
    (
        &[
            (0x0100_0000, 0x0100_00FF),
            (0x0100_0100, 0x0100_01FF),
            (0x0100_0200, 0x0100_03FF),
        ],
        &[
            (0x0100_00FF, Some(0)),
            (0x0100_0100, Some(1)),
            (0x0100_03FF, Some(2)),
            (0x0100_0400, None),
        ],
        &[0x0100_0000, 0x0100_0100, 0x0100_0200, 0x0100_0400],
    ),
    (
        &[
            (0x2 << 124, (0x4 << 124) - 1),
            (0x4 << 124, (0x8 << 124) - 1),
            (0x8 << 124, u128::MAX),
        ],
        &[(0x7FFF << 112, Some(1)), (u128::MAX, Some(2))],
        &[0x2 << 124, 0x4 << 124, 0x8 << 124],
    ),
    (
        &[
            (0x0100_0000, 0x0100_FFFF),
            (0x0100_0100, 0x0100_01FF),
            (0x0100_0200, 0x0100_02FF),
        ],
        &[
            (0x0100_00FF, Some(0)),
            (0x0100_01FF, Some(1)),
            (0x0100_0300, Some(0)),
            (0x0101_0000, None),
        ],
        &[
            0x0100_0000,
            0x0100_0100,
            0x0100_0200,
            0x0100_0300,
            0x0101_0000,
        ],
    ),
    (
        &[
            (0x0100_0000, 0x0100_0009),
            (0x0100_0005, 0x0100_0014),
            (0x0100_0005, 0x0100_0009),
        ],
        &[
            (0x0100_0004, Some(0)),
            (0x0100_0009, Some(2)),
            (0x0100_000A, Some(1)),
            (0x0100_0015, None),
        ],
        &[0x0100_0000, 0x0100_0005, 0x0100_000A, 0x0100_0015],
    ),
    (
        &[(0xFFFF << 112, u128::MAX), (0x0100_0000, 0x0100_0000)],
        &[(0x0100_0000, Some(1)), (0x0100_0001, None)],
        &[0x0100_0000, 0x0100_0001, 0xFFFF << 112],
    ),
];

fn first_rows() -> &'static [Firsts] {
    &FIRSTS
}

// A statement about a range.
fn statement(ends: (u128, u128)) -> Option<Override> {
    let (first, last) = ends;
    if first > last {
        return None;
    }
    Some(Override {
        line: 1,
        range: Range { first, last },
        said: Said::Nothing,
    })
}

fn push_statements(statements: &mut Vec<Override>, ranges: &[(u128, u128)]) -> Option<()> {
    for ends in ranges {
        statements.push(statement(*ends)?).ok()?;
    }
    Some(())
}

fn index_of(alloc: Global, statements: &[Override]) -> Option<FirstIndex> {
    let mut numbered = Numbered::new(alloc);
    numbered.push_all(statements).ok()?;
    FirstIndex::of(alloc, numbered).ok()
}

fn finds(index: &FirstIndex, firsts: &[(u128, Option<usize>)]) -> bool {
    for (at, first) in firsts {
        if index.index_at(Addr(*at)) != *first {
            return false;
        }
    }
    true
}

fn has_cuts(index: &FirstIndex, points: &[u128]) -> bool {
    index.cut_points() == points
}

fn tells(alloc: Global, statements: &mut Vec<Override>, row: &Firsts) -> Option<bool> {
    push_statements(statements, row.0)?;
    let index = index_of(alloc, statements.as_slice())?;
    Some(finds(&index, row.1) && has_cuts(&index, row.2))
}

fn is_told(alloc: Global, row: &Firsts) -> Option<bool> {
    let mut statements = Vec::new(alloc);
    tells(alloc, &mut statements, row)
}

#[test]
fn first_statements_and_cut_points(rt: HostRuntime) {
    for row in first_rows() {
        assert!(rt; is_told(rt.alloc(), row) == Some(true));
    }
}
