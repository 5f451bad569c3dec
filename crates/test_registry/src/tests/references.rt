//! What objects of dumps say of feeds, and their URLs. What is wanted was told from the texts by
//! hand; the host that is not ASCII is that of RFC 3492's way of writing it.
use feed_refs::{FoundRef, UrlRead, What, read_url, reference_of};
use geo_addr::{Bytes, List, Text, range_text};
use geo_terms::{LineNote, Reference};
use rpsl_reader::{Attribute, Object};
use std::alloc::Global;
use std::mem::drop;

// Pushes a text, which goes.
fn push_text(made: String, text: &mut String) -> Option<()> {
    let pushed = text.push_str(made.as_str()).ok();
    drop(made);
    pushed
}

fn push_fields(alloc: Global, reference: &Reference, range: &str, text: &mut String) -> Option<()> {
    let line = reference.line;
    let modified = reference.modified;
    let url = reference.url.as_str();
    push_text(
        format!(in alloc; "{line} {range} {modified} {url}\n").ok()?,
        text,
    )
}

/// Pushes a reference, as a line of its fields but the slot.
pub fn push_reference(alloc: Global, reference: &Reference, text: &mut String) -> Option<()> {
    let range = range_text(alloc, reference.range).ok()?;
    let pushed = push_fields(alloc, reference, range.as_str(), text);
    drop(range);
    pushed
}

fn push_note(alloc: Global, note: &LineNote, text: &mut String) -> Option<()> {
    let line = note.line;
    let code = note.rule.code();
    push_text(format!(in alloc; "rpsl x {line} {code}\n").ok()?, text)
}

/// Pushes notes of the dump in slot `x` as a report prints them.
pub fn push_notes(alloc: Global, notes: &[LineNote], text: &mut String) -> Option<()> {
    for note in notes {
        push_note(alloc, note, text)?;
    }
    Some(())
}

fn attribute(alloc: Global, line: u64, text: &str) -> Option<Attribute> {
    let (name, value) = text.split_once(": ")?;
    Some(Attribute {
        name: Text::of(alloc, name).ok()?,
        value: Bytes::of(alloc, value.as_bytes()).ok()?,
        line,
    })
}

fn push_attributes(alloc: Global, text: &str, parts: &mut Vec<Attribute>) -> Option<()> {
    let mut line: u64 = 0;
    for text in text.split('\n') {
        line = line.saturating_add(1);
        parts.push(attribute(alloc, line, text)?).ok()?;
    }
    Some(())
}

// An object with these attributes, a line each, on lines from 1.
fn object(alloc: Global, text: &str) -> Option<Object> {
    let mut parts = Vec::new(alloc);
    match push_attributes(alloc, text, &mut parts) {
        Some(()) => Some(Object {
            line: 1,
            parts: List::of(parts),
        }),
        None => {
            drop(parts);
            None
        }
    }
}

fn push_what(alloc: Global, what: &What, text: &mut String) -> Option<()> {
    match what {
        What::NotInet => text.push_str("not inet\n").ok(),
        What::Nothing => text.push_str("nothing\n").ok(),
        What::One(reference) => push_reference(alloc, reference, text),
        What::Void => text.push_str("void\n").ok(),
    }
}

fn push_found(alloc: Global, found: &FoundRef, text: &mut String) -> Option<()> {
    push_what(alloc, &found.what, text)?;
    push_notes(alloc, found.notes.as_slice(), text)
}

// Pushes what an object says, and the notes on it as a report prints them.
fn push_said(alloc: Global, object: &Object, text: &mut String) -> Option<()> {
    let found = reference_of(alloc, "x", object).ok()?;
    let pushed = push_found(alloc, &found, text);
    drop(found);
    pushed
}

/// Whether all was pushed to a text, which goes, and it is the one that is wanted.
pub fn is_wanted(pushed: Option<()>, text: String, wanted: &str) -> bool {
    let is_wanted = pushed.is_some() && text.as_str() == wanted;
    drop(text);
    is_wanted
}

fn says(alloc: Global, object: &Object, wanted: &str) -> bool {
    let mut text = String::new(alloc);
    let pushed = push_said(alloc, object, &mut text);
    is_wanted(pushed, text, wanted)
}

/// An object, and what it says with the notes on it.
type Row = (&'static str, &'static str);

// The object whose attributes stand in two texts, one behind the other.
fn object_of(alloc: Global, front: &str, behind: &str) -> Option<Object> {
    let text = format!(in alloc; "{front}{behind}").ok()?;
    let object = object(alloc, text.as_str());
    drop(text);
    object
}

fn says_as(alloc: Global, front: &str, row: &Row) -> bool {
    match object_of(alloc, front, row.0) {
        Some(object) => {
            let says = says(alloc, &object, row.1);
            drop(object);
            says
        }
        None => false,
    }
}

// The number of the first row that comes out wrong, or how many there are. The attributes of a row
// stand behind those that come first in each.
fn first_wrong(alloc: Global, front: &str, rows: &[Row]) -> usize {
    for (at, row) in rows.iter().enumerate() {
        if !says_as(alloc, front, row) {
            return at;
        }
    }
    rows.len()
}

const KINDS: [Row; 14] = [
    (
        "inetnum: 192.0.2.0 - 192.0.2.255\ngeofeed: https://e.example/f.csv",
        "2 192.0.2.0-192.0.2.255 0 https://e.example/f.csv\n",
    ),
    (
        "inetnum: 192.0.2.0 - 192.0.2.255\nremarks: Geofeed https://e.example/g.csv",
        "2 192.0.2.0-192.0.2.255 0 https://e.example/g.csv\n",
    ),
    (
        "inetnum: 192.0.2.0 - 192.0.2.255\ngeofeed: https://e.example/f.csv\n\
            geofeed: https://e.example/f.csv",
        "void\nrpsl x 2 P04\nrpsl x 3 P04\n",
    ),
    (
        "inetnum: 192.0.2.0 - 192.0.2.255\nremarks: Geofeed https://e.example/g.csv\n\
            remarks: Geofeed https://e.example/g.csv",
        "void\nrpsl x 2 P04\nrpsl x 3 P04\n",
    ),
    (
        "inetnum: 192.0.2.0 - 192.0.2.255\ngeofeed: https://e.example/f.csv\n\
            remarks: Geofeed https://e.example/g.csv",
        "2 192.0.2.0-192.0.2.255 0 https://e.example/f.csv\nrpsl x 3 P10\n",
    ),
    (
        "inetnum: 192.0.2.0 - 192.0.2.255\nremarks: Geofeed https://e.example/g.csv\n\
            geofeed: https://e.example/f.csv\nremarks: Geofeed https://e.example/g.csv",
        "3 192.0.2.0-192.0.2.255 0 https://e.example/f.csv\nrpsl x 2 P10\nrpsl x 4 P10\n",
    ),
    ("inetnum: 192.0.2.0 - 192.0.2.255", "nothing\n"),
    (
        "route: 192.0.2.0/24\ngeofeed: https://e.example/f.csv",
        "not inet\n",
    ),
    // Addresses by class.
    (
        "inetnum: 192.0.2.0/24\ngeofeed: https://e.example/f.csv\nlast-modified: yesterday",
        "2 192.0.2.0-192.0.2.255 0 https://e.example/f.csv\nrpsl x 3 P07\n",
    ),
    (
        "inet6num: 2001:DB8::/126\ngeofeed: https://e.example/f.csv\nlast-modified: yesterday",
        "2 2001:db8::-2001:db8::3 0 https://e.example/f.csv\nrpsl x 3 P07\n",
    ),
    (
        "inetnum: 2001:db8::/32\ngeofeed: https://e.example/f.csv\nlast-modified: yesterday",
        "nothing\nrpsl x 1 P03\n",
    ),
    (
        "inet6num: 192.0.2.0/24\ngeofeed: https://e.example/f.csv\nlast-modified: yesterday",
        "nothing\nrpsl x 1 P03\n",
    ),
    (
        "inet6num: 2001:db8:: - 2001:db8::3\ngeofeed: https://e.example/f.csv\n\
            last-modified: yesterday",
        "nothing\nrpsl x 1 P03\n",
    ),
    (
        "inetnum: 192.0.2.9 - 192.0.2.1\ngeofeed: https://e.example/f.csv\n\
            last-modified: yesterday",
        "nothing\nrpsl x 1 P03\n",
    ),
];

/// What stands in a remark of one object.
const REMARKS: [Row; 8] = [
    (
        "Geofeed \t https://e.example/f.csv and more",
        "2 192.0.2.0-192.0.2.255 0 https://e.example/f.csv\n",
    ),
    (
        "Geofeed\thttps://e.example",
        "2 192.0.2.0-192.0.2.255 0 https://e.example/\n",
    ),
    ("geofeed https://e.example/f.csv", "nothing\n"),
    ("Geofeed: https://e.example/f.csv", "nothing\n"),
    ("Geofeedhttps://e.example/f.csv", "nothing\n"),
    ("Geofeed https:/e.example", "nothing\n"),
    ("Geofeed see https://e.example/f.csv", "nothing\n"),
    ("Geofeed ", "nothing\n"),
];

/// What stands in an object behind its range.
const BESIDE: [Row; 6] = [
    (
        "geofeed: http://e.example\nlast-modified: 2023-05-04T10:11:12",
        "nothing\nrpsl x 2 P06\nrpsl x 3 P07\n",
    ),
    (
        "last-modified: 2023-05-04T10:11:12\ngeofeed: https://",
        "nothing\nrpsl x 2 P07\nrpsl x 3 P05\n",
    ),
    (
        "remarks: Geofeed https://e.example/g.csv\nlast-modified: 2023-05-04T10:11:12\n\
            remarks: Geofeed https://e.example/g.csv",
        "void\nrpsl x 2 P04\nrpsl x 3 P07\nrpsl x 4 P04\n",
    ),
    (
        "last-modified: 2023-05-04T10:11:12\ngeofeed: https://e.example/f.csv\n\
            last-modified: 2023-05-04T10:11:12Z",
        "3 192.0.2.0-192.0.2.255 0 https://e.example/f.csv\nrpsl x 2 P07\n",
    ),
    (
        "last-modified: 2023-05-04T10:11:12Z\ngeofeed: https://e.example/f.csv\n\
            last-modified: 2023-05-04T10:11:12",
        "3 192.0.2.0-192.0.2.255 20230504101112 https://e.example/f.csv\n",
    ),
    ("last-modified: 2023-05-04T10:11:12", "nothing\n"),
];

const UNTIMED: &str = "2 192.0.2.0-192.0.2.255 0 https://e.example/f.csv\nrpsl x 3 P07\n";

/// Times out of shape.
const TIMES: [Row; 8] = [
    ("", UNTIMED),
    ("2023-05-04", UNTIMED),
    ("2023-05-04 10:11:12Z", UNTIMED),
    ("2023-05-04t10:11:12z", UNTIMED),
    ("2023-05-04T10:11:12+00", UNTIMED),
    ("2023-05-04T10:11:12Z ", UNTIMED),
    ("23-05-04T10:11:12Z", UNTIMED),
    ("2023-05-04T1O:11:12Z", UNTIMED),
];

const REMARK: &str = "inetnum: 192.0.2.0 - 192.0.2.255\nremarks: ";

const RANGE: &str = "inetnum: 192.0.2.0 - 192.0.2.255\n";

const FEED: &str = "inetnum: 192.0.2.0 - 192.0.2.255\ngeofeed: https://e.example/f.csv\n\
    last-modified: ";

/// Attributes, and objects of which they are the first ones.
static TABLES: [(&str, &[Row]); 4] = [
    ("", &KINDS),
    (REMARK, &REMARKS),
    (RANGE, &BESIDE),
    (FEED, &TIMES),
];

fn tables() -> &'static [(&'static str, &'static [Row])] {
    &TABLES
}

#[test]
fn what_objects_say(rt: HostRuntime) {
    for (front, rows) in tables() {
        assert_eq!(rt; first_wrong(rt.alloc(), front, rows), rows.len());
    }
}

/// Texts, and their serialised URLs; `-` where one is refused, and `+` where it has another scheme.
static URLS: [(&[u8], &str); 12] = [
    (b"https://e.example/f.csv", "https://e.example/f.csv"),
    (b"HTTPS://E.example", "https://e.example/"),
    (b"https://e.example:443/f", "https://e.example/f"),
    (b"https://e.example:8443/f", "https://e.example:8443/f"),
    (b"https://u:p@e.example/f", "https://u:p@e.example/f"),
    (b"https://e.example/a b", "https://e.example/a%20b"),
    (
        b"https://m\xC3\xBCnchen.example/f",
        "https://xn--mnchen-3ya.example/f",
    ),
    (b"http://e.example/f.csv", "+"),
    (b"ftp://e.example/f.csv", "+"),
    (b"https://e example/f.csv", "-"),
    (b"https://e.example/\xFF", "-"),
    (b"e.example/f.csv", "-"),
];

fn urls_read() -> &'static [(&'static [u8], &'static str)] {
    &URLS
}

fn is_read_as(alloc: Global, text: &[u8], wanted: &str) -> bool {
    match read_url(alloc, text) {
        Ok(UrlRead::Https(url)) => url.as_str() == wanted,
        Ok(UrlRead::OtherScheme) => wanted == "+",
        Ok(UrlRead::Refused) => wanted == "-",
        Err(_) => false,
    }
}

#[test]
fn urls(rt: HostRuntime) {
    for (text, wanted) in urls_read() {
        assert!(rt; is_read_as(rt.alloc(), text, wanted));
    }
}
