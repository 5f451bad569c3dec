//! Objects of dumps, read whole and in pieces. What is wanted was told from the texts by hand.
use super::if_done;
use geo_addr::{Memory, Text};
use rpsl_reader::{Attribute, Item, Reader, Selection};
use std::alloc::Global;
use std::mem::drop;
use std::test::Fail;

// An attribute: its line, its name and its value.
type Pair = (u64, &'static [u8], &'static [u8]);

// What comes of a text.
enum Wanted {
    // An object: its line and its attributes.
    Object(u64, &'static [Pair]),
    // A line that is passed over.
    Passed(u64),
}

use Wanted::{Object, Passed};

fn is_part(part: &Attribute, wanted: &Pair) -> bool {
    part.line == wanted.0
        && part.name.as_str().as_bytes() == wanted.1
        && part.value.as_slice() == wanted.2
}

fn are_parts(parts: &[Attribute], wanted: &[Pair]) -> bool {
    for (at, part) in parts.iter().enumerate() {
        let Some(wanted) = wanted.get(at) else {
            return false;
        };
        if !is_part(part, wanted) {
            return false;
        }
    }
    parts.len() == wanted.len()
}

fn is_item(item: &Item, wanted: &Wanted) -> bool {
    match (item, wanted) {
        (Item::Whole(object), Object(line, parts)) => {
            object.line == *line && are_parts(object.parts.as_slice(), parts)
        }
        (Item::Passed { line, rule }, Passed(wanted)) => line == wanted
            && rule.code().as_bytes() == b"P02".as_slice(),
        _ => false,
    }
}

fn are_items(items: &[Item], wanted: &[Wanted]) -> bool {
    for (at, item) in items.iter().enumerate() {
        let Some(wanted) = wanted.get(at) else {
            return false;
        };
        if !is_item(item, wanted) {
            return false;
        }
    }
    items.len() == wanted.len()
}

// Feeds a reader, as long as the text is short.
fn feed(reader: &mut Reader, piece: &[u8], items: &mut Vec<Item>) -> Result<(), Fail> {
    if reader.fed() < 10_000_000 && piece.len() < 10_000_000 {
        reader.feed(piece, items)?;
        return Ok(());
    }
    Err(Fail::from("a long text"))
}

// Feeds a text in two pieces, of which the first has at most so many bytes.
fn feed_cut(
    reader: &mut Reader,
    text: &[u8],
    at: usize,
    items: &mut Vec<Item>,
) -> Result<(), Fail> {
    let (first, rest) = text.split_at(at.min(text.len()));
    feed(reader, first, items)?;
    feed(reader, rest, items)
}

fn feed_bytes(reader: &mut Reader, text: &[u8], items: &mut Vec<Item>) -> Result<(), Fail> {
    for byte in text {
        feed(reader, &[*byte], items)?;
    }
    Ok(())
}

fn feed_all(
    reader: &mut Reader,
    text: &[u8],
    cut: Option<usize>,
    items: &mut Vec<Item>,
) -> Result<(), Fail> {
    match cut {
        Some(at) => feed_cut(reader, text, at, items),
        None => feed_bytes(reader, text, items),
    }
}

fn finish(reader: Reader, items: &mut Vec<Item>) -> Result<(), Memory> {
    reader.finish(items)
}

fn push_items(
    alloc: Global,
    text: &[u8],
    cut: Option<usize>,
    items: &mut Vec<Item>,
) -> Result<(), Fail> {
    let mut reader = Reader::new(alloc);
    let fed = feed_all(&mut reader, text, cut, items);
    let reader = if_done(reader, fed)?;
    Ok(finish(reader, items)?)
}

// The items of a text that is cut there, or read byte by byte.
fn items_of(alloc: Global, text: &[u8], cut: Option<usize>) -> Result<Vec<Item>, Fail> {
    let mut items = Vec::new(alloc);
    let pushed = push_items(alloc, text, cut, &mut items);
    if_done(items, pushed)
}

// A text and its items.
type TextRow = (&'static [u8], &'static [Wanted]);

static TEXTS: [TextRow; 15] = [
    (b"", &[]),
    (b"\n\n \t\n", &[]),
    (
        b"foo\ninetnum: 192.0.2.0/24\nbar",
        &[
            Passed(1),
            Object(2, &[(2, b"inetnum", b"192.0.2.0/24")]),
            Passed(3),
        ],
    ),
    // CRLF, and a byte order mark
    (
        b"\xEF\xBB\xBFinetnum: a\r\nsource: b\r\n\r\nrole: c\r\n",
        &[
            Object(1, &[(1, b"inetnum", b"a"), (2, b"source", b"b")]),
            Object(4, &[(4, b"role", b"c")]),
        ],
    ),
    // continuations, also first in an object, and a value that begins on a later line
    (
        b"descr: first line\n+ second line\n\tthird # not this\n+\nremarks: #\n last\n",
        &[Object(
            1,
            &[
                (1, b"descr", b"first line second line third"),
                (5, b"remarks", b"last"),
            ],
        )],
    ),
    (
        b"+ lost\n lost\nrole: a\n",
        &[Passed(1), Passed(2), Object(3, &[(3, b"role", b"a")])],
    ),
    // comments inside an object and inside a continuation
    (
        b"role: a\n% passed\n# passed\n b\n%\n+c\nsource: d\n",
        &[Object(1, &[(1, b"role", b"a b c"), (7, b"source", b"d")])],
    ),
    (b"% one\n% two\n\n% three\n", &[]),
    // a line of blanks alone ends an object, and one with a `+` does not
    (
        b"role: a\n+\nadmin-c: b\n \t \nrole: c\n",
        &[
            Object(1, &[(1, b"role", b"a"), (3, b"admin-c", b"b")]),
            Object(5, &[(5, b"role", b"c")]),
        ],
    ),
    // a stray line inside a value
    (
        b"role: a\nstray\n b\n",
        &[Object(1, &[(1, b"role", b"a b")]), Passed(2)],
    ),
    (
        b"stray\n\nrole: a\n\n\nstray\n",
        &[Passed(1), Object(3, &[(3, b"role", b"a")]), Passed(6)],
    ),
    // names
    (
        b"INETNUM: a\nLast-Modified:b\nx_1:\n1x: c\nx.y: d\n: e\n",
        &[
            Object(
                1,
                &[
                    (1, b"inetnum", b"a"),
                    (2, b"last-modified", b"b"),
                    (3, b"x_1", b""),
                ],
            ),
            Passed(4),
            Passed(5),
            Passed(6),
        ],
    ),
    // a carriage return inside a line is a byte of it, and two at its end leave one
    (b"role: a\rb\n", &[Object(1, &[(1, b"role", b"a\rb")])]),
    // not UTF-8
    (
        b"descr: M\xFCnchen\n",
        &[Object(1, &[(1, b"descr", b"M\xFCnchen")])],
    ),
    (
        b"\xEF\xBB\xBF% an extract\n\nfoo\r\ninetnum: 192.0.2.0/24\r\n# note\n+ b # c\n\nrole: d\n",
        &[
            Passed(3),
            Object(4, &[(4, b"inetnum", b"192.0.2.0/24 b")]),
            Object(8, &[(8, b"role", b"d")]),
        ],
    ),
];

fn text_rows() -> &'static [TextRow] {
    &TEXTS
}

fn gives(alloc: Global, row: &TextRow, cut: Option<usize>) -> Result<bool, Fail> {
    let items = items_of(alloc, row.0, cut)?;
    let gives = are_items(items.as_slice(), row.1);
    drop(items);
    Ok(gives)
}

// Whether a text gives its items byte by byte, and cut at every place.
fn gives_anyhow(alloc: Global, row: &TextRow) -> Result<bool, Fail> {
    for at in 0..row.0.len() + 1 {
        if !gives(alloc, row, Some(at))? {
            return Ok(false);
        }
    }
    gives(alloc, row, None)
}

#[test]
fn texts(rt: HostRuntime) -> Result<(), Fail> {
    for (at, row) in text_rows().iter().enumerate() {
        assert!(rt; gives_anyhow(rt.alloc(), row)?, "row {at}");
    }
    Ok(())
}

// A text: what stands in front of so many letters, and behind them. Then where it is cut, how many
// items it gives, and whether the first is a note on line 1.
struct LongRow {
    front: &'static [u8],
    letters: usize,
    behind: &'static [u8],
    cut: usize,
    items: usize,
    noted: bool,
}

static LONG: [LongRow; 9] = [
    // a line of 1,048,576 bytes and more, which an empty line and a short object follow
    LongRow {
        front: b"remarks: ",
        letters: 1_048_567,
        behind: b"\n\nrole: good\n",
        cut: 0,
        items: 2,
        noted: false,
    },
    LongRow {
        front: b"remarks: ",
        letters: 1_048_567,
        behind: b"\n\nrole: good\n",
        cut: 1_048_000,
        items: 2,
        noted: false,
    },
    LongRow {
        front: b"remarks: ",
        letters: 1_048_568,
        behind: b"\n\nrole: good\n",
        cut: 0,
        items: 2,
        noted: true,
    },
    LongRow {
        front: b"remarks: ",
        letters: 1_048_568,
        behind: b"\n\nrole: good\n",
        cut: 1_048_577,
        items: 2,
        noted: true,
    },
    LongRow {
        front: b"remarks: ",
        letters: 1_048_591,
        behind: b"\n\nrole: good\n",
        cut: 1_048_590,
        items: 2,
        noted: true,
    },
    LongRow {
        front: b"remarks: ",
        letters: 1_099_991,
        behind: b"\n\nrole: good\n",
        cut: 1_099_999,
        items: 2,
        noted: true,
    },
    // a name of 64 letters and more
    LongRow {
        front: b"",
        letters: 63,
        behind: b": v\n",
        cut: 3,
        items: 1,
        noted: false,
    },
    LongRow {
        front: b"",
        letters: 64,
        behind: b": v\n",
        cut: 3,
        items: 1,
        noted: false,
    },
    LongRow {
        front: b"",
        letters: 65,
        behind: b": v\n",
        cut: 3,
        items: 1,
        noted: true,
    },
];

fn long_rows() -> &'static [LongRow] {
    &LONG
}

fn letters(alloc: Global, count: usize) -> Result<Vec<u8>, Fail> {
    Ok(vec![in alloc; b'n'; count]?)
}

fn push_long(alloc: Global, row: &LongRow, text: &mut Vec<u8>) -> Result<(), Fail> {
    text.extend_from_slice(row.front)?;
    text.extend_from_slice(letters(alloc, row.letters)?.as_slice())?;
    text.extend_from_slice(row.behind)?;
    Ok(())
}

// Whether there are so many items, and the first is a note on line 1, or is none.
fn are_counted(items: &[Item], count: usize, noted: bool) -> bool {
    let found = match items {
        [Item::Passed { line, .. }, ..] => *line == 1,
        _ => false,
    };
    items.len() == count && found == noted
}

fn long_text(alloc: Global, row: &LongRow) -> Result<Vec<u8>, Fail> {
    let mut text = Vec::new(alloc);
    let pushed = push_long(alloc, row, &mut text);
    if_done(text, pushed)
}

fn gives_counted(alloc: Global, text: &[u8], row: &LongRow) -> Result<bool, Fail> {
    let items = items_of(alloc, text, Some(row.cut))?;
    let gives = are_counted(items.as_slice(), row.items, row.noted);
    drop(items);
    Ok(gives)
}

fn gives_long(alloc: Global, row: &LongRow) -> Result<bool, Fail> {
    let text = long_text(alloc, row)?;
    let gives = gives_counted(alloc, text.as_slice(), row);
    drop(text);
    gives
}

#[test]
fn long_objects_and_names(rt: HostRuntime) -> Result<(), Fail> {
    for (at, row) in long_rows().iter().enumerate() {
        assert!(rt; gives_long(rt.alloc(), row)?, "row {at}");
    }
    Ok(())
}

fn select(alloc: Global, selection: &mut Selection) -> Result<(), Fail> {
    selection.add_class(Text::of(alloc, "inetnum")?)?;
    selection.add_name(Text::of(alloc, "geofeed")?)?;
    Ok(())
}

fn selected(alloc: Global) -> Result<Selection, Fail> {
    let mut selection = Selection::new(alloc);
    let done = select(alloc, &mut selection);
    if_done(selection, done)
}

// Whether a reader gives these items of a text, which is accepted.
fn gives_wanted(reader: &mut Reader, row: &TextRow, selection: &Selection) -> Result<bool, Fail> {
    if reader.fed() >= 10_000_000 || row.0.len() >= 10_000_000 {
        return Err(Fail::from("a long text"));
    }
    let progress = reader.read(row.0, selection)?;
    let same = are_items(progress.items(), row.1);
    reader.accept(progress)?;
    Ok(same)
}

fn gives_at_end(reader: &Reader, selection: &Selection, wanted: &[Wanted]) -> Result<bool, Memory> {
    let items = reader.read_end(selection)?;
    let gives = are_items(items.as_slice(), wanted);
    drop(items);
    Ok(gives)
}

static WANTED: TextRow = (
    b"Inetnum: a\ndescr: b\nGEOFEED: c\nstray\n\nrole: d\ngeofeed: e\nstray\n\ninetnum: f\n",
    &[
        Object(1, &[(1, b"inetnum", b"a"), (3, b"geofeed", b"c")]),
        Passed(4),
        Passed(8),
    ],
);

fn wanted_row() -> &'static TextRow {
    &WANTED
}

static AT_END: [Wanted; 1] = [Object(10, &[(10, b"inetnum", b"f")])];

fn wanted_at_end() -> &'static [Wanted] {
    &AT_END
}

// Whether a reader gives what a selection wants, at once and at the end.
fn gives_selected(alloc: Global, selection: &Selection) -> Result<bool, Fail> {
    let mut reader = Reader::new(alloc);
    let is_given = gives_wanted(&mut reader, wanted_row(), selection);
    let is_given_at_end = gives_at_end(&reader, selection, wanted_at_end());
    drop(reader);
    Ok(is_given? && is_given_at_end?)
}

#[test]
fn what_is_wanted(rt: HostRuntime) -> Result<(), Fail> {
    let selection = selected(rt.alloc())?;
    let gives = gives_selected(rt.alloc(), &selection);
    drop(selection);
    assert!(rt; gives?);
    Ok(())
}
