//! Lines, decimals, ranges and the small types. What is wanted was told from the texts by hand.
use geo_addr::{
    Addr, Block, Bytes, Line, Lines, List, Memory, Range, Text, cut_at, decimal, is_blank,
    range_of, trim_blanks,
};
use std::alloc::Global;
use std::mem::drop;

type FileRow = (&'static [u8], &'static [&'static [u8]]);

static FILES: [FileRow; 6] = [
    (b"", &[]),
    (b"\n", &[b""]),
    (b"a\nb", &[b"a", b"b"]),
    (b"a\nb\n", &[b"a", b"b"]),
    (b"\xEF\xBB\xBFa\r\n\n\r\nb\r", &[b"a", b"", b"", b"b"]),
    (b"a\r\r\n\xEF\xBB\xBF\n", &[b"a\r", b"\xEF\xBB\xBF"]),
];

fn files() -> &'static [FileRow] {
    &FILES
}

// Whether a file has these lines, numbered from 1.
fn has_lines(file: &[u8], wanted: &[&[u8]]) -> bool {
    let mut given = 0;
    for line in Lines::of(file) {
        if given >= wanted.len() || line.text != wanted[given] {
            return false;
        }
        given += 1;
        if line.number != given as u64 {
            return false;
        }
    }
    given == wanted.len()
}

#[test]
fn lines_of_a_file(rt: HostRuntime) {
    for (at, (file, wanted)) in files().iter().enumerate() {
        assert!(rt; has_lines(file, wanted), "row {at}");
    }
}

fn cut(text: &[u8]) -> (&[u8], Option<&[u8]>) {
    cut_at(text, b'|')
}

fn trimmed(text: &[u8]) -> &[u8] {
    trim_blanks(text)
}

#[test]
fn pieces_and_blanks(rt: HostRuntime) {
    let (before, after) = cut(b"a|b|c");
    assert!(rt; before == b"a".as_slice() && after.is_some());
    assert!(rt; cut(b"abc").1.is_none());
    assert!(rt; trimmed(b"\t a b \t") == b"a b".as_slice());
    assert!(rt; trimmed(b" \t ").is_empty());
    assert!(rt; !is_blank(b'\r'));
}

type DecimalRow = (&'static [u8], Option<u128>);

static DECIMALS: [DecimalRow; 7] = [
    (b"032", Some(32)),
    (b"0000000256", Some(256)),
    (b"4294967296", Some(4294967296)),
    (b"00000000256", None),
    (b"", None),
    (b"+1", None),
    (b"1 ", None),
];

fn decimals() -> &'static [DecimalRow] {
    &DECIMALS
}

fn reads_decimal(row: &DecimalRow) -> bool {
    decimal(row.0, 1, 10) == row.1
}

#[test]
fn decimals_of_ten_digits(rt: HostRuntime) {
    for (at, row) in decimals().iter().enumerate() {
        assert!(rt; reads_decimal(row), "row {at}");
    }
}

fn holds(range: Range, at: u128) -> bool {
    range.holds(Addr(at))
}

fn all() -> Range {
    range_of(Block { first: 0, len: 0 })
}

fn last_of_v4() -> Range {
    range_of(Block {
        first: 0xFFFF_FFFF,
        len: 128,
    })
}

#[test]
fn ranges_and_blocks(rt: HostRuntime) {
    let v4: u128 = 1 << 32;
    let all = all();
    assert!(rt; all.first == 0 && all.last == u128::MAX);
    assert!(rt; all.size() == u128::MAX && !all.is_v4() && all.ground_first() == v4);
    assert!(rt; !holds(all, v4 - 1) && holds(all, u128::MAX));
    let one = last_of_v4();
    assert!(rt; one.is_v4() && holds(one, v4 - 1) && !holds(one, v4));
}

// Whether a text, which goes, was made, and is the same as this one or else less.
fn compares(made: Result<Text, Memory>, text: &Text, is_same: bool) -> bool {
    match made {
        Ok(other) => {
            let compares = (other == *text) == is_same && (other < *text) != is_same;
            drop(other);
            compares
        }
        Err(_) => false,
    }
}

fn is_cloned(text: &Text, wanted: &str) -> bool {
    match text.clone() {
        Ok(other) => {
            let is_wanted = other.as_str() == wanted;
            drop(other);
            is_wanted
        }
        Err(_) => false,
    }
}

#[test]
fn texts(rt: HostRuntime) -> Result<(), Memory> {
    let text = Text::of(rt.alloc(), "Zürich")?;
    assert!(rt; compares(text.copied(), &text, true));
    assert!(rt; is_cloned(&text, "Zürich"));
    assert!(rt; compares(Text::from_string(String::new(rt.alloc())), &text, false));
    Ok(())
}

fn are_copied(alloc: Global, bytes: &Bytes) -> bool {
    match bytes.copied(alloc) {
        Ok(other) => {
            let are_same = other == *bytes;
            drop(other);
            are_same
        }
        Err(_) => false,
    }
}

fn are_cloned(bytes: &Bytes, wanted: &[u8]) -> bool {
    match bytes.clone() {
        Ok(other) => {
            let are_wanted = other.as_slice() == wanted;
            drop(other);
            are_wanted
        }
        Err(_) => false,
    }
}

#[test]
fn byte_strings(rt: HostRuntime) -> Result<(), Memory> {
    let bytes = Bytes::of(rt.alloc(), b"\xFF")?;
    assert!(rt; are_copied(rt.alloc(), &bytes));
    assert!(rt; are_cloned(&bytes, b"\xFF"));
    assert!(rt; Bytes::from_vec(Vec::new(rt.alloc())) < bytes);
    Ok(())
}

fn is_list_cloned(list: &List<u8>) -> bool {
    match list.clone() {
        Ok(other) => {
            let is_same = other.as_slice() == [1, 2].as_slice();
            drop(other);
            is_same
        }
        Err(_) => false,
    }
}

// Whether a list of 1 and 2 is cloned and taken apart.
fn is_list(alloc: Global) -> bool {
    match vec![in alloc; 1u8, 2] {
        Ok(numbers) => {
            let list = List::of(numbers);
            let is_cloned = is_list_cloned(&list);
            let numbers = list.into_vec();
            let are_two = numbers.len() == 2;
            drop(numbers);
            is_cloned && are_two
        }
        Err(_) => false,
    }
}

#[test]
fn lists_and_memory(rt: HostRuntime) {
    assert!(rt; is_list(rt.alloc()));
    let memory: Memory = std::alloc::AllocError.into();
    assert!(rt; memory == Memory);
}
