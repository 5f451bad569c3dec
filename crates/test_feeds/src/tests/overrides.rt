//! Files of overrides: rows and notes, told from the lines by hand.
use crate::tests::shown::{push_line, push_notes};
use geo_addr::{Addr, Range, range_text};
use geo_terms::{Override, Overrides};
use override_rows::read_overrides;
use std::alloc::Global;
use std::test::Fail;

fn push_row(alloc: Global, text: &mut Vec<u8>, row: &Override) -> Result<(), Fail> {
    let range = range_text(alloc, row.range)?;
    push_line(text, row.line, range.as_str(), &row.said, b"void")
}

fn push_rows(alloc: Global, text: &mut Vec<u8>, rows: &[Override]) -> Result<(), Fail> {
    for row in rows {
        push_row(alloc, text, row)?;
    }
    Ok(())
}

// The line, the range and the texts of each row, and the notes.
fn push_overrides(alloc: Global, text: &mut Vec<u8>, said: &Overrides) -> Result<(), Fail> {
    push_rows(alloc, text, said.rows.as_slice())?;
    push_notes(text, b"overrides -", said.notes.as_slice())
}

/// Overrides, by a function that promises nothing.
pub fn read(alloc: Global, file: &[u8]) -> Result<Overrides, Fail> {
    Ok(read_overrides(alloc, file)?)
}

// A file, and what it says.
type Row = (&'static [u8], &'static [u8]);

static ROWS: [Row; 20] = [
    (
        b"192.0.2.10-192.0.2.19,set,AT,,Wien,\n203.0.113.0/24,void\n",
        b"1 192.0.2.10-192.0.2.19 AT,,Wien,\n2 203.0.113.0-203.0.113.255 void\n",
    ),
    (
        b"0.0.0.0/0,set,FR\n::/0,set,FR",
        b"1 0.0.0.0-255.255.255.255 FR,,,\n2 ::-ffff:ffff:ffff:ffff:ffff:ffff:ffff:ffff FR,,,\n",
    ),
    (
        b"\xEF\xBB\xBF# all\r\n10.0.0.0/8, void ,DEU\r\n",
        b"2 10.0.0.0-10.255.255.255 void\n",
    ),
    (b"10.0.0.0/8,void,\"x", b"overrides - 1 O02\n"),
    (b"10.0.0.0/8,void,\xFF", b"overrides - 1 O01\n"),
    (b",void", b"overrides - 1 O03\n"),
    (b"10.0.0.1/8,set", b"overrides - 1 O03\n"),
    (b"::1-0.0.0.5,void", b"overrides - 1 O03\n"),
    (b"::1-::5,void", b"overrides - 1 O03\n"),
    (b"10.0.0.9-10.0.0.1,void", b"overrides - 1 O03\n"),
    (b"::5-::1:0:0,void", b"1 ::5-::1:0:0 void\n"),
    (b"10.0.0.0/8,SET,DE", b"overrides - 1 O04\n"),
    (b"10.0.0.0/8", b"overrides - 1 O04\n"),
    (b"10.0.0.0/8,set,DEU", b"overrides - 1 O05\n"),
    (b"10.0.0.0/8,set,,DE_BY", b"overrides - 1 O05\n"),
    (b"10.0.0.0/8,set", b"overrides - 1 O06\n"),
    (b"10.0.0.0/8,set,zz,,x", b"overrides - 1 O06\n"),
    (
        b"10.0.0.0/8,set,de,,a,1,x\n10.0.0.0-10.255.255.255,set,DE,,a,1",
        b"1 10.0.0.0-10.255.255.255 DE,,a,1\noverrides - 2 O07\n",
    ),
    (
        b"10.0.0.1,set,DE\n10.0.0.0/8,void\n10.0.0.1/32,void\n10.0.0.1,set,DE",
        b"2 10.0.0.0-10.255.255.255 void\n\
overrides - 1 O08\noverrides - 3 O08\noverrides - 4 O08\n",
    ),
    (
        b"\n \n#\n\xEF\xBB\xBF10.0.0.0/8,void",
        b"overrides - 4 O03\n",
    ),
];

fn rows() -> &'static [Row] {
    &ROWS
}

fn says(alloc: Global, row: &Row) -> Result<bool, Fail> {
    let overrides = read(alloc, row.0)?;
    let mut text = Vec::new(alloc);
    push_overrides(alloc, &mut text, &overrides)?;
    Ok(text.as_slice() == row.1)
}

#[test]
fn rows_and_notes(rt: HostRuntime) -> Result<(), Fail> {
    for (at, row) in rows().iter().enumerate() {
        assert!(rt; says(rt.alloc(), row)?, "row {at}");
    }
    Ok(())
}

fn only_range(alloc: Global, file: &[u8]) -> Result<Range, Fail> {
    let overrides = read(alloc, file)?;
    match overrides.rows.as_slice() {
        [row] => Ok(row.range),
        _ => Err(Fail::from("not one row")),
    }
}

#[test]
fn a_span_speaks_on_its_ground(rt: HostRuntime) -> Result<(), Fail> {
    let range = only_range(rt.alloc(), b"::5-::1:0:0,void")?;
    assert!(rt; range.ground_first() == 1 << 32);
    assert!(rt; !range.holds(Addr(5)));
    Ok(())
}
