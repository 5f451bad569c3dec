//! Rests of lines, their contents, and which are handed to the `csv` reader, told by hand.
use csv_lines::{Content, all_handed, content_of, rest_of};
use std::alloc::Global;
use std::test::Fail;

type RestRow = (&'static [u8], &'static [u8], Content);

static RESTS: [RestRow; 12] = [
    (b"", b"", Content::Blank),
    (b" \t# a,b", b"", Content::Blank),
    (b" a , b # c", b"a , b", Content::Fields),
    (b"\"a#b\"", b"\"a", Content::NoFields),
    (b"\"", b"\"", Content::NoFields),
    (b"\"\"", b"\"\"", Content::Fields),
    (b"\"a\"b", b"\"a\"b", Content::NoFields),
    (b"a\"b", b"a\"b", Content::NoFields),
    (b"a\rb", b"a\rb", Content::NoFields),
    (b"\"a\"\"b\",", b"\"a\"\"b\",", Content::Fields),
    (b"\xFF\"", b"\xFF\"", Content::NotText),
    (b"\xFF#\xC3", b"\xFF", Content::NotText),
];

fn rests() -> &'static [RestRow] {
    &RESTS
}

fn has_rest(row: &RestRow) -> bool {
    rest_of(row.0) == row.1
}

fn has_content(row: &RestRow) -> bool {
    content_of(row.1) == row.2
}

#[test]
fn rests_and_contents(rt: HostRuntime) {
    for (at, row) in rests().iter().enumerate() {
        assert!(rt; has_rest(row) && has_content(row), "row {at}");
    }
}

// A file, and what of it is handed over.
type HandedRow = (&'static [u8], &'static [u8]);

static HANDED: [HandedRow; 2] = [
    (
        b"\xEF\xBB\xBF\"a\",b\r\n#\n\xEF\xBB\xBF\"c\"\"\", d \n \"c\"\"\", d \nx\"\n,\n\"\xFF\"\n",
        b"\n\"a\",b\n\"c\"\"\", d\n",
    ),
    (b"a,b\nc\n", b"\n"),
];

fn handed() -> &'static [HandedRow] {
    &HANDED
}

fn hands(alloc: Global, row: &HandedRow) -> Result<bool, Fail> {
    Ok(all_handed(alloc, row.0)?.as_slice() == row.1)
}

#[test]
fn rests_with_quotes_are_handed_over(rt: HostRuntime) -> Result<(), Fail> {
    for row in handed() {
        assert!(rt; hands(rt.alloc(), row)?);
    }
    Ok(())
}
