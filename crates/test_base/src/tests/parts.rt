//! Parts of files, and their lines, counted by hand.
use line_parts::{LinePart, parts_of};
use std::alloc::Global;
use std::mem::drop;

/// A file, how many bytes a part has, and the numbers and the bytes of the lines of each part.
type Row = (&'static [u8], usize, &'static [&'static [(u64, usize)]]);

static ROWS: [Row; 7] = [
    (b"", 3, &[]),
    (b"a\nbb\n", 9, &[&[(1, 1), (2, 2)]]),
    (b"a\nbb\r\nccc", 0, &[&[(1, 1)], &[(2, 2)], &[(3, 3)]]),
    (
        b"a\nbb\nccc\n\ndddd",
        2,
        &[&[(1, 1), (2, 2)], &[(3, 3)], &[(4, 0), (5, 4)]],
    ),
    (b"\xEF\xBB\xBFa\nbb", 1, &[&[(1, 1)], &[(2, 2)]]),
    (b"a\n\xEF\xBB\xBFb\ncc", 1, &[&[(1, 1), (2, 4), (3, 2)]]),
    (b"aaaa", 2, &[&[(1, 4)]]),
];

fn rows() -> &'static [Row] {
    &ROWS
}

fn has_lines(part: &LinePart<'_>, wanted: &[(u64, usize)]) -> bool {
    let mut given = 0;
    for line in part.lines() {
        if given >= wanted.len() || (line.number, line.text.len()) != wanted[given] {
            return false;
        }
        given += 1;
    }
    given == wanted.len()
}

fn have_lines(parts: &[LinePart<'_>], wanted: &[&[(u64, usize)]]) -> bool {
    for (part, lines) in parts.iter().zip(wanted) {
        if !has_lines(part, lines) {
            return false;
        }
    }
    parts.len() == wanted.len()
}

fn is_cut(alloc: Global, row: &Row) -> bool {
    match parts_of(alloc, row.0, row.1) {
        Ok(parts) => {
            let is_cut = have_lines(parts.as_slice(), row.2);
            drop(parts);
            is_cut
        }
        Err(_) => false,
    }
}

#[test]
fn cut_at_line_feeds(rt: HostRuntime) {
    for (at, row) in rows().iter().enumerate() {
        assert!(rt; is_cut(rt.alloc(), row), "row {at}");
    }
    assert!(rt; has_lines(&LinePart::whole(b"a\nb"), &[(1, 1), (2, 1)]));
}
