//! Feeds made by a rule, and the lines that it gives by hand.
use generated::gen_feed;
use std::alloc::Global;
use std::mem::drop;

type Row = (u16, bool, &'static [u8]);

static ROWS: [Row; 4] = [
    (1, false, b"10.0.0.0/28,DE,,City 0,\n"),
    (1, true, b"10.0.0.0/28,CH,,City 0,\n"),
    (
        4,
        false,
        b"10.0.0.0/28,DE,,City 0,\n10.0.0.16/28,FR,,City 1,\n\
10.0.0.32/28,IT,,City 2,\n10.0.0.48/28,DE,,City 3,\n",
    ),
    (
        2,
        true,
        b"10.0.0.0/28,CH,,City 0,\n10.0.0.16/28,FR,,City 1,\n",
    ),
];

fn rows() -> &'static [Row] {
    &ROWS
}

fn is_made(alloc: Global, row: &Row) -> bool {
    match gen_feed(alloc, u32::from(row.0), row.1) {
        Ok(bytes) => {
            let is_made = bytes.as_slice() == row.2;
            drop(bytes);
            is_made
        }
        Err(_) => false,
    }
}

#[test]
fn feeds_of_few_lines(rt: HostRuntime) {
    for (at, row) in rows().iter().enumerate() {
        assert!(rt; is_made(rt.alloc(), row), "row {at}");
    }
}
