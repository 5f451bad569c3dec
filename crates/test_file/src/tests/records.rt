//! Records of nodes and their sizes. The digits of two records are those of seven bytes, and the
//! nodes, 16 and the data section together stay below 2^24, 2^28 and 2^32.
use mmdb_tree::{Bits, get_record, push_node, record_bits};
use std::test::Fail;

#[test]
fn the_middle_byte_is_shared(rt: HostRuntime) -> Result<(), Fail> {
    let mut tree = Vec::new(rt.alloc());
    push_node(&mut tree, Bits::B28, 0xFED_CBA9, 0x876_5432)?;
    push_node(&mut tree, Bits::B28, 0x123_4567, 0x89A_BCDE)?;
    assert!(rt; tree[7..] == [0x23, 0x45, 0x67, 0x18, 0x9A, 0xBC, 0xDE]);
    assert!(rt; get_record(&tree, Bits::B28, 1, false) == 0x123_4567);
    assert!(rt; get_record(&tree, Bits::B28, 1, true) == 0x89A_BCDE);
    Ok(())
}

// How many nodes there are, the bytes of the data section, and the bits of a record.
type Row = (u32, u32, Option<Bits>);

static ROWS: [Row; 6] = [
    (16_777_199, 0, Some(Bits::B24)),
    (16_777_200, 0, Some(Bits::B28)),
    (268_435_439, 0, Some(Bits::B28)),
    (200_000_000, 68_435_440, Some(Bits::B32)),
    (4_294_967_279, 0, Some(Bits::B32)),
    (4_294_967_280, 0, None),
];

fn rows() -> &'static [Row] {
    &ROWS
}

fn has_bits(nodes: u32, section_len: u32, bits: Option<Bits>) -> bool {
    record_bits(u64::from(nodes), u64::from(section_len)) == bits
}

#[test]
fn the_smallest_record_size(rt: HostRuntime) {
    for (at, row) in rows().iter().enumerate() {
        assert!(rt; has_bits(row.0, row.1, row.2), "row {at}");
    }
}
