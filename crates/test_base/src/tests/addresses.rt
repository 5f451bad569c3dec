//! Texts of addresses, prefixes and spans, read and printed. The numbers are put together by hand
//! from the digits of the texts; what is printed has the form of RFC 5952, which has one of them.
use geo_addr::{
    Addr, AddrFault, Block, BlockFault, Memory, Range, Text, addr_text, block_text, parse_addr,
    parse_block, parse_span, range_of, range_text,
};
use std::mem::drop;

type AddressRow = (&'static [u8], Result<Addr, AddrFault>);

static ADDRESSES: [AddressRow; 32] = [
    (b"0.0.0.0", Ok(Addr(0))),
    (b"192.0.2.1", Ok(Addr(0xC000_0201))),
    (b"255.255.255.255", Ok(Addr(0xFFFF_FFFF))),
    (b"", Err(AddrFault::Form)),
    (b"1.2.3", Err(AddrFault::Form)),
    (b"1.2.3.4.5", Err(AddrFault::Form)),
    (b"1.2.3.", Err(AddrFault::Form)),
    (b"1.2.3.0004", Err(AddrFault::Form)),
    (b"1.2.3.256x", Err(AddrFault::Form)),
    (b"192.0.2.256", Err(AddrFault::Octet)),
    (b"192.0.02.1", Err(AddrFault::Octet)),
    (b"::", Ok(Addr(0))),
    (b"::1", Ok(Addr(1))),
    (b"1::", Ok(Addr(1 << 112))),
    (b"2001:DB8::", Ok(Addr(0x2001_0DB8 << 96))),
    (
        b"1:2:3:4:5:6:7::",
        Ok(Addr(0x0001_0002_0003_0004_0005_0006_0007_0000)),
    ),
    (
        b"::2:3:4:5:6:7:8",
        Ok(Addr(0x0002_0003_0004_0005_0006_0007_0008)),
    ),
    (
        b"1:2:3:4:5:6:7:8",
        Ok(Addr(0x0001_0002_0003_0004_0005_0006_0007_0008)),
    ),
    (b"::ffff:192.0.2.1", Ok(Addr(0xFFFF_C000_0201))),
    (
        b"1:2:3:4:5:6:7.8.9.10",
        Ok(Addr(0x0001_0002_0003_0004_0005_0006_0708_090A)),
    ),
    (b"1::2::3", Err(AddrFault::Form)),
    (b":::", Err(AddrFault::Form)),
    (b":1", Err(AddrFault::Form)),
    (b"1:", Err(AddrFault::Form)),
    (b"12345::", Err(AddrFault::Form)),
    (b"1.2.3.4::", Err(AddrFault::Form)),
    (b"fe80::1%eth0", Err(AddrFault::Form)),
    (b"::1.2.3.256", Err(AddrFault::Octet)),
    (b"1:2:3:4:5:6:7:8:1.2.3.04", Err(AddrFault::Octet)),
    (b"1:2:3:4:5:6:7:8:9", Err(AddrFault::Groups)),
    (b"1:2:3:4:5:6:7", Err(AddrFault::Groups)),
    (b"1:2:3:4::5:6:7:8", Err(AddrFault::Groups)),
];

fn addresses() -> &'static [AddressRow] {
    &ADDRESSES
}

fn reads_address(row: &AddressRow) -> bool {
    parse_addr(row.0) == row.1
}

#[test]
fn address_texts(rt: HostRuntime) {
    for (at, row) in addresses().iter().enumerate() {
        assert!(rt; reads_address(row), "row {at}");
    }
}

fn parts_of_block(text: &[u8]) -> Result<(u128, u8), BlockFault> {
    parse_block(text).map(|block| (block.first, block.len))
}

type PrefixRow = (&'static [u8], Result<(u128, u8), BlockFault>);

static PREFIXES: [PrefixRow; 18] = [
    (b"192.0.2.0/24", Ok((0xC000_0200, 120))),
    (b"192.0.2.0/024", Ok((0xC000_0200, 120))),
    (b"192.0.2.1", Ok((0xC000_0201, 128))),
    (b"0.0.0.0/0", Ok((0, 96))),
    (b"::/0", Ok((0, 0))),
    (b"2001:db8:0:0::/32", Ok((0x2001_0DB8 << 96, 32))),
    (b"::1:0:0/128", Ok((1 << 32, 128))),
    (b"/24", Err(BlockFault::Address)),
    (b"192.0.2.256/24", Err(BlockFault::Address)),
    (b"192.0.2.1/", Err(BlockFault::Length)),
    (b"192.0.2.1/33", Err(BlockFault::Length)),
    (b"192.0.2.0/0024", Err(BlockFault::Length)),
    (b"192.0.2.0/24/8", Err(BlockFault::Length)),
    (b"2001:db8::/129", Err(BlockFault::Length)),
    (b"192.0.2.1/24", Err(BlockFault::HostBits)),
    (b"::1.2.3.4/120", Err(BlockFault::HostBits)),
    (b"::1.2.3.0/120", Err(BlockFault::InV4Space)),
    (b"::1", Err(BlockFault::InV4Space)),
];

fn prefixes() -> &'static [PrefixRow] {
    &PREFIXES
}

fn reads_prefix(row: &PrefixRow) -> bool {
    parts_of_block(row.0) == row.1
}

#[test]
fn prefix_texts(rt: HostRuntime) {
    for (at, row) in prefixes().iter().enumerate() {
        assert!(rt; reads_prefix(row), "row {at}");
    }
}

fn ends_of_span(text: &[u8]) -> Result<(u128, u128), BlockFault> {
    parse_span(text).map(|range| (range.first, range.last))
}

type SpanRow = (&'static [u8], Result<(u128, u128), BlockFault>);

static SPANS: [SpanRow; 13] = [
    (b"192.0.2.0 - 192.0.2.255", Ok((0xC000_0200, 0xC000_02FF))),
    (b"192.0.2.0\t-192.0.2.255", Ok((0xC000_0200, 0xC000_02FF))),
    (b"192.0.2.0/24", Ok((0xC000_0200, 0xC000_02FF))),
    (b"::5 - ::1:0:0", Ok((5, 1 << 32))),
    (
        b"::-ffff:ffff:ffff:ffff:ffff:ffff:ffff:ffff",
        Ok((0, u128::MAX)),
    ),
    (b" 192.0.2.0 - 192.0.2.255", Err(BlockFault::Address)),
    (
        b"192.0.2.0 - 192.0.2.1 - 192.0.2.2",
        Err(BlockFault::Address),
    ),
    (b"192.0.2.0 - ::1:0:0", Err(BlockFault::Address)),
    (b"192.0.2.0/24 - 192.0.2.255", Err(BlockFault::Address)),
    (b"192.0.2.9 - 192.0.2.1", Err(BlockFault::Reversed)),
    (b"::5 - ::1", Err(BlockFault::Reversed)),
    (b"::1 - ::5", Err(BlockFault::InV4Space)),
    (b"192.0.2.1/24", Err(BlockFault::HostBits)),
];

fn spans() -> &'static [SpanRow] {
    &SPANS
}

fn reads_span(row: &SpanRow) -> bool {
    ends_of_span(row.0) == row.1
}

#[test]
fn span_texts(rt: HostRuntime) {
    for (at, row) in spans().iter().enumerate() {
        assert!(rt; reads_span(row), "row {at}");
    }
}

type PrintedRow = (u128, &'static str);

static PRINTED: [PrintedRow; 8] = [
    (0, "0.0.0.0"),
    (0xC000_0201, "192.0.2.1"),
    (1 << 32, "::1:0:0"),
    (1 << 112, "1::"),
    (0xFFFF_C000_0201, "::ffff:c000:201"),
    (0x0001_0000_0000_0002_0000_0000_0003_0004, "1::2:0:0:3:4"),
    // the RFC's example of a single group of zeros, which is not left out
    (
        0x2001_0DB8_0000_0001_0001_0001_0001_0001,
        "2001:db8:0:1:1:1:1:1",
    ),
    (u128::MAX, "ffff:ffff:ffff:ffff:ffff:ffff:ffff:ffff"),
];

fn printed() -> &'static [PrintedRow] {
    &PRINTED
}

// Whether a text, which goes, was made and is this one.
fn is_text(made: Result<Text, Memory>, wanted: &str) -> bool {
    match made {
        Ok(text) => {
            let is_wanted = text.as_str() == wanted;
            drop(text);
            is_wanted
        }
        Err(_) => false,
    }
}

#[test]
fn printed_addresses(rt: HostRuntime) {
    for (at, (number, wanted)) in printed().iter().enumerate() {
        let made = addr_text(rt.alloc(), Addr(*number));
        assert!(rt; is_text(made, wanted), "row {at}");
    }
}

const V4: Block = Block { first: 0, len: 96 };

#[test]
fn printed_blocks(rt: HostRuntime) {
    let all = Block { first: 0, len: 0 };
    assert!(rt; is_text(block_text(rt.alloc(), all), "::/0"));
    assert!(rt; is_text(block_text(rt.alloc(), V4), "0.0.0.0/0"));
}

#[test]
fn printed_ranges(rt: HostRuntime) {
    let mixed = Range {
        first: 5,
        last: 1 << 32,
    };
    assert!(rt; is_text(range_text(rt.alloc(), mixed), "::5-::1:0:0"));
    assert!(rt;
        is_text(
            range_text(rt.alloc(), range_of(V4)),
            "0.0.0.0-255.255.255.255"
        )
    );
}
