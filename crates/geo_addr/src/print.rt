//! Texts of addresses, blocks and ranges, written.
ghost use Rattle.std.specs.Prelude.{◌≡◌, ◌/◌, ◌%◌, ◌^◌, ◌<◌, Ok, IfOk, Some};
ghost use Rattle.std.specs.Net.Addr.{ipv4_octets, ipv6_segments};
ghost use Rattle.geo_addr.specs.AddressTexts.{address_in};
ghost use Rattle.geo_addr.specs.Prefixes.{block_in};
ghost use Rattle.geo_addr.specs.Printing.{address_text, block_text, eight_groups, four_octets};
ghost use Rattle.geo_addr.specs.Printing.{number_text, printed_length, range_text};
ghost use Rattle.geo_addr.specs.Spans.{span_in};

use crate::addr::Addr;
use crate::block::Block;
use crate::memory::Memory;
use crate::range::{Range, range_of};
use crate::text::Text;
use std::alloc::Global;
use std::fmt;
use std::net::{Ipv4Addr, Ipv6Addr};

/// An address in the form of a family.
#[derive(Clone, Copy)]
struct Shown {
    six: bool,
    number: u128,
}

impl fmt::Display for Shown {
    ghost output = { λ s. Some (number_text s.six s.number) };

    fn fmt<W: fmt::Write>(&self, f: &mut fmt::Formatter<W>) -> fmt::Result {
        if self.six {
            write!(f, "{}", six_address(self.number).hex_groups())
        } else {
            write!(f, "{}", four_address(self.number))
        }
    }
}

/// The text of an address: IPv4 in four decimal numbers, IPv6 as RFC 5952 says.
///
/// IPv6 is printed in hexadecimal groups alone, also where an IPv4 address is mapped into it.
pub fn addr_text(alloc: Global, at: Addr) -> Result<Text, Memory>
    ensures text { IfOk result (λ t. t ≡ address_text at.0) }
    ensures reads_back { IfOk result (λ t. address_in t ≡ Ok at) }
{
    let shown = Shown {
        six: at.0 >= 1 << 32,
        number: at.0,
    };
    Text::from_string(format!(in alloc; "{shown}")?)
}

/// The text of a block: `FIRST/LENGTH`, in the form and in the bits of its family.
pub fn block_text(alloc: Global, block: Block) -> Result<Text, Memory>
    ensures text { IfOk result (λ t. t ≡ block_text block) }
    ensures reads_back { IfOk result (λ t. block_in t ≡ Ok block) }
{
    let first = Shown {
        six: !range_of(block).is_v4(),
        number: block.first,
    };
    let length = printed_length(block);
    Text::from_string(format!(in alloc; "{first}/{length}")?)
}

/// The length of a block in bits of its family.
#[tactic(auto, unfolding(crate::specs::Printing::printed_length))]
fn printed_length(block: Block) -> u8
    ensures { result ≡ printed_length block }
{
    if range_of(block).is_v4() {
        block.len - 96
    } else {
        block.len
    }
}

/// The text of a range: `FIRST-LAST`, both in the form of its family.
pub fn range_text(alloc: Global, range: Range) -> Result<Text, Memory>
    ensures text { IfOk result (λ t. t ≡ range_text range) }
    ensures reads_back { IfOk result (λ t. span_in t ≡ Ok range) }
{
    let six = !range.is_v4();
    let first = Shown {
        six,
        number: range.first,
    };
    let last = Shown {
        six,
        number: range.last,
    };
    Text::from_string(format!(in alloc; "{first}-{last}")?)
}

/// The IPv4 address with this number, of which the lowest 32 bits count.
#[tactic(auto, unfolding(crate::specs::Printing::four_octets))]
fn four_address(number: u128) -> Ipv4Addr
    ensures { ipv4_octets result ≡ four_octets number }
{
    Ipv4Addr::new(
        octet(number >> 24),
        octet(number >> 16),
        octet(number >> 8),
        octet(number),
    )
}

/// The lowest octet of a number.
fn octet(number: u128) -> u8
    ensures { result ≡ number % 256 }
{
    (number % 256) as u8
}

/// The IPv6 address with this number.
#[tactic(auto, unfolding(crate::specs::Printing::eight_groups))]
fn six_address(number: u128) -> Ipv6Addr
    ensures { ipv6_segments result ≡ eight_groups number }
{
    let seventh = number / 65536;
    let sixth = seventh / 65536;
    let fifth = sixth / 65536;
    let fourth = fifth / 65536;
    let third = fourth / 65536;
    let second = third / 65536;
    let first = second / 65536;
    Ipv6Addr::new(
        group(first),
        group(second),
        group(third),
        group(fourth),
        group(fifth),
        group(sixth),
        group(seventh),
        group(number),
    )
}

/// The lowest group of a number.
fn group(number: u128) -> u16
    ensures { result ≡ number % 65536 }
{
    (number % 65536) as u16
}
