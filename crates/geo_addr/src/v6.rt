//! IPv6 texts, read.
ghost use Rattle.std.specs.Prelude.{◌≡◌, ◌+◌, ◌-◌, ◌*◌, ◌^◌, ◌≤◌, length, IfSome};
ghost use Rattle.geo_addr.specs.Ipv6Texts.{double_at, elided_address, ipv6_in, whole_address};
ghost use Rattle.geo_addr.specs.Sides.{IsSmall};

use crate::fault::AddrFault;
use crate::side::{Side, read_side};

/// How many groups may stand beside `::`, which stands for one at least.
const MOST_BESIDE_DOUBLE: u32 = 7;

/// The offset of the first `::`.
fn double_at(text: &[u8]) -> Option<usize>
    ensures offset { result ≡ double_at text.now }
    ensures within { IfSome result (λ at. at + 2 ≤ length text.now) }
{
    for at in 0..text.len() {
        if text[at..].starts_with(b"::") {
            return Some(at);
        }
    }
    None
}

/// The address that a text with a colon spells.
pub(crate) fn read_v6(text: &[u8]) -> Result<u128, AddrFault>
    ensures { result ≡ ipv6_in text.now }
{
    match double_at(text) {
        None => read_whole(text),
        Some(at) => read_elided(&text[..at], &text[at + 2..]),
    }
}

/// The address that eight groups spell.
fn read_whole(text: &[u8]) -> Result<u128, AddrFault>
    ensures { result ≡ whole_address text.now }
{
    match read_side(text, true) {
        Ok(side) => {
            if side.groups == 8 {
                Ok(side.number)
            } else {
                Err(AddrFault::Groups)
            }
        }
        Err(fault) => Err(fault),
    }
}

/// The address that the groups on the two sides of `::` spell.
fn read_elided(left: &[u8], right: &[u8]) -> Result<u128, AddrFault>
    ensures { result ≡ elided_address left.now right.now }
{
    let head = match read_side(left, false) {
        Ok(side) => side,
        Err(fault) => return Err(fault),
    };
    let tail = match read_side(right, true) {
        Ok(side) => side,
        Err(fault) => return Err(fault),
    };
    if head.groups + tail.groups > MOST_BESIDE_DOUBLE {
        return Err(AddrFault::Groups);
    }
    Ok(joined(head, tail))
}

/// The number of the groups of two sides, with as many zeros between them as make eight groups.
fn joined(head: Side, tail: Side) -> u128
    requires room { head.groups + tail.groups ≤ 7 }
    requires small_head { IsSmall head }
    requires small_tail { IsSmall tail }
    ensures { result ≡ head.number * 65536 ^ (8 - head.groups) + tail.number }
{
    if head.groups == 0 {
        tail.number
    } else {
        head.number * 65536u128.pow(8 - head.groups) + tail.number
    }
}
