//! Prefix texts, read.
ghost use Rattle.std.specs.Prelude.{◌≡◌, ◌≤◌, ◌^◌, ◌%◌, ◌-◌, ◌==◌};
ghost use Rattle.std.specs.Option.{ForSome};
ghost use Rattle.geo_addr.specs.Prefixes.{address_length, aligned_block, block_in, block_of};
ghost use Rattle.geo_addr.specs.Fronts.{v4_length};
ghost use Rattle.geo_addr.specs.Prefixes.{length_in};

use crate::address::read_either;
use crate::block::{Block, is_aligned};
use crate::digits::short_decimal;
use crate::fault::{AddrFault, BlockFault};
use crate::front::front_address;
use crate::line::cut_near;

/// The block that a prefix text spells: an address, a slash and a length, or an address alone.
///
/// The length counts the bits of the address as it is written, so that `192.0.2.0/24` is a block of
/// length 120, and an address alone has the whole length. The length may have zeros in front, as
/// `/024`. The faults are tried in the order `Address`, `Length`, `HostBits`, `InV4Space`.
pub fn parse_block(text: &[u8]) -> Result<Block, BlockFault>
    ensures { result ≡ block_in text.now }
{
    let Some((number, behind)) = front_address(text) else {
        return block_of_sides(text);
    };
    let Some(length) = v4_length(behind) else {
        return block_of_sides(text);
    };
    if !is_v4_aligned(number, length) {
        return block_of_sides(text);
    }
    Ok(Block {
        first: u128::from(number),
        len: 96 + length,
    })
}

/// The length in bits of an IPv4 address that is said behind it, the whole one where nothing is.
fn v4_length(behind: &[u8]) -> Option<u8>
    ensures value { result ≡ v4_length behind.now }
    ensures fits { ForSome result (λ bits. bits ≤ 32) }
{
    match behind {
        [] => Some(32),
        [b'/', length @ ..] => length_of(false, length),
        _ => None,
    }
}

/// The block of a text that is cut at its first slash: what is not plainly an IPv4 prefix.
fn block_of_sides(text: &[u8]) -> Result<Block, BlockFault>
    ensures { result ≡ block_in text.now }
{
    let (left, after) = cut_near(text, b'/');
    let (six, first) = read_either(left);
    match after {
        None => block_of(six, first, Some(address_length(six))),
        Some(right) => block_of(six, first, length_of(six, right)),
    }
}

/// Whether a block of this length in bits of an IPv4 address may begin at this address.
fn is_v4_aligned(number: u32, length: u8) -> bool
    requires { length ≤ 32 }
    ensures { result ≡ (number % 2 ^ (32 - length) == 0) }
{
    if length == 0 {
        number == 0
    } else {
        number % (1u32 << (32 - length)) == 0
    }
}

/// The block of what was read of an address and of a length in bits of its family.
fn block_of(
    six: bool,
    first: Result<u128, AddrFault>,
    length: Option<u8>,
) -> Result<Block, BlockFault>
    requires { ForSome length (λ bits. bits ≤ address_length six) }
    ensures { result ≡ block_of six first length }
{
    let Ok(first) = first else {
        return Err(BlockFault::Address);
    };
    let Some(length) = length else {
        return Err(BlockFault::Length);
    };
    if six {
        aligned_block(six, first, length)
    } else {
        aligned_block(six, first, 96 + length)
    }
}

/// How many bits an address of a family has.
fn address_length(six: bool) -> u8
    ensures { result ≡ address_length six }
{
    if six { 128 } else { 32 }
}

/// The length behind a slash.
#[tactic(auto, unfolding(crate::specs::Prefixes::length_in))]
fn length_of(six: bool, text: &[u8]) -> Option<u8>
    ensures value { result ≡ length_in six text.now }
    ensures fits { ForSome result (λ bits. bits ≤ address_length six) }
{
    match short_decimal(text) {
        None => None,
        Some(length) => {
            if length <= u32::from(address_length(six)) {
                Some(length as u8)
            } else {
                None
            }
        }
    }
}

/// The block of an address and a length in bits of an IPv6 address.
#[tactic(auto, unfolding(crate::specs::Prefixes::aligned_block))]
fn aligned_block(six: bool, first: u128, len: u8) -> Result<Block, BlockFault>
    requires { len ≤ 128 }
    ensures { result ≡ aligned_block six first len }
{
    if !is_aligned(first, len) {
        return Err(BlockFault::HostBits);
    }
    if six && len >= 96 && first < 1 << 32 {
        return Err(BlockFault::InV4Space);
    }
    Ok(Block { first, len })
}
