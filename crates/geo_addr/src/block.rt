//! Aligned blocks of addresses.
ghost use Rattle.std.specs.Prelude.{◌≡◌, ◌-◌, ◌%◌, ◌^◌, ◌≤◌, ◌==◌};

use std::marker::Model;

/// An aligned block of 2^(128 - `len`) addresses.
///
/// An IPv4 prefix of length n is a block of length 96 + n. A literal owes that the block is aligned
/// and that its length is at most 128.
#[derive(Clone, Copy, Debug, PartialEq, Eq, PartialOrd, Ord, Hash)]
pub struct Block {
    pub first: u128,
    pub len: u8,
}

impl Model for Block {
    ghost use Rattle.geo_addr.specs.Ranges.{Prefix, IsBlock};

    ghost Value = { Prefix };

    ghost view = { λ b. record { first = b.first; len = b.len } };

    ghost invariant = { λ b. IsBlock (record { first = b.first; len = b.len }) };

    ghost inverse = { λ p. record { first = p.first; len = p.len } };
}

/// How far the last address of a block of this length lies above its first.
pub fn span_of(len: u8) -> u128
    requires { len ≤ 128 }
    ensures { result ≡ 2 ^ (128 - len) - 1 }
{
    if len == 0 {
        u128::MAX
    } else {
        (1u128 << (128 - len)) - 1
    }
}

/// Whether a block of this length may begin at this address: no bit behind the length is set.
pub fn is_aligned(first: u128, len: u8) -> bool
    requires { len ≤ 128 }
    ensures { result ≡ (first % 2 ^ (128 - len) == 0) }
{
    if len == 0 {
        first == 0
    } else {
        first % (1u128 << (128 - len)) == 0
    }
}
