//! The two blocks of IPv6 addresses that carry an IPv4 address.
ghost use Rattle.std.specs.Prelude.{◌≡◌};
ghost use Rattle.geo_terms.specs.Alias.{home, is_alias, is_mapped, is_six_to_four, lies_in_alias};

use geo_addr::{Addr, Range};

/// The first 96 bits of `::ffff:0:0/96`, as a number.
pub const MAPPED_HEAD: u128 = 0xffff;

/// The first 16 bits of `2002::/16`, as a number.
pub const SIX_TO_FOUR_HEAD: u128 = 0x2002;

/// The IPv4 address that an address of `::ffff:0:0/96` (RFC 4291, section 2.5.5.2) or of
/// `2002::/16` (RFC 3056, section 2) carries; every other address is its own home.
#[tactic(auto, unfolding(crate::specs::Alias::home))]
pub fn home(at: Addr) -> Addr
    ensures { result.0 ≡ home at.0 }
{
    if is_six_to_four(at.0) {
        return Addr((at.0 >> 80) % (1 << 32));
    }
    if is_mapped(at.0) {
        return Addr(at.0 % (1 << 32));
    }
    at
}

/// Whether an address lies in one of the two blocks that carry IPv4 addresses.
#[tactic(auto, unfolding(crate::specs::Alias::is_alias))]
pub fn is_alias(at: Addr) -> bool
    ensures { result ≡ is_alias at.0 }
{
    is_six_to_four(at.0) || is_mapped(at.0)
}

/// Whether all that a statement about this range could speak on lies within one of the two blocks.
#[tactic(auto, unfolding(crate::specs::Alias::lies_in_alias))]
pub fn lies_in_alias(range: Range) -> bool
    ensures { result ≡ lies_in_alias range }
{
    let first = range.ground_first();
    let six_to_four = is_six_to_four(first) && is_six_to_four(range.last);
    let mapped = is_mapped(first) && is_mapped(range.last);
    six_to_four || mapped
}

fn is_mapped(at: u128) -> bool
    ensures { result ≡ is_mapped at }
{
    at >> 32 == MAPPED_HEAD
}

fn is_six_to_four(at: u128) -> bool
    ensures { result ≡ is_six_to_four at }
{
    at >> 112 == SIX_TO_FOUR_HEAD
}
