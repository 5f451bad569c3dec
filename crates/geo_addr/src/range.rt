//! Ranges of addresses, and the ground that they stand on.
ghost use Rattle.std.specs.Prelude.{◌≡◌};
ghost use Rattle.geo_addr.specs.Ranges.{ground_first, holds, is_v4, range_of_block, size};

use crate::addr::Addr;
use crate::block::{Block, span_of};
use std::marker::Model;

/// A range of addresses, given by its two ends; both are in it.
///
/// A literal owes that the first end is not above the last one.
#[derive(Clone, Copy, Debug, PartialEq, Eq, PartialOrd, Ord, Hash)]
pub struct Range {
    pub first: u128,
    pub last: u128,
}

impl Model for Range {
    ghost use Rattle.geo_addr.specs.Ranges.{Ends, IsRange};

    ghost Value = { Ends };

    ghost view = { λ r. record { first = r.first; last = r.last } };

    ghost invariant = { λ r. IsRange (record { first = r.first; last = r.last }) };

    ghost inverse = { λ e. record { first = e.first; last = e.last } };
}

impl Range {
    /// Whether the range is IPv4: its last address is below 2^32.
    pub fn is_v4(&self) -> bool
        ensures { result ≡ is_v4 self.now }
    {
        self.last < 1 << 32
    }

    /// How far apart the ends are: one less than the number of addresses.
    pub fn size(&self) -> u128
        ensures { result ≡ size self.now }
    {
        self.last - self.first
    }

    /// The first address on which a statement about this range speaks.
    ///
    /// The last such address is the range's own last one.
    #[tactic(auto, unfolding(crate::specs::Ranges::ground_first))]
    pub fn ground_first(&self) -> u128
        ensures { result ≡ ground_first self.now }
    {
        if self.is_v4() {
            self.first
        } else {
            self.first.max(1 << 32)
        }
    }

    /// Whether a statement about this range speaks on the address.
    #[tactic(auto, unfolding(crate::specs::Ranges::holds))]
    pub fn holds(&self, at: Addr) -> bool
        ensures { result ≡ holds self.now at.0 }
    {
        self.ground_first() <= at.0 && at.0 <= self.last
    }
}

/// The addresses of a block.
#[tactic(auto, using(crate::proofs::Blocks::block_ends_within))]
pub fn range_of(block: Block) -> Range
    ensures { result ≡ range_of_block block }
{
    let Block { first, len } = block;
    Range {
        first,
        last: first + span_of(len),
    }
}
