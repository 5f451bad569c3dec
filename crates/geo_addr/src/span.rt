//! Span texts, read: two addresses with a hyphen, or a prefix.
ghost use Rattle.std.specs.Prelude.{◌≡◌};
ghost use Rattle.geo_addr.specs.Spans.{ordered_range, range_between, span_in};

use crate::address::read_number;
use crate::fault::BlockFault;
use crate::line::{cut_at, trim_end, trim_start};
use crate::prefix::parse_block;
use crate::range::{Range, range_of};

/// The range that a span text spells: its first and its last address with a hyphen between them, or
/// a prefix text.
///
/// Blanks beside the hyphen do not count. The faults of two addresses are tried in the order
/// `Address`, `Reversed`, `InV4Space`; a prefix text has those of `parse_block`.
pub fn parse_span(text: &[u8]) -> Result<Range, BlockFault>
    ensures { result ≡ span_in text.now }
{
    let (left, after) = cut_at(text, b'-');
    match after {
        None => match parse_block(text) {
            Ok(block) => Ok(range_of(block)),
            Err(fault) => Err(fault),
        },
        Some(right) => range_between(trim_end(left), trim_start(right)),
    }
}

/// The range between the addresses that two texts spell.
fn range_between(left: &[u8], right: &[u8]) -> Result<Range, BlockFault>
    ensures { result ≡ range_between left.now right.now }
{
    let (six, Ok(first)) = read_number(left) else {
        return Err(BlockFault::Address);
    };
    let (other, Ok(last)) = read_number(right) else {
        return Err(BlockFault::Address);
    };
    if six != other {
        return Err(BlockFault::Address);
    }
    ordered_range(six, first, last)
}

/// The range between two addresses of a family.
#[tactic(auto, unfolding(crate::specs::Spans::ordered_range))]
fn ordered_range(six: bool, first: u128, last: u128) -> Result<Range, BlockFault>
    ensures { result ≡ ordered_range six first last }
{
    if last < first {
        return Err(BlockFault::Reversed);
    }
    if six && last < 1 << 32 {
        return Err(BlockFault::InV4Space);
    }
    Ok(Range { first, last })
}
