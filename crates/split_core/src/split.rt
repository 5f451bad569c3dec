//! A range as the fewest blocks.
ghost use Rattle.std.specs.Prelude.{◌≡◌, ◌+◌};
ghost use Rattle.split_core.specs.Least.{AreLeastFor};
ghost use Rattle.split_core.specs.Walk.{blocks_of};

use crate::walk::Blocks;
use geo_addr::Range;

/// The fewest blocks that make the range, ascending. It takes no memory.
pub fn blocks(range: Range) -> Blocks
    ensures least { AreLeastFor range result }
    ensures walk { result ≡ blocks_of range.first (range.last + 1) }
{
    Blocks::of(range.first, range.last)
}
