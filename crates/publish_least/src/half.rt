//! The halves of a block.
ghost use Rattle.std.specs.Prelude.{◌≡◌, ◌<◌};
ghost use Rattle.publish_least.specs.Choice.{lower_half, upper_half};

use geo_addr::Block;

/// The lower and the upper half of a block of two addresses or more.
pub(crate) fn halves(block: Block) -> (Block, Block)
    requires { block.len < 128 }
    ensures lower { result.0 ≡ lower_half block }
    ensures upper { result.1 ≡ upper_half block }
{
    let Block { first, len } = block;
    let middle = first + (1u128 << (127 - len));
    let len = len + 1;
    (Block { first, len }, Block { first: middle, len })
}
