//! Which blocks have a feed.
ghost use Rattle.std.specs.Prelude.{◌≡◌, IsTrue};
ghost use Rattle.geo_addr.specs.Ranges.{IsBlock};
ghost use Rattle.job_lines.specs.Commands.{is_plain};
ghost use Rattle.publish_least.specs.Lines.{IsPlain};

use geo_addr::Block;

/// Whether a block is of IPv4, or begins at 2^32 or above: no block of IPv6 that the IPv4 addresses
/// are in is so.
pub fn is_plain(block: Block) -> bool
    ensures same { result ≡ is_plain block }
    ensures plain { IsTrue result → IsPlain block }
    ensures aligned { IsBlock block }
{
    let Block { first, len } = block;
    len >= 96 || first >= 1 << 32
}
