//! What holds of the definitions alone, which the crates above rest on.
ghost use Rattle.std.specs.Prelude.{◌+◌};
ghost use Rattle.geo_addr.specs.Ranges.{Ends, IsRange};
ghost use Rattle.split_core.specs.Least.{AreLeastFor};
ghost use Rattle.split_core.specs.Walk.{blocks_of};

/// The blocks of a range, each the largest that begins where the one before ends, are the fewest
/// that make it.
pub fn blocks_are_least()
    ensures { (r : Ends) → IsRange r → AreLeastFor r (blocks_of r.first (r.last + 1)) }
{}
