//! The cut points of a list of ranges in the whole address space.
ghost use Rattle.std.specs.Prelude.{◌≡◌, IfOk};
ghost use Rattle.source_changes.specs.CutPoints.{AreCutsOf, whole};

use geo_addr::{Memory, Range};
use split_core::cuts;
use std::alloc::Global;

/// The cut points of these ranges.
pub fn cut_points(alloc: Global, ranges: &[Range]) -> Result<Vec<u128>, Memory>
    ensures { IfOk result (λ points. AreCutsOf ranges.now points.items) }
{
    let points = cuts(alloc, ranges, whole())?;
    Ok(points)
}

/// The whole address space.
pub fn whole() -> Range
    ensures { result ≡ whole }
{
    Range {
        first: 0,
        last: u128::MAX,
    }
}
