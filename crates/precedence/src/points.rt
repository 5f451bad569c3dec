//! The cut points of feeds, and gathered cut points in order.
ghost use Rattle.std.specs.Prelude.{◌<◌, ◌++◌, ◌∷◌, [], List, All, find, length, map, flat_map};
ghost use Rattle.std.specs.Prelude.{IfOk, OnOk};
ghost use Rattle.std.specs.List.{AllAdjacentBelow};
ghost use Rattle.std.specs.List.Sorted.{IsStrictlyIncreasing};
ghost use Rattle.geo_addr.specs.Ranges.{Ends, IsRange, range_of_block};
ghost use Rattle.authority.specs.Held.{url_of};
ghost use Rattle.geo_terms.specs.PlaceForm.{same_text};
ghost use Rattle.geo_terms.specs.SlotOrder.{AreInOrder};
ghost use Rattle.geo_terms.specs.Sources.{entries_in};
ghost use Rattle.cut_segments.specs.CutPoints.{AreCutsInside};
ghost use Rattle.precedence.specs.Runs.{points_of};

use crate::runs::push_run;
use authority::ReadyFeed;
use cut_segments::push_inside;
use geo_addr::{Memory, Range};
use source_changes::shelf;

/// Appends the cut points of the entries of these feeds that lie inside one of ascending ranges.
pub fn push_feeds_inside(
    cuts: &mut Vec<u128>,
    feeds: &[ReadyFeed],
    bounds: &[Range],
) -> Result<(), Memory>
    requires ranges { All IsRange bounds.now }
    requires apart { AllAdjacentBelow (λ r t. r.last < t.first) bounds.now (length bounds.now) }
    ensures { OnOk result ((before : List Ends) → AreCutsInside before bounds.now cuts.old.items
        → AreCutsInside (before ++ map (λ e. range_of_block e.block)
        (flat_map (λ f. f.entries) feeds.now)) bounds.now cuts.new.items) }
{
    for feed in feeds {
        push_inside(cuts, feed.cuts(), bounds)?;
    }
    Ok(())
}

/// Adds the cut points of the entries of these feeds that lie inside a range, a run for each feed.
pub fn push_feed_runs<'a>(
    runs: &mut Vec<&'a [u128]>,
    feeds: &'a [ReadyFeed],
    range: Range,
) -> Result<(), Memory>
    ensures { OnOk result ((before : List Ends)
        → AreCutsInside before (range ∷ []) (points_of runs.old.items)
        → AreCutsInside (before ++ map (λ e. range_of_block e.block)
        (flat_map (λ f. f.entries) feeds.now)) (range ∷ []) (points_of runs.new.items)) }
{
    for feed in feeds {
        push_run(runs, feed.cuts(), range)?;
    }
    Ok(())
}

/// Appends the cut points of the entries of the feed of a URL that lie inside one of ascending
/// ranges.
pub fn push_feed_inside(
    cuts: &mut Vec<u128>,
    feeds: &[ReadyFeed],
    url: &str,
    bounds: &[Range],
) -> Result<(), Memory>
    requires order { AreInOrder url_of feeds.now }
    requires ranges { All IsRange bounds.now }
    requires apart { AllAdjacentBelow (λ r t. r.last < t.first) bounds.now (length bounds.now) }
    ensures { OnOk result ((before : List Ends) → AreCutsInside before bounds.now cuts.old.items
        → AreCutsInside (before ++ map (λ e. range_of_block e.block)
        (entries_in (find (λ f. same_text f.url url.now) feeds.now)))
        bounds.now cuts.new.items) }
{
    if let Some(feed) = shelf::get(feeds, url) {
        push_inside(cuts, feed.cuts(), bounds)?;
    }
    Ok(())
}

/// These points ascending, each once.
pub fn in_order(points: Vec<u128>) -> Result<Vec<u128>, Memory>
    ensures same { IfOk result (λ sorted. (ranges bounds : List Ends)
        → AreCutsInside ranges bounds points.items → AreCutsInside ranges bounds sorted.items) }
    ensures ascending { IfOk result (λ sorted. IsStrictlyIncreasing sorted.items) }
{
    let mut points = points;
    // A merge: each list that was appended ascends.
    points.sort()?;
    points.dedup();
    Ok(points)
}
