//! The statements of a source that a call replaces, and the grounds that come to those touched.
ghost use Rattle.std.specs.Prelude.{◌≡◌, ◌++◌, List, length, map, option_map};
ghost use Rattle.std.specs.Prelude.{IfOk, OnErr, OnOk};
ghost use Rattle.std.specs.List.Sorted.{IsPermutation};
ghost use Rattle.std.specs.Arc.{arc_value};
ghost use Rattle.std.specs.Option.{option_copied};
ghost use Rattle.geo_addr.specs.Ranges.{Ends};
ghost use Rattle.geo_terms.specs.Sources.{entries_in, rows_in};
ghost use Rattle.source_changes.specs.Changed.{changed};
ghost use Rattle.source_changes.specs.Changes.{delegations_in, references_in};
ghost use Rattle.source_changes.specs.Touched.{ground_of};

use geo_addr::Memory;
use geo_terms::{Delegation, Dump, Entry, Feed, Override, Overrides, Reference, Stats};
use source_changes::{Compared, GroundList, changed_grounds};
use std::alloc::Global;
use std::sync::Arc;

/// The references of a dump, and none where there is no dump.
pub(crate) fn references_of<'a>(dump: Option<&'a Dump>) -> &'a [Reference]
    ensures { result.now ≡ references_in (option_copied dump.entry) }
{
    match dump {
        Some(dump) => dump.refs.as_slice(),
        None => &[],
    }
}

/// The delegations of a statistics file, and none where there is no file.
pub(crate) fn delegations_of<'a>(stats: Option<&'a Stats>) -> &'a [Delegation]
    ensures { result.now ≡ delegations_in (option_copied stats.entry) }
{
    match stats {
        Some(stats) => stats.rows.as_slice(),
        None => &[],
    }
}

/// The entries of a feed, and none where there is no feed.
pub(crate) fn entries_of<'a>(feed: Option<&'a Feed>) -> &'a [Entry]
    ensures { result.now ≡ entries_in (option_copied feed.entry) }
{
    match feed {
        Some(feed) => feed.entries.as_slice(),
        None => &[],
    }
}

/// The rows of the overrides, and none where there are no overrides.
pub(crate) fn rows_of<'a>(overrides: Option<&'a Arc<Overrides>>) -> &'a [Override]
    ensures { result.now ≡ rows_in (option_map arc_value (option_copied overrides.entry)) }
{
    match overrides {
        Some(overrides) => overrides.rows.as_slice(),
        None => &[],
    }
}

/// Puts to the touched grounds those that change where new statements come for old ones, and
/// answers how many there were before.
pub(crate) fn add_changed<S: Compared>(
    alloc: Global,
    touched: &mut GroundList,
    old: &[S],
    new: &[S],
) -> Result<usize, Memory>
    ensures before { IfOk result (λ before. before ≡ length touched.old) }
    ensures added { OnOk result ((more : List Ends) × (touched.new ≡ touched.old ++ more)
        × IsPermutation (map (λ x. ground_of (S.range x)) (changed S.same old.now new.now)) more) }
    ensures err { OnErr result (touched.new ≡ touched.old) }
{
    let before = touched.len();
    let more = changed_grounds(alloc, old, new)?;
    touched.append(more)?;
    Ok(before)
}
