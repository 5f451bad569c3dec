//! A feed that is ready to be set: with the index of its entries.
ghost use Rattle.std.specs.Prelude.{◌≡◌, ◌<◌, ◌^◌, if◌then◌else◌, option_and_then, slice_get, Some};
ghost use Rattle.std.specs.Prelude.{None, IfOk};
ghost use Rattle.std.specs.Arc.{arc_value};
ghost use Rattle.std.specs.Option.{option_copied};
ghost use Rattle.first_index.specs.Boundaries.{told};
ghost use Rattle.geo_terms.specs.Precedence.{lies_within};
ghost use Rattle.authority.specs.Kinds.{IsReady};

use crate::kind_index::KindIndex;
use first_index::FirstIndex;
use geo_addr::{Addr, Memory, Range, range_of};
use geo_terms::{Entry, Feed};
use source_changes::shelf::Named;
use std::alloc::{AllocError, Global};
use std::marker::Model;
use std::sync::Arc;

/// A feed with what takes time to make of it: the index of its longest entry at each address, and
/// the cut points of its entries.
///
/// All of it hangs on this feed alone and is shared, so feeds can be made ready side by side, and
/// setting them one after another is cheap.
#[derive(Debug, Drop)]
pub struct ReadyFeed {
    feed: Arc<Feed>,
    index: Arc<KindIndex>,
}

impl Model for ReadyFeed {
    ghost use Rattle.std.specs.Arc.{arc_value};
    ghost use Rattle.geo_terms.specs.SourceForm.{FeedParts};
    ghost use Rattle.authority.specs.Kinds.{IsReady};

    ghost Value = { FeedParts };

    ghost view = { λ x. arc_value x.feed };

    ghost invariant = { λ x. IsReady (arc_value x.feed) (arc_value x.index) };
}

impl ReadyFeed {
    ghost use Rattle.std.specs.Prelude.{◌≡◌, All, IfOk, map};
    ghost use Rattle.std.specs.Arc.{arc_value};
    ghost use Rattle.std.specs.Option.{option_copied};
    ghost use Rattle.geo_addr.specs.Ranges.{IsBlock, range_of_block};
    ghost use Rattle.geo_terms.specs.First.{first_of};
    ghost use Rattle.geo_terms.specs.Precedence.{entries_within, entry_before};
    ghost use Rattle.source_changes.specs.CutPoints.{AreCutsOf};

    /// The feed, made ready.
    pub fn of(alloc: Global, feed: Feed) -> Result<ReadyFeed, Memory>
        ensures { IfOk result (λ ready. ready ≡ feed) }
    {
        let feed = Arc::new(alloc, feed)?;
        let index = index_of(alloc, &feed)?;
        Ok(ReadyFeed { feed, index })
    }

    /// The feed.
    pub fn feed(&self) -> &Feed
        ensures feed { result.now ≡ self.now }
        ensures blocks { All (λ e. IsBlock e.block) self.now.entries }
    {
        &self.feed
    }

    /// The cut points of the entries.
    pub fn cuts(&self) -> &[u128]
        ensures { AreCutsOf (map (λ e. range_of_block e.block) self.now.entries) result.now }
    {
        self.index.cuts()
    }

    /// The longest entry that holds an address and lies within a range: the longest one that holds
    /// the address, if it lies within the range. Blocks that hold one address are nested, so where
    /// the longest one does not lie within, no shorter one does. It is looked for first where the
    /// last one was found.
    pub fn entry_within(&self, range: Range, at: Addr, near: &mut usize) -> Option<&Entry>
        ensures { option_copied result
            ≡ first_of entry_before (entries_within self.now.entries range at.0) }
    {
        let entry = longest_at(&self.feed, &self.index.firsts, at, near)?;
        within(entry, range)
    }

    // The feed alone.
    pub(crate) fn into_feed(self) -> Arc<Feed>
        ensures { arc_value result ≡ self }
    {
        self.feed
    }
}

impl Named for ReadyFeed {
    ghost name = { λ f. f.url };

    fn name(&self) -> &str {
        self.feed.url.as_str()
    }
}

impl Clone for ReadyFeed {
    ghost use Rattle.std.specs.Prelude.{◌≡◌};

    ghost is_clone = { λ old new. new ≡ old };

    fn clone(&self) -> Result<ReadyFeed, AllocError> {
        let feed = Arc::try_clone(&self.feed)?;
        let index = Arc::try_clone(&self.index)?;
        Ok(ReadyFeed { feed, index })
    }
}

// The index of the entries of a feed, to be shared.
fn index_of(alloc: Global, feed: &Feed) -> Result<Arc<KindIndex>, Memory>
    ensures { IfOk result (λ index. IsReady feed.now (arc_value index)) }
{
    let index = KindIndex::of(alloc, feed.entries.as_slice())?;
    let index = Arc::new(alloc, index)?;
    Ok(index)
}

// The longest entry of a feed that holds an address, by the index of the feed.
fn longest_at<'a>(
    feed: &'a Feed,
    first: &FirstIndex,
    at: Addr,
    near: &mut usize,
) -> Option<&'a Entry>
    ensures told { option_copied result
        ≡ option_and_then (slice_get feed.entry.now.entries) (told None first.entry.now at.0) }
    ensures range { at.0 < 2 ^ 128 }
{
    let index = first.index_near(at, near)?;
    feed.entries.as_slice().get(index)
}

// The entry, if it lies within a range.
fn within<'a>(entry: &'a Entry, range: Range) -> Option<&'a Entry>
    ensures { option_copied result
        ≡ (if lies_within entry.entry.now.block range then Some entry.entry.now else None) }
{
    if range.first <= entry.block.first && range_of(entry.block).last <= range.last {
        Some(entry)
    } else {
        None
    }
}
