//! The calls that set and drop sources.
//!
//! A drop looks whether the source is there. Each finds the statements that come and go, puts their
//! grounds to those touched, and then changes the sources; where that is refused the grounds go
//! again.
ghost use Rattle.std.specs.Prelude.{◌≡◌, ◌++◌, List, IfOk, OnOk};
ghost use Rattle.std.specs.List.Sorted.{IsPermutation};
ghost use Rattle.std.specs.Option.{option_copied};
ghost use Rattle.authority.specs.Held.{url_of};
ghost use Rattle.geo_addr.specs.Ranges.{Ends};
ghost use Rattle.geo_terms.specs.SlotOrder.{AreInOrder, placed};
ghost use Rattle.source_changes.specs.Changes.{SetFeed, changes, named};
ghost use Rattle.source_changes.specs.Keeping.{AreEntries};
ghost use Rattle.update_session.specs.Together.{HaveCome, with_last};

use crate::replaced::{add_changed, delegations_of, entries_of, references_of, rows_of};
use crate::session::Session;
use geo_addr::Memory;
use geo_terms::{Dump, Feed, Overrides, Stats};
use precedence::{DropFault, ReadyFeed, Sources};
use source_changes::laws::{kept_by_one_more, sources_stay};
use source_changes::{GroundList, keep_all, shelf};
use std::alloc::Global;

impl Session {
    ghost use Rattle.std.specs.Prelude.{◌≡◌, ◌↔◌, IsSome, None, OnOk, OnErr, Err, map};
    ghost use Rattle.authority.specs.declared.fault.DropFault.{DropFault};
    ghost use Rattle.source_changes.specs.Changes.{SetDump, SetFeed, SetOverrides, SetStats};
    ghost use Rattle.source_changes.specs.Changes.{DropDump, DropFeed, DropOverrides, DropStats};
    ghost use Rattle.source_changes.specs.Changes.{named};
    ghost use Rattle.update_session.specs.Calls.{HasChanged, HaveChanged};

    /// Sets a registry dump; the one with the same slot is dropped.
    pub fn set_rpsl(&mut self, dump: Dump) -> Result<(), Memory>
        ensures ok { OnOk result (HasChanged (SetDump dump) self.old self.new) }
        ensures err { OnErr result (self.new ≡ self.old) }
    {
        kept_by_one_more();
        sources_stay();
        let new = dump.refs.as_slice();
        let old = references_of(self.sources.dump_of(dump.slot.as_str()));
        let before = add_changed(self.alloc, &mut self.touched, old, new)?;
        match self.sources.set_rpsl(dump) {
            Ok(_) => {
                self.noted = None;
                Ok(())
            }
            Err(fault) => {
                self.touched.truncate(before);
                Err(fault)
            }
        }
    }

    /// Takes the dump of a slot out of force.
    pub fn drop_rpsl(&mut self, slot: &str) -> Result<(), DropFault>
        ensures ok { OnOk result (HasChanged (DropDump slot.now) self.old self.new) }
        ensures there { OnOk result
            (IsSome (named (λ x. x.slot) slot.now self.old.state.sources.dumps)) }
        ensures absent { result ≡ Err DropFault.NotThere
            ↔ (named (λ x. x.slot) slot.now self.old.state.sources.dumps ≡ None) }
        ensures err { OnErr result (self.new ≡ self.old) }
    {
        kept_by_one_more();
        sources_stay();
        let Some(dump) = self.sources.dump_of(slot) else {
            return Err(DropFault::NotThere);
        };
        let old = references_of(Some(dump));
        let before = add_changed(self.alloc, &mut self.touched, old, &[])?;
        match self.sources.drop_rpsl(slot) {
            Ok(_) => {
                self.noted = None;
                Ok(())
            }
            Err(fault) => {
                self.touched.truncate(before);
                Err(fault)
            }
        }
    }

    /// Sets a feed; the one with the same URL is dropped.
    pub fn set_feed(&mut self, feed: Feed) -> Result<(), Memory>
        ensures ok { OnOk result (HasChanged (SetFeed feed) self.old self.new) }
        ensures err { OnErr result (self.new ≡ self.old) }
    {
        let feed = ReadyFeed::of(self.alloc, feed)?;
        self.set_ready_feed(feed)
    }

    /// Sets a feed that is ready; the one with the same URL is dropped.
    pub fn set_ready_feed(&mut self, ready: ReadyFeed) -> Result<(), Memory>
        ensures ok { OnOk result (HasChanged (SetFeed ready) self.old self.new) }
        ensures err { OnErr result (self.new ≡ self.old) }
    {
        kept_by_one_more();
        sources_stay();
        let feed = ready.feed();
        let new = feed.entries.as_slice();
        let old = entries_of(self.sources.feed_of(feed.url.as_str()));
        let before = add_changed(self.alloc, &mut self.touched, old, new)?;
        match self.sources.set_ready_feed(ready) {
            Ok(_) => {
                self.noted = None;
                Ok(())
            }
            Err(fault) => {
                self.touched.truncate(before);
                Err(fault)
            }
        }
    }

    /// Sets feeds that are ready, one after another; those with the same URLs are dropped.
    pub fn set_ready_feeds(&mut self, feeds: Vec<ReadyFeed>) -> Result<(), Memory>
        ensures ok { OnOk result (HaveChanged (map SetFeed feeds.items) self.old self.new) }
        ensures err { OnErr result (self.new ≡ self.old) }
    {
        kept_by_one_more();
        sources_stay();
        let before = self.touched.len();
        let last = match add_feeds(self.alloc, &mut self.touched, &self.sources, feeds) {
            Ok(last) => last,
            Err(fault) => {
                self.touched.truncate(before);
                return Err(fault);
            }
        };
        match self.sources.set_ready_feeds(last) {
            Ok(()) => {
                self.noted = None;
                Ok(())
            }
            Err(fault) => {
                self.touched.truncate(before);
                Err(fault)
            }
        }
    }

    /// Takes the feed of a URL out of force.
    pub fn drop_feed(&mut self, url: &str) -> Result<(), DropFault>
        ensures ok { OnOk result (HasChanged (DropFeed url.now) self.old self.new) }
        ensures there { OnOk result
            (IsSome (named (λ x. x.url) url.now self.old.state.sources.feeds)) }
        ensures absent { result ≡ Err DropFault.NotThere
            ↔ (named (λ x. x.url) url.now self.old.state.sources.feeds ≡ None) }
        ensures err { OnErr result (self.new ≡ self.old) }
    {
        kept_by_one_more();
        sources_stay();
        let Some(feed) = self.sources.feed_of(url) else {
            return Err(DropFault::NotThere);
        };
        let old = entries_of(Some(feed));
        let before = add_changed(self.alloc, &mut self.touched, old, &[])?;
        match self.sources.drop_feed(url) {
            Ok(_) => {
                self.noted = None;
                Ok(())
            }
            Err(fault) => {
                self.touched.truncate(before);
                Err(fault)
            }
        }
    }

    /// Sets a statistics file; the one with the same slot is dropped.
    pub fn set_stats(&mut self, stats: Stats) -> Result<(), Memory>
        ensures ok { OnOk result (HasChanged (SetStats stats) self.old self.new) }
        ensures err { OnErr result (self.new ≡ self.old) }
    {
        kept_by_one_more();
        sources_stay();
        let new = stats.rows.as_slice();
        keep_all(new);
        let old = delegations_of(self.sources.stats_of(stats.slot.as_str()));
        let before = add_changed(self.alloc, &mut self.touched, old, new)?;
        match self.sources.set_stats(stats) {
            Ok(_) => {
                self.noted = None;
                Ok(())
            }
            Err(fault) => {
                self.touched.truncate(before);
                Err(fault)
            }
        }
    }

    /// Takes the statistics file of a slot out of force.
    pub fn drop_stats(&mut self, slot: &str) -> Result<(), DropFault>
        ensures ok { OnOk result (HasChanged (DropStats slot.now) self.old self.new) }
        ensures there { OnOk result
            (IsSome (named (λ x. x.slot) slot.now self.old.state.sources.stats)) }
        ensures absent { result ≡ Err DropFault.NotThere
            ↔ (named (λ x. x.slot) slot.now self.old.state.sources.stats ≡ None) }
        ensures err { OnErr result (self.new ≡ self.old) }
    {
        kept_by_one_more();
        sources_stay();
        let Some(stats) = self.sources.stats_of(slot) else {
            return Err(DropFault::NotThere);
        };
        let old = delegations_of(Some(stats));
        let before = add_changed(self.alloc, &mut self.touched, old, &[])?;
        match self.sources.drop_stats(slot) {
            Ok(_) => {
                self.noted = None;
                Ok(())
            }
            Err(fault) => {
                self.touched.truncate(before);
                Err(fault)
            }
        }
    }

    /// Sets overrides; those in force are dropped.
    pub fn set_overrides(&mut self, rows: Overrides) -> Result<(), Memory>
        ensures ok { OnOk result (HasChanged (SetOverrides rows) self.old self.new) }
        ensures err { OnErr result (self.new ≡ self.old) }
    {
        kept_by_one_more();
        sources_stay();
        let old = rows_of(self.sources.overrides());
        let before = add_changed(self.alloc, &mut self.touched, old, rows.rows.as_slice())?;
        match self.sources.set_overrides(rows) {
            Ok(_) => {
                self.noted = None;
                Ok(())
            }
            Err(fault) => {
                self.touched.truncate(before);
                Err(fault)
            }
        }
    }

    /// Takes the overrides out of force.
    pub fn drop_overrides(&mut self) -> Result<(), DropFault>
        ensures ok { OnOk result (HasChanged DropOverrides self.old self.new) }
        ensures there { OnOk result (IsSome self.old.state.sources.overrides) }
        ensures absent { result ≡ Err DropFault.NotThere
            ↔ (self.old.state.sources.overrides ≡ None) }
        ensures err { OnErr result (self.new ≡ self.old) }
    {
        kept_by_one_more();
        sources_stay();
        let Some(rows) = self.sources.overrides() else {
            return Err(DropFault::NotThere);
        };
        let old = rows_of(Some(rows));
        let before = add_changed(self.alloc, &mut self.touched, old, &[])?;
        match self.sources.drop_overrides() {
            Ok(_) => {
                self.noted = None;
                Ok(())
            }
            Err(fault) => {
                self.touched.truncate(before);
                Err(fault)
            }
        }
    }
}

// Puts to the touched grounds those that change where feeds are set one after another, and answers
// the last feed of each URL, in the order of the URLs.
fn add_feeds(
    alloc: Global,
    touched: &mut GroundList,
    sources: &Sources,
    feeds: Vec<ReadyFeed>,
) -> Result<Vec<ReadyFeed>, Memory>
    ensures more { (more : List Ends) × (touched.new ≡ touched.old ++ more) }
    ensures added { IfOk result (λ last. HaveCome sources.now feeds.items last.items
        touched.old touched.new) }
{
    let mut last: Vec<ReadyFeed> = Vec::new(alloc);
    for ready in feeds {
        add_feed(alloc, touched, sources, &mut last, ready)?;
    }
    Ok(last)
}

// The same for one more feed.
fn add_feed(
    alloc: Global,
    touched: &mut GroundList,
    sources: &Sources,
    last: &mut Vec<ReadyFeed>,
    ready: ReadyFeed,
) -> Result<(), Memory>
    requires { AreInOrder url_of last.old.items }
    ensures more { (more : List Ends) × (touched.new ≡ touched.old ++ more) }
    ensures added { OnOk result ((more : List Ends) × (touched.new ≡ touched.old ++ more)
        × IsPermutation (changes (SetFeed ready) (with_last last.old.items sources.now)) more) }
    ensures last { OnOk result (last.new.items ≡ placed url_of ready last.old.items) }
    ensures order { AreInOrder url_of last.new.items }
    ensures sound { AreEntries ready.entries }
{
    let feed = ready.feed();
    let new = feed.entries.as_slice();
    let old = entries_of(feed_among(last.as_slice(), sources, feed.url.as_str()));
    add_changed(alloc, touched, old, new)?;
    shelf::put(last, ready)?;
    Ok(())
}

// The feed of a URL among the last ones, or in force.
fn feed_among<'a>(last: &'a [ReadyFeed], sources: &'a Sources, url: &str) -> Option<&'a Feed>
    requires { AreInOrder url_of last.now }
    ensures { option_copied result
        ≡ named url_of url.now (with_last last.entry.now sources.entry.now).feeds }
{
    match shelf::get(last, url) {
        Some(ready) => Some(ready.feed()),
        None => sources.feed_of(url),
    }
}
