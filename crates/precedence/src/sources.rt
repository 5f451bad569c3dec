//! The sources in force, set and dropped, and what is asked of them.
ghost use Rattle.std.specs.Prelude.{◌≡◌};
ghost use Rattle.std.specs.Option.{option_copied};
ghost use Rattle.geo_terms.specs.Precedence.{said_place};

use crate::aliases::{push_dump_aliases, push_feed_aliases, push_file_aliases};
use crate::chunks::{begins_of, chunks_at, pieces_at};
use crate::delegations::Delegations;
use crate::near::Near;
use crate::notes::{push_dump_notes, push_feed_notes, push_file_notes};
use crate::overriding::Overriding;
use crate::points::{in_order, push_feed_inside, push_feed_runs, push_feeds_inside};
use crate::runs::{joined, push_run};
use crate::statistics::Statistics;
use crate::why::Why;
use authority::{Authority, DropFault, ReadyFeed, Speakers};
use cut_segments::{cut_points, grounds_in, push_inside, segments_between, segments_of, whole};
use geo_addr::{Addr, Block, Memory, Range};
use geo_terms::{
    Delegation, Dump, Entry, Feed, Note, Override, Overrides, Place, Reference, Said, Stats, home,
};
use source_changes::GroundList;
use std::alloc::Global;
use std::marker::Model;
use std::sync::Arc;

/// The sources in force.
///
/// References, delegations and overrides have an index each, and each feed has one of its entries,
/// so that an address is looked up by halving. Feeds and overrides come with theirs; those of
/// references and of delegations are made by `make_ready` where a source changed since, and until
/// then each statement is looked at for an answer.
#[derive(Debug, Drop)]
pub struct Sources {
    alloc: Global,
    authority: Authority,
    statistics: Statistics,
    overriding: Overriding,
}

impl Model for Sources {
    ghost use Rattle.geo_terms.specs.Sources.{InForce};

    ghost Value = { InForce };

    ghost view = { λ s. record {
      dumps = s.authority.dumps;
      feeds = s.authority.feeds;
      stats = s.statistics;
      overrides = s.overriding;
    } };
}

impl Sources {
    ghost use Rattle.std.specs.Prelude.{◌≡◌, ◌++◌, ◌∷◌, ◌<◌, ◌^◌, [], ℕ, List, Some, None, length};
    ghost use Rattle.std.specs.Prelude.{map};
    ghost use Rattle.std.specs.Prelude.{is_some, option_map, All, Any, IfOk, IfErr, IsTrue};
    ghost use Rattle.std.specs.Prelude.{OnOk, OnErr};
    ghost use Rattle.std.specs.Arc.{arc_value};
    ghost use Rattle.std.specs.List.{AllAdjacentBelow};
    ghost use Rattle.std.specs.List.Sorted.{IsNonDecreasingBy, IsStrictlyIncreasing};
    ghost use Rattle.std.specs.Option.{option_copied};
    ghost use Rattle.geo_addr.specs.Ranges.{AreCuts, Ends, IsRange, IsWithin, ground_first};
    ghost use Rattle.geo_addr.specs.Ranges.{range_of_block};
    ghost use Rattle.authority.specs.Held.{AreSpeakers, slot_of, url_of};
    ghost use Rattle.geo_terms.specs.Covering.{covering};
    ghost use Rattle.geo_terms.specs.Cuts.{statement_ranges};
    ghost use Rattle.geo_terms.specs.Precedence.{first_delegation, first_override, reasons_at};
    ghost use Rattle.geo_terms.specs.Precedence.{record_at, speaker, speaking_entry, spoken_at};
    ghost use Rattle.geo_terms.specs.Report.{alias_notes, reader_notes, report};
    ghost use Rattle.geo_terms.specs.Sources.{entries_in, feed_of, no_sources, references};
    ghost use Rattle.geo_terms.specs.SlotOrder.{AreInOrder};
    ghost use Rattle.source_changes.specs.Changes.{DropDump, DropFeed, DropOverrides, DropStats};
    ghost use Rattle.source_changes.specs.Changes.{SetDump, SetFeed, SetOverrides, SetStats};
    ghost use Rattle.source_changes.specs.Changes.{after, named};
    ghost use Rattle.source_changes.specs.CutPoints.{AreCutsOf, whole};
    ghost use Rattle.source_changes.specs.Placing.{all_placed};
    ghost use Rattle.cut_segments.specs.CutPoints.{AreCutsInside};
    ghost use Rattle.precedence.specs.Chunks.{AreChunks, ArePieces, AreSegmentsIn, none_spared};
    ghost use Rattle.precedence.specs.CutPoints.{IsConstantBetween};
    ghost use Rattle.precedence.specs.Delegations.{IsIndex};
    ghost use Rattle.precedence.specs.Runs.{points_of};
    ghost use Rattle.source_changes.specs.Touched.{is_touched};
    ghost use Rattle.precedence.specs.Why.{reasons_of};
    ghost use Rattle.authority.specs.declared.fault.DropFault.{DropFault};

    /// No sources.
    pub fn new(alloc: Global) -> Sources
        ensures { result ≡ no_sources }
    {
        Sources {
            alloc,
            authority: Authority::new(alloc),
            statistics: Statistics::new(alloc),
            overriding: Overriding::new(),
        }
    }

    /// Sets a dump, which replaces the one with the same slot, and hands the old one back.
    ///
    /// After `Memory` the given dump is dropped.
    pub fn set_rpsl(&mut self, dump: Dump) -> Result<Option<Arc<Dump>>, Memory>
        ensures sources { OnOk result (self.new ≡ after (SetDump dump) self.old) }
        ensures old { IfOk result
            (λ old. option_map arc_value old ≡ named (λ d. d.slot) dump.slot self.old.dumps) }
        ensures err { OnErr result (self.new ≡ self.old) }
    {
        self.authority.set_dump(dump)
    }

    /// Takes the dump of a slot out of force, and hands it back. It takes no memory.
    pub fn drop_rpsl(&mut self, slot: &str) -> Result<Arc<Dump>, DropFault>
        ensures sources { OnOk result (self.new ≡ after (DropDump slot.now) self.old) }
        ensures old { IfOk result
            (λ old. Some (arc_value old) ≡ named (λ d. d.slot) slot.now self.old.dumps) }
        ensures not_there { IfErr result (λ fault. (fault ≡ DropFault.NotThere)
            × (named (λ d. d.slot) slot.now self.old.dumps ≡ None)) }
        ensures err { OnErr result (self.new ≡ self.old) }
    {
        self.authority.drop_dump(slot)
    }

    /// Sets a feed, which replaces the one with the same URL, and hands the old one back.
    ///
    /// After `Memory` the given feed is dropped.
    pub fn set_feed(&mut self, feed: Feed) -> Result<Option<Arc<Feed>>, Memory>
        ensures sources { OnOk result (self.new ≡ after (SetFeed feed) self.old) }
        ensures old { IfOk result
            (λ old. option_map arc_value old ≡ named (λ f. f.url) feed.url self.old.feeds) }
        ensures err { OnErr result (self.new ≡ self.old) }
    {
        self.authority.set_feed(feed)
    }

    /// Puts a feed that is ready over the one with the same URL, and hands the old one
    /// back.
    ///
    /// After `Memory` the given feed is dropped.
    pub fn set_ready_feed(&mut self, feed: ReadyFeed) -> Result<Option<Arc<Feed>>, Memory>
        ensures sources { OnOk result (self.new ≡ after (SetFeed feed) self.old) }
        ensures old { IfOk result
            (λ old. option_map arc_value old ≡ named (λ f. f.url) feed.url self.old.feeds) }
        ensures err { OnErr result (self.new ≡ self.old) }
    {
        self.authority.set_ready_feed(feed)
    }

    /// Puts feeds that are ready and stand in the order of their URLs over those with the same
    /// URLs.
    ///
    /// After `Memory` the given feeds are dropped.
    pub fn set_ready_feeds(&mut self, feeds: Vec<ReadyFeed>) -> Result<(), Memory>
        requires { AreInOrder url_of feeds.items }
        ensures sources { OnOk result (self.new
            ≡ record self.old { feeds = all_placed url_of feeds.items self.old.feeds }) }
        ensures err { OnErr result (self.new ≡ self.old) }
    {
        self.authority.set_ready_feeds(feeds)
    }

    /// Takes the feed of a URL out of force, and hands it back. It takes no memory.
    pub fn drop_feed(&mut self, url: &str) -> Result<Arc<Feed>, DropFault>
        ensures sources { OnOk result (self.new ≡ after (DropFeed url.now) self.old) }
        ensures old { IfOk result
            (λ old. Some (arc_value old) ≡ named (λ f. f.url) url.now self.old.feeds) }
        ensures not_there { IfErr result (λ fault. (fault ≡ DropFault.NotThere)
            × (named (λ f. f.url) url.now self.old.feeds ≡ None)) }
        ensures err { OnErr result (self.new ≡ self.old) }
    {
        self.authority.drop_feed(url)
    }

    /// Sets a statistics file, which replaces the one with the same slot,
    /// and hands the old one back.
    ///
    /// After `Memory` the given file is dropped.
    pub fn set_stats(&mut self, stats: Stats) -> Result<Option<Arc<Stats>>, Memory>
        ensures sources { OnOk result (self.new ≡ after (SetStats stats) self.old) }
        ensures old { IfOk result
            (λ old. option_map arc_value old ≡ named (λ t. t.slot) stats.slot self.old.stats) }
        ensures err { OnErr result (self.new ≡ self.old) }
    {
        self.statistics.set(stats)
    }

    /// Takes the statistics file of a slot out of force, and hands it back. It takes no memory.
    pub fn drop_stats(&mut self, slot: &str) -> Result<Arc<Stats>, DropFault>
        ensures sources { OnOk result (self.new ≡ after (DropStats slot.now) self.old) }
        ensures old { IfOk result
            (λ old. Some (arc_value old) ≡ named (λ t. t.slot) slot.now self.old.stats) }
        ensures not_there { IfErr result (λ fault. (fault ≡ DropFault.NotThere)
            × (named (λ t. t.slot) slot.now self.old.stats ≡ None)) }
        ensures err { OnErr result (self.new ≡ self.old) }
    {
        self.statistics.remove(slot)
    }

    /// Sets overrides; those in force are handed back.
    ///
    /// After `Memory` the given overrides are dropped.
    pub fn set_overrides(&mut self, rows: Overrides) -> Result<Option<Arc<Overrides>>, Memory>
        ensures sources { OnOk result (self.new ≡ after (SetOverrides rows) self.old) }
        ensures old { IfOk result (λ old. option_map arc_value old ≡ self.old.overrides) }
        ensures err { OnErr result (self.new ≡ self.old) }
    {
        self.overriding.set(self.alloc, rows)
    }

    /// Takes the overrides out of force, and hands them back. It takes no memory.
    pub fn drop_overrides(&mut self) -> Result<Arc<Overrides>, DropFault>
        ensures sources { OnOk result (self.new ≡ after DropOverrides self.old) }
        ensures old { IfOk result (λ old. Some (arc_value old) ≡ self.old.overrides) }
        ensures not_there { IfErr result
            (λ fault. (fault ≡ DropFault.NotThere) × (self.old.overrides ≡ None)) }
        ensures err { OnErr result (self.new ≡ self.old) }
    {
        match self.overriding.remove() {
            Some(old) => Ok(old),
            None => Err(DropFault::NotThere),
        }
    }

    /// Makes what answers are looked up in, where sources changed since. Before many questions this
    /// is worth its cost: one sort of all references and one of all delegations.
    pub fn make_ready(&mut self) -> Result<(), Memory>
        ensures { self.new ≡ self.old }
    {
        self.authority.make_ready()?;
        self.statistics.make_ready()
    }

    /// Makes that alone ready in which speakers and their entries are looked up.
    pub fn make_speakers_ready(&mut self) -> Result<(), Memory>
        ensures { self.new ≡ self.old }
    {
        self.authority.make_ready()
    }

    /// The dumps in force, ascending by the bytes of their slots.
    pub fn dumps(&self) -> &[Arc<Dump>]
        ensures dumps { map arc_value result.now ≡ self.now.dumps }
        ensures ascending { AreInOrder slot_of result.now }
    {
        self.authority.dumps()
    }

    /// The feeds in force, ascending by the bytes of their URLs.
    pub fn feeds(&self) -> &[ReadyFeed]
        ensures feeds { result.now ≡ self.now.feeds }
        ensures ascending { AreInOrder url_of result.now }
    {
        self.authority.feeds()
    }

    /// The dump of a slot, by halving.
    pub fn dump_of(&self, slot: &str) -> Option<&Dump>
        ensures { option_copied result ≡ named (λ d. d.slot) slot.now self.now.dumps }
    {
        self.authority.dump_of(slot)
    }

    /// The feed of a URL, by halving.
    pub fn feed_of(&self, url: &str) -> Option<&Feed>
        ensures { option_copied result ≡ feed_of self.now url.now }
    {
        self.authority.feed_of(url)
    }

    /// The first reference of this URL, in the order of references, whose range is of the block's
    /// family and contains the block.
    pub fn covering(&self, block: Block, url: &str) -> Option<&Reference>
        ensures { option_copied result ≡ covering (references self.now) url.now block }
    {
        self.authority.covering(block, url)
    }

    /// Whether a reference of this URL is of the block's family and contains the block:
    /// by one halving.
    pub fn covers(&self, block: Block, url: &str) -> bool
        ensures { result ≡ is_some (covering (references self.now) url.now block) }
    {
        self.authority.covers(block, url)
    }

    /// The statistics files in force, ascending by the bytes of their slots.
    pub fn stats(&self) -> &[Arc<Stats>]
        ensures files { map arc_value result.now ≡ self.now.stats }
        ensures ascending { AreInOrder (λ t. t.slot) self.now.stats }
    {
        self.statistics.files()
    }

    /// The statistics file of a slot, by halving.
    pub fn stats_of(&self, slot: &str) -> Option<&Stats>
        ensures { option_copied result ≡ named (λ t. t.slot) slot.now self.now.stats }
    {
        self.statistics.file_of(slot)
    }

    /// The overrides in force.
    pub fn overrides(&self) -> Option<&Arc<Overrides>>
        ensures { option_map arc_value (option_copied result) ≡ self.now.overrides }
    {
        self.overriding.overrides()
    }

    #[tactic(auto, unfolding(geo_terms::specs::Precedence::first_override))]
    fn override_near(&self, at: Addr, near: &mut Near) -> Option<&Override>
        ensures { option_copied result ≡ first_override self.now at.0 }
    {
        self.overriding.first_near(at, &mut near.over)
    }

    #[tactic(auto, unfolding(geo_terms::specs::Precedence::first_delegation))]
    fn delegation_near(&self, at: Addr, near: &mut Near) -> Option<&Delegation>
        ensures { option_copied result ≡ first_delegation self.now at.0 }
    {
        self.statistics.first_near(at, &mut near.delegation)
    }

    #[tactic(auto, unfolding(geo_terms::specs::Precedence::speaker))]
    fn speaker_at(&self, at: Addr) -> Option<&Reference>
        ensures { option_copied result ≡ speaker self.now at.0 }
    {
        self.authority.speaker_at(at)
    }

    #[tactic(auto, unfolding(geo_terms::specs::Precedence::speaking_entry))]
    fn entry_near(&self, at: Addr, near: &mut Near) -> Option<&Entry>
        ensures { option_copied result ≡ speaking_entry self.now at.0 }
    {
        self.authority.entry_near(at, &mut near.entry)
    }

    /// What the sources say of an address. The two blocks of IPv6 addresses that carry IPv4
    /// addresses are no different here from other addresses.
    pub fn spoken_at(&self, at: Addr) -> Option<&Place>
        ensures { option_copied result ≡ spoken_at self.now at.0 }
    {
        let mut near = Near::default();
        self.spoken_near(at, &mut near)
    }

    // What the sources say of an address. It is looked for first where the last look-up found what
    // it looked for.
    #[tactic(auto, unfolding(geo_terms::specs::Precedence::spoken_at))]
    fn spoken_near(&self, at: Addr, near: &mut Near) -> Option<&Place>
        ensures { option_copied result ≡ spoken_at self.now at.0 }
    {
        if let Some(row) = self.override_near(at, near) {
            return said_place(&row.said);
        }
        if let Some(entry) = self.entry_near(at, near) {
            return said_place(&entry.said);
        }
        let delegation = self.delegation_near(at, near)?;
        Some(&delegation.place)
    }

    /// The record of an address.
    pub fn record_at(&self, at: Addr) -> Option<&Place>
        ensures { option_copied result ≡ record_at self.now at.0 }
    {
        self.spoken_at(home(at))
    }

    /// Why an address has its record: the first override, the speaker, the speaking entry and the
    /// first delegation at the address whose record it has, and that record.
    pub fn why_at(&self, at: Addr) -> Why<'_>
        ensures { reasons_of result ≡ reasons_at self.now at.0 }
    {
        let home = home(at);
        let mut near = Near::default();
        Why {
            over: self.override_near(home, &mut near),
            speaker: self.speaker_at(home),
            entry: self.entry_near(home, &mut near),
            delegation: self.delegation_near(home, &mut near),
            place: self.spoken_near(home, &mut near),
        }
    }

    /// The speaker that `why_at` gives, alone. It is looked for first where the last one was found,
    /// which spares a halving where addresses ascend.
    #[tactic(auto, unfolding(geo_terms::specs::Precedence::speaker))]
    pub fn why_speaker(&self, at: Addr, near: &mut Near) -> Option<&Reference>
        ensures { option_copied result ≡ (reasons_at self.now at.0).speaker }
    {
        self.authority
            .speaker_near(home(at), &mut near.entry.speaker)
    }

    /// The entry that `why_at` gives, alone. The speaker, its feed and the entry are looked for
    /// first where the last ones were found, which spares three halvings where addresses ascend.
    pub fn why_entry(&self, at: Addr, near: &mut Near) -> Option<&Entry>
        ensures { option_copied result ≡ (reasons_at self.now at.0).entry }
    {
        self.entry_near(home(at), near)
    }

    /// The record of a segment: that of its first address, which all of it has where no cut point
    /// lies above that address.
    pub fn choice(&self, segment: Range) -> Option<&Place>
        ensures { option_copied result ≡ spoken_at self.now segment.first }
    {
        self.spoken_at(Addr(segment.first))
    }

    /// The record of a segment, as `choice` gives it. It is looked for first where the last look-up
    /// found what it looked for, which spares up to five halvings where segments ascend.
    pub fn choice_near(&self, segment: Range, near: &mut Near) -> Option<&Place>
        ensures { option_copied result ≡ spoken_at self.now segment.first }
    {
        self.spoken_near(Addr(segment.first), near)
    }

    /// The notes of all sources, in the order of a report.
    pub fn report(&self) -> Result<Vec<Note>, Memory>
        ensures { IfOk result (λ notes. notes.items ≡ report self.now) }
    {
        let mut notes = self.authority.notes()?;
        self.push_reader_notes(&mut notes)?;
        self.push_alias_notes(&mut notes)?;
        notes.sort_unstable_by(|x, y| x.order(y));
        Ok(notes)
    }

    /// The points at which the statements in force cut a range: ascending, each once.
    ///
    /// What is said of an address is constant between two neighbours of
    /// those of the whole address space.
    pub fn cuts_in(&self, within: Range) -> Result<Vec<u128>, Memory>
        ensures exact { IfOk result
            (λ points. AreCuts (statement_ranges self.now) within points.items) }
        ensures ascending { IfOk result (λ points. IsStrictlyIncreasing points.items) }
        ensures constant { within ≡ whole
            → IfOk result (λ points. IsConstantBetween self.now points.items) }
    {
        let Range { first, last } = within;
        let points = self.points_in(&[Range { first, last }])?;
        Ok(points)
    }

    /// The points at which the speaker or an entry of the feed of this URL cuts the address space,
    /// or one of some more ranges: ascending, each once.
    ///
    /// Sources keep their cut points in order, so these are only joined.
    pub fn hearing_cuts(&self, url: &str, more: &[Range]) -> Result<Vec<u128>, Memory>
        ensures exact { IfOk result (λ points. AreCuts (map (λ r. r.range) (references self.now)
            ++ (map (λ e. range_of_block e.block) (entries_in (feed_of self.now url.now))
            ++ more.now)) whole points.items) }
        ensures ascending { IfOk result (λ points. IsStrictlyIncreasing points.items) }
    {
        let speakers = self.authority.speakers()?;
        let more = cut_points(self.alloc, more)?;
        self.hearing_points(&speakers, url, more.as_slice())
    }

    // The cut points of the speakers, of the entries of the feed of this URL, and some more.
    fn hearing_points(
        &self,
        speakers: &Speakers,
        url: &str,
        more: &[u128],
    ) -> Result<Vec<u128>, Memory>
        requires speakers { AreSpeakers (references self.now) speakers.now }
        requires more { IsStrictlyIncreasing more.now }
        ensures exact { IfOk result (λ points. (ranges : List Ends) → AreCutsOf ranges more.now
            → AreCuts (map (λ r. r.range) (references self.now)
            ++ (map (λ e. range_of_block e.block) (entries_in (feed_of self.now url.now))
            ++ ranges)) whole points.items) }
        ensures ascending { IfOk result (λ points. IsStrictlyIncreasing points.items) }
    {
        let bounds = [whole()];
        let mut points = Vec::with_capacity(self.alloc, speakers.cuts.len())?;
        push_inside(&mut points, speakers.cuts.as_slice(), &bounds)?;
        push_feed_inside(&mut points, self.authority.feeds(), url, &bounds)?;
        push_inside(&mut points, more, &bounds)?;
        in_order(points)
    }

    /// The address space in neighbouring chunks, ascending, at most `pieces` of them, each with
    /// about as much to cut. How many there are, and how even, no clause says.
    ///
    /// A chunk begins where a touched ground does or at a cut point, so that no segment is cut for
    /// it.
    pub fn chunks(&self, touched: &GroundList, pieces: u32) -> Result<Vec<Range>, Memory>
        requires { 0 < pieces }
        ensures { IfOk result (λ chunks. AreChunks self.now touched.now chunks.items) }
    {
        if self.is_most(touched) {
            let begins = begins_of(self.alloc, touched)?;
            let chunks = chunks_at(self.alloc, begins.as_slice(), pieces)?;
            return Ok(chunks);
        }
        let bounds = segments_between(self.alloc, touched, &[])?;
        let points = self.points_in(bounds.as_slice())?;
        let chunks = chunks_at(self.alloc, points.as_slice(), pieces)?;
        Ok(chunks)
    }

    /// The segments of a chunk: those of the touched addresses that it has.
    pub fn segments_in(&self, touched: &GroundList, chunk: Range) -> Result<Vec<Range>, Memory>
        ensures { IfOk result
            (λ segments. AreSegmentsIn self.now touched.now none_spared chunk segments.items) }
    {
        let grounds = grounds_in(self.alloc, touched, chunk)?;
        let bounds = self.bounds_in(touched, grounds.as_slice(), chunk)?;
        let points = self.points_in(bounds.as_slice())?;
        let segments = segments_of(self.alloc, grounds.as_slice(), points.as_slice())?;
        Ok(segments)
    }

    /// A chunk, cut at the cut points of all sources that it has.
    pub fn pieces_in(&self, chunk: Range) -> Result<Vec<Range>, Memory>
        ensures pieces { IfOk result (λ pieces. ArePieces self.now chunk pieces.items) }
        ensures within { chunk.last < 2 ^ 128 }
    {
        let Range { first, last } = chunk;
        let points = self.points_in(&[Range { first, last }])?;
        let pieces = pieces_at(self.alloc, points.as_slice(), chunk)?;
        Ok(pieces)
    }

    /// Whether of no address of a range anything is said.
    pub fn is_silent_in(&self, range: Range) -> Result<bool, Memory>
        ensures { IfOk result
            (λ silent. IsTrue silent → (a : ℕ) → IsWithin range a → spoken_at self.now a ≡ None) }
    {
        let pieces = self.pieces_in(range)?;
        for piece in &pieces {
            if self.choice(*piece).is_some() {
                return Ok(false);
            }
        }
        Ok(true)
    }

    /// The same sources once more: each of them and each index is shared,
    /// so the cost is their number.
    pub fn snapshot(&self) -> Result<Sources, Memory>
        ensures { IfOk result (λ same. same ≡ self.now) }
    {
        Ok(Sources {
            alloc: self.alloc,
            authority: self.authority.snapshot()?,
            statistics: self.statistics.snapshot()?,
            overriding: self.overriding.snapshot()?,
        })
    }

    fn push_reader_notes(&self, notes: &mut Vec<Note>) -> Result<(), Memory>
        ensures { OnOk result (notes.new.items ≡ notes.old.items ++ reader_notes self.now) }
    {
        push_dump_notes(notes, self.authority.dumps())?;
        push_feed_notes(notes, self.authority.feeds())?;
        push_file_notes(notes, self.statistics.files())?;
        self.overriding.push_notes(notes)
    }

    fn push_alias_notes(&self, notes: &mut Vec<Note>) -> Result<(), Memory>
        ensures { OnOk result (notes.new.items ≡ notes.old.items ++ alias_notes self.now) }
    {
        push_dump_aliases(notes, self.authority.dumps())?;
        push_feed_aliases(notes, self.authority.feeds())?;
        push_file_aliases(notes, self.statistics.files())?;
        self.overriding.push_alias_notes(notes)
    }

    // Ascending ranges that are disjoint and have these grounds, which lie in a chunk: the grounds,
    // or, where much is touched, the chunk.
    fn bounds_in(
        &self,
        touched: &GroundList,
        grounds: &[Range],
        chunk: Range,
    ) -> Result<Vec<Range>, Memory>
        requires within { (a : ℕ) → IsTrue (is_touched grounds.now a) → IsWithin chunk a }
        requires order { IsNonDecreasingBy (λ r. ground_first r) grounds.now }
        ensures ranges { IfOk result (λ bounds. All IsRange bounds.items) }
        ensures apart { IfOk result (λ bounds. AllAdjacentBelow (λ r t. r.last < t.first)
            bounds.items (length bounds.items)) }
        ensures covered { IfOk result (λ bounds. (a : ℕ) → IsWithin whole a
            → IsTrue (is_touched grounds.now a) → Any (λ r. IsWithin r a) bounds.items) }
    {
        if self.is_most(touched) {
            let bounds = vec![in self.alloc; chunk]?;
            return Ok(bounds);
        }
        let bounds = segments_of(self.alloc, grounds, &[])?;
        Ok(bounds)
    }

    // Whether so much is touched that all cut points are gathered as well as some.
    fn is_most(&self, touched: &GroundList) -> bool {
        self.count() / 4 <= touched.len()
    }

    // About how many cut points the sources have, those of each kind by themselves.
    fn count(&self) -> usize {
        let mut count = self
            .authority
            .count()
            .saturating_add(self.statistics.count());
        for feed in self.authority.feeds() {
            count = count.saturating_add(feed.cuts().len());
        }
        count.saturating_add(self.overriding.cuts().len())
    }

    // The cut points of all sources that lie inside one of ascending ranges: ascending, each once.
    fn points_in(&self, bounds: &[Range]) -> Result<Vec<u128>, Memory>
        requires ranges { All IsRange bounds.now }
        requires apart { AllAdjacentBelow (λ r t. r.last < t.first) bounds.now (length bounds.now) }
        ensures exact { IfOk result
            (λ points. AreCutsInside (statement_ranges self.now) bounds.now points.items) }
        ensures ascending { IfOk result (λ points. IsStrictlyIncreasing points.items) }
    {
        let speakers = self.authority.speakers()?;
        let delegations = self.statistics.delegations()?;
        if bounds.len() == 1 {
            let points = self.joined_in(&speakers, &delegations, bounds[0])?;
            return in_order(points);
        }
        let mut points = Vec::new(self.alloc);
        self.push_points(&mut points, &speakers, &delegations, bounds)?;
        in_order(points)
    }

    // The cut points of all sources that lie inside a range. They ascend, which no clause says.
    fn joined_in(
        &self,
        speakers: &Speakers,
        delegations: &Delegations,
        range: Range,
    ) -> Result<Vec<u128>, Memory>
        requires speakers { AreSpeakers (references self.now) speakers.now }
        requires delegations { IsIndex self.now.stats delegations.now }
        ensures { IfOk result (λ points.
            AreCutsInside (statement_ranges self.now) (range ∷ []) points.items) }
    {
        let mut runs = Vec::new(self.alloc);
        self.push_runs(&mut runs, speakers, delegations, range)?;
        joined(self.alloc, runs)
    }

    // Adds the cut points of all sources that lie inside a range: those of each kind, and of each
    // feed, are a run.
    fn push_runs<'a>(
        &'a self,
        runs: &mut Vec<&'a [u128]>,
        speakers: &'a Speakers,
        delegations: &'a Delegations,
        range: Range,
    ) -> Result<(), Memory>
        requires speakers { AreSpeakers (references self.now) speakers.now }
        requires delegations { IsIndex self.now.stats delegations.now }
        ensures { OnOk result (AreCutsInside [] (range ∷ []) (points_of runs.old.items)
            → AreCutsInside (statement_ranges self.now) (range ∷ [])
            (points_of runs.new.items)) }
    {
        push_run(runs, speakers.cuts.as_slice(), range)?;
        push_feed_runs(runs, self.authority.feeds(), range)?;
        push_run(runs, delegations.index.cuts(), range)?;
        push_run(runs, self.overriding.cuts(), range)?;
        Ok(())
    }

    // Appends the cut points of all sources that lie inside one of ascending ranges: those of each
    // kind, and of each feed, ascend.
    fn push_points(
        &self,
        points: &mut Vec<u128>,
        speakers: &Speakers,
        delegations: &Delegations,
        bounds: &[Range],
    ) -> Result<(), Memory>
        requires speakers { AreSpeakers (references self.now) speakers.now }
        requires delegations { IsIndex self.now.stats delegations.now }
        requires ranges { All IsRange bounds.now }
        requires apart { AllAdjacentBelow (λ r t. r.last < t.first) bounds.now (length bounds.now) }
        ensures { OnOk result (AreCutsInside [] bounds.now points.old.items
            → AreCutsInside (statement_ranges self.now) bounds.now points.new.items) }
    {
        push_inside(points, speakers.cuts.as_slice(), bounds)?;
        push_feeds_inside(points, self.authority.feeds(), bounds)?;
        push_inside(points, delegations.index.cuts(), bounds)?;
        push_inside(points, self.overriding.cuts(), bounds)?;
        Ok(())
    }
}

// The place that is said.
fn said_place(said: &Said) -> Option<&Place>
    ensures { option_copied result ≡ said_place said.now }
{
    match said {
        Said::At(place) => Some(place),
        Said::Nothing => None,
    }
}
