//! The dumps and feeds in force, set and dropped, and who speaks for an address by them.
ghost use Rattle.std.specs.Prelude.{◌≡◌, find, option_map, IfOk};
ghost use Rattle.std.specs.Arc.{arc_value};
ghost use Rattle.std.specs.Option.{option_copied};
ghost use Rattle.geo_terms.specs.First.{first_of};
ghost use Rattle.geo_terms.specs.PlaceForm.{same_text};
ghost use Rattle.geo_terms.specs.Precedence.{entries_within, entry_before};
ghost use Rattle.geo_terms.specs.SlotOrder.{AreInOrder};
ghost use Rattle.geo_terms.specs.Sources.{entries_in};
ghost use Rattle.authority.specs.Held.{url_of};

use crate::fault::DropFault;
use crate::near::Near;
use crate::notes::joint_notes;
use crate::ready::ReadyFeed;
use crate::speakers::{Speakers, covering_of_all, first_of_all, speakers_of};
use crate::voices::{Voices, entry_of_voice, voice_near, voices_of};
use geo_addr::{Addr, Block, Memory};
use geo_terms::{Dump, Entry, Feed, Note, Reference};
use source_changes::shelf;
use std::alloc::Global;
use std::marker::Model;
use std::sync::Arc;

/// The dumps and feeds in force, and who speaks for an address by them.
///
/// The entries of each feed have an index of their own, with which it comes. The references of all
/// dumps have one, which `make_ready` makes where a dump was set or dropped since; until then each
/// reference is looked at for an answer. It also finds the feed of each reference, where a source
/// was set or dropped since; until then that is one halving over the URLs of the feeds for an
/// answer. Sources and indexes are shared with every snapshot.
#[derive(Debug, Drop)]
pub struct Authority {
    alloc: Global,
    dumps: Vec<Arc<Dump>>,
    // None where a dump was set or dropped since it was made.
    speakers: Option<Arc<Speakers>>,
    feeds: Vec<ReadyFeed>,
    // One for each reference, as `speakers` keeps them. None where there are few feeds, or a source
    // was set or dropped since they were made.
    voices: Option<Arc<Voices>>,
}

impl Model for Authority {
    ghost use Rattle.std.specs.Prelude.{map};
    ghost use Rattle.std.specs.Arc.{arc_value};
    ghost use Rattle.geo_terms.specs.Sources.{InForce};
    ghost use Rattle.authority.specs.Held.{IsHeld, in_force};

    ghost Value = { InForce };

    ghost view = { λ s. in_force (map arc_value s.dumps.items) s.feeds.items };

    ghost invariant = { λ s. IsHeld s.dumps.items s.speakers s.feeds.items s.voices };
}

impl Authority {
    ghost use Rattle.std.specs.Prelude.{◌≡◌, map, IfOk, IfErr, OnOk, OnErr, Some, None};
    ghost use Rattle.std.specs.Prelude.{is_some, option_map};
    ghost use Rattle.std.specs.Arc.{arc_value};
    ghost use Rattle.std.specs.Option.{option_copied};
    ghost use Rattle.geo_terms.specs.Covering.{covering};
    ghost use Rattle.geo_terms.specs.NoteText.{note_cmp};
    ghost use Rattle.geo_terms.specs.Precedence.{speaker, speaking_entry};
    ghost use Rattle.geo_terms.specs.Report.{in_order, joint_notes};
    ghost use Rattle.geo_terms.specs.Sources.{feed_of, no_sources, references};
    ghost use Rattle.geo_terms.specs.SlotOrder.{AreInOrder};
    ghost use Rattle.source_changes.specs.Changes.{DropDump, DropFeed, SetDump, SetFeed, after};
    ghost use Rattle.source_changes.specs.Changes.{named};
    ghost use Rattle.source_changes.specs.Placing.{all_placed};
    ghost use Rattle.authority.specs.Held.{AreSpeakers, IsHeard, slot_of, url_of};
    ghost use Rattle.authority.specs.declared.fault.DropFault.{DropFault};

    /// No sources.
    pub fn new(alloc: Global) -> Authority
        ensures { result ≡ no_sources }
    {
        Authority {
            alloc,
            dumps: Vec::new(alloc),
            speakers: None,
            feeds: Vec::new(alloc),
            voices: None,
        }
    }

    /// Sets a dump, which replaces the one with the same slot, and hands the old one back.
    ///
    /// No reference is looked at. After `Memory` the given dump is dropped.
    pub fn set_dump(&mut self, dump: Dump) -> Result<Option<Arc<Dump>>, Memory>
        ensures sources { OnOk result (self.new ≡ after (SetDump dump) self.old) }
        ensures old { IfOk result
            (λ old. option_map arc_value old ≡ named (λ d. d.slot) dump.slot self.old.dumps) }
        ensures err { OnErr result (self.new ≡ self.old) }
    {
        let dump = Arc::new(self.alloc, dump)?;
        let old = shelf::put(&mut self.dumps, dump)?;
        self.speakers = None;
        self.voices = None;
        Ok(old)
    }

    /// Takes the dump of a slot out of force, and hands it back. It takes no memory.
    pub fn drop_dump(&mut self, slot: &str) -> Result<Arc<Dump>, DropFault>
        ensures sources { OnOk result (self.new ≡ after (DropDump slot.now) self.old) }
        ensures old { IfOk result
            (λ old. Some (arc_value old) ≡ named (λ d. d.slot) slot.now self.old.dumps) }
        ensures not_there { IfErr result (λ fault. (fault ≡ DropFault.NotThere)
            × (named (λ d. d.slot) slot.now self.old.dumps ≡ None)) }
        ensures err { OnErr result (self.new ≡ self.old) }
    {
        match shelf::take(&mut self.dumps, slot) {
            Some(old) => {
                self.speakers = None;
                self.voices = None;
                Ok(old)
            }
            None => Err(DropFault::NotThere),
        }
    }

    /// Sets a feed, which replaces the one with the same URL, and hands the old one back.
    ///
    /// It makes the feed ready first. After `Memory` the given feed is dropped.
    pub fn set_feed(&mut self, feed: Feed) -> Result<Option<Arc<Feed>>, Memory>
        ensures sources { OnOk result (self.new ≡ after (SetFeed feed) self.old) }
        ensures old { IfOk result
            (λ old. option_map arc_value old ≡ named url_of feed.url self.old.feeds) }
        ensures err { OnErr result (self.new ≡ self.old) }
    {
        let feed = ReadyFeed::of(self.alloc, feed)?;
        self.set_ready_feed(feed)
    }

    /// Sets a feed that is ready, which replaces the one with the same URL, and hands the old one
    /// back.
    ///
    /// Nothing is put in order. After `Memory` the given feed is dropped.
    pub fn set_ready_feed(&mut self, feed: ReadyFeed) -> Result<Option<Arc<Feed>>, Memory>
        ensures sources { OnOk result (self.new ≡ after (SetFeed feed) self.old) }
        ensures old { IfOk result
            (λ old. option_map arc_value old ≡ named url_of feed.url self.old.feeds) }
        ensures err { OnErr result (self.new ≡ self.old) }
    {
        let old = shelf::put(&mut self.feeds, feed)?;
        self.voices = None;
        Ok(feed_alone(old))
    }

    /// Sets feeds that are ready and stand in the order of their URLs, each of which replaces the
    /// one with the same URL.
    ///
    /// After `Memory` the given feeds are dropped.
    pub fn set_ready_feeds(&mut self, feeds: Vec<ReadyFeed>) -> Result<(), Memory>
        requires { AreInOrder url_of feeds.items }
        ensures sources { OnOk result (self.new
            ≡ record self.old { feeds = all_placed url_of feeds.items self.old.feeds }) }
        ensures err { OnErr result (self.new ≡ self.old) }
    {
        shelf::put_all(&mut self.feeds, feeds)?;
        self.voices = None;
        Ok(())
    }

    /// Takes the feed of a URL out of force, and hands it back. It takes no memory.
    pub fn drop_feed(&mut self, url: &str) -> Result<Arc<Feed>, DropFault>
        ensures sources { OnOk result (self.new ≡ after (DropFeed url.now) self.old) }
        ensures old { IfOk result
            (λ old. Some (arc_value old) ≡ named url_of url.now self.old.feeds) }
        ensures not_there { IfErr result (λ fault. (fault ≡ DropFault.NotThere)
            × (named url_of url.now self.old.feeds ≡ None)) }
        ensures err { OnErr result (self.new ≡ self.old) }
    {
        let Some(old) = feed_alone(shelf::take(&mut self.feeds, url)) else {
            return Err(DropFault::NotThere);
        };
        self.voices = None;
        Ok(old)
    }

    /// Makes what answers are looked up in, where sources changed since: the index of all
    /// references, and the feed of each. Without the index each answer looks at every reference,
    /// and without the feeds it looks for the one of its speaker.
    pub fn make_ready(&mut self) -> Result<(), Memory>
        ensures { self.new ≡ self.old }
    {
        if self.voices.is_some() {
            return Ok(());
        }
        let speakers = self.speakers_for_feeds()?;
        let voices = self.voices_by(&speakers)?;
        self.speakers = Some(speakers);
        self.voices = voices;
        Ok(())
    }

    // The voices of these references; none where there are few feeds.
    fn voices_by(&self, speakers: &Speakers) -> Result<Option<Arc<Voices>>, Memory>
        ensures { IfOk result
            (λ made. IsHeard self.now.feeds speakers.now.index (option_map arc_value made)) }
    {
        if !self.has_many_feeds() {
            return Ok(None);
        }
        let feeds = self.feeds.as_slice();
        let made = voices_of(self.alloc, speakers.index.references(), feeds)?;
        Ok(Some(made))
    }

    /// The index of all references and their cut points: those that are kept, or new ones.
    pub fn speakers(&self) -> Result<Arc<Speakers>, Memory>
        ensures { IfOk result (λ made. AreSpeakers (references self.now) (arc_value made)) }
    {
        match shared(&self.speakers)? {
            Some(made) => Ok(made),
            None => speakers_of(self.alloc, self.dumps.as_slice(), self.has_many_feeds()),
        }
    }

    // Those of `speakers`, or new ones where feeds came since that ask for more.
    fn speakers_for_feeds(&self) -> Result<Arc<Speakers>, Memory>
        ensures { IfOk result (λ made. AreSpeakers (references self.now) (arc_value made)) }
    {
        let made = self.speakers()?;
        if made.kind.is_some() || !self.has_many_feeds() {
            return Ok(made);
        }
        speakers_of(self.alloc, self.dumps.as_slice(), true)
    }

    // Whether there are feeds among which it is worth a look to find one beforehand.
    fn has_many_feeds(&self) -> bool {
        self.feeds.len() > 1
    }

    /// The same sources once more: each of them and each index is shared,
    /// so the cost is their number.
    pub fn snapshot(&self) -> Result<Authority, Memory>
        ensures { IfOk result (λ same. same ≡ self.now) }
    {
        Ok(Authority {
            alloc: self.alloc,
            dumps: self.dumps.clone()?,
            speakers: shared(&self.speakers)?,
            feeds: self.feeds.clone()?,
            voices: shared(&self.voices)?,
        })
    }

    /// How many cut points of references are kept, or how many references there are.
    pub fn count(&self) -> usize {
        if let Some(made) = &self.speakers {
            return made.cuts.len();
        }
        let mut count: usize = 0;
        for dump in self.dumps.as_slice() {
            count = count.saturating_add(dump.refs.as_slice().len());
        }
        count
    }

    /// The dumps in force, ascending by the bytes of their slots.
    pub fn dumps(&self) -> &[Arc<Dump>]
        ensures dumps { map arc_value result.now ≡ self.now.dumps }
        ensures ascending { AreInOrder slot_of result.now }
    {
        self.dumps.as_slice()
    }

    /// The feeds in force, ascending by the bytes of their URLs.
    pub fn feeds(&self) -> &[ReadyFeed]
        ensures feeds { result.now ≡ self.now.feeds }
        ensures ascending { AreInOrder url_of result.now }
    {
        self.feeds.as_slice()
    }

    /// The dump of a slot, by halving.
    pub fn dump_of(&self, slot: &str) -> Option<&Dump>
        ensures { option_copied result ≡ named (λ d. d.slot) slot.now self.now.dumps }
    {
        let dump = shelf::get(self.dumps.as_slice(), slot)?;
        Some(dump)
    }

    /// The feed of a URL, by halving.
    pub fn feed_of(&self, url: &str) -> Option<&Feed>
        ensures { option_copied result ≡ feed_of self.now url.now }
    {
        let ready = shelf::get(self.feeds.as_slice(), url)?;
        Some(ready.feed())
    }

    /// The speaker at an address, by halving.
    #[tactic(auto, unfolding(geo_terms::specs::Precedence::speaker))]
    pub fn speaker_at(&self, at: Addr) -> Option<&Reference>
        ensures { option_copied result ≡ speaker self.now at.0 }
    {
        match &self.speakers {
            Some(made) => made.index.best_at(at),
            None => first_of_all(self.dumps.as_slice(), at),
        }
    }

    /// The entry that speaks at an address: three halvings, for the speaker,
    /// its feed and the entry.
    pub fn entry_at(&self, at: Addr) -> Option<&Entry>
        ensures { option_copied result ≡ speaking_entry self.now at.0 }
    {
        let mut near = Near::default();
        self.entry_near(at, &mut near)
    }

    /// The speaker at an address, as `speaker_at` gives it. It is looked for first where the last
    /// one was found, which spares a halving where addresses ascend.
    #[tactic(auto, unfolding(geo_terms::specs::Precedence::speaker))]
    pub fn speaker_near(&self, at: Addr, near: &mut usize) -> Option<&Reference>
        ensures { option_copied result ≡ speaker self.now at.0 }
    {
        match &self.speakers {
            Some(made) => made.index.best_near(at, near),
            None => first_of_all(self.dumps.as_slice(), at),
        }
    }

    /// The entry that speaks at an address, as `entry_at` gives it. The speaker, its feed and the
    /// entry are looked for first where the last ones were found, which spares three halvings where
    /// addresses ascend.
    pub fn entry_near(&self, at: Addr, near: &mut Near) -> Option<&Entry>
        ensures { option_copied result ≡ speaking_entry self.now at.0 }
    {
        let Some(voices) = &self.voices else {
            return self.entry_by_url(at, near);
        };
        let Some(made) = &self.speakers else {
            return self.entry_by_url(at, near);
        };
        let Some(kind) = &made.kind else {
            return self.entry_by_url(at, near);
        };
        let voice = voice_near(voices, kind, at, &mut near.speaker)?;
        entry_of_voice(voice, at, &mut near.entry)
    }

    // The entry that speaks at an address. The feed of its speaker is looked for.
    fn entry_by_url(&self, at: Addr, near: &mut Near) -> Option<&Entry>
        ensures { option_copied result ≡ speaking_entry self.now at.0 }
    {
        let speaker = self.speaker_near(at, &mut near.speaker)?;
        entry_of(self.feeds.as_slice(), speaker, at, near)
    }

    /// The first reference of this URL, in the order of references, whose range is of the block's
    /// family and contains the block; what it costs is said at the index of references.
    pub fn covering(&self, block: Block, url: &str) -> Option<&Reference>
        ensures { option_copied result ≡ covering (references self.now) url.now block }
    {
        match &self.speakers {
            Some(made) => made.index.covering(block, url),
            None => covering_of_all(self.dumps.as_slice(), block, url),
        }
    }

    /// Whether a reference of this URL is of the block's family and contains the block:
    /// by one halving.
    pub fn covers(&self, block: Block, url: &str) -> bool
        ensures { result ≡ is_some (covering (references self.now) url.now block) }
    {
        match &self.speakers {
            Some(made) => made.index.covers(block, url),
            None => covering_of_all(self.dumps.as_slice(), block, url).is_some(),
        }
    }

    /// The notes of dumps and feeds on one another, in the order of a report:
    /// `P08`, `P09` and `F09`.
    pub fn notes(&self) -> Result<Vec<Note>, Memory>
        ensures { IfOk result (λ notes. notes.items ≡ in_order note_cmp (joint_notes self.now)) }
    {
        let made = self.speakers()?;
        let notes = joint_notes(self.alloc, &made.index, self.feeds.as_slice())?;
        Ok(notes)
    }
}

// What is kept once more, shared.
fn shared<T>(kept: &Option<Arc<T>>) -> Result<Option<Arc<T>>, Memory>
    ensures { IfOk result
        (λ same. option_map arc_value same ≡ option_map arc_value kept.now) }
{
    match kept {
        Some(made) => {
            let made = Arc::try_clone(made)?;
            Ok(Some(made))
        }
        None => Ok(None),
    }
}

fn feed_alone(ready: Option<ReadyFeed>) -> Option<Arc<Feed>>
    ensures { option_map arc_value result ≡ ready }
{
    match ready {
        Some(ready) => Some(ready.into_feed()),
        None => None,
    }
}

// The entry that speaks for a speaker at an address. The feed and the entry are looked for first
// where the last ones were found.
fn entry_of<'a>(
    feeds: &'a [ReadyFeed],
    speaker: &Reference,
    at: Addr,
    near: &mut Near,
) -> Option<&'a Entry>
    requires { AreInOrder url_of feeds.now }
    ensures { option_copied result ≡ first_of entry_before (entries_within
        (entries_in (find (λ f. same_text f.url speaker.now.url) feeds.entry.now))
        speaker.now.range at.0) }
{
    let feed = shelf::get_near(feeds, speaker.url.as_str(), &mut near.feed)?;
    feed.entry_within(speaker.range, at, &mut near.entry)
}
