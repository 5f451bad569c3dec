//! Lines that set feeds together: their files are read in order, then parsed side by side, then
//! set in order.
ghost use Rattle.std.specs.Prelude.{◌≡◌, ◌≢◌, ◌≤◌, ◌<◌, ◌+◌, ◌-◌, ◌⊎◌, [], ◌∷◌, ◌++◌, true};
ghost use Rattle.std.specs.Prelude.{IfErr, IfOk, None, Ok, OnOk, Some, length, map};
ghost use Rattle.std.specs.List.{AllZip, list_all};
ghost use Rattle.feed_csv.specs.File.{feed, longest};
ghost use Rattle.geo_outside.specs.Count.{Rose};
ghost use Rattle.geo_outside.specs.Files.{Told};
ghost use Rattle.update_session.specs.Standing.{Standing, Stands};
ghost use Rattle.job_run.specs.Feeds.{HaltsReading, IsFirstRefused, IsRead, Parses, ParsesMore};
ghost use Rattle.job_run.specs.Feeds.{RefusesParsing, no_read, with_feeds};
ghost use Rattle.job_run.specs.Moves.{read_rooms, sets_feed, together};
ghost use Rattle.job_run.specs.Parts.{DoesPart, FailsAt};
ghost use Rattle.job_run.specs.Seen.{Seen};
ghost use Rattle.job_run.specs.Sources.{no_feed, read_room};
ghost use Rattle.job_run.specs.Stops.{IsHindered, IsIn};
ghost use Rattle.job_run.specs.World.{World};

use crate::course::StepStop;
use crate::reading::read_file;
use crate::stop::{Cause, Stop};
use fan_work::{Forks, Work, map_pieces};
use feed_csv::{FEED_PART, KnownTails, LONGEST_FEED, OwnTail, read_feed, read_feed_by_parts};
use geo_addr::Memory;
use geo_outside::{Folder, Gate};
use geo_terms::{Feed, SourceFault};
use job_lines::{Act, Step};
use std::alloc::Global;
use std::marker::{Model, Sync};
use std::thread::Threads;
use update_session::laws::standing_stays;
use update_session::{ReadyFeed, Session};

/// What the file of a line holds, and the URL that it is set under.
#[derive(Debug, Drop)]
pub(crate) struct Held<'a> {
    pub(crate) url: &'a str,
    pub(crate) bytes: Vec<u8>,
}

/// What one that was read is, and the tails of its lines that no earlier feed had.
#[derive(Drop)]
struct Parsed {
    feed: Result<ReadyFeed, Stop>,
    learned: Vec<OwnTail>,
}

impl Model for Parsed {
    ghost use Rattle.std.specs.Prelude.{Result};
    ghost use Rattle.geo_terms.specs.SourceForm.{FeedParts};
    ghost use Rattle.job_run.specs.declared.stop.Stop.{Stop};

    ghost Value = { Result FeedParts Stop };

    ghost view = { λ p. p.feed };
}

/// Work that reads the lines of a feed and makes it ready to be set.
#[derive(Drop)]
struct Parsing<'b> {
    alloc: Global,
    known: &'b KnownTails,
}

impl<'a, 'b> Work<Held<'a>, Parsed> for Parsing<'b> {
    ghost use Rattle.job_run.specs.Feeds.{Parses};

    ghost related = { λ work held parsed. Parses held parsed };

    fn done(&self, item: &Held<'a>) -> Result<Parsed, Memory> {
        let mut learned = Vec::new(self.alloc);
        let feed = ready_feed(
            self.alloc,
            item.url,
            item.bytes.as_slice(),
            self.known,
            &mut learned,
        );
        Ok(Parsed { feed, learned })
    }
}

/// Does lines that set feeds, at least one, together.
pub(crate) fn set_together<R: Threads + Sync, F: Folder, G: Gate>(
    forks: &Forks<R, G>,
    group: &[Step],
    session: &mut Session,
    folder: &mut F,
    known: &mut KnownTails,
) -> Result<(), StepStop>
    requires some { 0 < length group.now }
    requires feeds { list_all (λ s. sets_feed s.act) group.now ≡ true }
    ensures done { (now : Seen) (world : World) → now.told ≡ F.told folder.old
        → IsIn now.told session.old world
        → OnOk result (DoesPart (together group.now) world session.new now now) }
    ensures stopped { (now : Seen) (world : World) → now.told ≡ F.told folder.old
        → IsIn now.told session.old world
        → IfErr result
        (λ stop. FailsAt stop.why (together group.now) group.now stop.at world now now) }
    ensures at { IfErr result (λ stop. stop.at < length group.now) }
    ensures reads { IfErr result (λ stop. (stop.why ≢ Stop.PutFailed) × (stop.why ≢ Stop.SinkFailed)
        × (stop.why ≢ Stop.Blocked Cause.Words)) }

    ensures read_failed { IfErr result (λ stop. stop.why ≡ Stop.ReadFailed
        → Rose (F.read_faults folder.old) (F.read_faults folder.new)) }
    ensures missing { IfErr result (λ stop. stop.why ≡ Stop.Blocked Cause.Missing
        → Rose (F.misses folder.old) (F.misses folder.new)) }
    ensures same { F.told folder.new ≡ F.told folder.old }
    ensures read_faults { F.read_faults folder.old ≤ F.read_faults folder.new }
    ensures put_faults { F.put_faults folder.old ≤ F.put_faults folder.new }
    ensures misses { F.misses folder.old ≤ F.misses folder.new }
    ensures given { F.given folder.new ≤ F.given folder.old + read_rooms group.now }
{
    let held = match read_all(forks.alloc, group, folder) {
        Ok(held) => held,
        Err(stop) => return Err(stop),
    };
    let feeds = match parse_all(forks, held, known) {
        Ok(feeds) => feeds,
        Err(stop) => return Err(stop),
    };
    match set_all(feeds, session) {
        Ok(()) => Ok(()),
        Err(Memory) => Err(OUT_OF_MEMORY),
    }
}

/// Want of memory stops a group as a whole: no line is printed for it.
const OUT_OF_MEMORY: StepStop = StepStop {
    at: 0,
    why: Stop::Memory,
};

/// Reads the files of lines that set feeds, in order.
fn read_all<'a, F: Folder>(
    alloc: Global,
    group: &'a [Step],
    folder: &mut F,
) -> Result<Vec<Held<'a>>, StepStop>
    requires { list_all (λ s. sets_feed s.act) group.now ≡ true }
    ensures read { (w : Told) → F.told folder.old ≡ Some w
        → IfOk result (λ held. AllZip (IsRead w) group.entry.now held.items) }
    ensures halted { (w : Told) → F.told folder.old ≡ Some w
        → IfErr result (λ stop. HaltsReading w group.entry.now stop.why stop.at) }
    ensures long { IfOk result (λ held. length held.items ≡ length group.entry.now) }
    ensures at { IfErr result (λ stop. stop.at < length group.entry.now) }
    ensures reads { IfErr result (λ stop. (stop.why ≢ Stop.PutFailed) × (stop.why ≢ Stop.SinkFailed)
        × (stop.why ≢ Stop.Blocked Cause.Words)) }

    ensures read_failed { IfErr result (λ stop. stop.why ≡ Stop.ReadFailed
        → Rose (F.read_faults folder.old) (F.read_faults folder.new)) }
    ensures missing { IfErr result (λ stop. stop.why ≡ Stop.Blocked Cause.Missing
        → Rose (F.misses folder.old) (F.misses folder.new)) }
    ensures same { F.told folder.new ≡ F.told folder.old }
    ensures read_faults { F.read_faults folder.old ≤ F.read_faults folder.new }
    ensures put_faults { F.put_faults folder.old ≤ F.put_faults folder.new }
    ensures misses { F.misses folder.old ≤ F.misses folder.new }
    ensures given { F.given folder.new ≤ F.given folder.old + read_rooms group.entry.now }
{
    let mut all = Vec::new(alloc);
    for (at, step) in group.iter().enumerate() {
        match read_line(alloc, step, folder) {
            Ok(held) => match all.push(held) {
                Ok(()) => {}
                Err(_) => return Err(StepStop {
                    at,
                    why: Stop::Memory,
                }),
            },
            Err(why) => return Err(StepStop { at, why }),
        }
    }
    Ok(all)
}

/// Reads the file of a line that sets a feed.
fn read_line<'a, F: Folder>(alloc: Global, step: &'a Step, folder: &mut F) -> Result<Held<'a>, Stop>
    requires { sets_feed step.now.act ≡ true }
    ensures read { (w : Told) → F.told folder.old ≡ Some w
        → IfOk result (IsRead w step.entry.now) }
    ensures unread { (w : Told) → F.told folder.old ≡ Some w → IfErr result (λ why. IsHindered why
        (λ cause. no_read w step.entry.now ≡ Some cause)) }
    ensures reads { (result ≢ Err Stop.PutFailed) × (result ≢ Err Stop.SinkFailed)
        × (result ≢ Err (Stop.Blocked Cause.Words)) }

    ensures read_failed { result ≡ Err Stop.ReadFailed
        → Rose (F.read_faults folder.old) (F.read_faults folder.new) }
    ensures missing { result ≡ Err (Stop.Blocked Cause.Missing)
        → Rose (F.misses folder.old) (F.misses folder.new) }
    ensures same { F.told folder.new ≡ F.told folder.old }
    ensures read_faults { F.read_faults folder.old ≤ F.read_faults folder.new }
    ensures put_faults { F.put_faults folder.old ≤ F.put_faults folder.new }
    ensures misses { F.misses folder.old ≤ F.misses folder.new }
    ensures given { F.given folder.new ≤ F.given folder.old + read_room step.entry.now.act }
{
    let Act::Feed { url, file } = &step.act else {
        unreachable!()
    };
    match read_file(alloc, folder, file.as_str(), LONGEST_FEED as u64) {
        Ok(bytes) => Ok(Held {
            url: url.as_str(),
            bytes,
        }),
        Err(why) => Err(why),
    }
}

/// The feeds of what was read, by pieces side by side, or the first that is none.
fn parse_all<R: Threads + Sync, G: Gate>(
    forks: &Forks<R, G>,
    held: Vec<Held<'_>>,
    known: &mut KnownTails,
) -> Result<Vec<ReadyFeed>, StepStop>
    ensures feeds { IfOk result (λ feeds. AllZip Parses held.entry.items (map Ok feeds.items)) }
    ensures refused { IfErr result (λ stop. RefusesParsing held.entry.items stop.why stop.at) }
{
    match parsed_all(forks, held, known) {
        Ok(parsed) => all_feeds(forks.alloc, parsed),
        Err(Memory) => Err(OUT_OF_MEMORY),
    }
}

/// What each of those that were read is, one run of them after another, so that a run has the tails
/// of those before it. A run is a long one alone, or short ones between two long ones.
fn parsed_all<R: Threads + Sync, G: Gate>(
    forks: &Forks<R, G>,
    held: Vec<Held<'_>>,
    known: &mut KnownTails,
) -> Result<Vec<Result<ReadyFeed, Stop>>, Memory>
    ensures related { IfOk result (λ parsed. AllZip Parses held.entry.items parsed.items) }
{
    let mut parsed = Vec::new(forks.alloc);
    let mut run = Vec::new(forks.alloc);
    for one in held {
        if one.bytes.len() <= FEED_PART {
            run.push(one)?;
        } else {
            add_run(forks, run, known, &mut parsed)?;
            run = Vec::new(forks.alloc);
            add_long(forks, one, known, &mut parsed)?;
        }
    }
    add_run(forks, run, known, &mut parsed)?;
    Ok(parsed)
}

/// Adds what each of a run of short ones is, by pieces side by side.
fn add_run<R: Threads + Sync, G: Gate>(
    forks: &Forks<R, G>,
    run: Vec<Held<'_>>,
    known: &mut KnownTails,
    parsed: &mut Vec<Result<ReadyFeed, Stop>>,
) -> Result<(), Memory>
    ensures { OnOk result (ParsesMore run.entry.items parsed.old.items parsed.new.items) }
{
    let work = Parsing {
        alloc: forks.alloc,
        known,
    };
    let found = map_pieces(
        forks.rt,
        forks.alloc,
        forks.gate,
        forks.pieces,
        run.as_slice(),
        &work,
    )?;
    learn(found, known, parsed)?;
    Ok(())
}

/// Adds what a long one is.
fn add_long<R: Threads + Sync, G: Gate>(
    forks: &Forks<R, G>,
    held: Held<'_>,
    known: &mut KnownTails,
    parsed: &mut Vec<Result<ReadyFeed, Stop>>,
) -> Result<(), Memory>
    ensures { OnOk result (ParsesMore (held.entry ∷ []) parsed.old.items parsed.new.items) }
{
    let found = parsed_long(forks, held, known)?;
    learn(found, known, parsed)?;
    Ok(())
}

/// What a long one is, by parts side by side.
fn parsed_long<R: Threads + Sync, G: Gate>(
    forks: &Forks<R, G>,
    held: Held<'_>,
    known: &KnownTails,
) -> Result<Vec<Parsed>, Memory>
    ensures related { IfOk result (λ parsed. AllZip Parses (held.entry ∷ []) parsed.items) }
{
    let mut learned = Vec::new(forks.alloc);
    let feed = ready_long(forks, held.url, held.bytes, known, &mut learned);
    let mut parsed = Vec::new(forks.alloc);
    parsed.push(Parsed { feed, learned })?;
    Ok(parsed)
}

/// Adds what those that were parsed are, whose new tails are handed to those that come later.
fn learn(
    found: Vec<Parsed>,
    known: &mut KnownTails,
    parsed: &mut Vec<Result<ReadyFeed, Stop>>,
) -> Result<(), Memory>
    ensures { OnOk result (parsed.new.items ≡ parsed.old.items ++ found.items) }
{
    for one in found {
        known.learn(one.learned)?;
        parsed.push(one.feed)?;
    }
    Ok(())
}

/// The feeds, where none was refused, or the first that was.
fn all_feeds(
    alloc: Global,
    parsed: Vec<Result<ReadyFeed, Stop>>,
) -> Result<Vec<ReadyFeed>, StepStop>
    ensures feeds { IfOk result (λ feeds. parsed.items ≡ map Ok feeds.items) }
    ensures refused { IfErr result (λ stop. IsFirstRefused parsed.items stop.why stop.at
        ⊎ ((stop.why ≡ Stop.Memory) × (stop.at ≡ 0))) }
{
    let mut feeds = Vec::new(alloc);
    for found in parsed {
        match found {
            Ok(feed) => match feeds.push(feed) {
                Ok(()) => {}
                Err(_) => return Err(OUT_OF_MEMORY),
            },
            Err(why) => return Err(StepStop {
                at: feeds.len(),
                why,
            }),
        }
    }
    Ok(feeds)
}

/// The feed that these bytes are, ready to be set.
fn ready_feed(
    alloc: Global,
    url: &str,
    bytes: &[u8],
    known: &KnownTails,
    learned: &mut Vec<OwnTail>,
) -> Result<ReadyFeed, Stop>
    ensures feed { IfOk result (λ found. found ≡ feed url.now bytes.now) }
    ensures few { OnOk result (no_feed (Some bytes.now) ≡ None) }
    ensures unset { IfErr result (λ why. IsHindered why
        (λ cause. no_feed (Some bytes.now) ≡ Some cause)) }
    ensures read { (result ≢ Err Stop.ReadFailed) × (result ≢ Err (Stop.Blocked Cause.Missing)) }
    ensures reads { (result ≢ Err Stop.PutFailed) × (result ≢ Err Stop.SinkFailed)
        × (result ≢ Err (Stop.Blocked Cause.Words)) }
{
    let feed = match feed_of(alloc, url, bytes, known, learned) {
        Ok(feed) => feed,
        Err(why) => return Err(why),
    };
    match ReadyFeed::of(alloc, feed) {
        Ok(ready) => Ok(ready),
        Err(Memory) => Err(Stop::Memory),
    }
}

/// The feed that these bytes are.
fn feed_of(
    alloc: Global,
    url: &str,
    bytes: &[u8],
    known: &KnownTails,
    learned: &mut Vec<OwnTail>,
) -> Result<Feed, Stop>
    ensures feed { IfOk result (λ found. found ≡ feed url.now bytes.now) }
    ensures few { OnOk result (no_feed (Some bytes.now) ≡ None) }
    ensures unset { IfErr result (λ why. IsHindered why
        (λ cause. no_feed (Some bytes.now) ≡ Some cause)) }
    ensures read { (result ≢ Err Stop.ReadFailed) × (result ≢ Err (Stop.Blocked Cause.Missing)) }
    ensures reads { (result ≢ Err Stop.PutFailed) × (result ≢ Err Stop.SinkFailed)
        × (result ≢ Err (Stop.Blocked Cause.Words)) }
{
    match read_feed(alloc, url, bytes, known, learned) {
        Ok(found) => Ok(found),
        Err(SourceFault::TooLong) => Err(Stop::Blocked(Cause::TooLong)),
        Err(SourceFault::TooMany) => Err(Stop::Blocked(Cause::TooMany)),
        Err(SourceFault::Memory) => Err(Stop::Memory),
    }
}

/// The feed that these bytes are, read by parts side by side and ready to be set.
fn ready_long<R: Threads + Sync, G: Gate>(
    forks: &Forks<R, G>,
    url: &str,
    bytes: Vec<u8>,
    known: &KnownTails,
    learned: &mut Vec<OwnTail>,
) -> Result<ReadyFeed, Stop>
    ensures feed { IfOk result (λ found. found ≡ feed url.now bytes.items) }
    ensures few { OnOk result (no_feed (Some bytes.items) ≡ None) }
    ensures unset { IfErr result (λ why. IsHindered why
        (λ cause. no_feed (Some bytes.items) ≡ Some cause)) }
    ensures read { (result ≢ Err Stop.ReadFailed) × (result ≢ Err (Stop.Blocked Cause.Missing)) }
    ensures reads { (result ≢ Err Stop.PutFailed) × (result ≢ Err Stop.SinkFailed)
        × (result ≢ Err (Stop.Blocked Cause.Words)) }
{
    let feed = match long_feed_of(forks, url, bytes, known, learned) {
        Ok(feed) => feed,
        Err(why) => return Err(why),
    };
    match ReadyFeed::of(forks.alloc, feed) {
        Ok(ready) => Ok(ready),
        Err(Memory) => Err(Stop::Memory),
    }
}

/// The feed that these bytes are, read by parts side by side.
fn long_feed_of<R: Threads + Sync, G: Gate>(
    forks: &Forks<R, G>,
    url: &str,
    bytes: Vec<u8>,
    known: &KnownTails,
    learned: &mut Vec<OwnTail>,
) -> Result<Feed, Stop>
    ensures feed { IfOk result (λ found. found ≡ feed url.now bytes.items) }
    ensures few { OnOk result (no_feed (Some bytes.items) ≡ None) }
    ensures unset { IfErr result (λ why. IsHindered why
        (λ cause. no_feed (Some bytes.items) ≡ Some cause)) }
    ensures read { (result ≢ Err Stop.ReadFailed) × (result ≢ Err (Stop.Blocked Cause.Missing)) }
    ensures reads { (result ≢ Err Stop.PutFailed) × (result ≢ Err Stop.SinkFailed)
        × (result ≢ Err (Stop.Blocked Cause.Words)) }
{
    match read_feed_by_parts(forks, url, bytes, known, learned) {
        Ok(found) => Ok(found),
        Err(SourceFault::TooLong) => Err(Stop::Blocked(Cause::TooLong)),
        Err(SourceFault::TooMany) => Err(Stop::Blocked(Cause::TooMany)),
        Err(SourceFault::Memory) => Err(Stop::Memory),
    }
}

/// Sets feeds, one after another.
fn set_all(feeds: Vec<ReadyFeed>, session: &mut Session) -> Result<(), Memory>
    ensures { (w : Standing) → Stands session.old w
        → OnOk result (Stands session.new (with_feeds feeds.items w)) }
{
    standing_stays();
    session.set_ready_feeds(feeds)?;
    Ok(())
}
