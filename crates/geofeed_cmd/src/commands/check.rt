//! `check JOB URL`: prints what becomes of each line of a feed of a job.
ghost use Rattle.std.specs.Prelude.{◌≡◌, ◌⊎◌, ◌≤◌, ℕ, [], IfErr, IfOk, OnOk, Option, Some, length};
ghost use Rattle.geo_outside.specs.Count.{Rose};
ghost use Rattle.geo_outside.specs.Files.{Told};
ghost use Rattle.geo_terms.specs.Sources.{feed_of};
ghost use Rattle.check_census.specs.Texts.{verdict_lines};
ghost use Rattle.check_census.specs.Verdicts.{verdicts};
ghost use Rattle.job_lines.specs.Commands.{check_key};
ghost use Rattle.job_lines.specs.Acts.{feed_key};
ghost use Rattle.job_run.specs.Acts.{shows};
ghost use Rattle.job_run.specs.Seen.{seen};
ghost use Rattle.job_run.specs.Stops.{Does, Fails, IsIn};
ghost use Rattle.job_run.specs.World.{World};
ghost use Rattle.geofeed_cmd.specs.Commands.Check.{checking};
ghost use Rattle.geofeed_cmd.specs.Run.Ends.{Concludes, around};

use crate::last::{Last, by_sources};
use crate::status::Status;
use crate::stop::no_command;
use check_census::verdict_text;
use fan_work::Forks;
use geo_addr::{Memory, Text};
use geo_outside::{Folder, Gate, Sink, Steps};
use geo_terms::Feed;
use job_lines::{LineFault, Reason, url_at};
use job_run::{Cause, Journal, Stop, print};
use precedence::Sources;
use std::alloc::Global;
use std::marker::Sync;
use std::sync::ledger::Ledger;
use std::thread::Threads;
use update_session::{ReadyFeed, Session};

/// Does `check` with the URL that a word is, if it is one.
pub(crate) fn check<R: Threads + Sync, F: Folder, O: Sink, G: Gate, L: Ledger>(
    forks: &Forks<'_, R, G>,
    name: &str,
    word: &str,
    folder: &mut F,
    out: &mut O,
    steps: &mut Steps<L>,
    journal: &mut Journal,
) -> Status
    ensures leaves { Concludes result (check_key name.now (feed_key word.now))
        (around F.Folder O.Sink folder.old out.old steps.old)
        (around F.Folder O.Sink folder.new out.new steps.new) }
{
    match key_of(forks.alloc, name, word, journal) {
        Ok(Some(url)) => {
            let last = Last::Check(url.as_str());
            by_sources(forks, name, &last, folder, out, steps, journal)
        }
        Ok(None) => no_command(forks.alloc, out, journal),
        Err(Memory) => Status::Memory,
    }
}

/// The key of a feed that a word is, or `None`, of which the reason is noted.
fn key_of(
    alloc: Global,
    name: &str,
    word: &str,
    journal: &mut Journal,
) -> Result<Option<Text>, Memory>
    ensures { IfOk result (λ key. key ≡ feed_key word.now) }
{
    match url_at(alloc, word.as_bytes(), 2) {
        Ok(key) => Ok(Some(key)),
        Err(LineFault::Memory) => Err(Memory),
        Err(fault) => {
            journal.refuse(Reason::of_word(alloc, fault, "check", name, word).ok());
            Ok(None)
        }
    }
}

/// Prints what becomes of each line of the feed of this URL by the sources of a session.
pub(crate) fn print_verdicts<O: Sink>(
    alloc: Global,
    url: &str,
    session: &Session,
    out: &mut O,
    journal: &mut Journal,
) -> Result<(), Stop>
    ensures done { (told : Option Told) (steps : ℕ) (world : World)
        → IsIn told session.now world
        → OnOk result (Does (shows (checking url.now)) world session.now
        (seen told (O.written out.old) (O.faults out.old) steps)
        (seen told (O.written out.new) (O.faults out.new) steps)) }
    ensures failed { (told : Option Told) (steps : ℕ) (world : World)
        → IsIn told session.now world
        → IfErr result (λ why. Fails why (shows (checking url.now)) world []
        (seen told (O.written out.old) (O.faults out.old) steps)
        (seen told (O.written out.new) (O.faults out.new) steps)) }
    ensures causes { IfErr result (λ why. (why ≡ Stop.Blocked Cause.NoFeed)
        ⊎ ((why ≡ Stop.SinkFailed) ⊎ (why ≡ Stop.Memory))) }
    ensures sink_failed { result ≡ Err Stop.SinkFailed
        → Rose (O.faults out.old) (O.faults out.new) }
    ensures faults { O.faults out.old ≤ O.faults out.new }
{
    let sources = session.sources();
    let feed = match sources.feed_of(url) {
        Some(feed) => feed,
        None => {
            offer_feeds(sources, url, journal);
            return Err(Stop::Blocked(Cause::NoFeed));
        }
    };
    let text = match text_of(alloc, sources, feed) {
        Ok(text) => text,
        Err(Memory) => return Err(Stop::Memory),
    };
    print(out, text.as_str())
}

/// The text of what becomes of each line of a feed in force.
fn text_of(alloc: Global, sources: &Sources, feed: &Feed) -> Result<Text, Memory>
    requires { feed_of sources.now feed.now.url ≡ Some feed.now }
    ensures { IfOk result (λ text. text ≡ verdict_lines (verdicts sources.now feed.now)) }
{
    let verdicts = check_census::check(alloc, sources, feed)?;
    verdict_text(alloc, verdicts.as_slice())
}

// Notes the feeds between which one of this URL would stand.
fn offer_feeds(sources: &Sources, url: &str, journal: &mut Journal) {
    let feeds = sources.feeds();
    let at = place_in(feeds, url);
    journal.offer(url_of(feeds[..at].last()), url_of(feeds[at..].first()));
}

// Where a feed of this URL stands, or where it would.
fn place_in(feeds: &[ReadyFeed], url: &str) -> usize
    ensures { result ≤ length feeds.now }
{
    match feeds.binary_search_by(|ready| ready.feed().url.as_str().cmp(url)) {
        Ok(at) => at,
        Err(at) => at,
    }
}

fn url_of(feed: Option<&ReadyFeed>) -> Option<Text> {
    match feed {
        Some(ready) => ready.feed().url.copied().ok(),
        None => None,
    }
}
