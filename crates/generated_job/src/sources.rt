//! The sources of the generated job, and the session in which they are set.
ghost use Rattle.std.specs.Prelude.{◌≡◌, ◌≤◌, true, IfOk, OnOk};
ghost use Rattle.geo_terms.specs.declared.source.SourceFault.TheVariants as faults;
ghost use Rattle.source_changes.specs.Changes.{SetFeed};
ghost use Rattle.update_session.specs.Calls.{HasChanged, IsNew};
ghost use Rattle.update_session.specs.Standing.{Stands};
ghost use Rattle.generated_job.specs.Job.{first_set, gen_epoch, gen_name, the_dump, the_feed};
ghost use Rattle.generated_job.specs.Job.{the_stats};

use fan_work::Forks;
use feed_csv::{KnownTails, read_feed_by_parts};
use feed_refs::DumpReader;
use generated::gen_feed;
use geo_addr::{Memory, Text};
use geo_outside::Gate;
use geo_terms::{Dump, Feed, SourceFault, Stats};
use mmdb_file::Meta;
use nro_stats::read_stats;
use std::alloc::Global;
use std::marker::Sync;
use std::thread::Threads;
use update_session::laws::standing_stays;
use update_session::{ReadyFeed, Session};

/// When the generated job's files are built, in seconds since 1970 began.
const EPOCH: u64 = 1_700_000_000;

/// The database type of its files.
const TYPE: &str = "Geofeed-City";

/// The slot of its dump and of its statistics.
const SLOT: &str = "gen";

/// The URL of its feed.
const URL: &str = "https://gen.example/feed.csv";

/// Its dump.
const DUMP: &str = "inetnum: 10.0.0.0 - 10.255.255.255\ngeofeed: https://gen.example/feed.csv\n";

/// Its statistics.
const STATS: &str = "gen|US|ipv4|10.0.0.0|16777216|20200101|allocated\n";

/// A session of the generated job's epoch and type, without a source. Memory alone can lack.
pub fn gen_session(alloc: Global) -> Result<Session, Memory>
    ensures { IfOk result (IsNew gen_epoch gen_name) }
{
    let name = Text::of(alloc, TYPE)?;
    Session::new(alloc, Meta { epoch: EPOCH, name })
}

/// Sets the dump, the statistics and the first feed of the generated job of so many lines, in a
/// session without a source. Memory alone can lack.
pub fn set_first<R: Threads + Sync, G: Gate>(
    forks: &Forks<R, G>,
    lines: u32,
    session: &mut Session,
) -> Result<(), Memory>
    requires few { lines ≤ 1000000 }
    requires new { IsNew gen_epoch gen_name session.old }
    ensures { OnOk result (Stands session.new (first_set lines)) }
{
    standing_stays();
    let dump = the_dump(forks.alloc)?;
    session.set_rpsl(dump)?;
    let stats = the_stats(forks)?;
    session.set_stats(stats)?;
    let feed = the_feed(forks, lines, false)?;
    session.set_ready_feed(feed)
}

/// Sets the second feed of the generated job of so many lines in place of the first one. Memory
/// alone can lack.
pub fn set_second<R: Threads + Sync, G: Gate>(
    forks: &Forks<R, G>,
    lines: u32,
    session: &mut Session,
) -> Result<(), Memory>
    requires few { lines ≤ 1000000 }
    ensures { OnOk result (HasChanged (SetFeed (the_feed true lines)) session.old session.new) }
{
    let feed = the_feed(forks, lines, true)?;
    session.set_ready_feed(feed)
}

#[tactic(auto, unfolding(crate::specs::Job::dump_text))]
fn the_dump(alloc: Global) -> Result<Dump, Memory>
    ensures { IfOk result (λ dump. dump ≡ the_dump) }
{
    let mut reader = DumpReader::new(alloc, SLOT)?;
    match reader.feed(DUMP.as_bytes()) {
        Ok(()) => {}
        Err(fault) => return Err(memory_of(fault)),
    }
    match reader.finish() {
        Ok(dump) => Ok(dump),
        Err(fault) => Err(memory_of(fault)),
    }
}

#[tactic(auto, unfolding(crate::specs::Job::stats_text))]
fn the_stats<R: Threads + Sync, G: Gate>(forks: &Forks<R, G>) -> Result<Stats, Memory>
    ensures { IfOk result (λ stats. stats ≡ the_stats) }
{
    match read_stats(forks.alloc, SLOT, STATS.as_bytes()) {
        Ok(stats) => Ok(stats),
        Err(fault) => Err(memory_of(fault)),
    }
}

fn the_feed<R: Threads + Sync, G: Gate>(
    forks: &Forks<R, G>,
    lines: u32,
    second: bool,
) -> Result<ReadyFeed, Memory>
    requires few { lines ≤ 1000000 }
    ensures { IfOk result (λ feed. feed ≡ the_feed second lines) }
{
    let feed = read_generated(forks, lines, second)?;
    ReadyFeed::of(forks.alloc, feed)
}

fn read_generated<R: Threads + Sync, G: Gate>(
    forks: &Forks<R, G>,
    lines: u32,
    second: bool,
) -> Result<Feed, Memory>
    requires few { lines ≤ 1000000 }
    ensures { IfOk result (λ feed. feed ≡ the_feed second lines) }
{
    let bytes = gen_feed(forks.alloc, lines, second)?;
    let (known, mut learned) = (KnownTails::new(forks.alloc), Vec::new(forks.alloc));
    match read_feed_by_parts(forks, URL, bytes, &known, &mut learned) {
        Ok(feed) => Ok(feed),
        Err(fault) => Err(memory_of(fault)),
    }
}

// What is in the way of a source that is within its limits.
fn memory_of(fault: SourceFault) -> Memory
    requires { fault ≡ faults.Memory }
{
    match fault {
        SourceFault::Memory => Memory,
        SourceFault::TooLong | SourceFault::TooMany => unreachable!(),
    }
}
