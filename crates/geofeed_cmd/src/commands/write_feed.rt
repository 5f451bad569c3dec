//! The last move of `publish`: a feed, written, and its line, printed.
ghost use Rattle.std.specs.Prelude.{◌≡◌, ◌⊎◌, ◌≤◌, ◌+◌, [], length, IfErr, IfOk, OnOk};
ghost use Rattle.std.specs.Prelude.{Some};
ghost use Rattle.geo_addr.specs.Ranges.{IsBlock};
ghost use Rattle.geo_outside.specs.Count.{Rose};
ghost use Rattle.geo_outside.specs.Files.{Told};
ghost use Rattle.mmdb_file.specs.FileImage.{record_tree};
ghost use Rattle.publish_least.specs.Lines.{IsPlain};
ghost use Rattle.published.specs.CleanSources.{AreCleanSources};
ghost use Rattle.published.specs.PlaceLines.{published, published_lines};
ghost use Rattle.published.specs.Shortest.{IsShortestFeed};
ghost use Rattle.update_session.specs.Calls.{HasEmitted, HasGrown, IsSpent};
ghost use Rattle.update_session.specs.Touch.{bound};
ghost use Rattle.job_run.specs.Acts.{effect, shows};
ghost use Rattle.job_run.specs.Seen.{seen};
ghost use Rattle.job_run.specs.Stops.{Does, Fails, IsIn, IsPaid};
ghost use Rattle.job_run.specs.World.{World};
ghost use Rattle.geofeed_cmd.specs.Commands.Publish.{publishing};
ghost use Rattle.geofeed_cmd.specs.Run.Feeds.{HoldsFeed};

use fan_work::Forks;
use geo_addr::{Block, Memory};
use geo_outside::{Folder, Gate, Sink, Steps};
use job_run::{Cause, Stop, print, put};
use published::{Publication, printed_line, publish};
use std::marker::Sync;
use std::sync::ledger::Ledger;
use std::thread::Threads;
use update_session::laws::standing_stays;
use update_session::{EmitFault, Session};

/// Writes the shortest feed of a block under this name, and prints its line.
pub(crate) fn write_feed<R: Threads + Sync, F: Folder, O: Sink, G: Gate, L: Ledger>(
    forks: &Forks<'_, R, G>,
    block: Block,
    name: &str,
    session: &mut Session,
    folder: &mut F,
    out: &mut O,
    steps: &mut Steps<L>,
) -> Result<(), Stop>
    requires aligned { IsBlock block }
    requires plain { IsPlain block }
    ensures done { (world : World) → IsIn (F.told folder.old) session.old world
        → OnOk result (Does (shows (publishing block name.now)) world session.new
        (seen (F.told folder.old) (O.written out.old) (O.faults out.old) steps.old)
        (seen (F.told folder.new) (O.written out.new) (O.faults out.new) steps.new)) }
    ensures failed { (world : World) → IsIn (F.told folder.old) session.old world
        → IfErr result (λ why. Fails why (shows (publishing block name.now)) world []
        (seen (F.told folder.old) (O.written out.old) (O.faults out.old) steps.old)
        (seen (F.told folder.new) (O.written out.new) (O.faults out.new) steps.new)) }
    ensures paid { (world : World) → IsIn (F.told folder.old) session.old world
        → IsPaid (effect (shows (publishing block name.now)) world) world steps.old steps.new }
    ensures causes { IfErr result (λ why. (why ≡ Stop.Blocked Cause.TooLarge)
        ⊎ ((why ≡ Stop.PutFailed) ⊎ ((why ≡ Stop.SinkFailed) ⊎ (why ≡ Stop.Memory)))) }

    // The file holds the shortest feed of the block, which reads back.
    ensures published { (then : Told) → F.told folder.old ≡ Some then
        → AreCleanSources session.old.state.sources
        → OnOk result
        (HoldsFeed session.old.state.sources block name.now (F.told folder.new)) }

    ensures put_failed { result ≡ Err Stop.PutFailed
        → Rose (F.put_faults folder.old) (F.put_faults folder.new) }
    ensures sink_failed { result ≡ Err Stop.SinkFailed
        → Rose (O.faults out.old) (O.faults out.new) }
    ensures read_faults { F.read_faults folder.old ≤ F.read_faults folder.new }
    ensures put_faults { F.put_faults folder.old ≤ F.put_faults folder.new }
    ensures misses { F.misses folder.old ≤ F.misses folder.new }
    ensures given { F.given folder.new ≤ F.given folder.old }
    ensures faults { O.faults out.old ≤ O.faults out.new }
{
    standing_stays();
    let feed = match feed_of(forks, block, session, steps) {
        Ok(feed) => feed,
        Err(why) => return Err(why),
    };
    let line = match printed_line(forks.alloc, name, feed.lines) {
        Ok(line) => line,
        Err(Memory) => return Err(Stop::Memory),
    };
    match put(folder, name, feed.text.as_slice()) {
        Ok(()) => print(out, line.as_str()),
        Err(why) => Err(why),
    }
}

/// The feed of a block by the sources in force.
fn feed_of<R: Threads + Sync, G: Gate, L: Ledger>(
    forks: &Forks<'_, R, G>,
    block: Block,
    session: &mut Session,
    steps: &mut Steps<L>,
) -> Result<Publication, Stop>
    requires aligned { IsBlock block }
    requires plain { IsPlain block }
    ensures text { IfOk result (λ feed. feed.text.items
        ≡ published (record_tree session.old.state.sources) block) }
    ensures lines { IfOk result (λ feed. feed.lines
        ≡ length (published_lines (record_tree session.old.state.sources) block)) }
    ensures shortest { AreCleanSources session.old.state.sources → IfOk result
        (λ feed. IsShortestFeed session.old.state.sources block feed.text.items) }
    ensures too_large { result ≡ Err (Stop.Blocked Cause.TooLarge) → IsSpent session.old }
    ensures causes { IfErr result
        (λ why. (why ≡ Stop.Blocked Cause.TooLarge) ⊎ (why ≡ Stop.Memory)) }
    ensures spent { steps.new ≤ steps.old + bound session.old.touched session.old.state.sources }
    ensures grown { HasGrown session.old session.new }
    ensures done { OnOk result (HasEmitted session.old session.new) }
{
    match session.build_tree(forks.rt, forks.gate, forks.pieces, steps) {
        Ok(_) => {}
        Err(EmitFault::TooLarge) => return Err(Stop::Blocked(Cause::TooLarge)),
        Err(EmitFault::Memory) => return Err(Stop::Memory),
    }
    let root = session.root();
    match publish(forks.alloc, session.store(), session.places(), root, block) {
        Ok(feed) => Ok(feed),
        Err(Memory) => Err(Stop::Memory),
    }
}
