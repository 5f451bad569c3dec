//! `census JOB`: prints how many addresses each country has by a job.
ghost use Rattle.std.specs.Prelude.{◌≡◌, ◌⊎◌, ◌≤◌, ◌+◌, [], IfErr, IfOk, OnOk, Option};
ghost use Rattle.geo_outside.specs.Count.{Rose};
ghost use Rattle.geo_outside.specs.Files.{Told};
ghost use Rattle.geo_terms.specs.Sources.{InForce};
ghost use Rattle.check_census.specs.Census.{census};
ghost use Rattle.check_census.specs.Texts.{count_lines};
ghost use Rattle.job_run.specs.Acts.{effect, shows};
ghost use Rattle.job_run.specs.Seen.{seen};
ghost use Rattle.job_run.specs.Stops.{Does, Fails, IsIn, IsPaid};
ghost use Rattle.job_run.specs.World.{World};
ghost use Rattle.update_session.specs.Calls.{HasEmitted, HasGrown, IsSpent};
ghost use Rattle.update_session.specs.Kept.{RootMeans};
ghost use Rattle.update_session.specs.Touch.{bound};
ghost use Rattle.geofeed_cmd.specs.Commands.Census.{counting, country_by};

use check_census::census_text;
use fan_work::Forks;
use geo_addr::{Memory, Text};
use geo_outside::{Gate, Sink, Steps};
use job_run::{Cause, Stop, print};
use std::alloc::Global;
use std::marker::Sync;
use std::sync::ledger::Ledger;
use std::thread::Threads;
use update_session::laws::standing_stays;
use update_session::{EmitFault, Session};

/// Builds the tree of the sources in force, and prints how many addresses each country has in it.
pub(crate) fn print_counts<R: Threads + Sync, O: Sink, G: Gate, L: Ledger>(
    forks: &Forks<'_, R, G>,
    session: &mut Session,
    out: &mut O,
    steps: &mut Steps<L>,
) -> Result<(), Stop>
    ensures done { (told : Option Told) (world : World) → IsIn told session.old world
        → OnOk result (Does (shows counting) world session.new
        (seen told (O.written out.old) (O.faults out.old) steps.old)
        (seen told (O.written out.new) (O.faults out.new) steps.new)) }
    ensures failed { (told : Option Told) (world : World) → IsIn told session.old world
        → IfErr result (λ why. Fails why (shows counting) world []
        (seen told (O.written out.old) (O.faults out.old) steps.old)
        (seen told (O.written out.new) (O.faults out.new) steps.new)) }
    ensures paid { (told : Option Told) (world : World) → IsIn told session.old world
        → IsPaid (effect (shows counting) world) world steps.old steps.new }
    ensures causes { IfErr result (λ why. (why ≡ Stop.Blocked Cause.TooLarge)
        ⊎ ((why ≡ Stop.SinkFailed) ⊎ (why ≡ Stop.Memory))) }
    ensures sink_failed { result ≡ Err Stop.SinkFailed
        → Rose (O.faults out.old) (O.faults out.new) }
    ensures faults { O.faults out.old ≤ O.faults out.new }
{
    standing_stays();
    let text = match counts_of(forks, session, steps) {
        Ok(text) => text,
        Err(why) => return Err(why),
    };
    print(out, text.as_str())
}

/// The text of how many addresses each country has by the sources in force.
fn counts_of<R: Threads + Sync, G: Gate, L: Ledger>(
    forks: &Forks<'_, R, G>,
    session: &mut Session,
    steps: &mut Steps<L>,
) -> Result<Text, Stop>
    ensures text { IfOk result (λ text. text
        ≡ count_lines (census (country_by session.old.state.sources))) }
    ensures too_large { result ≡ Err (Stop.Blocked Cause.TooLarge) → IsSpent session.old }
    ensures causes { IfErr result
        (λ why. (why ≡ Stop.Blocked Cause.TooLarge) ⊎ (why ≡ Stop.Memory)) }
    ensures spent { steps.new ≤ steps.old + bound session.old.touched session.old.state.sources }
    ensures grown { HasGrown session.old session.new }
    ensures done { OnOk result (HasEmitted session.old session.new) }
{
    match session.build_tree(forks.rt, forks.gate, forks.pieces, steps) {
        Ok(_) => {}
        Err(EmitFault::TooLarge) => return Err(Stop::Blocked(Cause::TooLarge)),
        Err(EmitFault::Memory) => return Err(Stop::Memory),
    }
    match text_of(forks.alloc, session) {
        Ok(text) => Ok(text),
        Err(Memory) => Err(Stop::Memory),
    }
}

/// The text of how many addresses each country has in the tree of a session.
fn text_of(alloc: Global, session: &Session) -> Result<Text, Memory>
    ensures { (s : InForce) → RootMeans session.now s
        → IfOk result (λ text. text ≡ count_lines (census (country_by s))) }
{
    let root = session.root();
    let counts = check_census::census(alloc, session.store(), root, session.places())?;
    census_text(alloc, counts.as_slice())
}
