//! The steps of a job, one after another.
ghost use Rattle.std.specs.Prelude.{◌≡◌, ◌≢◌, ◌≤◌, ◌<◌, ◌+◌, ◌⊎◌, [], drop, false, length, take};
ghost use Rattle.std.specs.Prelude.{true, IfErr, IfOk, OnErr, OnOk};
ghost use Rattle.std.specs.List.{list_all};
ghost use Rattle.geo_outside.specs.Count.{Rose};
ghost use Rattle.job_run.specs.Moves.{alone, begins_feed, most_together, moves_by};
ghost use Rattle.job_run.specs.Moves.{read_rooms, sets_feed, takes};
ghost use Rattle.job_run.specs.Parts.{DoesFirst, DoesPart, FailsAt, FailsPart};
ghost use Rattle.job_run.specs.Seen.{seen};
ghost use Rattle.job_run.specs.Sources.{read_room};
ghost use Rattle.job_run.specs.Stops.{DoesAll, IsIn, StopsAt};
ghost use Rattle.job_run.specs.World.{World};

use crate::acts::do_step;
use crate::feeds::set_together;
use crate::journal::Journal;
use crate::scope::Scope;
use crate::stop::{Cause, Stop};
use fan_work::Forks;
use feed_csv::KnownTails;
use geo_outside::{Folder, Gate, Sink, Steps};
use job_lines::{Act, Step};
use std::marker::Sync;
use std::sync::ledger::Ledger;
use std::thread::Threads;
use update_session::Session;

/// The most lines that set feeds together.
const MOST_TOGETHER: usize = 16;

/// The index of the step of a job that was not done, and why it was not.
#[derive(Clone, Copy, Debug)]
pub struct StepStop {
    pub at: usize,
    pub why: Stop,
}

/// Does the steps of a job in order, up to the first that cannot be done: all of them, or those
/// that set and drop sources and keep and take what is in force. Neighbours that set feeds are
/// done together, up to 16 of them.
///
/// What is noticed on the way is written into the journal.
pub fn do_steps<R: Threads + Sync, F: Folder, O: Sink, G: Gate, L: Ledger>(
    forks: &Forks<R, G>,
    scope: Scope,
    job: &[Step],
    session: &mut Session,
    folder: &mut F,
    out: &mut O,
    steps: &mut Steps<L>,
    journal: &mut Journal,
) -> Result<(), StepStop>
    ensures done { (start : World) → IsIn (F.told folder.old) session.old start
        → start.text ≡ []
        → OnOk result (DoesAll (moves_by scope job.now) start session.new
        (seen (F.told folder.old) (O.written out.old) (O.faults out.old) steps.old)
        (seen (F.told folder.new) (O.written out.new) (O.faults out.new) steps.new)) }
    ensures stopped { (start : World) → IsIn (F.told folder.old) session.old start
        → start.text ≡ []
        → IfErr result (λ stop. StopsAt stop.why stop.at (moves_by scope job.now) job.now start
        (seen (F.told folder.old) (O.written out.old) (O.faults out.old) steps.old)
        (seen (F.told folder.new) (O.written out.new) (O.faults out.new) steps.new)) }
    ensures at { IfErr result (λ stop. stop.at < length job.now) }
    ensures not_words { IfErr result (λ stop. stop.why ≢ Stop.Blocked Cause.Words) }

    ensures read_failed { IfErr result (λ stop. stop.why ≡ Stop.ReadFailed
        → Rose (F.read_faults folder.old) (F.read_faults folder.new)) }
    ensures missing { IfErr result (λ stop. stop.why ≡ Stop.Blocked Cause.Missing
        → Rose (F.misses folder.old) (F.misses folder.new)) }
    ensures put_failed { IfErr result (λ stop. stop.why ≡ Stop.PutFailed
        → Rose (F.put_faults folder.old) (F.put_faults folder.new)) }
    ensures sink_failed { IfErr result (λ stop. stop.why ≡ Stop.SinkFailed
        → Rose (O.faults out.old) (O.faults out.new)) }
    ensures read_faults { F.read_faults folder.old ≤ F.read_faults folder.new }
    ensures put_faults { F.put_faults folder.old ≤ F.put_faults folder.new }
    ensures misses { F.misses folder.old ≤ F.misses folder.new }

    ensures faults { O.faults out.old ≤ O.faults out.new }

    // Each line reads no more than its file may have, or one more piece.
    ensures given { F.given folder.new ≤ F.given folder.old + read_rooms job.now }

    // Without the lines that write and print no file changes, nothing is printed and no step is
    // taken.
    ensures still { scope ≡ Scope.Sources → (steps.new ≡ steps.old) × (out.new ≡ out.old)
        × (F.told folder.new ≡ F.told folder.old) }
    ensures reads_only { scope ≡ Scope.Sources → IfErr result
        (λ stop. (stop.why ≢ Stop.PutFailed) × (stop.why ≢ Stop.SinkFailed)) }
{
    let mut known = KnownTails::new(forks.alloc);
    let mut at = 0;
    while at < job.len() {
        match do_first(
            forks,
            scope,
            &job[at..],
            session,
            folder,
            out,
            steps,
            &mut known,
        ) {
            Ok(count) => {
                journal.notices.of_done(scope, job, at, count, session);
                at += count;
            }
            Err(stop) => {
                return Err(StepStop {
                    at: at + stop.at,
                    why: stop.why,
                });
            }
        }
    }
    Ok(())
}

/// Does the first of these steps, or the first lines that set feeds together, and says how many
/// they were.
fn do_first<R: Threads + Sync, F: Folder, O: Sink, G: Gate, L: Ledger>(
    forks: &Forks<R, G>,
    scope: Scope,
    rest: &[Step],
    session: &mut Session,
    folder: &mut F,
    out: &mut O,
    steps: &mut Steps<L>,
    known: &mut KnownTails,
) -> Result<usize, StepStop>
    requires { 0 < length rest.now }
    ensures done { (world : World) → IsIn (F.told folder.old) session.old world
        → IfOk result (λ count. DoesFirst scope rest.now count world session.new
        (seen (F.told folder.old) (O.written out.old) (O.faults out.old) steps.old)
        (seen (F.told folder.new) (O.written out.new) (O.faults out.new) steps.new)) }
    ensures stopped { (world : World) → IsIn (F.told folder.old) session.old world
        → IfErr result (λ stop. FailsAt stop.why (moves_by scope rest.now) rest.now stop.at world
        (seen (F.told folder.old) (O.written out.old) (O.faults out.old) steps.old)
        (seen (F.told folder.new) (O.written out.new) (O.faults out.new) steps.new)) }
    ensures forward { IfOk result (λ count. (0 < count) × (count ≤ length rest.now)) }
    ensures at { IfErr result (λ stop. stop.at < length rest.now) }
    ensures not_words { IfErr result (λ stop. stop.why ≢ Stop.Blocked Cause.Words) }

    ensures read_failed { IfErr result (λ stop. stop.why ≡ Stop.ReadFailed
        → Rose (F.read_faults folder.old) (F.read_faults folder.new)) }
    ensures missing { IfErr result (λ stop. stop.why ≡ Stop.Blocked Cause.Missing
        → Rose (F.misses folder.old) (F.misses folder.new)) }
    ensures put_failed { IfErr result (λ stop. stop.why ≡ Stop.PutFailed
        → Rose (F.put_faults folder.old) (F.put_faults folder.new)) }
    ensures sink_failed { IfErr result (λ stop. stop.why ≡ Stop.SinkFailed
        → Rose (O.faults out.old) (O.faults out.new)) }
    ensures read_faults { F.read_faults folder.old ≤ F.read_faults folder.new }
    ensures put_faults { F.put_faults folder.old ≤ F.put_faults folder.new }
    ensures misses { F.misses folder.old ≤ F.misses folder.new }
    ensures faults { O.faults out.old ≤ O.faults out.new }
    ensures given { IfOk result (λ count. F.given folder.new + read_rooms (drop count rest.now)
        ≤ F.given folder.old + read_rooms rest.now) }
    ensures none_given { OnErr result
        (F.given folder.new ≤ F.given folder.old + read_rooms rest.now) }
    ensures still { scope ≡ Scope.Sources → (steps.new ≡ steps.old) × (out.new ≡ out.old)
        × (F.told folder.new ≡ F.told folder.old) }
    ensures reads_only { scope ≡ Scope.Sources → IfErr result
        (λ stop. (stop.why ≢ Stop.PutFailed) × (stop.why ≢ Stop.SinkFailed)) }
{
    let count = feeds_first(rest);
    if count > 0 {
        return match set_together(forks, &rest[..count], session, folder, known) {
            Ok(()) => Ok(count),
            Err(stop) => Err(stop),
        };
    }
    match do_alone(forks, scope, &rest[0], session, folder, out, steps) {
        Ok(()) => Ok(1),
        Err(why) => Err(StepStop { at: 0, why }),
    }
}

/// Does a step that sets no feed, or passes over it where it is not one of those to be done.
fn do_alone<R: Threads + Sync, F: Folder, O: Sink, G: Gate, L: Ledger>(
    forks: &Forks<R, G>,
    scope: Scope,
    step: &Step,
    session: &mut Session,
    folder: &mut F,
    out: &mut O,
    steps: &mut Steps<L>,
) -> Result<(), Stop>
    requires { sets_feed step.now.act ≡ false }
    ensures done { (world : World) → IsIn (F.told folder.old) session.old world
        → OnOk result (DoesPart (alone scope step.now) world session.new
        (seen (F.told folder.old) (O.written out.old) (O.faults out.old) steps.old)
        (seen (F.told folder.new) (O.written out.new) (O.faults out.new) steps.new)) }
    ensures stopped { (world : World) → IsIn (F.told folder.old) session.old world
        → IfErr result (λ why. FailsPart why (alone scope step.now) step.now world
        (seen (F.told folder.old) (O.written out.old) (O.faults out.old) steps.old)
        (seen (F.told folder.new) (O.written out.new) (O.faults out.new) steps.new)) }
    ensures not_words { result ≢ Err (Stop.Blocked Cause.Words) }

    ensures read_failed { result ≡ Err Stop.ReadFailed
        → Rose (F.read_faults folder.old) (F.read_faults folder.new) }
    ensures missing { result ≡ Err (Stop.Blocked Cause.Missing)
        → Rose (F.misses folder.old) (F.misses folder.new) }
    ensures put_failed { result ≡ Err Stop.PutFailed
        → Rose (F.put_faults folder.old) (F.put_faults folder.new) }
    ensures sink_failed { result ≡ Err Stop.SinkFailed
        → Rose (O.faults out.old) (O.faults out.new) }
    ensures read_faults { F.read_faults folder.old ≤ F.read_faults folder.new }
    ensures put_faults { F.put_faults folder.old ≤ F.put_faults folder.new }
    ensures misses { F.misses folder.old ≤ F.misses folder.new }
    ensures faults { O.faults out.old ≤ O.faults out.new }
    ensures given { F.given folder.new ≤ F.given folder.old + read_room step.now.act }
    ensures still { scope ≡ Scope.Sources → (steps.new ≡ steps.old) × (out.new ≡ out.old)
        × (F.told folder.new ≡ F.told folder.old) }
    ensures reads_only { scope ≡ Scope.Sources
        → (result ≢ Err Stop.PutFailed) × (result ≢ Err Stop.SinkFailed) }
{
    if !takes(scope, &step.act) {
        return Ok(());
    }
    do_step(forks, step, session, folder, out, steps)
}

/// How many of the first steps set feeds together: neighbours, up to 16.
fn feeds_first(rest: &[Step]) -> usize
    ensures few { result ≤ most_together }
    ensures within { result ≤ length rest.now }
    ensures feeds { list_all (λ s. sets_feed s.act) (take result rest.now) ≡ true }
    ensures end { (result ≡ most_together) ⊎ (begins_feed (drop result rest.now) ≡ false) }
{
    let mut count = 0;
    while count < MOST_TOGETHER && count < rest.len() {
        if !sets_feed(&rest[count].act) {
            return count;
        }
        count += 1;
    }
    count
}

fn sets_feed(act: &Act) -> bool
    ensures { result ≡ sets_feed act.now }
{
    match act {
        Act::Feed { .. } => true,
        Act::Rpsl { .. }
        | Act::Stats { .. }
        | Act::Overrides { .. }
        | Act::Drop(_)
        | Act::Emit { .. }
        | Act::Report
        | Act::Mark { .. }
        | Act::Back { .. }
        | Act::Compact => false,
    }
}

/// Whether an act is done where so much of a job is.
fn takes(scope: Scope, act: &Act) -> bool
    ensures { result ≡ takes scope act.now }
{
    match scope {
        Scope::Whole => true,
        Scope::Sources => match act {
            Act::Rpsl { .. }
            | Act::Stats { .. }
            | Act::Feed { .. }
            | Act::Overrides { .. }
            | Act::Drop(_)
            | Act::Mark { .. }
            | Act::Back { .. } => true,
            Act::Emit { .. } | Act::Report | Act::Compact => false,
        },
    }
}
