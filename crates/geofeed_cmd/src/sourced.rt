//! The sources of a job, set before a command goes on with them.
ghost use Rattle.std.specs.Prelude.{◌≡◌, ◌⊎◌, ◌≤◌, ◌<◌, ◌≢◌, ◌+◌, [], ◌∷◌, ◌++◌, IfErr, IfOk};
ghost use Rattle.std.specs.Prelude.{Option, Some, length, slice_get};
ghost use Rattle.fan_work.specs.declared.forks.TheConstants.{MOST_PIECES};
ghost use Rattle.geo_outside.specs.Count.{Rose};
ghost use Rattle.geo_outside.specs.Files.{Told};
ghost use Rattle.job_run.specs.Seen.{seen};
ghost use Rattle.job_lines.specs.Said.{IsWithinLimits};
ghost use Rattle.job_run.specs.Acts.{Move};
ghost use Rattle.job_lines.specs.declared.job.Step as steps_of;
ghost use Rattle.job_run.specs.Moves.{read_rooms, source_moves};
ghost use Rattle.job_run.specs.Sources.{file_named};
ghost use Rattle.job_run.specs.Stops.{DoesAll};
ghost use Rattle.job_lines.specs.Commands.{Command};
ghost use Rattle.geofeed_cmd.specs.Run.Answers.{Comes};
ghost use Rattle.geofeed_cmd.specs.Run.Plans.{plan_of, planned, start_of};
ghost use Rattle.geofeed_cmd.specs.Run.Stopped.{IsStatusOf, IsStopped};

use crate::status::Status;
use crate::stop::stop_at;
use fan_work::Forks;
use geo_addr::Memory;
use geo_outside::{Folder, Gate, Sink, Steps};
use job_lines::{Job, Step};
use job_run::{Journal, Scope, StepStop, do_steps, name_of};
use std::alloc::Global;
use std::marker::Sync;
use std::mem::forget;
use std::sync::ledger::Ledger;
use std::thread::Threads;
use update_session::Session;
use update_session::laws::standing_stays;

/// The same threads, memory and gate for work in so many pieces.
pub(crate) fn by_pieces<'a, R, G>(forks: &Forks<'a, R, G>, pieces: u32) -> Forks<'a, R, G>
    requires some { 0 < pieces }
    requires few { pieces ≤ MOST_PIECES }
    ensures { result.pieces ≡ pieces }
{
    Forks {
        rt: forks.rt,
        alloc: forks.alloc,
        gate: forks.gate,
        pieces,
    }
}

/// A session in which the lines of a job were done that set and drop sources, mark, and go back; or
/// the status of the command, whose stop line was printed.
pub(crate) fn sources_of<R: Threads + Sync, F: Folder, O: Sink, G: Gate, L: Ledger>(
    forks: &Forks<'_, R, G>,
    job: Job,
    folder: &mut F,
    out: &mut O,
    steps: &mut Steps<L>,
    journal: &mut Journal,
) -> Result<Session, Status>
    requires { IsWithinLimits job }
    ensures ok { (first : Told) → F.told folder.old ≡ Some first
        → IfOk result (λ session. DoesAll (source_moves job.steps) (start_of first job) session
        (seen (F.told folder.old) (O.written out.old) (O.faults out.old) steps.old)
        (seen (F.told folder.new) (O.written out.new) (O.faults out.new) steps.new)) }
    ensures err { (first : Told) → F.told folder.old ≡ Some first
        → (command : Option Command) (last : Move)
        → plan_of first command ≡ planned (source_moves job.steps ++ last ∷ []) (start_of first job)
        → IfErr result (λ status. Comes status command first
        (seen (F.told folder.old) (O.written out.old) (O.faults out.old) steps.old)
        (seen (F.told folder.new) (O.written out.new) (O.faults out.new) steps.new)
        (F.put_faults folder.old) (F.put_faults folder.new)) }
    ensures not_done { result ≢ Err Status.Done }
    ensures not_words { result ≢ Err Status.Words }
    ensures read { result ≡ Err Status.ReadFault
        → Rose (F.read_faults folder.old) (F.read_faults folder.new) }
    ensures missing { result ≡ Err Status.Missing
        → Rose (F.misses folder.old) (F.misses folder.new) }
    ensures unwritten { result ≢ Err Status.WriteFault }
    ensures unput { F.told folder.new ≡ F.told folder.old }
    ensures still { steps.new ≡ steps.old }
    ensures given { F.given folder.new ≤ F.given folder.old + read_rooms job.steps }
    ensures read_faults { F.read_faults folder.old ≤ F.read_faults folder.new }
    ensures put_faults { F.put_faults folder.old ≤ F.put_faults folder.new }
    ensures misses { F.misses folder.old ≤ F.misses folder.new }
    ensures faults { O.faults out.old ≤ O.faults out.new }
{
    standing_stays();
    let Job {
        meta,
        steps: list,
        ..
    } = job;
    let list = list.as_slice();
    let mut session = match Session::new(forks.alloc, meta) {
        Ok(session) => session,
        Err(Memory) => return Err(Status::Memory),
    };
    match do_steps(
        forks,
        Scope::Sources,
        list,
        &mut session,
        folder,
        out,
        steps,
        journal,
    ) {
        Ok(()) => Ok(session),
        Err(stop) => {
            // The process ends: its memory goes back whole, not source by source.
            forget(session);
            Err(stop_in(forks.alloc, list, stop, out, journal))
        }
    }
}

/// Prints the line of a stop at a step of a job, and says its status.
pub(crate) fn stop_in<O: Sink>(
    alloc: Global,
    list: &[Step],
    stop: StepStop,
    out: &mut O,
    journal: &mut Journal,
) -> Status
    requires { stop.at < length list.now }
    ensures status { IsStatusOf stop.why result }
    ensures stopped { (step : steps_of.Step) → slice_get list.now stop.at ≡ Some step
        → IsStopped stop.why result (O.written out.old) (O.written out.new) (O.faults out.old)
        (O.faults out.new) step.line (file_named step.act) }
    ensures faults { O.faults out.old ≤ O.faults out.new }
{
    let step = &list[stop.at];
    let status = stop_at(alloc, stop.why, step.line, name_of(&step.act), out, journal);
    journal.end_step(step);
    status
}
