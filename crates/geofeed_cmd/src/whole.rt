//! All lines of a job, done.
ghost use Rattle.std.specs.Prelude.{◌≡◌, ◌⊎◌, ◌≤◌, ◌≢◌, ◌+◌, ℕ, [], Option, Some};
ghost use Rattle.geo_outside.specs.Count.{Rose};
ghost use Rattle.geo_outside.specs.Files.{Told};
ghost use Rattle.job_run.specs.Moves.{moves_of, read_rooms};
ghost use Rattle.job_run.specs.Seen.{seen};
ghost use Rattle.job_run.specs.Stops.{IsIn};
ghost use Rattle.job_run.specs.World.{World};
ghost use Rattle.job_lines.specs.Commands.{Command};
ghost use Rattle.geofeed_cmd.specs.Run.Answers.{Comes};
ghost use Rattle.geofeed_cmd.specs.Run.Plans.{plan_of, planned};

use crate::sourced::stop_in;
use crate::status::Status;
use fan_work::Forks;
use geo_outside::{Folder, Gate, Sink, Steps};
use job_lines::Step;
use job_run::{Journal, Scope, do_steps};
use std::marker::Sync;
use std::sync::ledger::Ledger;
use std::thread::Threads;
use update_session::Session;

/// Does all lines of a job.
#[tactic(auto, using(crate::proofs::StatusLemmas::status_causes))]
pub(crate) fn do_whole<R: Threads + Sync, F: Folder, O: Sink, G: Gate, L: Ledger>(
    forks: &Forks<'_, R, G>,
    list: &[Step],
    session: &mut Session,
    folder: &mut F,
    out: &mut O,
    steps: &mut Steps<L>,
    journal: &mut Journal,
) -> Status
    ensures comes { (first : Told) (command : Option Command) (start : World)
        → plan_of first command ≡ planned (moves_of list.now) start
        → IsIn (F.told folder.old) session.old start
        → start.text ≡ [] → start.session.spent ≡ 0 → Comes result command first
        (seen (F.told folder.old) (O.written out.old) (O.faults out.old) steps.old)
        (seen (F.told folder.new) (O.written out.new) (O.faults out.new) steps.new)
        (F.put_faults folder.old) (F.put_faults folder.new) }
    ensures not_words { result ≢ Status.Words }
    ensures read { result ≡ Status.ReadFault
        → Rose (F.read_faults folder.old) (F.read_faults folder.new) }
    ensures missing { result ≡ Status.Missing
        → Rose (F.misses folder.old) (F.misses folder.new) }
    ensures write { result ≡ Status.WriteFault
        → Rose (F.put_faults folder.old) (F.put_faults folder.new)
        ⊎ Rose (O.faults out.old) (O.faults out.new) }
    ensures given { F.given folder.new ≤ F.given folder.old + read_rooms list.now }
{
    match do_steps(
        forks,
        Scope::Whole,
        list,
        session,
        folder,
        out,
        steps,
        journal,
    ) {
        Ok(()) => Status::Done,
        Err(stop) => stop_in(forks.alloc, list, stop, out, journal),
    }
}
