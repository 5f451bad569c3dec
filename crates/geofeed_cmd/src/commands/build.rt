//! `build JOB`: does a job.
ghost use Rattle.std.specs.Prelude.{◌≡◌, ◌≤◌, ◌+◌, Option, Some};
ghost use Rattle.geo_outside.specs.Files.{Told};
ghost use Rattle.job_run.specs.Seen.{seen};
ghost use Rattle.job_lines.specs.Said.{IsWithinLimits};
ghost use Rattle.job_run.specs.Moves.{moves_of, read_rooms};
ghost use Rattle.job_lines.specs.Commands.{Command, build};
ghost use Rattle.geofeed_cmd.specs.Run.Answers.{Comes};
ghost use Rattle.geofeed_cmd.specs.Run.Ends.{Concludes, Signs, around};
ghost use Rattle.geofeed_cmd.specs.Run.Plans.{plan_of, planned, start_of};

use crate::job_file::job_in;
use crate::sourced::by_pieces;
use crate::status::Status;
use crate::stop::stop_at;
use crate::whole::do_whole;
use fan_work::Forks;
use geo_addr::Memory;
use geo_outside::{Folder, Gate, Sink, Steps};
use job_lines::Job;
use job_run::Journal;
use std::marker::Sync;
use std::mem::forget;
use std::sync::ledger::Ledger;
use std::thread::Threads;
use update_session::Session;
use update_session::laws::standing_stays;

/// Does the job in the file of this name.
#[tactic(auto, using(crate::proofs::StatusLemmas::status_causes))]
pub(crate) fn build<R: Threads + Sync, F: Folder, O: Sink, G: Gate, L: Ledger>(
    forks: &Forks<'_, R, G>,
    name: &str,
    folder: &mut F,
    out: &mut O,
    steps: &mut Steps<L>,
    journal: &mut Journal,
) -> Status
    ensures leaves { Concludes result (Some (build name.now))
        (around F.Folder O.Sink folder.old out.old steps.old)
        (around F.Folder O.Sink folder.new out.new steps.new) }
{
    match job_in(forks.alloc, name, folder, journal) {
        Ok(job) => {
            journal.notices.of_job(name, &job);
            do_job(forks, job, folder, out, steps, journal)
        }
        Err(why) => stop_at(forks.alloc, why, 0, name, out, journal),
    }
}

/// Does a job that was read.
#[tactic(auto, using(crate::proofs::StatusLemmas::status_causes))]
fn do_job<R: Threads + Sync, F: Folder, O: Sink, G: Gate, L: Ledger>(
    forks: &Forks<'_, R, G>,
    job: Job,
    folder: &mut F,
    out: &mut O,
    steps: &mut Steps<L>,
    journal: &mut Journal,
) -> Status
    requires { IsWithinLimits job }
    ensures comes { (first : Told) → F.told folder.old ≡ Some first
        → (command : Option Command)
        → plan_of first command ≡ planned (moves_of job.steps) (start_of first job)
        → Comes result command first
        (seen (F.told folder.old) (O.written out.old) (O.faults out.old) steps.old)
        (seen (F.told folder.new) (O.written out.new) (O.faults out.new) steps.new)
        (F.put_faults folder.old) (F.put_faults folder.new) }
    ensures signs { Signs result (around F.Folder O.Sink folder.old out.old steps.old)
        (around F.Folder O.Sink folder.new out.new steps.new) }
    ensures given { F.given folder.new ≤ F.given folder.old + read_rooms job.steps }
{
    standing_stays();
    let Job {
        meta,
        pieces,
        steps: list,
    } = job;
    let list = list.as_slice();
    let forks = by_pieces(forks, pieces);
    let mut session = match Session::new(forks.alloc, meta) {
        Ok(session) => session,
        Err(Memory) => return Status::Memory,
    };
    let status = do_whole(&forks, list, &mut session, folder, out, steps, journal);
    // The process ends: its memory goes back whole, not source by source.
    forget(session);
    status
}
