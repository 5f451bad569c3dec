//! `gen N FILE`: does the generated job, whose sources stand in no file.
ghost use Rattle.std.specs.Prelude.{◌≡◌, ◌≤◌, ◌+◌, IfErr, OnOk, Some};
ghost use Rattle.geo_outside.specs.Count.{Rose};
ghost use Rattle.geo_outside.specs.Files.{Told};
ghost use Rattle.update_session.specs.Calls.{IsNew};
ghost use Rattle.update_session.specs.Standing.{emitted};
ghost use Rattle.job_lines.specs.Commands.{gen};
ghost use Rattle.job_run.specs.Seen.{seen};
ghost use Rattle.generated_job.specs.Job.{gen_epoch, gen_name, second_set};
ghost use Rattle.geofeed_cmd.specs.Run.Answers.{IsDone};
ghost use Rattle.geofeed_cmd.specs.Run.Ends.{Concludes, around};
ghost use Rattle.geofeed_cmd.specs.Run.Generated.{IsOutside, StopsGenerated};

use crate::sourced::by_pieces;
use crate::status::Status;
use crate::stop::stop_at;
use fan_work::Forks;
use generated_job::{gen_session, set_first, set_second};
use geo_addr::Memory;
use geo_outside::{Folder, Gate, Sink, Steps};
use job_run::{Journal, Stop, emit};
use std::marker::Sync;
use std::mem::forget;
use std::sync::ledger::Ledger;
use std::thread::Threads;
use update_session::Session;
use update_session::laws::standing_stays;

/// In how many pieces its work on several threads is cut.
const PIECES: u32 = 4;

/// Does the generated job of so many lines, which writes the file of this name twice.
pub(crate) fn generate<R: Threads + Sync, F: Folder, O: Sink, G: Gate, L: Ledger>(
    forks: &Forks<'_, R, G>,
    lines: u32,
    name: &str,
    folder: &mut F,
    out: &mut O,
    steps: &mut Steps<L>,
    journal: &mut Journal,
) -> Status
    requires few { lines ≤ 1000000 }
    ensures leaves { Concludes result (Some (gen lines name.now))
        (around F.Folder O.Sink folder.old out.old steps.old)
        (around F.Folder O.Sink folder.new out.new steps.new) }
{
    let mut session = match gen_session(forks.alloc) {
        Ok(session) => session,
        Err(Memory) => return Status::Memory,
    };
    let forks = by_pieces(forks, PIECES);
    let made = write_twice(&forks, lines, name, &mut session, folder, out, steps);
    // The process ends: its memory goes back whole, not source by source.
    forget(session);
    match made {
        Ok(()) => Status::Done,
        Err(why) => stop_at(forks.alloc, why, 0, name, out, journal),
    }
}

/// Writes the file of the generated job with its first feed, and again with its second one.
fn write_twice<R: Threads + Sync, F: Folder, O: Sink, G: Gate, L: Ledger>(
    forks: &Forks<'_, R, G>,
    lines: u32,
    name: &str,
    session: &mut Session,
    folder: &mut F,
    out: &mut O,
    steps: &mut Steps<L>,
) -> Result<(), Stop>
    requires few { lines ≤ 1000000 }
    requires new { IsNew gen_epoch gen_name session.old }
    ensures done { (first : Told) → F.told folder.old ≡ Some first
        → OnOk result (IsDone (Some (gen lines name.now)) first
        (seen (F.told folder.old) (O.written out.old) (O.faults out.old) steps.old)
        (seen (F.told folder.new) (O.written out.new) (O.faults out.new) steps.new)) }
    ensures stopped { (first : Told) → F.told folder.old ≡ Some first
        → IfErr result (λ why. StopsGenerated why lines name.now first
        (seen (F.told folder.old) (O.written out.old) (O.faults out.old) steps.old)
        (seen (F.told folder.new) (O.written out.new) (O.faults out.new) steps.new)) }

    // Whatever the folder tells.
    ensures outside { IfErr result IsOutside }
    ensures spent { steps.new ≤ steps.old + (emitted (second_set lines)).spent }
    ensures put_failed { result ≡ Err Stop.PutFailed
        → Rose (F.put_faults folder.old) (F.put_faults folder.new) }
    ensures sink_failed { result ≡ Err Stop.SinkFailed
        → Rose (O.faults out.old) (O.faults out.new) }
    ensures faults { O.faults out.old ≤ O.faults out.new }
    ensures given { F.given folder.new ≤ F.given folder.old }
{
    standing_stays();
    match set_first(forks, lines, session) {
        Ok(()) => {}
        Err(Memory) => return Err(Stop::Memory),
    }
    match emit(forks, name, session, folder, out, steps) {
        Ok(()) => {}
        Err(why) => return Err(why),
    }
    match set_second(forks, lines, session) {
        Ok(()) => {}
        Err(Memory) => return Err(Stop::Memory),
    }
    emit(forks, name, session, folder, out, steps)
}
