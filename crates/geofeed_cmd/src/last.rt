//! The move with which a command ends behind the sources of its job, and the command by it.
ghost use Rattle.std.specs.Prelude.{◌≡◌, ◌⊎◌, ◌≤◌, ◌≢◌, ◌+◌, ℕ, [], ◌∷◌, ◌++◌, List, false, IfErr};
ghost use Rattle.std.specs.Prelude.{OnOk, Option, Some};
ghost use Rattle.geo_outside.specs.Count.{Rose};
ghost use Rattle.geo_outside.specs.Files.{Told};
ghost use Rattle.job_lines.specs.Commands.{Command};
ghost use Rattle.job_lines.specs.Said.{IsWithinLimits};
ghost use Rattle.job_run.specs.Moves.{read_rooms, source_moves};
ghost use Rattle.job_run.specs.Seen.{seen};
ghost use Rattle.job_run.specs.Stops.{Does, Fails, IsIn, IsPaid};
ghost use Rattle.job_run.specs.World.{World};
ghost use Rattle.published.specs.CleanSources.{AreCleanSources};
ghost use Rattle.geofeed_cmd.specs.Commands.Last.{HasFeed, LeavesBehind, ending_with, last_effect};
ghost use Rattle.geofeed_cmd.specs.Commands.Last.{last_move, name_in};
ghost use Rattle.geofeed_cmd.specs.Run.Answers.{Comes};
ghost use Rattle.geofeed_cmd.specs.Run.Ends.{Concludes, Signs, around};
ghost use Rattle.geofeed_cmd.specs.Run.Feeds.{PublishesFeed};
ghost use Rattle.geofeed_cmd.specs.Run.Plans.{plan_of, planned, puts_files, start_of, takes_steps};

use crate::commands::census::print_counts;
use crate::commands::check::print_verdicts;
use crate::commands::explain::print_why;
use crate::commands::write_feed::write_feed;
use crate::job_file::job_in;
use crate::sourced::{by_pieces, sources_of};
use crate::status::Status;
use crate::stop::stop_at;
use fan_work::Forks;
use geo_addr::{Addr, Block};
use geo_outside::{Folder, Gate, Sink, Steps};
use job_lines::Job;
use job_run::{Cause, Journal, Stop};
use std::marker::Sync;
use std::mem::forget;
use std::sync::ledger::Ledger;
use std::thread::Threads;
use update_session::Session;

/// What a command does with the sources of its job.
#[derive(Clone, Copy)]
pub(crate) enum Last<'a> {
    /// Prints why this address has its record.
    Explain(Addr),
    /// Writes the shortest feed of this block under this name.
    Publish(Block, &'a str),
    /// Prints what becomes of each line of the feed of this URL, which is a feed's key.
    Check(&'a str),
    /// Prints how many addresses each country has.
    Census,
}

/// Makes this move by the sources of the job in the file of this name.
#[tactic(auto, using(crate::proofs::StatusLemmas::status_causes))]
pub(crate) fn by_sources<R: Threads + Sync, F: Folder, O: Sink, G: Gate, L: Ledger>(
    forks: &Forks<'_, R, G>,
    name: &str,
    last: &Last<'_>,
    folder: &mut F,
    out: &mut O,
    steps: &mut Steps<L>,
    journal: &mut Journal,
) -> Status
    requires { HasFeed last.now }
    ensures leaves { Concludes result (Some (ending_with name.now last.now))
        (around F.Folder O.Sink folder.old out.old steps.old)
        (around F.Folder O.Sink folder.new out.new steps.new) }
{
    match job_in(forks.alloc, name, folder, journal) {
        Ok(job) => {
            notice(name, &job, last, journal);
            by_job(forks, job, last, folder, out, steps, journal)
        }
        Err(why) => stop_at(forks.alloc, why, 0, name, out, journal),
    }
}

// Notices where the move writes a file that the job of this name reads.
fn notice(name: &str, job: &Job, last: &Last<'_>, journal: &mut Journal) {
    match *last {
        Last::Publish(_, file) => journal.notices.of_output(name, job, file),
        Last::Explain(_) | Last::Check(_) | Last::Census => {}
    }
}

/// Makes this move by the sources of a job that was read.
#[tactic(auto, using(crate::proofs::StatusLemmas::status_causes))]
fn by_job<R: Threads + Sync, F: Folder, O: Sink, G: Gate, L: Ledger>(
    forks: &Forks<'_, R, G>,
    job: Job,
    last: &Last<'_>,
    folder: &mut F,
    out: &mut O,
    steps: &mut Steps<L>,
    journal: &mut Journal,
) -> Status
    requires limits { IsWithinLimits job }
    requires plain { HasFeed last.now }
    ensures comes { (first : Told) → F.told folder.old ≡ Some first
        → (command : Option Command)
        → plan_of first command
        ≡ planned (source_moves job.steps ++ last_move last.now ∷ []) (start_of first job)
        → Comes result command first
        (seen (F.told folder.old) (O.written out.old) (O.faults out.old) steps.old)
        (seen (F.told folder.new) (O.written out.new) (O.faults out.new) steps.new)
        (F.put_faults folder.old) (F.put_faults folder.new) }
    ensures published { (first : Told) → F.told folder.old ≡ Some first → (name : List ℕ)
        → plan_of first (Some (ending_with name last.now))
        ≡ planned (source_moves job.steps ++ last_move last.now ∷ []) (start_of first job)
        → result ≡ Status.Done
        → PublishesFeed (Some (ending_with name last.now)) first (F.told folder.new) }
    ensures signs { Signs result (around F.Folder O.Sink folder.old out.old steps.old)
        (around F.Folder O.Sink folder.new out.new steps.new) }
    ensures unput { (name : List ℕ) → puts_files (Some (ending_with name last.now)) ≡ false
        → (F.told folder.new ≡ F.told folder.old)
        × (result ≡ Status.WriteFault → Rose (O.faults out.old) (O.faults out.new)) }
    ensures still { (name : List ℕ) → takes_steps (Some (ending_with name last.now)) ≡ false
        → steps.new ≡ steps.old }
    ensures given { F.given folder.new ≤ F.given folder.old + read_rooms job.steps }
{
    let forks = by_pieces(forks, job.pieces);
    let mut session = match sources_of(&forks, job, folder, out, steps, journal) {
        Ok(session) => session,
        Err(status) => return status,
    };
    let made = make_last(&forks, last, &mut session, folder, out, steps, journal);
    // The process ends: its memory goes back whole, not source by source.
    forget(session);
    match made {
        Ok(()) => Status::Done,
        Err(why) => stop_at(forks.alloc, why, 0, name_of(last), out, journal),
    }
}

/// Makes this move by the sources of a session.
fn make_last<R: Threads + Sync, F: Folder, O: Sink, G: Gate, L: Ledger>(
    forks: &Forks<'_, R, G>,
    last: &Last<'_>,
    session: &mut Session,
    folder: &mut F,
    out: &mut O,
    steps: &mut Steps<L>,
    journal: &mut Journal,
) -> Result<(), Stop>
    requires { HasFeed last.now }
    ensures done { (world : World) → IsIn (F.told folder.old) session.old world
        → OnOk result (Does (last_move last.now) world session.new
        (seen (F.told folder.old) (O.written out.old) (O.faults out.old) steps.old)
        (seen (F.told folder.new) (O.written out.new) (O.faults out.new) steps.new)) }
    ensures failed { (world : World) → IsIn (F.told folder.old) session.old world
        → IfErr result (λ why. Fails why (last_move last.now) world []
        (seen (F.told folder.old) (O.written out.old) (O.faults out.old) steps.old)
        (seen (F.told folder.new) (O.written out.new) (O.faults out.new) steps.new)) }
    ensures paid { (world : World) → IsIn (F.told folder.old) session.old world
        → IsPaid (last_effect last.now world) world steps.old steps.new }
    ensures leaves { (then : Told) → F.told folder.old ≡ Some then
        → AreCleanSources session.old.state.sources
        → OnOk result (LeavesBehind last.now session.old.state.sources (F.told folder.new)) }

    ensures reads_nothing { IfErr result (λ why. (why ≢ Stop.ReadFailed)
        × (why ≢ Stop.Blocked Cause.Missing) × (why ≢ Stop.Blocked Cause.Words)) }
    ensures put_failed { result ≡ Err Stop.PutFailed
        → Rose (F.put_faults folder.old) (F.put_faults folder.new) }
    ensures sink_failed { result ≡ Err Stop.SinkFailed
        → Rose (O.faults out.old) (O.faults out.new) }
    ensures unput { (name : List ℕ) → puts_files (Some (ending_with name last.now)) ≡ false
        → (F.told folder.new ≡ F.told folder.old) × (result ≢ Err Stop.PutFailed) }
    ensures still { (name : List ℕ) → takes_steps (Some (ending_with name last.now)) ≡ false
        → steps.new ≡ steps.old }
    ensures read_faults { F.read_faults folder.old ≤ F.read_faults folder.new }
    ensures put_faults { F.put_faults folder.old ≤ F.put_faults folder.new }
    ensures misses { F.misses folder.old ≤ F.misses folder.new }
    ensures given { F.given folder.new ≤ F.given folder.old }
    ensures faults { O.faults out.old ≤ O.faults out.new }
{
    match *last {
        Last::Explain(at) => print_why(forks.alloc, at, session, out),
        Last::Publish(block, file) => write_feed(forks, block, file, session, folder, out, steps),
        Last::Check(url) => print_verdicts(forks.alloc, url, session, out, journal),
        Last::Census => print_counts(forks, session, out, steps),
    }
}

/// What the move writes or asks for.
fn name_of<'a>(last: &Last<'a>) -> &'a str
    ensures { result.now ≡ name_in last.now }
{
    match *last {
        Last::Publish(_, name) | Last::Check(name) => name,
        Last::Explain(_) | Last::Census => "",
    }
}
