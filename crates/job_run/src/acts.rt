//! One step of a job, done.
ghost use Rattle.std.specs.Prelude.{◌≡◌, ◌≢◌, ◌⊎◌, ◌≤◌, ◌+◌, [], false, true, IfErr, OnOk};
ghost use Rattle.geo_outside.specs.Count.{Rose};
ghost use Rattle.job_run.specs.Acts.{does, effect};
ghost use Rattle.job_run.specs.Moves.{sets_feed, takes};
ghost use Rattle.job_run.specs.Seen.{seen};
ghost use Rattle.job_run.specs.Sources.{file_named, read_room};
ghost use Rattle.job_run.specs.Stops.{Does, Fails, IsIn, IsPaid};
ghost use Rattle.job_run.specs.World.{World};

use crate::dropping::drop_source;
use crate::emitting::emit;
use crate::marking::{compact, go_back, mark};
use crate::reporting::print_report;
use crate::scope::Scope;
use crate::setting::{set_dump, set_overrides, set_stats};
use crate::stop::{Cause, Stop};
use fan_work::Forks;
use geo_outside::{Folder, Gate, Sink, Steps};
use job_lines::{Act, Step};
use std::marker::Sync;
use std::sync::ledger::Ledger;
use std::thread::Threads;
use update_session::Session;
use update_session::laws::standing_stays;

/// Does one step that sets no feed: sets or drops a source, writes a file and prints its line,
/// prints a report, keeps what is in force or goes back to it, or gives up nodes.
pub(crate) fn do_step<R: Threads + Sync, F: Folder, O: Sink, G: Gate, L: Ledger>(
    forks: &Forks<R, G>,
    step: &Step,
    session: &mut Session,
    folder: &mut F,
    out: &mut O,
    steps: &mut Steps<L>,
) -> Result<(), Stop>
    requires { sets_feed step.now.act ≡ false }
    ensures done { (world : World) → IsIn (F.told folder.old) session.old world
        → OnOk result (Does (does step.now) world session.new
        (seen (F.told folder.old) (O.written out.old) (O.faults out.old) steps.old)
        (seen (F.told folder.new) (O.written out.new) (O.faults out.new) steps.new)) }
    ensures failed { (world : World) → IsIn (F.told folder.old) session.old world
        → IfErr result (λ why. Fails why (does step.now) world []
        (seen (F.told folder.old) (O.written out.old) (O.faults out.old) steps.old)
        (seen (F.told folder.new) (O.written out.new) (O.faults out.new) steps.new)) }
    ensures paid { (world : World) → IsIn (F.told folder.old) session.old world
        → IsPaid (effect (does step.now) world) world steps.old steps.new }
    ensures not_words { result ≢ Err (Stop.Blocked Cause.Words) }

    ensures read_failed { result ≡ Err Stop.ReadFailed
        → Rose (F.read_faults folder.old) (F.read_faults folder.new) }
    ensures missing { result ≡ Err (Stop.Blocked Cause.Missing)
        → Rose (F.misses folder.old) (F.misses folder.new) }
    ensures put_failed { result ≡ Err Stop.PutFailed
        → Rose (F.put_faults folder.old) (F.put_faults folder.new) }
    ensures sink_failed { result ≡ Err Stop.SinkFailed
        → Rose (O.faults out.old) (O.faults out.new) }
    ensures read_faults { F.read_faults folder.old ≤ F.read_faults folder.new }
    ensures put_faults { F.put_faults folder.old ≤ F.put_faults folder.new }
    ensures misses { F.misses folder.old ≤ F.misses folder.new }
    ensures faults { O.faults out.old ≤ O.faults out.new }
    ensures given { F.given folder.new ≤ F.given folder.old + read_room step.now.act }

    // A line that sets or drops a source, or keeps or takes what is in force, changes no file,
    // prints nothing and takes no step.
    ensures still { takes Scope.Sources step.now.act ≡ true → (steps.new ≡ steps.old)
        × (out.new ≡ out.old) × (F.told folder.new ≡ F.told folder.old) }
    ensures reads_only { takes Scope.Sources step.now.act ≡ true
        → (result ≢ Err Stop.PutFailed) × (result ≢ Err Stop.SinkFailed) }
{
    standing_stays();
    let alloc = forks.alloc;
    match &step.act {
        Act::Rpsl { slot, file } => {
            set_dump(alloc, slot.as_str(), file.as_str(), session, folder)
        }
        Act::Stats { slot, file } => {
            set_stats(forks, slot.as_str(), file.as_str(), session, folder)
        }
        Act::Feed { .. } => unreachable!(),
        Act::Overrides { file } => set_overrides(alloc, file.as_str(), session, folder),
        Act::Drop(source) => drop_source(source, session),
        Act::Emit { file } => emit(forks, file.as_str(), session, folder, out, steps),
        Act::Report => print_report(alloc, session, out),
        Act::Mark { name } => mark(name.as_str(), session),
        Act::Back { name } => go_back(name.as_str(), session),
        Act::Compact => compact(alloc, session, out),
    }
}

/// What a stop line names of an act: the file that it reads or writes.
pub fn name_of(act: &Act) -> &str
    ensures { result.now ≡ file_named act.now }
{
    match act {
        Act::Rpsl { file, .. }
        | Act::Stats { file, .. }
        | Act::Feed { file, .. }
        | Act::Overrides { file }
        | Act::Emit { file } => file.as_str(),
        Act::Drop(_) | Act::Report | Act::Mark { .. } | Act::Back { .. } | Act::Compact => "",
    }
}
