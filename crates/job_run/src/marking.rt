//! What is in force, kept under a name, and taken again; nodes given up.
ghost use Rattle.std.specs.Prelude.{◌≡◌, ◌↔◌, ◌⊎◌, ◌≤◌, [], IfErr, IfOk, None, OnOk, length};
ghost use Rattle.geo_outside.specs.Count.{Rose};
ghost use Rattle.source_changes.specs.Changes.{named};
ghost use Rattle.update_session.specs.Calls.{HasCompacted, HasGoneBack, HasMarked};
ghost use Rattle.job_run.specs.Acts.{compact_line};
ghost use Rattle.job_run.specs.Seen.{Prints};
ghost use Rattle.job_run.specs.Stops.{Tail};

use crate::printing::print;
use crate::stop::{Cause, Stop};
use geo_addr::{Memory, Text};
use geo_outside::Sink;
use std::alloc::Global;
use update_session::{BackFault, Session};

/// Keeps what is in force under a name.
pub(crate) fn mark(name: &str, session: &mut Session) -> Result<(), Stop>
    ensures marked { OnOk result (HasMarked name.now session.old session.new) }
    ensures causes { IfErr result (λ why. why ≡ Stop.Memory) }
{
    session.mark(name)?;
    Ok(())
}

/// Takes again what was kept under a name.
pub(crate) fn go_back(name: &str, session: &mut Session) -> Result<(), Stop>
    ensures back { OnOk result (HasGoneBack name.now session.old session.new) }
    ensures absent { result ≡ Err (Stop.Blocked Cause.NoMark)
        → named (λ m. m.name) name.now session.old.marks ≡ None }
    ensures causes { IfErr result (λ why. (why ≡ Stop.Blocked Cause.NoMark) ⊎ (why ≡ Stop.Memory)) }
{
    match session.back(name) {
        Ok(()) => Ok(()),
        Err(BackFault::NotThere) => Err(Stop::Blocked(Cause::NoMark)),
        Err(BackFault::Memory) => Err(Stop::Memory),
    }
}

/// Gives up the nodes to which no root leads, and prints how many are left.
pub(crate) fn compact<O: Sink>(
    alloc: Global,
    session: &mut Session,
    out: &mut O,
) -> Result<(), Stop>
    ensures compacted { OnOk result (HasCompacted session.old session.new) }
    ensures printed { OnOk result (Prints (O.written out.old) (O.written out.new)
        (compact_line (length session.new.store))) }
    ensures unprinted { result ≡ Err Stop.SinkFailed → HasCompacted session.old session.new
        × Tail Stop.SinkFailed [] (compact_line (length session.new.store)) (O.written out.old)
        (O.written out.new) }
    ensures starved { result ≡ Err Stop.Memory → Prints (O.written out.old) (O.written out.new) [] }
    ensures causes { IfErr result (λ why. (why ≡ Stop.SinkFailed) ⊎ (why ≡ Stop.Memory)) }
    ensures sink_failed { result ≡ Err Stop.SinkFailed
        → Rose (O.faults out.old) (O.faults out.new) }
    ensures faults { O.faults out.old ≤ O.faults out.new }
{
    let count = session.compact()?;
    let line = compact_line(alloc, count)?;
    print(out, line.as_str())
}

/// The line that a compaction prints.
#[tactic(auto, unfolding(crate::specs::Acts::compact_line))]
fn compact_line(alloc: Global, count: u64) -> Result<Text, Memory>
    ensures { IfOk result (λ line. line ≡ compact_line count) }
{
    let text = format!(in alloc; "compact nodes {count}\n")?;
    let text = Text::from_string(text)?;
    Ok(text)
}
