//! The file of a session, written, and its line, printed.
ghost use Rattle.std.specs.Prelude.{◌≡◌, ◌≢◌, ◌⊎◌, ◌≤◌, ◌+◌, ◌-◌, ◌^◌, List, [], IfErr, IfOk};
ghost use Rattle.std.specs.Prelude.{IsTrue, None, OnOk, Some};
ghost use Rattle.geo_outside.specs.Count.{Rose};
ghost use Rattle.geo_outside.specs.Files.{Told, Spoils, after_put};
ghost use Rattle.update_session.specs.Calls.{HasEmitted, HasGrown, IsSpent};
ghost use Rattle.update_session.specs.State.{file_of, is_too_large, value_of};
ghost use Rattle.update_session.specs.Touch.{bound};
ghost use Rattle.job_run.specs.Acts.{does, effect, emit_line};
ghost use Rattle.job_run.specs.Published.{IsLeastFile};
ghost use Rattle.job_run.specs.Seen.{seen};
ghost use Rattle.job_run.specs.Stops.{Does, Fails, IsIn, IsPaid};
ghost use Rattle.job_run.specs.World.{World};

use crate::printing::print;
use crate::stop::{Cause, Stop};
use fan_work::Forks;
use geo_addr::{Memory, Text};
use geo_outside::{Folder, Gate, OutErr, Sink, Steps};
use job_lines::{Act, Step};
use mmdb_file::Emitted;
use std::alloc::Global;
use std::marker::Sync;
use std::sync::ledger::Ledger;
use std::thread::Threads;
use update_session::laws::standing_stays;
use update_session::{EmitFault, Session};

/// Writes the file of the sources in force under this name, and prints its line.
///
/// `Blocked(TooLarge)` where the tree has too many nodes or the data section too many bytes for
/// the format, `PutFailed` where the folder does not take the file, `SinkFailed` where the output
/// does not take its line, and `Memory`.
pub fn emit<R: Threads + Sync, F: Folder, O: Sink, G: Gate, L: Ledger>(
    forks: &Forks<R, G>,
    name: &str,
    session: &mut Session,
    folder: &mut F,
    out: &mut O,
    steps: &mut Steps<L>,
) -> Result<(), Stop>
    ensures done { (step : Step) (world : World) → step.act ≡ Act.Emit name.now
        → IsIn (F.told folder.old) session.old world
        → OnOk result (Does (does step) world session.new
        (seen (F.told folder.old) (O.written out.old) (O.faults out.old) steps.old)
        (seen (F.told folder.new) (O.written out.new) (O.faults out.new) steps.new)) }
    ensures failed { (step : Step) (world : World)
        → step.act ≡ Act.Emit name.now
        → IsIn (F.told folder.old) session.old world
        → IfErr result (λ why. Fails why (does step) world []
        (seen (F.told folder.old) (O.written out.old) (O.faults out.old) steps.old)
        (seen (F.told folder.new) (O.written out.new) (O.faults out.new) steps.new)) }
    ensures paid { (step : Step) (world : World) → step.act ≡ Act.Emit name.now
        → IsIn (F.told folder.old) session.old world
        → IsPaid (effect (does step) world) world steps.old steps.new }
    ensures writes { (result ≢ Err Stop.ReadFailed) × (result ≢ Err (Stop.Blocked Cause.Missing))
        × (result ≢ Err (Stop.Blocked Cause.Words)) }

    // What becomes of the session, and how many steps are taken, whatever the folder tells.
    ensures emitted { OnOk result (HasEmitted session.old session.new) }
    ensures grown { HasGrown session.old session.new }
    ensures spent { steps.new ≤ steps.old + bound session.old.touched session.old.state.sources }
    ensures too_large { result ≡ Err (Stop.Blocked Cause.TooLarge)
        → IsTrue (is_too_large session.old.state) ⊎ IsSpent session.old }
    ensures causes { IfErr result (λ why. (why ≡ Stop.Blocked Cause.TooLarge)
        ⊎ ((why ≡ Stop.PutFailed) ⊎ ((why ≡ Stop.SinkFailed) ⊎ (why ≡ Stop.Memory)))) }

    ensures put_failed { result ≡ Err Stop.PutFailed
        → Rose (F.put_faults folder.old) (F.put_faults folder.new) }
    ensures sink_failed { result ≡ Err Stop.SinkFailed
        → Rose (O.faults out.old) (O.faults out.new) }
    ensures read_faults { F.read_faults folder.old ≤ F.read_faults folder.new }
    ensures put_faults { F.put_faults folder.old ≤ F.put_faults folder.new }
    ensures misses { F.misses folder.old ≤ F.misses folder.new }
    ensures faults { O.faults out.old ≤ O.faults out.new }
    ensures given { F.given folder.new ≤ F.given folder.old }
{
    standing_stays();
    let file = match emitted(forks, session, steps) {
        Ok(file) => file,
        Err(why) => return Err(why),
    };
    let line = match emit_line(forks.alloc, name, &file) {
        Ok(line) => line,
        Err(Memory) => return Err(Stop::Memory),
    };
    match put(folder, name, file.bytes.as_slice()) {
        Ok(()) => print(out, line.as_str()),
        Err(why) => Err(why),
    }
}

/// The file of the sources in force.
fn emitted<R: Threads + Sync, G: Gate, L: Ledger>(
    forks: &Forks<R, G>,
    session: &mut Session,
    steps: &mut Steps<L>,
) -> Result<Emitted, Stop>
    ensures file { IfOk result (λ file. file_of session.old.state ≡ Some (value_of file)) }
    ensures least { IfOk result (λ file. IsLeastFile session.old.state (value_of file)) }
    ensures too_large { result ≡ Err (Stop.Blocked Cause.TooLarge)
        → IsTrue (is_too_large session.old.state) ⊎ IsSpent session.old }
    ensures causes { IfErr result (λ why. (why ≡ Stop.Blocked Cause.TooLarge)
        ⊎ (why ≡ Stop.Memory)) }
    ensures spent { steps.new ≤ steps.old + bound session.old.touched session.old.state.sources }
    ensures grown { HasGrown session.old session.new }
    ensures done { OnOk result (HasEmitted session.old session.new) }
{
    match session.emit(forks.rt, forks.gate, forks.pieces, steps) {
        Ok(file) => Ok(file),
        Err(EmitFault::TooLarge) => Err(Stop::Blocked(Cause::TooLarge)),
        Err(EmitFault::Memory) => Err(Stop::Memory),
    }
}

/// The line that is printed for a file.
#[tactic(auto, unfolding(crate::specs::Acts::emit_line))]
fn emit_line(alloc: Global, name: &str, file: &Emitted) -> Result<Text, Memory>
    ensures { IfOk result (λ line. line ≡ emit_line name.now (value_of file.now)) }
{
    let nodes = file.nodes;
    let section = file.section;
    let bits = file.bits;
    let length = file.bytes.len();
    let text = format!(in alloc;
        "emit {name} nodes {nodes} data {section} bits {bits} bytes {length}\n"
    )?;
    let text = Text::from_string(text)?;
    Ok(text)
}

/// Puts a file over what the folder has under this name.
pub fn put<F: Folder>(folder: &mut F, name: &str, bytes: &[u8]) -> Result<(), Stop>
    ensures ok { (w : Told) → F.told folder.old ≡ Some w
        → OnOk result (F.told folder.new ≡ Some (after_put w name.now bytes.now)) }
    ensures spoilt { (w : Told) → F.told folder.old ≡ Some w → result ≡ Err Stop.PutFailed
        → (v : Told) × (F.told folder.new ≡ Some v) × Spoils w v name.now }
    ensures memory { result ≡ Err Stop.Memory → F.told folder.new ≡ F.told folder.old }
    ensures causes { IfErr result (λ why. (why ≡ Stop.PutFailed) ⊎ (why ≡ Stop.Memory)) }
    ensures put_failed { result ≡ Err Stop.PutFailed
        → Rose (F.put_faults folder.old) (F.put_faults folder.new) }
    ensures read_faults { F.read_faults folder.old ≤ F.read_faults folder.new }
    ensures put_faults { F.put_faults folder.old ≤ F.put_faults folder.new }
    ensures misses { F.misses folder.old ≤ F.misses folder.new }
    ensures given { F.given folder.new ≤ F.given folder.old }
{
    match folder.put(name, bytes) {
        Ok(()) => Ok(()),
        Err(OutErr::Failed) => Err(Stop::PutFailed),
        Err(OutErr::Memory) => Err(Stop::Memory),
    }
}
