//! A source, read and set.
ghost use Rattle.std.specs.Prelude.{◌≡◌, ◌≢◌, ◌⊎◌, ◌≤◌, ◌+◌, ℕ, List, [], IfErr, IfOk, None, OnErr};
ghost use Rattle.std.specs.Prelude.{OnOk, Some};
ghost use Rattle.std.specs.FinMap as map;
ghost use Rattle.geo_outside.specs.Count.{Rose};
ghost use Rattle.geo_outside.specs.Files.{Told};
ghost use Rattle.geo_outside.specs.declared.whole.TheConstants.{PIECE};
ghost use Rattle.feed_refs.specs.declared.limits.TheConstants.{LONGEST_DUMP};
ghost use Rattle.nro_stats.specs.declared.read.TheConstants.{LONGEST_STATS};
ghost use Rattle.override_rows.specs.File.{overrides};
ghost use Rattle.override_rows.specs.declared.read.TheConstants.{LONGEST_OVERRIDES};
ghost use Rattle.job_run.specs.Dumps.{IsReadNoFurther};
ghost use Rattle.job_run.specs.Sources.{IsSet, no_overrides, no_source};
ghost use Rattle.job_run.specs.Stops.{IsHindered};

use crate::dumps::read_dump;
use crate::reading::read_file;
use crate::statistics::read_statistics;
use crate::stop::{Cause, Stop};
use fan_work::Forks;
use geo_outside::{Folder, Gate};
use geo_terms::{Overrides, SourceFault};
use job_lines::Act;
use override_rows::{LONGEST_OVERRIDES, read_overrides};
use std::alloc::Global;
use std::marker::Sync;
use std::thread::Threads;
use update_session::Session;

/// Sets the dump in this slot to what the file of this name holds.
pub(crate) fn set_dump<F: Folder>(
    alloc: Global,
    slot: &str,
    name: &str,
    session: &mut Session,
    folder: &mut F,
) -> Result<(), Stop>
    ensures set { (w : Told) → F.told folder.old ≡ Some w → OnOk result
        (IsSet (Act.Rpsl slot.now name.now)
        (map.get w.held name.now) session.old session.new) }
    ensures unset { (w : Told) → F.told folder.old ≡ Some w → IfErr result (λ why. IsHindered why
        (λ cause. no_source (Act.Rpsl slot.now name.now) (map.get w.held name.now)
        ≡ Some cause)) }
    ensures err { OnErr result (session.new ≡ session.old) }
    ensures reads { (result ≢ Err Stop.PutFailed) × (result ≢ Err Stop.SinkFailed)
        × (result ≢ Err (Stop.Blocked Cause.Words)) }

    ensures read_failed { result ≡ Err Stop.ReadFailed
        → Rose (F.read_faults folder.old) (F.read_faults folder.new) }
    ensures missing { result ≡ Err (Stop.Blocked Cause.Missing)
        → Rose (F.misses folder.old) (F.misses folder.new) }
    ensures same { F.told folder.new ≡ F.told folder.old }
    ensures read_faults { F.read_faults folder.old ≤ F.read_faults folder.new }
    ensures put_faults { F.put_faults folder.old ≤ F.put_faults folder.new }
    ensures misses { F.misses folder.old ≤ F.misses folder.new }
    ensures given { F.given folder.new ≤ F.given folder.old + (LONGEST_DUMP + PIECE) }
    ensures no_further { (w : Told) (file : List ℕ) → F.told folder.old ≡ Some w
        → map.get w.held name.now ≡ Some file
        → IsReadNoFurther slot.now file (F.given folder.old) (F.given folder.new) }
{
    let dump = match read_dump(alloc, folder, slot, name) {
        Ok(dump) => dump,
        Err(why) => return Err(why),
    };
    session.set_rpsl(dump)?;
    Ok(())
}

/// Sets the statistics file in this slot to what the file of this name holds.
pub(crate) fn set_stats<R: Threads + Sync, F: Folder, G: Gate>(
    forks: &Forks<R, G>,
    slot: &str,
    name: &str,
    session: &mut Session,
    folder: &mut F,
) -> Result<(), Stop>
    ensures set { (w : Told) → F.told folder.old ≡ Some w → OnOk result
        (IsSet (Act.Stats slot.now name.now)
        (map.get w.held name.now) session.old session.new) }
    ensures unset { (w : Told) → F.told folder.old ≡ Some w → IfErr result (λ why. IsHindered why
        (λ cause. no_source (Act.Stats slot.now name.now) (map.get w.held name.now)
        ≡ Some cause)) }
    ensures err { OnErr result (session.new ≡ session.old) }
    ensures reads { (result ≢ Err Stop.PutFailed) × (result ≢ Err Stop.SinkFailed)
        × (result ≢ Err (Stop.Blocked Cause.Words)) }

    ensures read_failed { result ≡ Err Stop.ReadFailed
        → Rose (F.read_faults folder.old) (F.read_faults folder.new) }
    ensures missing { result ≡ Err (Stop.Blocked Cause.Missing)
        → Rose (F.misses folder.old) (F.misses folder.new) }
    ensures same { F.told folder.new ≡ F.told folder.old }
    ensures read_faults { F.read_faults folder.old ≤ F.read_faults folder.new }
    ensures put_faults { F.put_faults folder.old ≤ F.put_faults folder.new }
    ensures misses { F.misses folder.old ≤ F.misses folder.new }
    ensures given { F.given folder.new ≤ F.given folder.old + (LONGEST_STATS + PIECE) }
{
    let stats = match read_statistics(forks, folder, slot, name) {
        Ok(stats) => stats,
        Err(why) => return Err(why),
    };
    session.set_stats(stats)?;
    Ok(())
}

/// Sets the overrides to what the file of this name holds.
pub(crate) fn set_overrides<F: Folder>(
    alloc: Global,
    name: &str,
    session: &mut Session,
    folder: &mut F,
) -> Result<(), Stop>
    ensures set { (w : Told) → F.told folder.old ≡ Some w → OnOk result
        (IsSet (Act.Overrides name.now) (map.get w.held name.now) session.old session.new) }
    ensures unset { (w : Told) → F.told folder.old ≡ Some w → IfErr result (λ why. IsHindered why
        (λ cause. no_source (Act.Overrides name.now) (map.get w.held name.now) ≡ Some cause)) }
    ensures err { OnErr result (session.new ≡ session.old) }
    ensures reads { (result ≢ Err Stop.PutFailed) × (result ≢ Err Stop.SinkFailed)
        × (result ≢ Err (Stop.Blocked Cause.Words)) }

    ensures read_failed { result ≡ Err Stop.ReadFailed
        → Rose (F.read_faults folder.old) (F.read_faults folder.new) }
    ensures missing { result ≡ Err (Stop.Blocked Cause.Missing)
        → Rose (F.misses folder.old) (F.misses folder.new) }
    ensures same { F.told folder.new ≡ F.told folder.old }
    ensures read_faults { F.read_faults folder.old ≤ F.read_faults folder.new }
    ensures put_faults { F.put_faults folder.old ≤ F.put_faults folder.new }
    ensures misses { F.misses folder.old ≤ F.misses folder.new }
    ensures given { F.given folder.new ≤ F.given folder.old + (LONGEST_OVERRIDES + PIECE) }
{
    let bytes = match read_file(alloc, folder, name, LONGEST_OVERRIDES as u64) {
        Ok(bytes) => bytes,
        Err(why) => return Err(why),
    };
    let overrides = overrides_of(alloc, bytes.as_slice())?;
    drop(bytes);
    session.set_overrides(overrides)?;
    Ok(())
}

/// The overrides that these bytes are.
fn overrides_of(alloc: Global, bytes: &[u8]) -> Result<Overrides, Stop>
    ensures overrides { IfOk result (λ found. found ≡ overrides bytes.now) }
    ensures few { OnOk result (no_overrides (Some bytes.now) ≡ None) }
    ensures unset { IfErr result (λ why. IsHindered why
        (λ cause. no_overrides (Some bytes.now) ≡ Some cause)) }
    ensures read { (result ≢ Err Stop.ReadFailed) × (result ≢ Err (Stop.Blocked Cause.Missing)) }
    ensures reads { (result ≢ Err Stop.PutFailed) × (result ≢ Err Stop.SinkFailed)
        × (result ≢ Err (Stop.Blocked Cause.Words)) }
{
    match read_overrides(alloc, bytes) {
        Ok(found) => Ok(found),
        Err(SourceFault::TooLong) => Err(Stop::Blocked(Cause::TooLong)),
        Err(SourceFault::TooMany) => Err(Stop::Blocked(Cause::TooMany)),
        Err(SourceFault::Memory) => Err(Stop::Memory),
    }
}
