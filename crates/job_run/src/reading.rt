//! A file, read whole.
ghost use Rattle.std.specs.Prelude.{◌≡◌, ◌≢◌, ◌≤◌, ◌+◌, IfErr, IfOk, Some};
ghost use Rattle.std.specs.FinMap as map;
ghost use Rattle.geo_outside.specs.Count.{Rose};
ghost use Rattle.geo_outside.specs.Files.{Told};
ghost use Rattle.geo_outside.specs.declared.whole.TheConstants.{PIECE};
ghost use Rattle.job_run.specs.Sources.{unreadable};
ghost use Rattle.job_run.specs.Stops.{IsHindered};

use crate::stop::{Cause, Stop};
use geo_outside::{Folder, WholeErr, read_whole};
use std::alloc::Global;

/// Reads the file of this name in the folder, of so many bytes at most.
pub fn read_file<F: Folder>(
    alloc: Global,
    folder: &mut F,
    name: &str,
    longest: u64,
) -> Result<Vec<u8>, Stop>
    ensures bytes { (w : Told) → F.told folder.old ≡ Some w
        → IfOk result (λ bytes. map.get w.held name.now ≡ Some bytes.items) }
    ensures readable { IfOk result (λ bytes. unreadable longest (Some bytes.items) ≡ None) }
    ensures unread { (w : Told) → F.told folder.old ≡ Some w → IfErr result (λ why. IsHindered why
        (λ cause. unreadable longest (map.get w.held name.now) ≡ Some cause)) }
    ensures reads { (result ≢ Err Stop.PutFailed) × (result ≢ Err Stop.SinkFailed)
        × (result ≢ Err (Stop.Blocked Cause.Words)) }

    ensures read_failed { result ≡ Err Stop.ReadFailed
        → Rose (F.read_faults folder.old) (F.read_faults folder.new) }
    ensures missing { result ≡ Err (Stop.Blocked Cause.Missing)
        → Rose (F.misses folder.old) (F.misses folder.new) }
    ensures same { F.told folder.new ≡ F.told folder.old }
    ensures read_faults { F.read_faults folder.old ≤ F.read_faults folder.new }
    ensures put_faults { F.put_faults folder.old ≤ F.put_faults folder.new }
    ensures misses { F.misses folder.old ≤ F.misses folder.new }
    ensures given { F.given folder.new ≤ F.given folder.old + longest + PIECE }
{
    match read_whole(alloc, folder, name, longest) {
        Ok(bytes) => Ok(bytes),
        Err(WholeErr::Failed) => Err(Stop::ReadFailed),
        Err(WholeErr::Missing) => Err(Stop::Blocked(Cause::Missing)),
        Err(WholeErr::TooLong) => Err(Stop::Blocked(Cause::TooLong)),
        Err(WholeErr::Memory) => Err(Stop::Memory),
    }
}
