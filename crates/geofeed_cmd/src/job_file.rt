//! The job that a command does, read whole.
ghost use Rattle.std.specs.Prelude.{◌≡◌, ◌+◌, ◌≤◌, ◌≢◌, Err, IfErr, IfOk, Ok, Some};
ghost use Rattle.std.specs.FinMap as map;
ghost use Rattle.geo_outside.specs.Count.{Rose};
ghost use Rattle.geo_outside.specs.Files.{Told};
ghost use Rattle.job_lines.specs.Said.{IsWithinLimits};
ghost use Rattle.job_run.specs.Stops.{IsHindered};
ghost use Rattle.geofeed_cmd.specs.Run.Plans.{held_job};

use geo_outside::{Folder, WholeErr, read_whole};
use job_lines::laws::accepted_job_is_within_limits;
use job_lines::{Job, JobFault, JobRefusal, LONGEST_JOB, job_or_reason};
use job_run::{Cause, Journal, Stop};
use std::alloc::Global;

/// Reads the job of this name, whole.
pub(crate) fn job_in<F: Folder>(
    alloc: Global,
    name: &str,
    folder: &mut F,
    journal: &mut Journal,
) -> Result<Job, Stop>
    ensures job { (first : Told) → F.told folder.old ≡ Some first
        → IfOk result (λ job. held_job (map.get first.held name.now) ≡ Ok job) }
    ensures fits { IfOk result (λ job. IsWithinLimits job) }
    ensures none { (first : Told) → F.told folder.old ≡ Some first
        → IfErr result (λ why. IsHindered why
        (λ cause. held_job (map.get first.held name.now) ≡ Err cause)) }
    ensures reads { (result ≢ Err Stop.PutFailed) × (result ≢ Err Stop.SinkFailed)
        × (result ≢ Err (Stop.Blocked Cause.Words)) }

    ensures read_failed { result ≡ Err Stop.ReadFailed
        → Rose (F.read_faults folder.old) (F.read_faults folder.new) }
    ensures missing { result ≡ Err (Stop.Blocked Cause.Missing)
        → Rose (F.misses folder.old) (F.misses folder.new) }
    ensures same { F.told folder.new ≡ F.told folder.old }
    ensures read_faults { F.read_faults folder.old ≤ F.read_faults folder.new }
    ensures put_faults { F.put_faults folder.old ≤ F.put_faults folder.new }
    ensures misses { F.misses folder.old ≤ F.misses folder.new }
    ensures given { F.given folder.new ≤ F.given folder.old + 1114112 }
{
    journal.begin(alloc, name);
    let bytes = match read_whole(alloc, folder, name, LONGEST_JOB as u64) {
        Ok(bytes) => bytes,
        Err(WholeErr::Failed) => return Err(Stop::ReadFailed),
        Err(WholeErr::Missing) => return Err(Stop::Blocked(Cause::Missing)),
        Err(WholeErr::TooLong) => return Err(Stop::Blocked(Cause::Job(JobFault::TooLong))),
        Err(WholeErr::Memory) => return Err(Stop::Memory),
    };
    accepted_job_is_within_limits();
    match job_or_reason(alloc, bytes.as_slice()) {
        Ok(job) => Ok(job),
        Err(refusal) => {
            let JobRefusal { fault, reason } = refusal;
            journal.refuse(reason);
            match fault {
                JobFault::Memory => Err(Stop::Memory),
                _ => Err(Stop::Blocked(Cause::Job(fault))),
            }
        }
    }
}
