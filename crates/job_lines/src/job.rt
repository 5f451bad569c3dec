//! A job, whole.
ghost use Rattle.std.specs.Prelude.{◌≡◌, ◌⊎◌, IfErr, IfOk, Ok};
ghost use Rattle.job_lines.specs.Job.{job};

use crate::act::Act;
use crate::draft::Draft;
use crate::fault::JobFault;
use crate::names::is_text;
use crate::reason::JobRefusal;
use geo_addr::List;
use mmdb_file::Meta;
use std::alloc::Global;

/// A line of a job that does something: its number, from 1, and what it does.
#[derive(Debug, Drop, PartialEq, Eq)]
pub struct Step {
    pub line: u64,
    pub act: Act,
}

/// A job: what the files that it emits tell about themselves, in how many pieces work on several
/// threads is cut, and its steps in line order.
#[derive(Debug, Drop)]
pub struct Job {
    pub meta: Meta,
    pub pieces: u32,
    pub steps: List<Step>,
}

/// The most bytes of a job.
pub const LONGEST_JOB: usize = 1_048_576;

/// Reads a job, whole.
///
/// A job is UTF-8 text of at most `LONGEST_JOB` bytes. A byte order mark at its start and a
/// carriage return at the end of a line are dropped. Blank lines, and lines whose first byte after
/// blanks is `#`, are passed over. Every other line is words between blanks: `epoch N` first; then,
/// before every step, at most one `type NAME` and at most one `pieces N`; and then the steps, in
/// any number and order: `rpsl SLOT FILE`, `stats SLOT FILE`, `feed URL FILE`, `overrides FILE`,
/// `drop rpsl SLOT`, `drop stats SLOT`, `drop feed URL`, `drop overrides`, `emit FILE`, `report`,
/// `mark NAME`, `back NAME` and `compact`. NAME has the form of SLOT.
pub fn read_job(alloc: Global, bytes: &[u8]) -> Result<Job, JobFault>
    ensures ok { IfOk result (λ j. job bytes.now ≡ Ok j) }
    ensures err { IfErr result (λ why. (why ≡ JobFault.Memory) ⊎ (job bytes.now ≡ Err why)) }
{
    match job_or_reason(alloc, bytes) {
        Ok(job) => Ok(job),
        Err(why) => Err(why.fault),
    }
}

/// Reads a job as `read_job` does, and says of a line that is refused why it is.
#[tactic(auto, unfolding(crate::specs::Job::job))]
pub fn job_or_reason(alloc: Global, bytes: &[u8]) -> Result<Job, JobRefusal>
    ensures ok { IfOk result (λ j. job bytes.now ≡ Ok j) }
    ensures err { IfErr result
        (λ why. (why.fault ≡ JobFault.Memory) ⊎ (job bytes.now ≡ Err why.fault)) }
{
    if bytes.len() > LONGEST_JOB {
        return Err(JobRefusal::of(JobFault::TooLong));
    }
    if !is_text(bytes) {
        return Err(JobRefusal::not_utf8(alloc, bytes));
    }
    let draft = Draft::of(alloc, bytes)?;
    match draft.finish(alloc) {
        Ok(job) => Ok(job),
        Err(fault) => Err(JobRefusal::of(fault)),
    }
}
