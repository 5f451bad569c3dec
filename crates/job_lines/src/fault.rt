//! Why a text is no job.
use geo_addr::Memory;
use thiserror::Error;

/// Why a text is no job; where several things are wrong, the first of this list.
#[derive(Clone, Copy, Debug, PartialEq, Eq, Error)]
pub enum JobFault {
    #[error("too many bytes")]
    TooLong,
    #[error("not UTF-8")]
    Utf8,
    /// The first line that fits no form, or stands where it may not.
    #[error("line {0} is refused")]
    Line(u64),
    /// Every line is passed over.
    #[error("no epoch")]
    Epoch,
    #[error("out of memory")]
    Memory,
}

impl From<Memory> for JobFault {
    ghost use Rattle.std.specs.Prelude.{◌≡◌};
    ghost use Rattle.job_lines.specs.declared.fault.JobFault.{JobFault};

    ghost from_gives = { λ _ fault. fault ≡ JobFault.Memory };

    fn from(_refused: Memory) -> JobFault {
        JobFault::Memory
    }
}
