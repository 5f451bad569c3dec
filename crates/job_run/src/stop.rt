//! Why a command stops.
use file_lookup::LookupFault;
use geo_addr::Memory;
use job_lines::JobFault;

/// Why a command cannot be done with what there is.
#[derive(Clone, Copy, Debug)]
pub enum Cause {
    /// The words are no command.
    Words,
    /// The file to be read is not there.
    Missing,
    /// It is no job.
    Job(JobFault),
    /// It is over its bytes.
    TooLong,
    /// It is over its statements.
    TooMany,
    /// The source to be dropped is not there.
    NotThere,
    /// The mark to be gone back to is not there.
    NoMark,
    /// The feed to be checked is not there.
    NoFeed,
    /// The file to be written is too large for the format.
    TooLarge,
    /// The file to be looked up in is damaged on the way to the address.
    File(LookupFault),
}

/// Why a command stopped.
#[derive(Clone, Copy, Debug)]
pub enum Stop {
    /// What there is does not allow it.
    Blocked(Cause),
    /// The folder failed to read.
    ReadFailed,
    /// The folder failed to write.
    PutFailed,
    /// The sink failed to print.
    SinkFailed,
    /// Memory ran out.
    Memory,
}

impl From<Memory> for Stop {
    ghost use Rattle.std.specs.Prelude.{◌≡◌};
    ghost use Rattle.job_run.specs.declared.stop.Stop.{Stop};

    ghost from_gives = { λ _ why. why ≡ Stop.Memory };

    fn from(_refused: Memory) -> Stop {
        Stop::Memory
    }
}
