//! Why the words of a line are refused.
use crate::word_fault::{Shape, WordFault};
use geo_addr::Memory;
use thiserror::Error;

/// Why a line of a job, or the words of the command line, are refused.
/// The words of a line are counted from 0.
#[derive(Clone, Copy, Debug, PartialEq, Eq, Error)]
pub enum LineFault {
    #[error("not UTF-8")]
    Utf8,
    /// The command line has no word.
    #[error("no word")]
    Nothing,
    /// No line, or no command, begins with its first word.
    #[error("unknown first word")]
    Unknown,
    /// The word behind `drop` is no kind of source.
    #[error("unknown kind of source")]
    Kind,
    /// The word of this number is missing.
    #[error("word {at} is missing")]
    Few {
        at: u8,
    },
    /// The word of this number is one too many.
    #[error("word {at} is one too many")]
    Many {
        at: u8,
    },
    /// The word of this number is not what has to stand there.
    #[error("word {at} {fault}")]
    Word {
        at: u8,
        shape: Shape,
        fault: WordFault,
    },
    /// No line before it gives the epoch.
    #[error("before the epoch")]
    NoEpoch,
    /// A line before it gives the epoch.
    #[error("a second epoch")]
    SecondEpoch,
    /// It is a setting, and a line before it does something.
    #[error("a setting behind a step")]
    Behind,
    /// It is a setting, and a line before it gives the same.
    #[error("a second time")]
    Twice,
    #[error("out of memory")]
    Memory,
}

impl LineFault {
    /// The number of the word of which it is said. What is said of a whole line is said of the
    /// first.
    pub fn at(self) -> u8 {
        match self {
            LineFault::Kind => 1,
            LineFault::Few { at } | LineFault::Many { at } | LineFault::Word { at, .. } => at,
            _ => 0,
        }
    }
}

impl From<Memory> for LineFault {
    ghost use Rattle.std.specs.Prelude.{◌≡◌};
    ghost use Rattle.job_lines.specs.declared.line_fault.LineFault.{LineFault};

    ghost from_gives = { λ _ fault. fault ≡ LineFault.Memory };

    fn from(_refused: Memory) -> LineFault {
        LineFault::Memory
    }
}
