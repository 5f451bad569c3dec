//! Why no file is written.
use geo_addr::Memory;
use thiserror::Error;

/// Why no file was written.
#[derive(Clone, Copy, Debug, PartialEq, Eq, Error)]
pub enum FileFault {
    #[error("records of 32 bits do not hold the nodes and the data section")]
    TooLarge = 1,
    #[error("out of memory")]
    Memory = 2,
}

impl From<Memory> for FileFault {
    ghost use Rattle.std.specs.Prelude.{◌≡◌};
    ghost use Rattle.mmdb_file.specs.declared.fault.FileFault.{FileFault};

    ghost from_gives = { λ _ fault. fault ≡ FileFault.Memory };

    fn from(_refused: Memory) -> FileFault {
        FileFault::Memory
    }
}

/// Why bytes are no MaxMind DB file; where several things are wrong, the first of this list.
#[derive(Clone, Copy, Debug, PartialEq, Eq, Error)]
pub enum OpenFault {
    #[error("no metadata marker")]
    NoMarker = 1,
    #[error("the metadata is not readable or not complete")]
    Metadata = 2,
    #[error("not version 2 of the format with addresses of 128 bits")]
    Version = 3,
    #[error("the tree does not fit before the metadata")]
    TreeCut = 4,
    #[error("out of memory")]
    Memory = 5,
}

/// Why the walk of an address gives no answer.
#[derive(Clone, Copy, Debug, PartialEq, Eq, Error)]
pub enum WalkFault {
    #[error("the address's bits end at a node")]
    NotEnded = 1,
    #[error("a record leads out of the data section")]
    OutOfSection = 2,
}
