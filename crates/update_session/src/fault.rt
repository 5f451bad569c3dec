//! Why no file is emitted.
use geo_addr::Memory;
use mmdb_file::FileFault;
use std::alloc::{AllocError, AllocFailed};
use thiserror::Error;

/// Why no file was emitted.
#[derive(Clone, Copy, Debug, PartialEq, Eq, Error)]
pub enum EmitFault {
    /// Records of 32 bits do not hold the nodes and the data section, or the emit could touch
    /// 2^32 - 1 nodes or more.
    #[error("the sources are too many for one file")]
    TooLarge = 1,
    #[error("out of memory")]
    Memory = 2,
}

impl From<Memory> for EmitFault {
    ghost use Rattle.std.specs.Prelude.{◌≡◌};
    ghost use Rattle.update_session.specs.declared.fault.EmitFault.{EmitFault};

    ghost from_gives = { λ _ fault. fault ≡ EmitFault.Memory };

    fn from(_refused: Memory) -> EmitFault {
        EmitFault::Memory
    }
}

impl From<AllocError> for EmitFault {
    ghost use Rattle.std.specs.Prelude.{◌≡◌};
    ghost use Rattle.update_session.specs.declared.fault.EmitFault.{EmitFault};

    ghost from_gives = { λ _ fault. fault ≡ EmitFault.Memory };

    fn from(_refused: AllocError) -> EmitFault {
        EmitFault::Memory
    }
}

impl<T: Drop> From<AllocFailed<T>> for EmitFault {
    ghost use Rattle.std.specs.Prelude.{◌≡◌};
    ghost use Rattle.update_session.specs.declared.fault.EmitFault.{EmitFault};

    ghost from_gives = { λ _ fault. fault ≡ EmitFault.Memory };

    fn from(_refused: AllocFailed<T>) -> EmitFault {
        EmitFault::Memory
    }
}

impl From<FileFault> for EmitFault {
    ghost use Rattle.std.specs.Prelude.{◌≡◌};
    ghost use Rattle.update_session.specs.Faults.{emit_fault};

    ghost from_gives = { λ why fault. fault ≡ emit_fault why };

    fn from(why: FileFault) -> EmitFault {
        match why {
            FileFault::TooLarge => EmitFault::TooLarge,
            FileFault::Memory => EmitFault::Memory,
        }
    }
}

/// Why a session did not go back to a mark.
#[derive(Clone, Copy, Debug, PartialEq, Eq, Error)]
pub enum BackFault {
    /// There is no mark of this name.
    #[error("there is no such mark")]
    NotThere = 1,
    #[error("out of memory")]
    Memory = 2,
}

impl From<Memory> for BackFault {
    ghost use Rattle.std.specs.Prelude.{◌≡◌};
    ghost use Rattle.update_session.specs.declared.fault.BackFault.{BackFault};

    ghost from_gives = { λ _ fault. fault ≡ BackFault.Memory };

    fn from(_refused: Memory) -> BackFault {
        BackFault::Memory
    }
}
