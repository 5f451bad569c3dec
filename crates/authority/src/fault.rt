//! Why a dump or a feed is not taken out of force.
use geo_addr::Memory;
use thiserror::Error;

/// Why a source is not taken out of force.
#[derive(Clone, Copy, Debug, PartialEq, Eq, Error)]
pub enum DropFault {
    /// No source has this slot or URL.
    #[error("no such source")]
    NotThere = 1,
    #[error("out of memory")]
    Memory = 2,
}

impl From<Memory> for DropFault {
    ghost use Rattle.std.specs.Prelude.{◌≡◌};
    ghost use Rattle.authority.specs.declared.fault.DropFault.{DropFault};

    ghost from_gives = { λ _ fault. fault ≡ DropFault.Memory };

    fn from(_refused: Memory) -> DropFault {
        DropFault::Memory
    }
}
