//! Why no value could be read.

ghost use Rattle.std.specs.Prelude.{◌≡◌};
ghost use Rattle.mmdb_data.specs.declared.fault.DataFault.TheVariants.{Memory as NoMemory};

use geo_addr::Memory;
use std::alloc::{AllocError, AllocFailed};
use thiserror::Error;

/// What is wrong with the bytes of a value (MaxMind DB 2.0, "Output Data Section").
#[derive(Clone, Copy, Debug, PartialEq, Eq, Error)]
pub enum DataCause {
    /// A control, type, size or content byte lies past the section's end.
    #[error("cut off")]
    Truncated = 1,
    /// A type that a data section does not have.
    #[error("of no known type")]
    Kind = 2,
    /// A pointer leads to a pointer.
    #[error("a pointer that a pointer leads to")]
    PointerToPointer = 3,
    /// The offset, or where a pointer leads, is not below the section's length.
    #[error("outside of the section")]
    OutOfSection = 4,
    /// A text is not UTF-8.
    #[error("not UTF-8")]
    Utf8 = 5,
    /// A key of a map is no text.
    #[error("a key that is no text")]
    Key = 6,
    /// Values are nested deeper than `LEVELS`.
    #[error("nested too deep")]
    Deep = 7,
    /// More than `VALUES` values, keys counted.
    #[error("one value too many")]
    Many = 8,
    /// The size is not allowed for the type.
    #[error("of a size that its type does not have")]
    Size = 9,
    /// More than `BYTES` bytes of texts, keys and byte strings, pointed-to ones as often as they
    /// are met.
    #[error("one byte of text too many")]
    Big = 10,
}

/// Why no value was read: the first fault in the order of the bytes, or want of memory.
#[derive(Clone, Copy, Debug, PartialEq, Eq, Error)]
pub enum DataFault {
    /// The value whose control byte stands at the offset `at` of the section is at fault.
    #[error("offset {at} of the data section: {cause}")]
    Bad { at: u64, cause: DataCause },
    #[error("out of memory")]
    Memory,
}

impl From<Memory> for DataFault {
    ghost from_gives = { λ _ fault. fault ≡ NoMemory };

    fn from(_refused: Memory) -> DataFault {
        DataFault::Memory
    }
}

impl From<AllocError> for DataFault {
    ghost from_gives = { λ _ fault. fault ≡ NoMemory };

    fn from(_refused: AllocError) -> DataFault {
        DataFault::Memory
    }
}

impl<T: Drop> From<AllocFailed<T>> for DataFault {
    ghost from_gives = { λ _ fault. fault ≡ NoMemory };

    fn from(_refused: AllocFailed<T>) -> DataFault {
        DataFault::Memory
    }
}
