//! The fault of a call that finds no memory.
use std::alloc::{AllocError, AllocFailed};
use thiserror::Error;

/// Want of memory: the one answer that any call that allocates may give instead of its own.
#[derive(Clone, Copy, Debug, PartialEq, Eq, PartialOrd, Ord, Hash, Error)]
#[error("out of memory")]
pub struct Memory;

impl From<AllocError> for Memory {
    fn from(_refused: AllocError) -> Memory {
        Memory
    }
}

impl<T: Drop> From<AllocFailed<T>> for Memory {
    fn from(_refused: AllocFailed<T>) -> Memory {
        Memory
    }
}
