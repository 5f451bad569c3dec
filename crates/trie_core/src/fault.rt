//! The faults of a store.
use thiserror::Error;

/// Why a store could not make a node.
#[derive(Clone, Copy, Debug, PartialEq, Eq, Error)]
pub enum StoreFault {
    /// The store holds 2^32 - 1 nodes already, and a new one is needed.
    #[error("the store of nodes is full")]
    Full = 1,
    #[error("out of memory")]
    Memory = 2,
}
