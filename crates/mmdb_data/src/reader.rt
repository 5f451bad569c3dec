//! Where a reading stands, and what it may still spend.

use crate::budget::Left;
use std::alloc::Global;

/// A reading of values from left to right: it stands at the control byte of a value, and after the
/// value once that is read.
#[derive(Drop)]
pub(crate) struct Reader<'a> {
    pub(crate) alloc: Global,
    pub(crate) section: &'a [u8],
    /// The offset where it stands.
    pub(crate) at: usize,
    /// What it may still spend.
    pub(crate) left: Left,
}
