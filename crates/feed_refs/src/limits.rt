//! The limits of a dump.

/// The most bytes of a dump.
pub const LONGEST_DUMP: usize = 1 << 40;

/// The most references in a dump.
pub const MOST: usize = 2_097_152;
