//! What one reading may spend.

/// How many values are read at most, keys counted.
pub const VALUES: u32 = 100_000;

/// How many bytes of texts, keys and byte strings are read at most.
pub const BYTES: u32 = 67_108_864;

/// What a reading may still spend.
#[derive(Clone, Copy)]
pub(crate) struct Left {
    pub(crate) values: u32,
    pub(crate) bytes: u32,
}
