//! A part of a file.
ghost use Rattle.std.specs.Prelude.{◌+◌, ◌<◌, ◌^◌, length};

/// The least bytes of a part before others: a file of at most so many is not worth a second thread.
pub const LEAST_PART: usize = 262_144;

/// Neighbouring lines of a file.
#[derive(Clone, Copy, Debug)]
pub struct LinePart<'a> {
    /// How many lines of the file stand before them.
    pub before: u64,
    /// Their bytes, with the line ends; a byte order mark at the start is no part of the first.
    pub text: &'a [u8],
    ghost few: { before + length text.now < 2 ^ 64 },
}
