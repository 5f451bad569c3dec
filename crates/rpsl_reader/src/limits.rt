//! The limits of an object and of its lines.

/// The most bytes of an object's lines, line ends not counted.
pub(crate) const LONGEST: usize = 1_048_576;

/// How many bytes of a line are kept as they are: the longest object, a byte order mark and a
/// carriage return.
pub(crate) const MOST: usize = LONGEST + 4;

/// The most bytes of a name behind its first letter.
pub(crate) const LONGEST_NAME: usize = 63;
