//! How long parts are, and how many of them are read at a time.
ghost use Rattle.std.specs.Prelude.{◌≡◌, ◌++◌, ◌≤◌, ◌<◌, length};
ghost use Rattle.line_parts.specs.declared.part.TheConstants.{LEAST_PART};

use crate::part::{LEAST_PART, LinePart};

/// The least bytes of a part where each piece has several. The C library gives back the room for
/// what so long a part says when that has been put to the rest.
pub const LONG_PART: usize = 4_194_304;

/// After how many bytes a part of a file of `size` bytes ends, so that each piece has as many parts
/// as the others, of `LONG_PART` bytes or more where it has several.
pub fn part_size(size: usize, pieces: usize) -> usize
    requires { 0 < pieces }
    ensures { LEAST_PART ≤ result }
{
    let share = size / pieces;
    let rounds = (share / LONG_PART).max(1);
    (share / rounds).max(LEAST_PART)
}

/// The first of some parts, at most so many, and the others.
pub fn first_parts<'a, 'b>(
    parts: &'b [LinePart<'a>],
    count: usize,
) -> (&'b [LinePart<'a>], &'b [LinePart<'a>])
    requires some { 0 < length parts.now }
    requires count { 0 < count }
    ensures joined { result.0.now ++ result.1.now ≡ parts.now }
    ensures fewer { length result.1.now < length parts.now }
{
    parts.split_at(parts.len().min(count))
}
