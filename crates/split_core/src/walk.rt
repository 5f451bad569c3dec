//! The blocks of a range, one after another.
ghost use Rattle.std.specs.Prelude.{◌≡◌, ◌∷◌, ◌+◌, ◌-◌, ◌≤◌, [], MatchOption};
ghost use Rattle.std.specs.Iterator.{YieldsFirst, item_count};
ghost use Rattle.split_core.specs.Walk.{is_room, largest_block, blocks_of};

use geo_addr::{Block, Range, range_of, span_of};
use std::marker::Model;

/// The fewest blocks that make a range, ascending. In contracts it is the list of the blocks left.
#[derive(Debug, Drop)]
pub struct Blocks {
    left: Option<Range>,
}

impl Model for Blocks {
    ghost use Rattle.std.specs.Prelude.{List};
    ghost use Rattle.geo_addr.specs.Ranges.{Prefix};
    ghost use Rattle.split_core.specs.Walk.{blocks_left};

    ghost Value = { List Prefix };

    ghost view = { λ b. blocks_left b.left };
}

impl Blocks {
    /// All blocks of the addresses from `first` to `last`.
    pub(crate) fn of(first: u128, last: u128) -> Blocks
        requires { first ≤ last }
        ensures { result ≡ blocks_of first (last + 1) }
    {
        Blocks {
            left: Some(Range { first, last }),
        }
    }
}

impl Iterator for Blocks {
    type Item = Block;

    ghost next_gives = { YieldsFirst (λ left. left) };

    ghost remaining = { item_count (λ left. left) };

    /// The next block, or None exactly where all were given.
    fn next(&mut self) -> Option<Block> {
        let range = self.left?;
        let block = largest_of(range);
        let end = range_of(block).last;
        self.left = if end < range.last {
            Some(Range {
                first: end + 1,
                last: range.last,
            })
        } else {
            None
        };
        Some(block)
    }
}

/// The largest block that begins where the range begins and lies in it.
fn largest_of(range: Range) -> Block
    ensures { result ≡ largest_block range.first (range.last + 1) }
{
    let first = range.first;
    let mut len = 0;
    while !has_room(range, len) {
        len += 1;
    }
    Block { first, len }
}

/// Whether a block of this length begins where the range begins and lies in it.
fn has_room(range: Range, len: u8) -> bool
    requires { len ≤ 128 }
    ensures { result ≡ is_room (128 - len) range.first (range.last + 1) }
{
    let span = span_of(len);
    range.first & span == 0 && span <= range.size()
}
