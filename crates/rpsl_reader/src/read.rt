//! The lines that end in a piece.
ghost use Rattle.std.specs.Prelude.{◌≡◌, ◌∷◌, ◌++◌, [], ◌+◌, ◌≤◌, ◌<◌, ◌^◌, length, fold, OnOk};
ghost use Rattle.std.specs.Prelude.{IfOk};
ghost use Rattle.rpsl_reader.specs.Changes.{open_group};
ghost use Rattle.rpsl_reader.specs.Reading.{after, given, grown, state_of};
ghost use Rattle.rpsl_reader.specs.Selections.{wanted};

use crate::gathered::Gathered;
use crate::line::{cut_line, text_of};
use crate::progress::Ended;
use crate::seen::Sights;
use crate::selection::Selection;
use geo_addr::Memory;

/// Reads the line before a line feed, and the lines that end in the bytes behind it.
pub(crate) fn read_lines<'b, 'a: 'b>(
    selection: &Selection,
    lines: u64,
    gathered: &mut Gathered<'b>,
    first: &'b [u8],
    rest: &'a [u8],
    found: &mut Sights<'b>,
) -> Result<Ended<'a>, Memory>
    requires { lines + length rest.now + 1 < 2 ^ 64 }
    ensures held { OnOk result (gathered.new.held ≡ gathered.old.held) }
    ensures found { OnOk result (found.new.items ≡ found.old.items ++ wanted selection.now
        (given (state_of lines first.entry.now (open_group gathered.old)) (10 ∷ rest.entry.now))) }
    ensures state { IfOk result (λ ended.
        after (state_of lines first.entry.now (open_group gathered.old)) (10 ∷ rest.entry.now)
        ≡ state_of ended.lines (fold grown [] ended.tail.now) (open_group gathered.new)) }
    ensures counts { IfOk result (λ ended. ended.lines ≤ lines + length rest.entry.now + 1) }
{
    let mut lines = lines;
    let mut line = first;
    let mut left = rest;
    'each: loop {
        lines += 1;
        gathered.take(selection, lines, text_of(lines, line), found)?;
        let (piece, after) = cut_line(left);
        let Some(after) = after else {
            return Ok(Ended { lines, tail: left });
        };
        line = piece;
        left = after;
    }
}
