//! The lines of a part.
ghost use Rattle.std.specs.Prelude.{◌≡◌};
ghost use Rattle.std.specs.Iterator.{YieldsFirstBy, item_count};
ghost use Rattle.geo_addr.specs.Lines.{numbered_lines};
ghost use Rattle.line_parts.specs.Parts.{lines_in};

use crate::part::LinePart;
use geo_addr::{Line, Lines};
use std::marker::Model;

impl<'a> LinePart<'a> {
    /// All lines of a file.
    pub fn whole(file: &'a [u8]) -> LinePart<'a>
        ensures { lines_in result ≡ numbered_lines file.now }
    {
        LinePart {
            before: 0,
            text: file,
        }
    }

    /// The lines, each with its number in the file.
    pub fn lines(self) -> PartLines<'a>
        ensures { result ≡ lines_in self.entry }
    {
        let lines = Lines::of(self.text);
        PartLines {
            before: self.before,
            lines,
        }
    }
}

/// The lines of a part in order, each with its number in the file.
///
/// Contracts see the list of the lines that are left, each a number and its bytes.
#[derive(Drop)]
pub struct PartLines<'a> {
    before: u64,
    lines: Lines<'a>,
}

impl<'a> Model for PartLines<'a> {
    ghost use Rattle.std.specs.Prelude.{ℕ, ◌+◌, ◌^◌, ◌<◌, All, List};
    ghost use Rattle.line_parts.specs.Parts.{behind};

    ghost Value = { List (ℕ × List ℕ) };

    ghost view = { λ p. behind p.before p.lines };

    ghost invariant = { λ p. All (λ l. p.before + l.0 < 2 ^ 64) p.lines };
}

impl<'a> Iterator for PartLines<'a> {
    type Item = Line<'a>;

    ghost next_gives = { YieldsFirstBy (λ line. (line.number, line.text.now)) (λ left. left) };

    ghost remaining = { item_count (λ left. left) };

    fn next(&mut self) -> Option<Line<'a>> {
        match self.lines.next() {
            Some(line) => Some(Line {
                number: self.before + line.number,
                text: line.text,
            }),
            None => None,
        }
    }
}
