//! The line that is printed for a feed.
ghost use Rattle.std.specs.Prelude.{◌≡◌, IfOk};
ghost use Rattle.published.specs.FeedText.{printed_line};

use geo_addr::{Memory, Text};
use std::alloc::Global;

/// The line that is printed where a feed of so many lines was written to a file.
#[tactic(auto, unfolding(crate::specs::FeedText::printed_line))]
pub fn printed_line(alloc: Global, file: &str, lines: usize) -> Result<Text, Memory>
    ensures { IfOk result (λ line. line ≡ printed_line file.now lines) }
{
    let text = format!(in alloc; "publish {file} lines {lines}\n")?;
    let text = Text::from_string(text)?;
    Ok(text)
}
