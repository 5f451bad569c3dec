//! The text of a feed.
ghost use Rattle.std.specs.Prelude.{◌≡◌, ◌∷◌, ◌++◌, [], ℕ, List, IfOk, OnOk};
ghost use Rattle.std.specs.Option.{option_copied};
ghost use Rattle.geo_terms.specs.Numbers.{place_at};
ghost use Rattle.feed_csv.specs.File.{feed};
ghost use Rattle.published.specs.FeedText.{feed_text, line_text};
ghost use Rattle.published.specs.Reread.{AreApart, AreClean, AreInForm, IsLineInForm, says};

use crate::fields::push_place;
use geo_addr::{Block, Memory, block_text};
use geo_terms::{Place, Places};
use publish_least::Line;
use std::alloc::Global;

/// The text of the feed (RFC 8805) that says what lines say, whose leaves are numbers of places.
///
/// Each line is `BLOCK,COUNTRY,REGION,CITY,POSTAL` and a line feed. A line of leaf 0 has four empty
/// fields. A field that holds a comma or a quote is quoted, and its quotes are doubled.
pub fn feed_text(alloc: Global, places: &Places, lines: &[Line]) -> Result<Vec<u8>, Memory>
    ensures text { IfOk result (λ text. text.items ≡ feed_text (place_at places.now) lines.now) }

    // Lines of different blocks, with places that a feed can say, are read back as they stand.
    ensures reads_back { (url : List ℕ) → AreApart lines.now
        → AreClean (place_at places.now) lines.now → IfOk result
        (λ text. feed url text.items ≡ says url (place_at places.now) lines.now) }
{
    let mut text = Vec::new(alloc);
    for line in lines {
        push_line(alloc, line.block, places.get(line.leaf), &mut text)?;
    }
    Ok(text)
}

// The line of a block and a place, with its line feed.
fn push_line(
    alloc: Global,
    block: Block,
    place: Option<&Place>,
    text: &mut Vec<u8>,
) -> Result<(), Memory>
    ensures line { OnOk result (text.new.items
        ≡ text.old.items ++ (line_text block (option_copied place.entry) ++ (10 ∷ []))) }
    ensures form { OnOk result (IsLineInForm block (option_copied place.entry)) }
{
    let prefix = block_text(alloc, block)?;
    text.extend_from_slice(prefix.as_str().as_bytes())?;
    push_place(place, text)?;
    text.push(b'\n')?;
    Ok(())
}
