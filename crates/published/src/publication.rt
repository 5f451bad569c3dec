//! The feed of a block of a tree.
ghost use Rattle.std.specs.Prelude.{◌≡◌, ◌^◌, ◌<◌, ◌≤◌, ℕ, List, length, IfOk, Some};
ghost use Rattle.geo_terms.specs.Numbers.{place_at};
ghost use Rattle.trie_core.specs.Store.{leaf_at, tree_of, IsRootOf};
ghost use Rattle.trie_core.specs.Tree.{AllLeaves};
ghost use Rattle.feed_csv.specs.File.{feed};
ghost use Rattle.mmdb_file.specs.Writing.{place_tree};
ghost use Rattle.publish_least.specs.Choice.{lines_of, part_of};
ghost use Rattle.publish_least.specs.Lines.{IsPlain};
ghost use Rattle.published.specs.PlaceLines.{IsPublished, published, published_feed};
ghost use Rattle.published.specs.PlaceLines.{published_lines};
ghost use Rattle.published.specs.Reread.{IsCleanAt};

use crate::file::feed_text;
use geo_addr::{Block, Memory};
use geo_terms::Places;
use publish_least::least_lines;
use std::alloc::Global;
use trie_core::{Root, Store};

/// The text of a feed, and how many lines it has.
#[derive(Debug, Drop)]
pub struct Publication {
    pub text: Vec<u8>,
    pub lines: usize,
}

/// The shortest feed that says of a block what a tree of places says of it.
///
/// The block is of IPv4, or begins at 2^32 or above.
pub fn publish(
    alloc: Global,
    store: &Store,
    places: &Places,
    root: Root,
    within: Block,
) -> Result<Publication, Memory>
    requires root { IsRootOf store.now root }
    requires numbers { (address k : ℕ) → address < 2 ^ 128
        → leaf_at store.now root address ≡ Some k → k ≤ length places.now }
    requires plain { IsPlain within }
    ensures text { IfOk result (λ feed. feed.text.items
        ≡ published (place_tree places.now store.now root) within) }
    ensures lines { IfOk result (λ feed. feed.lines
        ≡ length (published_lines (place_tree places.now store.now root) within)) }

    // Where a feed can say the places of the tree, it reads as one entry a line, with no note.
    ensures reads_back { (url : List ℕ) → AllLeaves IsCleanAt (place_tree places.now store.now root)
        → IfOk result (λ found. feed url found.text.items
        ≡ published_feed url (place_tree places.now store.now root) within) }
{
    numbers_do_not_matter(store, root, places, within);
    let lines = least_lines(alloc, store, root, within)?;
    let text = feed_text(alloc, places, lines.as_slice())?;
    let lines = lines.len();
    Ok(Publication { text, lines })
}

// The law that the lines of the root's tree of numbers make the feed of its tree of places.
fn numbers_do_not_matter(store: &Store, root: Root, places: &Places, within: Block)
    requires root { IsRootOf store.now root }
    requires numbers { (address k : ℕ) → address < 2 ^ 128
        → leaf_at store.now root address ≡ Some k → k ≤ length places.now }
    ensures { IsPublished (place_at places.now)
        (lines_of (part_of (tree_of store.now root) within) within)
        (place_tree places.now store.now root) within }
{
    let _ = store.rec_of(root);
    let _ = places.len();
}
