//! The kept tree, painted anew: the touched grounds are cut into segments, chunk by chunk what is
//! said of each gets its number and the segments are painted, and the blocks
//! that carry IPv4 addresses follow.
ghost use Rattle.std.specs.Prelude.{◌≡◌, ℕ, ◌+◌, ◌-◌, ◌*◌, ◌^◌, ◌<◌, ◌≤◌, ◌⊎◌, [], length, IfOk};
ghost use Rattle.std.specs.Prelude.{Ok, Err, IsTrue, None, true};
ghost use Rattle.geo_terms.specs.Alias.{is_alias};
ghost use Rattle.geo_terms.specs.Precedence.{spoken_at};
ghost use Rattle.trie_core.specs.Paint.{IsAscending, leaf_in, over};
ghost use Rattle.trie_core.specs.Store.{leaf_at, tree_of, IsRootOf, GrowsBy};
ghost use Rattle.trie_core.specs.Tree.{leaf};
ghost use Rattle.update_session.specs.Kept.{AnswersAll, GrowsBy as PlacesGrowBy, HasBase};
ghost use Rattle.update_session.specs.Touch.{bound, few_places};

use crate::alias::{are_silent, with_aliases};
use crate::choosing::choose;
use crate::fault::EmitFault;
use crate::numbering::parts_of;
use fan_work::Forks;
use geo_addr::Memory;
use geo_outside::{Gate, Steps};
use geo_terms::Places;
use precedence::Sources;
use source_changes::GroundList;
use std::marker::Sync;
use std::mem::drop;
use std::sync::ledger::Ledger;
use std::thread::Threads;
use trie_core::{Part, Root, Store, StoreFault};

/// The root that at each address has the number of the address's record, where the given one has
/// those of sources that said the same off the touched grounds.
///
/// Where nothing is touched it is the given root. A refusal may leave nodes and places that were
/// made on the way.
#[tactic(auto, unfolding(crate::specs::Touch::bound, crate::specs::Touch::few_places))]
pub(crate) fn repaint<R: Threads + Sync, G: Gate, L: Ledger>(
    forks: &Forks<R, G>,
    sources: &mut Sources,
    touched: &GroundList,
    store: &mut Store,
    places: &mut Places,
    root: Root,
    steps: &mut Steps<L>,
) -> Result<Root, EmitFault>
    requires root { IsRootOf store.old root }
    requires base { HasBase store.old places.old root touched.now sources.old }
    ensures of { IfOk result (λ r. IsRootOf store.new r) }
    ensures answers { IfOk result (λ r. AnswersAll store.new places.new r sources.old) }
    ensures same { sources.new ≡ sources.old }
    ensures ticks { steps.old ≤ steps.new }
    ensures few_ticks { steps.new ≤ steps.old + bound touched.now sources.old }
    ensures grows { GrowsBy store.old store.new (steps.new - steps.old) }
    ensures places { PlacesGrowBy places.old places.new (few_places touched.now sources.old) }
    ensures full { result ≡ Err EmitFault.TooLarge
        → (length store.new + 1 ≡ 2 ^ 32) ⊎ (length places.new + 1 ≡ 2 ^ 32) }
    ensures idle { touched.now ≡ [] → (result ≡ Ok root) × (store.new ≡ store.old)
        × (places.new ≡ places.old) × (steps.new ≡ steps.old) }
{
    if touched.is_empty() {
        return Ok(root);
    }
    sources.make_ready()?;
    let blank = is_blank(store, root, sources)?;
    let chosen = choose(forks, sources, touched, blank)?;
    let mut painted = root;
    // Each chunk is let go once it is painted, so the parts of one alone are held at a time.
    for one in chosen {
        let parts = parts_of(forks.alloc, &one, places)?;
        drop(one);
        painted = paint(store, painted, parts.as_slice(), steps)?;
    }
    with_aliases(store, painted, steps)
}

// Whether the root is that of no record, and nothing is said of addresses that carry IPv4 ones:
// then all that is said is touched, and what is not said has no record in the root.
fn is_blank(store: &Store, root: Root, sources: &Sources) -> Result<bool, Memory>
    ensures root { IfOk result (λ blank. IsTrue blank → tree_of store.now root ≡ leaf 0) }
    ensures silent { IfOk result (λ blank. IsTrue blank
        → (a : ℕ) → is_alias a ≡ true → spoken_at sources.now a ≡ None) }
{
    if root != store.empty() {
        return Ok(false);
    }
    are_silent(sources)
}

// The root with the parts painted on it.
fn paint<L: Ledger>(
    store: &mut Store,
    root: Root,
    parts: &[Part],
    steps: &mut Steps<L>,
) -> Result<Root, EmitFault>
    requires of { IsRootOf store.old root }
    requires ascending { IsAscending parts.now }
    ensures of { IfOk result (IsRootOf store.new) }
    ensures lookups { IfOk result (λ r. (a : ℕ) → a < 2 ^ 128
        → leaf_at store.new r a ≡ over (leaf_in parts.now a) (leaf_at store.old root a)) }
    ensures ticks { steps.old ≤ steps.new }
    ensures few_ticks { steps.new ≤ steps.old + 256 * length parts.now }
    ensures grows { GrowsBy store.old store.new (steps.new - steps.old) }
    ensures full { result ≡ Err EmitFault.TooLarge → length store.new + 1 ≡ 2 ^ 32 }
{
    match store.paint_all(root, parts, steps) {
        Ok(root) => Ok(root),
        Err(StoreFault::Full) => Err(EmitFault::TooLarge),
        Err(StoreFault::Memory) => Err(EmitFault::Memory),
    }
}
