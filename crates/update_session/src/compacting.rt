//! The call that gives up nodes to which no root leads.
ghost use Rattle.std.specs.Prelude.{◌≡◌, List, length, IfOk};
ghost use Rattle.std.specs.List.{AllZip};
ghost use Rattle.geo_terms.specs.Sources.{InForce};
ghost use Rattle.trie_core.specs.Compact.{AreRootsOf, trees_of_roots};
ghost use Rattle.update_session.specs.Kept.{AnswersAll};
ghost use Rattle.update_session.specs.State.{nodes_under};

use crate::marks::{all_roots, give_roots};
use crate::session::Session;
use geo_addr::Memory;
use geo_terms::Places;
use trie_core::{Root, Store};

impl Session {
    ghost use Rattle.std.specs.Prelude.{◌≡◌, length, IfOk, OnOk, OnErr};
    ghost use Rattle.update_session.specs.Calls.{HasCompacted};

    /// Gives up the nodes to which neither the root nor a mark leads, and says how many are left.
    /// All roots mean what they meant, so later files are the same. No step is taken.
    pub fn compact(&mut self) -> Result<u64, Memory>
        ensures count { IfOk result (λ count. length self.new.store ≡ count) }
        ensures ok { OnOk result (HasCompacted self.old self.new) }
        ensures err { OnErr result (self.new ≡ self.old) }
    {
        let roots = all_roots(self.alloc, self.root, self.marks.as_slice())?;
        let (store, roots) = without_stale(&self.store, &self.places, roots.as_slice())?;
        let count = u64::from(store.len());
        let (first, others) = roots.as_slice().split_at(1);
        self.root = first[0];
        give_roots(&mut self.marks, others);
        self.store = store;
        Ok(count)
    }
}

/// A store of the nodes under these roots alone, and its roots that mean what these mean.
fn without_stale(
    store: &Store,
    places: &Places,
    roots: &[Root],
) -> Result<(Store, Vec<Root>), Memory>
    requires of { AreRootsOf store.now roots.now }
    ensures of { IfOk result (λ made. AreRootsOf made.0 made.1.items) }
    ensures trees { IfOk result
        (λ made. trees_of_roots made.0 made.1.items ≡ trees_of_roots store.now roots.now) }

    // It has as many nodes as the trees of the sources have different ones
    // whose records the roots answer.
    ensures nodes { IfOk result
        (λ made. (bases : List InForce) → AllZip (AnswersAll store.now places.now) roots.now bases
        → length made.0 ≡ nodes_under bases) }
{
    let _ = store.len();
    let _ = places.len();
    let made = store.compact(roots)?;
    Ok(made)
}
