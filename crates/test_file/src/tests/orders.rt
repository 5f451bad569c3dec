//! The order in which parts are painted.
ghost use Rattle.std.specs.Prelude.{◌≡◌, ℕ, IfOk};
ghost use Rattle.geo_addr.specs.Ranges.{IsWithin};
ghost use Rattle.trie_core.specs.Store.{IsRootOf};

use geo_outside::Steps;
use std::sync::ledger::Ledger;
use trie_core::{Part, Root, Store, StoreFault};

/// Paints two parts that share no address in one order and in the other, and gives both roots.
fn painted_in_both_orders<L: Ledger>(
    store: &mut Store,
    root: Root,
    one: Part,
    two: Part,
    steps: &mut Steps<L>,
) -> Result<(Root, Root), StoreFault>
    requires of { IsRootOf store.old root }
    requires apart { (a : ℕ) → IsWithin one.range a → IsWithin two.range a → ⊥ }
    ensures { IfOk result (λ roots. roots.0 ≡ roots.1) }
{
    let with_one = store.paint(root, one.range, one.leaf, steps)?;
    let one_then_two = store.paint(with_one, two.range, two.leaf, steps)?;
    let with_two = store.paint(root, two.range, two.leaf, steps)?;
    let two_then_one = store.paint(with_two, one.range, one.leaf, steps)?;
    Ok((one_then_two, two_then_one))
}
