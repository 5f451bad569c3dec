//! The two blocks of IPv6 addresses that carry IPv4 addresses: they get the tree of those.
ghost use Rattle.std.specs.Prelude.{◌≡◌, ℕ, ◌+◌, ◌-◌, ◌^◌, ◌<◌, ◌≤◌, length, nat_eq, IfOk, Err};
ghost use Rattle.std.specs.Prelude.{IsTrue, None, true};
ghost use Rattle.geo_addr.specs.Bits.{bits_of};
ghost use Rattle.geo_addr.specs.Ranges.{IsWithin, range_of_block};
ghost use Rattle.geo_terms.specs.Alias.{home, is_alias};
ghost use Rattle.geo_terms.specs.Precedence.{spoken_at};
ghost use Rattle.trie_core.specs.Store.{leaf_at, meaning, IsOf, IsRootOf, GrowsBy, IsKept};
ghost use Rattle.trie_core.specs.Tree.{height, look};

use crate::fault::EmitFault;
use geo_addr::{Block, Memory, range_of};
use geo_outside::Steps;
use precedence::Sources;
use std::sync::ledger::Ledger;
use trie_core::{Rec, Root, Store, StoreFault};

/// The IPv4 addresses.
const V4: Block = Block { first: 0, len: 96 };

/// `::ffff:0:0/96`.
const MAPPED: Block = Block {
    first: 0xffff << 32,
    len: 96,
};

/// `2002::/16`.
const SIX_TO_FOUR: Block = Block {
    first: 0x2002 << 112,
    len: 16,
};

/// Whether the sources say nothing of the addresses that carry IPv4 addresses.
pub(crate) fn are_silent(sources: &Sources) -> Result<bool, Memory>
    ensures { IfOk result (λ silent. IsTrue silent
        → (a : ℕ) → is_alias a ≡ true → spoken_at sources.now a ≡ None) }
{
    let mapped = sources.is_silent_in(range_of(MAPPED))?;
    let six_to_four = sources.is_silent_in(range_of(SIX_TO_FOUR))?;
    Ok(mapped && six_to_four)
}

/// The root that at each address has the leaf that the given one has at the address's home.
///
/// A refusal may leave nodes that were made on the way.
pub(crate) fn with_aliases<L: Ledger>(
    store: &mut Store,
    root: Root,
    steps: &mut Steps<L>,
) -> Result<Root, EmitFault>
    requires { IsRootOf store.old root }
    ensures of { IfOk result (IsRootOf store.new) }
    ensures homes { IfOk result
        (λ r. (a : ℕ) → a < 2 ^ 128 → leaf_at store.new r a ≡ leaf_at store.old root (home a)) }
    ensures ticks { steps.old ≤ steps.new }
    ensures few_ticks { steps.new ≤ steps.old + 112 }
    ensures grows { GrowsBy store.old store.new (steps.new - steps.old) }
    ensures full { result ≡ Err EmitFault.TooLarge → length store.new + 1 ≡ 2 ^ 32 }
{
    let v4 = store.sub(root, V4);
    let mapped = graft(store, root, MAPPED, v4, steps)?;
    let both = graft(store, mapped, SIX_TO_FOUR, v4, steps)?;
    Ok(both)
}

// The root that inside the block answers as the record does.
fn graft<L: Ledger>(
    store: &mut Store,
    root: Root,
    block: Block,
    rec: Rec,
    steps: &mut Steps<L>,
) -> Result<Root, EmitFault>
    requires root_of { IsRootOf store.old root }
    requires rec_of { IsOf store.old rec }
    requires low { height (meaning store.old rec) + block.len ≤ 128 }
    ensures of { IfOk result (IsRootOf store.new) }
    ensures inside { IfOk result (λ r. (a : ℕ) → IsWithin (range_of_block block) a
        → leaf_at store.new r a ≡ look (meaning store.old rec) (bits_of (128 - block.len) a)) }
    ensures elsewhere { IfOk result
        (λ r. (a : ℕ) → a < 2 ^ 128 → (IsWithin (range_of_block block) a → ⊥)
        → leaf_at store.new r a ≡ leaf_at store.old root a) }
    ensures ticks { steps.old ≤ steps.new }
    ensures few_ticks { steps.new ≤ steps.old + block.len }
    ensures grows { GrowsBy store.old store.new (steps.new - steps.old) }
    ensures kept { IsKept store.old store.new }
    ensures full { result ≡ Err EmitFault.TooLarge → length store.new + 1 ≡ 2 ^ 32 }
{
    match store.graft(root, block, rec, steps) {
        Ok(grafted) => Ok(grafted),
        Err(StoreFault::Full) => Err(EmitFault::TooLarge),
        Err(StoreFault::Memory) => Err(EmitFault::Memory),
    }
}
