//! Work on one item.
ghost use Rattle.std.specs.Prelude.{IfOk};

use geo_addr::Memory;
use std::marker::Sync;

/// Work that is done for each item of a list, on any thread. Its meaning is the relation between an
/// item and a result: what is done for an item is related to it. Work that allocates keeps its
/// allocator.
pub trait Work<A, B>: Sync {
    ghost related: { Self → A → B → Type 0 };

    fn done(&self, item: &A) -> Result<B, Memory>
        ensures { IfOk result (λ b. related self.now item.now b) };
}
