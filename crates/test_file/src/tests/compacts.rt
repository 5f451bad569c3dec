//! Compact stores. The nodes are counted by hand, as in `trees`.
ghost use Rattle.std.specs.Prelude.{◌≡◌, ◌<◌};

use crate::tests::trees::{Painted, painted};
use geo_outside::Steps;
use std::alloc::Global;
use std::marker::Brand;
use std::process::Abort;
use std::sync::ledger::{Blank, Ledger};
use trie_core::{Root, Store};

/// The length and the root of the store that is made compact after these parts were painted on it.
fn compact_of<L: Ledger>(
    rt: &impl Abort,
    store: &mut Store,
    parts: &[Painted],
    steps: &mut Steps<L>,
) -> Option<(u32, Root)> {
    let Ok(root) = painted(rt, store, parts, steps) else {
        return None;
    };
    match store.compact(&[root]) {
        Ok((compact, roots)) => Some((compact.len(), roots.first().copied()?)),
        Err(_) => None,
    }
}

fn compacted<L: Ledger>(
    rt: &impl Abort,
    alloc: Global,
    parts: &[Painted],
    blank: Blank,
) -> Option<(u32, Root)>
    requires name { blank.name ≡ L.name }
    requires parts { blank.parts ≡ L.parts }
    requires some { 0 < blank.parts }
{
    let mut steps: Steps<L> = Steps::new(blank);
    let mut store = Store::new(alloc);
    compact_of(rt, &mut store, parts, &mut steps)
}

// 128 addresses each from 192.0.2.0, which are painted over with leaf 0 at last, 10.0.0.0 and
// 10.0.1.0: the last two have 121 nodes.
static LOWER_FIRST: [Painted; 4] = [
    (0xc000_0200, 0xc000_027f, 2),
    (0x0a00_0000, 0x0a00_007f, 1),
    (0x0a00_0100, 0x0a00_017f, 1),
    (0xc000_0200, 0xc000_027f, 0),
];

static UPPER_FIRST: [Painted; 4] = [
    (0xc000_0200, 0xc000_027f, 2),
    (0x0a00_0100, 0x0a00_017f, 1),
    (0x0a00_0000, 0x0a00_007f, 1),
    (0xc000_0200, 0xc000_027f, 0),
];

/// Stores that were filled in different orders are the same once they are compact.
#[test]
fn compacts_to_one_store(rt: HostRuntime) {
    let one = compacted::<Brand>(&rt, rt.alloc(), &LOWER_FIRST, Blank::new(1));
    let other = compacted::<Brand>(&rt, rt.alloc(), &UPPER_FIRST, Blank::new(1));
    assert!(rt; one == other);
    assert!(rt; matches!(one, Some((121, _))));
}
