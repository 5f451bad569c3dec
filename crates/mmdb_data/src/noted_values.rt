//! Where the values of a section stand in full, and where the pointers to a few keys lead.
ghost use Rattle.std.specs.Prelude.{◌≡◌, ◌++◌, ◌∷◌, [], None, Some, length, take, nat_eq, All};
ghost use Rattle.std.specs.Prelude.{IfSome, OnOk, OnErr};
ghost use Rattle.std.specs.Cmp.Lexicographic.{pointwise};
ghost use Rattle.std.specs.Map.{lookup};
ghost use Rattle.mmdb_data.specs.FullValues.{Entries, mixed};
ghost use Rattle.mmdb_data.specs.Packing.{pointer};
ghost use Rattle.mmdb_data.specs.KnownKeys.{key_pointer, IsKnown};

use crate::full_values::FullValues;
use geo_addr::Memory;
use std::alloc::Global;
use std::marker::Model;

/// How many keys are remembered at most: the maps of one section mostly share a handful.
const MOST_KEYS: usize = 16;

/// Spellings with their offsets, in the order in which they came, each once.
///
/// Keys to which a pointer is shorter are remembered, so that no spelling of them is looked up.
#[derive(Debug, Drop)]
pub(crate) struct NotedValues {
    alloc: Global,
    full: FullValues,
    keys: Vec<(Vec<u8>, u32)>,
}

impl Model for NotedValues {
    ghost use Rattle.std.specs.Prelude.{All};
    ghost use Rattle.mmdb_data.specs.FullValues.{Entries};
    ghost use Rattle.mmdb_data.specs.KnownKeys.{IsKnown};

    ghost Value = { Entries };

    ghost view = { λ s. s.full };

    ghost invariant = { λ s. All (IsKnown s.full) s.keys.items };
}

impl NotedValues {
    /// No spellings; it takes no memory.
    pub(crate) fn new(alloc: Global) -> NotedValues
        ensures { result ≡ [] }
    {
        NotedValues {
            alloc,
            full: FullValues::new(alloc),
            keys: Vec::new(alloc),
        }
    }

    /// How many spellings there are.
    pub(crate) fn len(&self) -> usize
        ensures { result ≡ length self.now }
    {
        self.full.len()
    }

    /// The offset of the spelling, which is mixed to `first`.
    pub(crate) fn get(&self, spelled: &[u8], first: u64) -> Option<u64>
        requires { first ≡ mixed spelled.now }
        ensures { result ≡ lookup (pointwise nat_eq spelled.now) self.now }
    {
        self.full.get(spelled, first)
    }

    /// Where the pointer that is shorter than the key leads, if the key is remembered.
    pub(crate) fn known_key(&self, key: &str) -> Option<u32>
        ensures { IfSome result (λ to. key_pointer key.now self.now ≡ Some (pointer to)) }
    {
        known(&self.keys, key.as_bytes())
    }

    /// Remembers where the pointer that is shorter than the key leads, while there is room for it.
    pub(crate) fn learn(&mut self, key: &str, to: u32) -> Result<(), Memory>
        requires { key_pointer key.now self.old ≡ Some (pointer to) }
        ensures { self.new ≡ self.old }
    {
        if self.keys.len() < MOST_KEYS {
            let own = Vec::from_slice(self.alloc, key.as_bytes())?;
            self.keys.push((own, to))?;
        }
        Ok(())
    }

    /// Puts a new spelling last, which is mixed to `first`.
    pub(crate) fn push(&mut self, spelled: &[u8], first: u64, at: u64) -> Result<(), Memory>
        requires new { lookup (pointwise nat_eq spelled.now) self.old ≡ None }
        requires first { first ≡ mixed spelled.now }
        ensures pushed { OnOk result (self.new ≡ self.old ++ (spelled.now, at) ∷ []) }
        ensures err { OnErr result (self.new ≡ self.old) }
    {
        self.full.push(spelled, first, at)
    }

    /// Takes off the last ones, until so many are left.
    pub(crate) fn truncate(&mut self, len: usize)
        ensures { self.new ≡ take len self.old }
    {
        self.keys.clear();
        self.full.truncate(len);
    }
}

// Where the pointer to the key leads, by a look at each one.
fn known(keys: &[(Vec<u8>, u32)], key: &[u8]) -> Option<u32>
    ensures { (entries : Entries) → All (IsKnown entries) keys.now
        → IfSome result (λ to. key_pointer key.now entries ≡ Some (pointer to)) }
{
    for (own, to) in keys {
        if own.as_slice() == key {
            return Some(*to);
        }
    }
    None
}
