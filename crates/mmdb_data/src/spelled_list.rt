//! Spellings in one list of bytes, with their offsets.
ghost use Rattle.std.specs.Prelude.{◌≡◌, ◌<◌, ◌++◌, ◌∷◌, [], Some, OnOk, OnErr, length, take};
ghost use Rattle.std.specs.Prelude.{option_map, slice_get};

use geo_addr::Memory;
use std::alloc::Global;
use std::marker::Model;

/// Spellings with their offsets, in the order in which they came.
///
/// Their bytes stand one behind the other, so that none takes memory of its own.
#[derive(Debug, Drop)]
pub(crate) struct SpelledList {
    texts: Vec<u8>,
    list: Vec<Spelled>,
}

/// Where the bytes of a spelling begin and end among those of all, and its offset.
#[derive(Clone, Copy, Debug)]
struct Spelled {
    start: usize,
    end: usize,
    at: u64,
}

impl Model for SpelledList {
    ghost use Rattle.std.specs.Prelude.{All, map as map_list};
    ghost use Rattle.mmdb_data.specs.FullValues.{Entries, spelled_in, IsWithin};

    ghost Value = { Entries };

    ghost view = { λ s. map_list (spelled_in s.texts.items) s.list.items };

    ghost invariant = { λ s. All (IsWithin s.texts.items) s.list.items };
}

impl SpelledList {
    /// No spellings; it takes no memory.
    pub(crate) fn new(alloc: Global) -> SpelledList
        ensures { result ≡ [] }
    {
        SpelledList {
            texts: Vec::new(alloc),
            list: Vec::new(alloc),
        }
    }

    /// How many spellings there are.
    pub(crate) fn len(&self) -> usize
        ensures { result ≡ length self.now }
    {
        self.list.len()
    }

    /// The spelling of this number, and its offset.
    pub(crate) fn entry(&self, number: usize) -> (&[u8], u64)
        requires { number < length self.now }
        ensures { slice_get self.now number ≡ Some (result.0.now, result.1) }
    {
        let spelled = self.list[number];
        (&self.texts[spelled.start..spelled.end], spelled.at)
    }

    /// The same, if there is one of this number.
    pub(crate) fn get(&self, number: usize) -> Option<(&[u8], u64)>
        ensures { option_map (λ p. (p.0.now, p.1)) result ≡ slice_get self.now number }
    {
        if number < self.list.len() {
            return Some(self.entry(number));
        }
        None
    }

    /// Puts a spelling last.
    pub(crate) fn push(&mut self, spelled: &[u8], at: u64) -> Result<(), Memory>
        ensures pushed { OnOk result (self.new ≡ self.old ++ (spelled.now, at) ∷ []) }
        ensures err { OnErr result (self.new ≡ self.old) }
    {
        self.list.reserve(1)?;
        let start = self.texts.len();
        self.texts.extend_from_slice(spelled)?;
        let end = self.texts.len();
        self.list.push_reserved(Spelled { start, end, at });
        Ok(())
    }

    /// Takes off the last ones, until so many are left. Their bytes stay, and lead nowhere.
    pub(crate) fn truncate(&mut self, len: usize)
        ensures { self.new ≡ take len self.old }
    {
        self.list.truncate(len);
    }
}
