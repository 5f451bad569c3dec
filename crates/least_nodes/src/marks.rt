//! A set of numbers as bits.
ghost use Rattle.std.specs.Prelude.{◌≡◌, ◌≢◌, ◌<◌, ◌≤◌, ◌-◌, ◌^◌, ◌++◌, ℕ, true, false};
ghost use Rattle.std.specs.Prelude.{length, replicate, OnOk, OnErr};
ghost use Rattle.least_nodes.specs.Marks.{is_marked};

use geo_addr::Memory;
use std::alloc::Global;

/// A set of numbers, of one bit for each number up to the highest that has come.
#[derive(Drop)]
pub(crate) struct Marks {
    words: Vec<u64>,
}

impl Marks {
    /// No numbers; it takes no memory.
    pub(crate) fn new(alloc: Global) -> Marks
        ensures { (n : ℕ) → is_marked result.words.items n ≡ false }
    {
        Marks {
            words: Vec::new(alloc),
        }
    }

    /// Whether the set has the number.
    #[inline(always)]
    pub(crate) fn has(&self, number: u32) -> bool
        ensures { result ≡ is_marked self.now.words.items number }
    {
        match self.words.get(number as usize / 64) {
            Some(word) => *word & (1_u64 << (number % 64)) != 0,
            None => false,
        }
    }

    /// Puts the number into the set.
    #[inline(always)]
    pub(crate) fn put(&mut self, number: u32) -> Result<(), Memory>
        ensures put { OnOk result (is_marked self.new.words.items number ≡ true) }
        ensures others { OnOk result ((n : ℕ) → n ≢ number
            → is_marked self.new.words.items n ≡ is_marked self.old.words.items n) }
        ensures err { OnErr result (self.new.words.items ≡ self.old.words.items) }
    {
        let at = number as usize / 64;
        make_room(&mut self.words, at)?;
        self.words[at] |= 1_u64 << (number % 64);
        Ok(())
    }
}

// Puts zeros behind the list until it has this index.
#[inline(always)]
fn make_room(words: &mut Vec<u64>, index: usize) -> Result<(), Memory>
    requires { index < 2 ^ 32 }
    ensures zeros { words.new.items
        ≡ words.old.items ++ replicate (length words.new.items - length words.old.items) 0 }
    ensures within { OnOk result (index < length words.new.items) }
    ensures err { OnErr result (words.new.items ≡ words.old.items) }
{
    if index < words.len() {
        return Ok(());
    }
    lengthen(words, index + 1)
}

// Puts zeros behind the list until it is so long. Not inlined, since it is seldom called.
#[inline(never)]
fn lengthen(words: &mut Vec<u64>, len: usize) -> Result<(), Memory>
    requires { length words.old.items ≤ len }
    ensures zeros { words.new.items
        ≡ words.old.items ++ replicate (length words.new.items - length words.old.items) 0 }
    ensures within { OnOk result (length words.new.items ≡ len) }
    ensures err { OnErr result (words.new.items ≡ words.old.items) }
{
    words.resize(len, 0)?;
    Ok(())
}
