//! Where the ranges stand in which grounds are looked for. What a hint says is always looked at.
ghost use Rattle.std.specs.Prelude.{ℕ, IsTrue};
ghost use Rattle.std.specs.Option.{option_to_list};
ghost use Rattle.source_changes.specs.Touched.{is_touched};

use geo_addr::{Memory, Range};
use std::alloc::Global;

// Of fewer ranges none is noted: halving them costs less.
const MANY: usize = 4096;

#[derive(Drop)]
pub struct Hints {
    // Where the range stands that was found last.
    pub near: usize,
    // For each 65,536 addresses of IPv4 where the first range stands that ends in them or behind.
    sixteens: Vec<u32>,
    // How many ranges were noted.
    noted: usize,
}

impl Hints {
    pub fn new(alloc: Global) -> Hints {
        Hints {
            near: 0,
            sixteens: Vec::new(alloc),
            noted: 0,
        }
    }

    // The range that was found last.
    pub fn found(&self, kept: &[Range]) -> Option<Range>
        ensures { (a : ℕ) → IsTrue (is_touched (option_to_list result) a)
            → IsTrue (is_touched kept.now a) }
    {
        if self.near >= kept.len() {
            return None;
        }
        Some(kept[self.near])
    }

    // Finds the first of ascending ranges that does not end before an address.
    pub fn look_up(&mut self, kept: &[Range], at: u128) -> Result<(), Memory> {
        self.note(kept)?;
        let (from, to) = self.about(kept.len(), at);
        let Some(some) = kept.get(from..to) else {
            return Ok(());
        };
        self.near = from + some.partition_point(|range| range.last < at);
        Ok(())
    }

    // Notes the ranges that were kept since the last time.
    fn note(&mut self, kept: &[Range]) -> Result<(), Memory> {
        if kept.len() < MANY {
            return Ok(());
        }
        for at in self.noted..kept.len() {
            let range = kept[at];
            note_one(&mut self.sixteens, range.last, at)?;
        }
        self.noted = kept.len();
        Ok(())
    }

    // From where and up to where to look for an address among so many ranges.
    fn about(&self, len: usize, at: u128) -> (usize, usize) {
        let Ok(at) = u32::try_from(at) else {
            return (0, len);
        };
        if self.sixteens.is_empty() {
            return (0, len);
        }
        let sixteen = (at >> 16) as usize;
        (self.first_at(sixteen, len), self.first_at(sixteen + 1, len))
    }

    fn first_at(&self, sixteen: usize, len: usize) -> usize {
        match self.sixteens.get(sixteen) {
            Some(first) => *first as usize,
            None => len,
        }
    }
}

// Notes where a range stands that ends at an address.
fn note_one(sixteens: &mut Vec<u32>, last: u128, at: usize) -> Result<(), Memory> {
    let (Ok(last), Ok(at)) = (u32::try_from(last), u32::try_from(at)) else {
        return Ok(());
    };
    let sixteen = (last >> 16) as usize;
    if sixteens.len() <= sixteen {
        sixteens.resize(sixteen + 1, at)?;
    }
    Ok(())
}
