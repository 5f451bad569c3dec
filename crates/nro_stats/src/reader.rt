//! A statistics file, read in pieces.
ghost use Rattle.std.specs.Prelude.{◌≡◌, ◌≢◌, ◌<◌, ◌≤◌, ◌↔◌, ◌++◌, [], ℕ, List, IfOk, OnErr, OnOk};
ghost use Rattle.std.specs.Prelude.{drop, length};
ghost use Rattle.nro_stats.specs.File.{longest, most, rows, stats};
ghost use Rattle.nro_stats.specs.Reading.{WasFed};

use crate::parts::read_side_by_side;
use crate::read::{Gathered, LONGEST_STATS, MOST, gathered_with_room};
use fan_work::Forks;
use geo_addr::{List, Memory, Text};
use geo_outside::Gate;
use geo_terms::{Delegation, SourceFault, Stats};
use line_parts::{LEAST_PART, LinePart, count_feeds, whole_lines};
use std::alloc::Global;
use std::marker::{Model, Sync};
use std::thread::Threads;

/// How many bytes of a long file each piece reads at a time. What longer parts say takes room that
/// the C library gives back each time, so that the next ones find none of it in use.
const ROUND_PART: usize = 524_288;

/// For so many rows of a file that is not short there is room ahead: a list of as many grows where
/// it stands, since the C library maps it.
const EARLY_ROWS: usize = 655_360;

/// Reads a statistics file in pieces, however it is cut.
///
/// Once there are bytes enough for each piece of the forks, their lines are read side by side, and
/// the bytes are let go. A short file is read at its end. Contracts see what the text so far leaves
/// behind.
#[derive(Drop)]
pub struct StatsReader {
    slot: Text,
    // How many bytes it was fed.
    fed: usize,
    // How many lines were read.
    before: u64,
    // What these say.
    all: Gathered,
    // The bytes behind them.
    left: Vec<u8>,
    // With how many of these the next lines are read.
    enough: usize,
}

impl Model for StatsReader {
    ghost use Rattle.nro_stats.specs.Reading.{IsHeld, Kept};

    ghost Value = { Kept };

    ghost view = { λ r. record {
      slot = r.slot;
      fed = r.fed;
      before = r.before;
      rows = r.all.rows.items;
      notes = r.all.notes.items;
      left = r.left.items;
    } };

    ghost invariant = { λ r. IsHeld (record {
      slot = r.slot;
      fed = r.fed;
      before = r.before;
      rows = r.all.rows.items;
      notes = r.all.notes.items;
      left = r.left.items;
    }) };
}

impl StatsReader {
    /// A reader of the file in a slot, before its first byte.
    pub fn new(alloc: Global, slot: &str) -> Result<StatsReader, Memory>
        ensures { IfOk result (λ reader. WasFed slot.now [] reader) }
    {
        let slot = Text::of(alloc, slot)?;
        let all = gathered_with_room(alloc, 0)?;
        Ok(StatsReader {
            slot,
            fed: 0,
            before: 0,
            all,
            left: Vec::new(alloc),
            enough: 0,
        })
    }

    /// Reads one more piece of the file.
    ///
    /// `TooLong` with the piece with which the file has over `LONGEST_STATS` bytes, which is not
    /// read, and `Memory`, after which the reader is of no further use.
    pub fn feed<R: Threads + Sync, G: Gate>(
        &mut self,
        forks: &Forks<R, G>,
        piece: &[u8],
    ) -> Result<(), SourceFault>
        ensures read { (slot text : List ℕ) → WasFed slot text self.old
            → OnOk result (WasFed slot (text ++ piece.now) self.new) }
        ensures too_long { (slot text : List ℕ) → WasFed slot text self.old
            → (result ≡ Err SourceFault.TooLong) ↔ (longest < length (text ++ piece.now)) }
        ensures too_many { result ≢ Err SourceFault.TooMany }
    {
        if piece.len() > LONGEST_STATS - self.fed {
            return Err(SourceFault::TooLong);
        }
        put_behind(&mut self.left, piece)?;
        self.fed += piece.len();
        if self.left.len() >= enough_for(forks.pieces, self.enough) {
            self.read_round(forks)?;
        }
        Ok(())
    }

    // Reads the lines that end in what is left.
    fn read_round<R: Threads + Sync, G: Gate>(&mut self, forks: &Forks<R, G>) -> Result<(), Memory>
        ensures { (slot text : List ℕ) → WasFed slot text self.old
            → OnOk result (WasFed slot text self.new) }
    {
        let room = early_room(self.fed, &self.all.rows);
        self.all.rows.reserve(room)?;
        let (text, left) = whole_lines(self.left.as_slice());
        let lines = LinePart {
            before: self.before,
            text,
        };
        match read_side_by_side(forks, self.slot.as_str(), lines, &mut self.all) {
            Ok(()) => {}
            Err(refused) => {
                // Some of what the lines say may have been put to the rest.
                self.fed = 0;
                self.before = 0;
                self.all.rows.clear();
                self.all.notes.clear();
                self.left.clear();
                return Err(refused);
            }
        }
        self.before += count_feeds(text);
        let (read, kept) = (text.len(), left.len());
        let_go(&mut self.left, read);
        // Where no line was found in all of them, the next look for one is far from here.
        self.enough = 2 * kept;
        Ok(())
    }

    /// Ends the file, and with it its last line.
    ///
    /// `TooMany` where the file has over `MOST` delegations, and `Memory`.
    pub fn finish<R: Threads + Sync, G: Gate>(
        self,
        forks: &Forks<R, G>,
    ) -> Result<Stats, SourceFault>
        ensures read { (slot text : List ℕ) → WasFed slot text self
            → IfOk result (λ found. found ≡ stats slot text) }
        ensures within { IfOk result (λ found. length found.rows ≤ most) }
        ensures too_many { (slot text : List ℕ) → WasFed slot text self
            → result ≡ Err SourceFault.TooMany → most < length (rows slot text) }
        ensures too_long { result ≢ Err SourceFault.TooLong }
    {
        let StatsReader {
            slot,
            before,
            mut all,
            left,
            ..
        } = self;
        let lines = LinePart {
            before,
            text: left.as_slice(),
        };
        let ended = read_side_by_side(forks, slot.as_str(), lines, &mut all);
        drop(left);
        ended?;
        if all.rows.len() > MOST {
            return Err(SourceFault::TooMany);
        }
        Ok(Stats {
            slot,
            rows: List::of(all.rows),
            notes: List::of(all.notes),
        })
    }
}

// With how many bytes the lines among them are read, where so many are wanted at least.
fn enough_for(pieces: u32, least: usize) -> usize {
    (ROUND_PART * pieces as usize).max(least)
}

// For how many rows more room is taken, once so many bytes of a file came.
fn early_room(fed: usize, rows: &Vec<Delegation>) -> usize {
    if fed > 4 * LEAST_PART {
        EARLY_ROWS.saturating_sub(rows.len())
    } else {
        0
    }
}

// Puts a piece behind the bytes before it.
fn put_behind(bytes: &mut Vec<u8>, piece: &[u8]) -> Result<(), Memory>
    ensures items { OnOk result (bytes.new.items ≡ bytes.old.items ++ piece.now) }
    ensures err { OnErr result (bytes.new.items ≡ bytes.old.items) }
{
    bytes.extend_from_slice(piece)?;
    Ok(())
}

// Lets the first bytes go.
fn let_go(bytes: &mut Vec<u8>, count: usize)
    requires { count ≤ length bytes.old.items }
    ensures { bytes.new.items ≡ drop count bytes.old.items }
{
    let kept = bytes.len() - count;
    bytes.copy_within(count.., 0);
    bytes.truncate(kept);
}
