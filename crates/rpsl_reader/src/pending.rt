//! What is kept of a line that has not ended.
ghost use Rattle.std.specs.Prelude.{◌≡◌, ◌+◌, ◌≤◌, length, fold, OnOk, OnErr};
ghost use Rattle.rpsl_reader.specs.Reading.{grown, most, newer};

use crate::limits::MOST;
use geo_addr::{Memory, is_blank};

/// Goes on with a line by bytes that do not end it. Past `MOST` its last
/// byte stands for all the others.
#[tactic(auto, using(crate::proofs::PieceLemmas::keeping))]
pub(crate) fn hold(line: &mut Vec<u8>, bytes: &[u8]) -> Result<(), Memory>
    requires { length line.old.items ≤ most + 1 }
    ensures ok { OnOk result (line.new.items ≡ fold grown line.old.items bytes.now) }
    ensures bounded { length line.new.items ≤ most + 1 }
    ensures err { OnErr result (line.new.items ≡ line.old.items) }
{
    let room = MOST + 1 - line.len();
    if bytes.len() <= room {
        return line.extend_from_slice(bytes).map_err(Memory::from);
    }
    let (fits, rest) = bytes.split_at(room);
    line.extend_from_slice(fits)?;
    let newest = newest_of(line[MOST], rest);
    line[MOST] = newest;
    Ok(())
}

// The byte that stands for the others, after more of them.
#[tactic(auto, using(crate::proofs::PieceLemmas::newer_stays))]
fn newest_of(byte: u8, bytes: &[u8]) -> u8
    ensures { result ≡ fold newer byte bytes.now }
{
    let mut newest = byte;
    let mut left = bytes;
    while let [next, rest @ ..] = left {
        if !is_blank(newest) {
            return b'x';
        }
        newest = *next;
        left = rest;
    }
    newest
}
