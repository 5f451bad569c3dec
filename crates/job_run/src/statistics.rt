//! A statistics file, read from a file piece by piece.
ghost use Rattle.std.specs.Prelude.{◌≡◌, ◌≢◌, ◌+◌, ◌++◌, ◌<◌, ◌≤◌, ℕ, List, IfErr, IfOk, OnOk};
ghost use Rattle.std.specs.Prelude.{Some, length};
ghost use Rattle.std.specs.FinMap as map;
ghost use Rattle.geo_outside.specs.Count.{Rose};
ghost use Rattle.geo_outside.specs.Files.{Told};
ghost use Rattle.geo_outside.specs.declared.whole.TheConstants.{PIECE};
ghost use Rattle.nro_stats.specs.File.{longest, most, stats};
ghost use Rattle.nro_stats.specs.Reading.{WasFed};
ghost use Rattle.nro_stats.specs.declared.read.TheConstants.{LONGEST_STATS};
ghost use Rattle.job_run.specs.Sources.{HoldsStats, no_stats, rows_of};
ghost use Rattle.job_run.specs.Stops.{IsHindered};

use crate::dumps::{empty_piece, read_piece};
use crate::stop::{Cause, Stop};
use fan_work::Forks;
use geo_outside::{Folder, Gate};
use geo_terms::{SourceFault, Stats};
use nro_stats::{LONGEST_STATS, StatsReader};
use std::marker::Sync;
use std::thread::Threads;

/// Reads the statistics of a slot from the file of this name, up to its end or to the piece with
/// which it has too many bytes. Bytes whose lines were read are let go, which no clause says.
pub(crate) fn read_statistics<R: Threads + Sync, F: Folder, G: Gate>(
    forks: &Forks<R, G>,
    folder: &mut F,
    slot: &str,
    name: &str,
) -> Result<Stats, Stop>
    ensures found { (w : Told) → F.told folder.old ≡ Some w
        → IfOk result (HoldsStats slot.now (map.get w.held name.now)) }
    ensures unread { (w : Told) → F.told folder.old ≡ Some w
        → IfErr result (λ why. IsHindered why
        (λ cause. no_stats slot.now (map.get w.held name.now) ≡ Some cause)) }
    ensures reads { (result ≢ Err Stop.PutFailed) × (result ≢ Err Stop.SinkFailed)
        × (result ≢ Err (Stop.Blocked Cause.Words)) }

    ensures read_failed { result ≡ Err Stop.ReadFailed
        → Rose (F.read_faults folder.old) (F.read_faults folder.new) }
    ensures missing { result ≡ Err (Stop.Blocked Cause.Missing)
        → Rose (F.misses folder.old) (F.misses folder.new) }
    ensures same { F.told folder.new ≡ F.told folder.old }
    ensures read_faults { F.read_faults folder.old ≤ F.read_faults folder.new }
    ensures put_faults { F.put_faults folder.old ≤ F.put_faults folder.new }
    ensures misses { F.misses folder.old ≤ F.misses folder.new }
    ensures given { F.given folder.new ≤ F.given folder.old + (LONGEST_STATS + PIECE) }
{
    let mut buffer = empty_piece(forks.alloc)?;
    let piece: &mut [u8] = &mut buffer;
    let mut reader = StatsReader::new(forks.alloc, slot)?;
    let mut fed = 0_u64;
    while fed <= LONGEST_STATS as u64 {
        let n = read_piece(folder, name, fed, piece)?;
        if n == 0 {
            return whole_stats(forks, reader);
        }
        feed_piece(forks, &mut reader, &piece[..n])?;
        fed += n as u64;
    }
    unreachable!()
}

/// Gives a reader one more piece.
fn feed_piece<R: Threads + Sync, G: Gate>(
    forks: &Forks<R, G>,
    reader: &mut StatsReader,
    piece: &[u8],
) -> Result<(), Stop>
    ensures read { (slot text : List ℕ) → WasFed slot text reader.old
        → OnOk result (WasFed slot (text ++ piece.now) reader.new
        × (length (text ++ piece.now) ≤ longest)) }
    ensures refused { (slot text : List ℕ) → WasFed slot text reader.old
        → IfErr result (λ why. IsHindered why
        (λ cause. (cause ≡ Cause.TooLong) × (longest < length (text ++ piece.now)))) }
    ensures read_only { (result ≢ Err Stop.ReadFailed)
        × (result ≢ Err (Stop.Blocked Cause.Missing)) }
    ensures reads { (result ≢ Err Stop.PutFailed) × (result ≢ Err Stop.SinkFailed)
        × (result ≢ Err (Stop.Blocked Cause.Words)) }
{
    match reader.feed(forks, piece) {
        Ok(()) => Ok(()),
        Err(SourceFault::TooLong) => Err(Stop::Blocked(Cause::TooLong)),
        Err(SourceFault::TooMany) => Err(Stop::Blocked(Cause::TooMany)),
        Err(SourceFault::Memory) => Err(Stop::Memory),
    }
}

/// The statistics that a reader has read whole.
fn whole_stats<R: Threads + Sync, G: Gate>(
    forks: &Forks<R, G>,
    reader: StatsReader,
) -> Result<Stats, Stop>
    ensures found { (slot text : List ℕ) → WasFed slot text reader
        → IfOk result (λ found. found ≡ stats slot text) }
    ensures few { (slot text : List ℕ) → WasFed slot text reader
        → OnOk result (rows_of slot text ≤ most) }
    ensures refused { (slot text : List ℕ) → WasFed slot text reader
        → IfErr result (λ why. IsHindered why
        (λ cause. (cause ≡ Cause.TooMany) × (most < rows_of slot text))) }
    ensures read_only { (result ≢ Err Stop.ReadFailed)
        × (result ≢ Err (Stop.Blocked Cause.Missing)) }
    ensures reads { (result ≢ Err Stop.PutFailed) × (result ≢ Err Stop.SinkFailed)
        × (result ≢ Err (Stop.Blocked Cause.Words)) }
{
    match reader.finish(forks) {
        Ok(found) => Ok(found),
        Err(SourceFault::TooLong) => Err(Stop::Blocked(Cause::TooLong)),
        Err(SourceFault::TooMany) => Err(Stop::Blocked(Cause::TooMany)),
        Err(SourceFault::Memory) => Err(Stop::Memory),
    }
}
