//! A registry dump, read from a file piece by piece.
ghost use Rattle.std.specs.Prelude.{◌≡◌, ◌≢◌, ◌+◌, ◌++◌, ◌<◌, ◌≤◌, ◌⊎◌, ℕ, List, [], IfErr};
ghost use Rattle.std.specs.Prelude.{IfOk, IsSome, None, Ok, OnErr, OnOk, Some, length, vec_len};
ghost use Rattle.std.specs.FinMap as map;
ghost use Rattle.geo_outside.specs.Count.{Rose};
ghost use Rattle.geo_outside.specs.Files.{IsReadFrom, Told};
ghost use Rattle.geo_outside.specs.declared.whole.TheConstants.{PIECE};
ghost use Rattle.feed_refs.specs.Dumps.{dump, so_far};
ghost use Rattle.feed_refs.specs.Readings.{reading};
ghost use Rattle.feed_refs.specs.declared.limits.TheConstants.{LONGEST_DUMP};
ghost use Rattle.job_run.specs.Dumps.{IsDump, IsReadNoFurther, no_dump, refusal};
ghost use Rattle.job_run.specs.Stops.{IsHindered};

use crate::stop::{Cause, Stop};
use feed_refs::{DumpReader, LONGEST_DUMP};
use geo_addr::Memory;
use geo_outside::{Folder, FolderErr, PIECE};
use geo_terms::{Dump, SourceFault};
use std::alloc::Global;

/// Reads the dump of a slot from the file of this name, up to its end or to the piece with which
/// it has too many bytes or references: no more than a piece of it is held.
pub(crate) fn read_dump<F: Folder>(
    alloc: Global,
    folder: &mut F,
    slot: &str,
    name: &str,
) -> Result<Dump, Stop>
    ensures found { (w : Told) → F.told folder.old ≡ Some w
        → IfOk result (IsDump slot.now (map.get w.held name.now)) }
    ensures unread { (w : Told) → F.told folder.old ≡ Some w
        → IfErr result (λ why. IsHindered why
        (λ cause. no_dump slot.now (map.get w.held name.now) ≡ Some cause)) }
    ensures reads { (result ≢ Err Stop.PutFailed) × (result ≢ Err Stop.SinkFailed)
        × (result ≢ Err (Stop.Blocked Cause.Words)) }

    ensures read_failed { result ≡ Err Stop.ReadFailed
        → Rose (F.read_faults folder.old) (F.read_faults folder.new) }
    ensures missing { result ≡ Err (Stop.Blocked Cause.Missing)
        → Rose (F.misses folder.old) (F.misses folder.new) }
    ensures same { F.told folder.new ≡ F.told folder.old }
    ensures read_faults { F.read_faults folder.old ≤ F.read_faults folder.new }
    ensures put_faults { F.put_faults folder.old ≤ F.put_faults folder.new }
    ensures misses { F.misses folder.old ≤ F.misses folder.new }
    ensures given { F.given folder.new ≤ F.given folder.old + LONGEST_DUMP + PIECE }
    ensures no_further { (w : Told) (file : List ℕ) → F.told folder.old ≡ Some w
        → map.get w.held name.now ≡ Some file
        → IsReadNoFurther slot.now file (F.given folder.old) (F.given folder.new) }
{
    let mut buffer = empty_piece(alloc)?;
    let piece: &mut [u8] = &mut buffer;
    let mut reader = DumpReader::new(alloc, slot)?;
    let mut fed = 0_u64;
    while fed <= LONGEST_DUMP as u64 {
        let n = read_piece(folder, name, fed, piece)?;
        if n == 0 {
            return whole_dump(reader);
        }
        feed_piece(&mut reader, &piece[..n])?;
        fed += n as u64;
    }
    unreachable!()
}

/// Reads the piece of a file that begins at an offset; 0 bytes are the end.
pub(crate) fn read_piece<F: Folder>(
    folder: &mut F,
    name: &str,
    from: u64,
    piece: &mut [u8],
) -> Result<usize, Stop>
    requires { 0 < length piece.old }
    ensures room { IfOk result (λ n. n ≤ length piece.old) }
    ensures held { (w : Told) → F.told folder.old ≡ Some w
        → OnOk result (IsSome (map.get w.held name.now)) }
    ensures bytes { (w : Told) (file : List ℕ) → F.told folder.old ≡ Some w
        → map.get w.held name.now ≡ Some file → IfOk result (IsReadFrom file from piece.new) }
    ensures causes { IfErr result (λ why. (why ≡ Stop.ReadFailed)
        ⊎ (why ≡ Stop.Blocked Cause.Missing)) }
    ensures absent { (w : Told) → F.told folder.old ≡ Some w
        → result ≡ Err (Stop.Blocked Cause.Missing) → map.get w.held name.now ≡ None }

    ensures read_failed { result ≡ Err Stop.ReadFailed
        → Rose (F.read_faults folder.old) (F.read_faults folder.new) }
    ensures missing { result ≡ Err (Stop.Blocked Cause.Missing)
        → Rose (F.misses folder.old) (F.misses folder.new) }
    ensures same { F.told folder.new ≡ F.told folder.old }
    ensures read_faults { F.read_faults folder.old ≤ F.read_faults folder.new }
    ensures put_faults { F.put_faults folder.old ≤ F.put_faults folder.new }
    ensures misses { F.misses folder.old ≤ F.misses folder.new }
    ensures given { IfOk result (λ n. F.given folder.new ≤ F.given folder.old + n) }
    ensures none_given { OnErr result (F.given folder.new ≤ F.given folder.old) }
{
    match folder.read_at(name, from, piece) {
        Ok(n) => Ok(n),
        Err(FolderErr::Failed) => Err(Stop::ReadFailed),
        Err(FolderErr::Missing) => Err(Stop::Blocked(Cause::Missing)),
    }
}

/// Gives a reader one more piece.
fn feed_piece(reader: &mut DumpReader, piece: &[u8]) -> Result<(), Stop>
    ensures read { (text : List ℕ) → reader.old ≡ reading reader.old.slot text
        → OnOk result ((reader.new ≡ reading reader.old.slot (text ++ piece.now))
        × (refusal (so_far reader.old.slot (text ++ piece.now)) ≡ None)) }
    ensures refused { (text : List ℕ) → reader.old ≡ reading reader.old.slot text
        → IfErr result (λ why. IsHindered why
        (λ cause. refusal (so_far reader.old.slot (text ++ piece.now)) ≡ Some cause)) }
    ensures read_only { (result ≢ Err Stop.ReadFailed)
        × (result ≢ Err (Stop.Blocked Cause.Missing)) }
    ensures reads { (result ≢ Err Stop.PutFailed) × (result ≢ Err Stop.SinkFailed)
        × (result ≢ Err (Stop.Blocked Cause.Words)) }
{
    match reader.feed(piece) {
        Ok(()) => Ok(()),
        Err(SourceFault::TooLong) => Err(Stop::Blocked(Cause::TooLong)),
        Err(SourceFault::TooMany) => Err(Stop::Blocked(Cause::TooMany)),
        Err(SourceFault::Memory) => Err(Stop::Memory),
    }
}

/// The dump that a reader has read whole.
fn whole_dump(reader: DumpReader) -> Result<Dump, Stop>
    ensures found { (text : List ℕ) → reader ≡ reading reader.slot text → IfOk result
        (λ found. dump reader.slot text ≡ Ok found) }
    ensures refused { (text : List ℕ) → reader ≡ reading reader.slot text
        → IfErr result (λ why. IsHindered why
        (λ cause. refusal (dump reader.slot text) ≡ Some cause)) }
    ensures read_only { (result ≢ Err Stop.ReadFailed)
        × (result ≢ Err (Stop.Blocked Cause.Missing)) }
    ensures reads { (result ≢ Err Stop.PutFailed) × (result ≢ Err Stop.SinkFailed)
        × (result ≢ Err (Stop.Blocked Cause.Words)) }
{
    match reader.finish() {
        Ok(found) => Ok(found),
        Err(SourceFault::TooLong) => Err(Stop::Blocked(Cause::TooLong)),
        Err(SourceFault::TooMany) => Err(Stop::Blocked(Cause::TooMany)),
        Err(SourceFault::Memory) => Err(Stop::Memory),
    }
}

/// Room for one read.
pub(crate) fn empty_piece(alloc: Global) -> Result<Vec<u8>, Memory>
    ensures { IfOk result (λ v. vec_len v ≡ PIECE) }
{
    let piece = vec![in alloc; 0; PIECE]?;
    Ok(piece)
}
