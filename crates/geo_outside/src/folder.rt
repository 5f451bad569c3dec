//! Files by their names.
ghost use Rattle.std.specs.Prelude.{◌≡◌, ℕ, ◌+◌, ◌≤◌, ◌<◌, List, Option, length, IfOk, OnOk, OnErr};
ghost use Rattle.std.specs.Prelude.{IsSome};
ghost use Rattle.std.specs.FinMap as map;
ghost use Rattle.geo_outside.specs.Count.{Rose};
ghost use Rattle.geo_outside.specs.Files.{Told, after_put, Spoils, IsReadFrom};
ghost use Rattle.geo_outside.specs.declared.folder.OutErr.TheVariants.{Memory};

use std::alloc::{AllocError, AllocFailed};
use thiserror::Error;

/// Why something was not written.
#[derive(Clone, Copy, Debug, PartialEq, Eq, Error)]
pub enum OutErr {
    #[error("cannot be written")]
    Failed,
    #[error("out of memory")]
    Memory,
}

impl From<AllocError> for OutErr {
    ghost from_gives = { λ _ e. e ≡ Memory };

    fn from(_e: AllocError) -> OutErr {
        OutErr::Memory
    }
}

impl<T: Drop> From<AllocFailed<T>> for OutErr {
    ghost from_gives = { λ _ e. e ≡ Memory };

    fn from(_e: AllocFailed<T>) -> OutErr {
        OutErr::Memory
    }
}

impl From<geo_addr::Memory> for OutErr {
    ghost from_gives = { λ _ e. e ≡ Memory };

    fn from(_e: geo_addr::Memory) -> OutErr {
        OutErr::Memory
    }
}

/// Why a file was not read.
#[derive(Clone, Copy, Debug, PartialEq, Eq, Error)]
pub enum FolderErr {
    #[error("cannot be read")]
    Failed,
    #[error("no such file")]
    Missing,
}

/// Files that are read and put by name.
///
/// In contracts `told` is the files held and the puts made, where the folder tells them. Three
/// counts, of reads that failed, puts that failed and names that were missing, never fall and end
/// at 2^64 - 1. `given` is how many bytes the reads gave, or less:
/// a folder that keeps no such count says 0.
pub trait Folder {
    ghost told: { Self → Option Told };

    ghost read_faults: { Self → ℕ };

    ghost put_faults: { Self → ℕ };

    ghost misses: { Self → ℕ };

    ghost given: { Self → ℕ };

    /// Reads bytes of a file from an offset on, at most as many as there is room for. 0 is the end.
    fn read_at(&mut self, name: &str, from: u64, into: &mut [u8]) -> Result<usize, FolderErr>
        requires { 0 < length into.old }
        ensures room { IfOk result (λ n. n ≤ length into.old) }
        ensures held { (w : Told) → told self.old ≡ Some w
            → OnOk result (IsSome (map.get w.held name.now)) }
        ensures bytes { (w : Told) (file : List ℕ) → told self.old ≡ Some w
            → map.get w.held name.now ≡ Some file → IfOk result (IsReadFrom file from into.new) }
        ensures failed { result ≡ Err FolderErr.Failed
            → Rose (read_faults self.old) (read_faults self.new) }
        ensures missing { result ≡ Err FolderErr.Missing
            → Rose (misses self.old) (misses self.new) }
        ensures absent { (w : Told) → told self.old ≡ Some w → result ≡ Err FolderErr.Missing
            → map.get w.held name.now ≡ None }

        ensures same { told self.new ≡ told self.old }
        ensures read_faults { read_faults self.old ≤ read_faults self.new }
        ensures put_faults { put_faults self.old ≤ put_faults self.new }
        ensures misses { misses self.old ≤ misses self.new }
        ensures given { IfOk result (λ n. given self.new ≤ given self.old + n) }
        ensures none_given { OnErr result (given self.new ≤ given self.old) };

    /// Sets a file to these bytes. At `Failed` the name holds anything or nothing.
    fn put(&mut self, name: &str, bytes: &[u8]) -> Result<(), OutErr>
        ensures ok { (w : Told) → told self.old ≡ Some w
            → OnOk result (told self.new ≡ Some (after_put w name.now bytes.now)) }
        ensures failed { result ≡ Err OutErr.Failed
            → Rose (put_faults self.old) (put_faults self.new) }
        ensures spoilt { (w : Told) → told self.old ≡ Some w → result ≡ Err OutErr.Failed
            → (v : Told) × (told self.new ≡ Some v) × Spoils w v name.now }
        ensures memory { result ≡ Err OutErr.Memory → told self.new ≡ told self.old }
        ensures memory_counts { result ≡ Err OutErr.Memory
            → (read_faults self.new ≡ read_faults self.old)
            × (put_faults self.new ≡ put_faults self.old) × (misses self.new ≡ misses self.old) }

        ensures read_faults { read_faults self.old ≤ read_faults self.new }
        ensures put_faults { put_faults self.old ≤ put_faults self.new }
        ensures misses { misses self.old ≤ misses self.new }
        ensures given { given self.new ≤ given self.old };
}
