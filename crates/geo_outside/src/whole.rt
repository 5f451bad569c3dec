//! Reading a whole file.
ghost use Rattle.std.specs.Prelude.{◌≡◌, ℕ, ◌+◌, ◌≤◌, ◌<◌, List, length, IfOk, IsSomeAnd, vec_len};
ghost use Rattle.std.specs.FinMap as map;
ghost use Rattle.geo_outside.specs.Count.{Rose};
ghost use Rattle.geo_outside.specs.Files.{Told};
ghost use Rattle.geo_outside.specs.declared.whole.WholeErr.TheVariants.{Memory};

use crate::folder::{Folder, FolderErr};
use std::alloc::{AllocError, Global};
use thiserror::Error;

/// How many bytes one read asks for.
pub const PIECE: usize = 65_536;

/// Why a whole file was not read.
#[derive(Clone, Copy, Debug, PartialEq, Eq, Error)]
pub enum WholeErr {
    #[error("cannot be read")]
    Failed,
    #[error("no such file")]
    Missing,
    #[error("too many bytes")]
    TooLong,
    #[error("out of memory")]
    Memory,
}

impl From<AllocError> for WholeErr {
    ghost from_gives = { λ _ e. e ≡ Memory };

    fn from(_e: AllocError) -> WholeErr {
        WholeErr::Memory
    }
}

/// Reads the file of this name, of at most `limit` bytes. It reads from the start on, each piece at
/// the offset that the one before reached, until a read gives no byte or
/// more than `limit` bytes were read.
pub fn read_whole<F: Folder>(
    alloc: Global,
    folder: &mut F,
    name: &str,
    limit: u64,
) -> Result<Vec<u8>, WholeErr>
    ensures bytes { (w : Told) → F.told folder.old ≡ Some w
        → IfOk result (λ v. map.get w.held name.now ≡ Some v.items) }
    ensures limit { IfOk result (λ v. vec_len v ≤ limit) }
    ensures long { (w : Told) → F.told folder.old ≡ Some w → result ≡ Err WholeErr.TooLong
        → IsSomeAnd (map.get w.held name.now) (λ file. limit < length file) }
    ensures failed { result ≡ Err WholeErr.Failed
        → Rose (F.read_faults folder.old) (F.read_faults folder.new) }
    ensures missing { result ≡ Err WholeErr.Missing
        → Rose (F.misses folder.old) (F.misses folder.new) }
    ensures absent { (w : Told) → F.told folder.old ≡ Some w → result ≡ Err WholeErr.Missing
        → map.get w.held name.now ≡ None }

    ensures same { F.told folder.new ≡ F.told folder.old }
    ensures read_faults { F.read_faults folder.old ≤ F.read_faults folder.new }
    ensures put_faults { F.put_faults folder.old ≤ F.put_faults folder.new }
    ensures misses { F.misses folder.old ≤ F.misses folder.new }
    ensures given { F.given folder.new ≤ F.given folder.old + limit + PIECE }
{
    let mut buffer = empty_piece(alloc)?;
    let piece: &mut [u8] = &mut buffer;
    let mut bytes = Vec::new(alloc);
    while bytes.len() as u64 <= limit {
        let n = match folder.read_at(name, bytes.len() as u64, piece) {
            Ok(n) => n,
            Err(FolderErr::Failed) => return Err(WholeErr::Failed),
            Err(FolderErr::Missing) => return Err(WholeErr::Missing),
        };
        if n == 0 {
            return Ok(bytes);
        }
        bytes.extend_from_slice(&piece[..n])?;
    }
    Err(WholeErr::TooLong)
}

/// Room for one read.
fn empty_piece(alloc: Global) -> Result<Vec<u8>, AllocError>
    ensures { IfOk result (λ v. vec_len v ≡ PIECE) }
{
    vec![in alloc; 0; PIECE]
}
