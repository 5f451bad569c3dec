//! Writing all bytes of a piece.
ghost use Rattle.std.specs.Prelude.{◌≡◌, ℕ, OnOk, OnErr, take};
ghost use Rattle.std.specs.Io.KnownBytes.{Appends};

use std::io;
use std::io::{ErrorKind, Write};

/// Writes the whole piece by as many writes as it takes. A write that takes no byte is an error.
pub(crate) fn write_whole<W: Write>(out: &mut W, piece: &[u8]) -> io::Result<()>
    ensures whole { OnOk result (Appends (W.contents out.old) (W.contents out.new) piece.now) }
    ensures part { OnErr result
        ((n : ℕ) × Appends (W.contents out.old) (W.contents out.new) (take n piece.now)) }
{
    let mut rest = piece;
    while !rest.is_empty() {
        let taken = out.write(rest)?;
        if taken == 0 {
            return Err(io::Error::from(ErrorKind::WriteZero));
        }
        rest = &rest[taken..];
    }
    Ok(())
}
