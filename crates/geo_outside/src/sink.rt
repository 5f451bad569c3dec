//! Something that text is written to, piece by piece.
ghost use Rattle.std.specs.Prelude.{◌≡◌, ℕ, ◌≤◌, List, Option, ◌++◌, take, OnOk};
ghost use Rattle.geo_outside.specs.Count.{Rose};

use crate::folder::OutErr;

/// Something to write to. In contracts `written` is the text so far, where the sink tells it, and
/// `faults` counts its failures, up to 2^64 - 1.
pub trait Sink {
    ghost written: { Self → Option (List ℕ) };

    ghost faults: { Self → ℕ };

    /// Writes the whole piece, or a part of it at `Failed`, or nothing at `Memory`.
    fn write_all(&mut self, piece: &[u8]) -> Result<(), OutErr>
        ensures ok { (text : List ℕ) → written self.old ≡ Some text
            → OnOk result (written self.new ≡ Some (text ++ piece.now)) }
        ensures failed { result ≡ Err OutErr.Failed → Rose (faults self.old) (faults self.new) }
        ensures part { (text : List ℕ) → written self.old ≡ Some text → result ≡ Err OutErr.Failed
            → (n : ℕ) × (written self.new ≡ Some (text ++ take n piece.now)) }
        ensures memory { result ≡ Err OutErr.Memory → written self.new ≡ written self.old }
        ensures memory_faults { result ≡ Err OutErr.Memory → faults self.new ≡ faults self.old }
        ensures faults { faults self.old ≤ faults self.new };
}
