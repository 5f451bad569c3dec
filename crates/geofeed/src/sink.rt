//! Standard output as a sink.
ghost use Rattle.std.specs.Prelude.{◌≡◌, ◌≢◌, ◌≤◌, None, Err};
ghost use Rattle.geo_outside.specs.Count.{Rose};

use crate::whole::write_whole;
use geo_outside::{OutErr, Sink};
use std::io;
use std::io::Write;

/// A sink over a writer, which `main` gives as standard output.
/// It tells nothing of what was written.
#[derive(Drop)]
pub(crate) struct StdSink<W: Write> {
    out: W,
    why: Option<io::Error>,
    faults: u64,
}

impl<W: Write> StdSink<W> {
    pub(crate) fn new(out: W) -> StdSink<W> {
        StdSink {
            out,
            why: None,
            faults: 0,
        }
    }

    /// Why the last write that failed did so, as the system says it.
    pub(crate) fn why(&self) -> Option<io::Error> {
        self.why
    }
}

impl<W: Write> Sink for StdSink<W> {
    ghost written = { λ _. None };

    ghost faults = { λ sink. sink.faults };

    /// It never answers `Memory`: a write that the system has no memory for has failed,
    /// and `why` says so.
    fn write_all(&mut self, piece: &[u8]) -> Result<(), OutErr>
        ensures never_memory { result ≢ Err OutErr.Memory }
        ensures failed { result ≡ Err OutErr.Failed → Rose self.old.faults self.new.faults }
        ensures faults { self.old.faults ≤ self.new.faults }
    {
        match write_whole(&mut self.out, piece) {
            Ok(()) => Ok(()),
            Err(why) => {
                self.why = Some(why);
                self.faults = self.faults.saturating_add(1);
                Err(OutErr::Failed)
            }
        }
    }
}
