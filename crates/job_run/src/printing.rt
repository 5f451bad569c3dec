//! Printing of one text, at once.
ghost use Rattle.std.specs.Prelude.{◌≡◌, ◌⊎◌, ◌≤◌, [], IfErr, OnOk};
ghost use Rattle.geo_outside.specs.Count.{Rose};
ghost use Rattle.job_run.specs.Seen.{Prints};
ghost use Rattle.job_run.specs.Stops.{Tail};

use crate::stop::Stop;
use geo_outside::{OutErr, Sink};

/// Prints a text by one call.
pub fn print<O: Sink>(out: &mut O, text: &str) -> Result<(), Stop>
    ensures printed { OnOk result (Prints (O.written out.old) (O.written out.new) text.now) }
    ensures tail { IfErr result
        (λ why. Tail why [] text.now (O.written out.old) (O.written out.new)) }
    ensures causes { IfErr result (λ why. (why ≡ Stop.SinkFailed) ⊎ (why ≡ Stop.Memory)) }
    ensures sink_failed { result ≡ Err Stop.SinkFailed
        → Rose (O.faults out.old) (O.faults out.new) }
    ensures faults { O.faults out.old ≤ O.faults out.new }
{
    match out.write_all(text.as_bytes()) {
        Ok(()) => Ok(()),
        Err(OutErr::Failed) => Err(Stop::SinkFailed),
        Err(OutErr::Memory) => Err(Stop::Memory),
    }
}
