//! `explain JOB ADDR`: prints why an address has its record by a job.
ghost use Rattle.std.specs.Prelude.{◌≡◌, ◌⊎◌, ◌≤◌, [], IfErr, IfOk, OnOk};
ghost use Rattle.geo_outside.specs.Count.{Rose};
ghost use Rattle.geo_terms.specs.Precedence.{reasons_at};
ghost use Rattle.explained.specs.Explanation.{explanation};
ghost use Rattle.job_run.specs.Seen.{Prints};
ghost use Rattle.job_run.specs.Stops.{Tail};

use explained::explanation;
use geo_addr::{Addr, Memory, Text};
use geo_outside::Sink;
use job_run::{Stop, print};
use std::alloc::Global;
use update_session::Session;

/// Prints why the address has its record by the sources of a session.
pub(crate) fn print_why<O: Sink>(
    alloc: Global,
    at: Addr,
    session: &Session,
    out: &mut O,
) -> Result<(), Stop>
    ensures printed { OnOk result (Prints (O.written out.old) (O.written out.new)
        (explanation at.0 (reasons_at session.now.state.sources at.0))) }
    ensures tail { IfErr result (λ why. Tail why []
        (explanation at.0 (reasons_at session.now.state.sources at.0))
        (O.written out.old) (O.written out.new)) }
    ensures causes { IfErr result (λ why. (why ≡ Stop.SinkFailed) ⊎ (why ≡ Stop.Memory)) }
    ensures sink_failed { result ≡ Err Stop.SinkFailed
        → Rose (O.faults out.old) (O.faults out.new) }
    ensures faults { O.faults out.old ≤ O.faults out.new }
{
    let text = why_text(alloc, at, session)?;
    print(out, text.as_str())
}

/// The text of why the address has its record.
fn why_text(alloc: Global, at: Addr, session: &Session) -> Result<Text, Memory>
    ensures { IfOk result (λ text. text
        ≡ explanation at.0 (reasons_at session.now.state.sources at.0)) }
{
    let why = session.why_at(at);
    explanation(alloc, at, &why)
}
