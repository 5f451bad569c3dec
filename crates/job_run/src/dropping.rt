//! A source, dropped.
ghost use Rattle.std.specs.Prelude.{◌≡◌, ◌⊎◌, IfErr, OnErr, OnOk, false};
ghost use Rattle.job_run.specs.Sources.{IsDropped, is_there};

use crate::stop::{Cause, Stop};
use job_lines::Gone;
use precedence::DropFault;
use update_session::Session;

/// Drops a source.
pub(crate) fn drop_source(source: &Gone, session: &mut Session) -> Result<(), Stop>
    ensures dropped { OnOk result (IsDropped source.now session.old session.new) }
    ensures absent { result ≡ Err (Stop.Blocked Cause.NotThere)
        → is_there source.now session.old.state.sources ≡ false }
    ensures causes { IfErr result (λ why. (why ≡ Stop.Blocked Cause.NotThere)
        ⊎ (why ≡ Stop.Memory)) }
    ensures err { OnErr result (session.new ≡ session.old) }
{
    let dropped = match source {
        Gone::Rpsl(slot) => session.drop_rpsl(slot.as_str()),
        Gone::Stats(slot) => session.drop_stats(slot.as_str()),
        Gone::Feed(url) => session.drop_feed(url.as_str()),
        Gone::Overrides => session.drop_overrides(),
    };
    match dropped {
        Ok(()) => Ok(()),
        Err(DropFault::NotThere) => Err(Stop::Blocked(Cause::NotThere)),
        Err(DropFault::Memory) => Err(Stop::Memory),
    }
}
