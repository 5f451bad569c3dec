//! The lines of a job that do something.
ghost use Rattle.std.specs.Prelude.{◌≡◌, ◌⊎◌, IfErr, IfOk, None, OnErr, Some};
ghost use Rattle.job_lines.specs.Acts.{act_by, emit_line, feed_form, feed_line, overrides_line};
ghost use Rattle.job_lines.specs.Acts.{report_line, rpsl_line, stats_line};
ghost use Rattle.job_lines.specs.Words.{words};

use crate::act::Act;
use crate::drops::drop_line;
use crate::kept::kept_by;
use crate::line_fault::LineFault;
use crate::operands::{both, file_alone, file_at, nothing, slot_and_file, url_at};
use std::alloc::Global;

/// The act that a line says: its first word says which.
#[tactic(auto, unfolding(crate::specs::Acts::act_by))]
pub(crate) fn act_by(alloc: Global, word: &[u8], rest: &[u8]) -> Result<Act, LineFault>
    ensures ok { IfOk result (λ act. act_by word.now (words rest.now) ≡ Some act) }
    ensures err { IfErr result (λ why. (why ≡ LineFault.Memory)
        ⊎ (act_by word.now (words rest.now) ≡ None)) }
{
    if word == b"rpsl".as_slice() {
        return rpsl_line(alloc, rest);
    }
    if word == b"stats".as_slice() {
        return stats_line(alloc, rest);
    }
    if word == b"feed".as_slice() {
        return feed_line(alloc, rest);
    }
    if word == b"overrides".as_slice() {
        return overrides_line(alloc, rest);
    }
    if word == b"drop".as_slice() {
        return drop_line(alloc, rest);
    }
    if word == b"emit".as_slice() {
        return emit_line(alloc, rest);
    }
    if word == b"report".as_slice() {
        return report_line(rest);
    }
    kept_by(alloc, word, rest)
}

fn rpsl_line(alloc: Global, rest: &[u8]) -> Result<Act, LineFault>
    ensures ok { IfOk result (λ act. rpsl_line (words rest.now) ≡ Some act) }
    ensures err { IfErr result (λ why. (why ≡ LineFault.Memory)
        ⊎ (rpsl_line (words rest.now) ≡ None)) }
{
    let (slot, file) = slot_and_file(alloc, rest)?;
    Ok(Act::Rpsl { slot, file })
}

fn stats_line(alloc: Global, rest: &[u8]) -> Result<Act, LineFault>
    ensures ok { IfOk result (λ act. stats_line (words rest.now) ≡ Some act) }
    ensures err { IfErr result (λ why. (why ≡ LineFault.Memory)
        ⊎ (stats_line (words rest.now) ≡ None)) }
{
    let (slot, file) = slot_and_file(alloc, rest)?;
    Ok(Act::Stats { slot, file })
}

fn feed_line(alloc: Global, rest: &[u8]) -> Result<Act, LineFault>
    ensures ok { IfOk result (λ act. feed_line (words rest.now) ≡ Some act) }
    ensures err { IfErr result (λ why. (why ≡ LineFault.Memory)
        ⊎ (feed_line (words rest.now) ≡ None)) }
{
    let (url, file) = both(rest)?;
    feed_form(alloc, url, file)
}

fn feed_form(alloc: Global, url: &[u8], file: &[u8]) -> Result<Act, LineFault>
    ensures ok { IfOk result (λ act. feed_form url.now file.now ≡ Some act) }
    ensures err { IfErr result (λ why. (why ≡ LineFault.Memory)
        ⊎ (feed_form url.now file.now ≡ None)) }
{
    let url = url_at(alloc, url, 1)?;
    let file = file_at(alloc, file, 2)?;
    Ok(Act::Feed { url, file })
}

fn overrides_line(alloc: Global, rest: &[u8]) -> Result<Act, LineFault>
    ensures ok { IfOk result (λ act. overrides_line (words rest.now) ≡ Some act) }
    ensures err { IfErr result (λ why. (why ≡ LineFault.Memory)
        ⊎ (overrides_line (words rest.now) ≡ None)) }
{
    let file = file_alone(alloc, rest)?;
    Ok(Act::Overrides { file })
}

fn emit_line(alloc: Global, rest: &[u8]) -> Result<Act, LineFault>
    ensures ok { IfOk result (λ act. emit_line (words rest.now) ≡ Some act) }
    ensures err { IfErr result (λ why. (why ≡ LineFault.Memory)
        ⊎ (emit_line (words rest.now) ≡ None)) }
{
    let file = file_alone(alloc, rest)?;
    Ok(Act::Emit { file })
}

fn report_line(rest: &[u8]) -> Result<Act, LineFault>
    ensures ok { IfOk result (λ act. report_line (words rest.now) ≡ Some act) }
    ensures err { OnErr result (report_line (words rest.now) ≡ None) }
{
    nothing(rest, 1)?;
    Ok(Act::Report)
}
