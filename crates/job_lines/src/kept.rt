//! The lines of a job that keep sources, go back to them, or give up nodes.
ghost use Rattle.std.specs.Prelude.{◌≡◌, ◌⊎◌, IfErr, IfOk, None, OnErr, Some};
ghost use Rattle.job_lines.specs.Acts.{back_line, compact_line, kept_by, mark_line};
ghost use Rattle.job_lines.specs.Words.{words};

use crate::act::Act;
use crate::line_fault::LineFault;
use crate::operands::{nothing, slot_alone};
use std::alloc::Global;

/// The act of such a line: its first word says which.
#[tactic(auto, unfolding(crate::specs::Acts::kept_by))]
pub(crate) fn kept_by(alloc: Global, word: &[u8], rest: &[u8]) -> Result<Act, LineFault>
    ensures ok { IfOk result (λ act. kept_by word.now (words rest.now) ≡ Some act) }
    ensures err { IfErr result (λ why. (why ≡ LineFault.Memory)
        ⊎ (kept_by word.now (words rest.now) ≡ None)) }
{
    if word == b"mark".as_slice() {
        return mark_line(alloc, rest);
    }
    if word == b"back".as_slice() {
        return back_line(alloc, rest);
    }
    if word == b"compact".as_slice() {
        return compact_line(rest);
    }
    Err(LineFault::Unknown)
}

fn mark_line(alloc: Global, rest: &[u8]) -> Result<Act, LineFault>
    ensures ok { IfOk result (λ act. mark_line (words rest.now) ≡ Some act) }
    ensures err { IfErr result (λ why. (why ≡ LineFault.Memory)
        ⊎ (mark_line (words rest.now) ≡ None)) }
{
    let name = slot_alone(alloc, rest, 1)?;
    Ok(Act::Mark { name })
}

fn back_line(alloc: Global, rest: &[u8]) -> Result<Act, LineFault>
    ensures ok { IfOk result (λ act. back_line (words rest.now) ≡ Some act) }
    ensures err { IfErr result (λ why. (why ≡ LineFault.Memory)
        ⊎ (back_line (words rest.now) ≡ None)) }
{
    let name = slot_alone(alloc, rest, 1)?;
    Ok(Act::Back { name })
}

fn compact_line(rest: &[u8]) -> Result<Act, LineFault>
    ensures ok { IfOk result (λ act. compact_line (words rest.now) ≡ Some act) }
    ensures err { OnErr result (compact_line (words rest.now) ≡ None) }
{
    nothing(rest, 1)?;
    Ok(Act::Compact)
}
