//! The lines of a job that drop a source.
ghost use Rattle.std.specs.Prelude.{◌≡◌, ◌⊎◌, IfErr, IfOk, None, OnErr, Some};
ghost use Rattle.job_lines.specs.Acts.{drop_line, gone_by, gone_of, gone_overrides};
ghost use Rattle.job_lines.specs.Words.{words};

use crate::act::Act;
use crate::line_fault::LineFault;
use crate::operands::{nothing, slot_alone, url_alone};
use crate::words::next_word;
use geo_terms::Origin as Gone;
use std::alloc::Global;

/// The act of a line behind its word `drop`.
pub(crate) fn drop_line(alloc: Global, rest: &[u8]) -> Result<Act, LineFault>
    ensures ok { IfOk result (λ act. drop_line (words rest.now) ≡ Some act) }
    ensures err { IfErr result (λ why. (why ≡ LineFault.Memory)
        ⊎ (drop_line (words rest.now) ≡ None)) }
{
    let gone = gone_of(alloc, rest)?;
    Ok(Act::Drop(gone))
}

// The source that the words say: the first word says which kind.
fn gone_of(alloc: Global, rest: &[u8]) -> Result<Gone, LineFault>
    ensures ok { IfOk result (λ gone. gone_of (words rest.now) ≡ Some gone) }
    ensures err { IfErr result (λ why. (why ≡ LineFault.Memory)
        ⊎ (gone_of (words rest.now) ≡ None)) }
{
    match next_word(rest) {
        Some((word, more)) => gone_by(alloc, word, more),
        None => Err(LineFault::Few { at: 1 }),
    }
}

#[tactic(auto, unfolding(crate::specs::Acts::gone_by))]
fn gone_by(alloc: Global, word: &[u8], rest: &[u8]) -> Result<Gone, LineFault>
    ensures ok { IfOk result (λ gone. gone_by word.now (words rest.now) ≡ Some gone) }
    ensures err { IfErr result (λ why. (why ≡ LineFault.Memory)
        ⊎ (gone_by word.now (words rest.now) ≡ None)) }
{
    if word == b"rpsl".as_slice() {
        let slot = slot_alone(alloc, rest, 2)?;
        return Ok(Gone::Rpsl(slot));
    }
    if word == b"stats".as_slice() {
        let slot = slot_alone(alloc, rest, 2)?;
        return Ok(Gone::Stats(slot));
    }
    if word == b"feed".as_slice() {
        let url = url_alone(alloc, rest, 2)?;
        return Ok(Gone::Feed(url));
    }
    if word == b"overrides".as_slice() {
        return gone_overrides(rest);
    }
    Err(LineFault::Kind)
}

fn gone_overrides(rest: &[u8]) -> Result<Gone, LineFault>
    ensures ok { IfOk result (λ gone. gone_overrides (words rest.now) ≡ Some gone) }
    ensures err { OnErr result (gone_overrides (words rest.now) ≡ None) }
{
    nothing(rest, 2)?;
    Ok(Gone::Overrides)
}
