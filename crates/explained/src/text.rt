//! The whole text of an explanation.
ghost use Rattle.std.specs.Prelude.{◌≡◌, IfOk};
ghost use Rattle.explained.specs.Explanation.{explanation};
ghost use Rattle.precedence.specs.Why.{reasons_of};

use crate::lines::{
    delegation_line, entry_line, override_line, prefixes_line, record_line, speaker_line,
};
use geo_addr::{Addr, Memory, Text, addr_text};
use precedence::Why;
use std::alloc::Global;

/// Why an address has its record, in seven lines: the address, the override, the speaker, the entry
/// and the delegation, the blocks of the delegation's range, and the record as JSON. What there is
/// not is `none`.
#[tactic(auto, unfolding(crate::specs::Explanation::explanation))]
pub fn explanation(alloc: Global, at: Addr, why: &Why<'_>) -> Result<Text, Memory>
    ensures { IfOk result (λ text. text ≡ explanation at.0 (reasons_of why.entry.now)) }
{
    let address = addr_text(alloc, at)?;
    let address = address.as_str();
    let over = override_line(alloc, why.over)?;
    let speaker = speaker_line(alloc, why.speaker)?;
    let entry = entry_line(alloc, why.entry)?;
    let delegation = delegation_line(alloc, why.delegation)?;
    let prefixes = prefixes_line(alloc, why.delegation)?;
    let place = record_line(alloc, why.place)?;
    let text = format!(in alloc;
        "address {address}\n{over}{speaker}{entry}{delegation}{prefixes}{place}"
    )?;
    let text = Text::from_string(text)?;
    Ok(text)
}
