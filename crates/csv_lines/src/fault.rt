//! The faults of lines, each a note on its line.
ghost use Rattle.std.specs.Prelude.{◌≡◌, ◌++◌, IfOk, OnOk, take_while, drop};
ghost use Rattle.std.specs.List.{prefix_len};
ghost use Rattle.csv_lines.specs.Repeats.{is_before, merged};

use geo_addr::Memory;
use geo_terms::LineNote;
use std::alloc::Global;

// Two lists of faults in line order as one: before each of the later list stand those of the
// earlier list that have a lower line.
pub(crate) fn merged(
    alloc: Global,
    late: &[LineNote],
    early: &[LineNote],
) -> Result<Vec<LineNote>, Memory>
    ensures { IfOk result (λ all. all.items ≡ merged late.now early.now) }
{
    let mut all = Vec::with_capacity(alloc, late.len().saturating_add(early.len()))?;
    let mut left = early;
    for fault in late {
        left = take_before(left, fault.line, &mut all)?;
        all.push(*fault)?;
    }
    all.extend_from_slice(left)?;
    Ok(all)
}

// Takes the faults of lower lines, and gives those that are left.
fn take_before<'a>(
    faults: &'a [LineNote],
    line: u64,
    all: &mut Vec<LineNote>,
) -> Result<&'a [LineNote], Memory>
    ensures taken { OnOk result
        (all.new.items ≡ all.old.items ++ take_while (is_before line) faults.now) }
    ensures left { IfOk result
        (λ left. left.now ≡ drop (prefix_len (is_before line) faults.now) faults.now) }
{
    let mut left = faults;
    while let [first, rest @ ..] = left {
        if first.line >= line {
            break;
        }
        all.push(*first)?;
        left = rest;
    }
    Ok(left)
}
