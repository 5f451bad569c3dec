//! The delegations of several files, file by file.
ghost use Rattle.std.specs.Prelude.{◌≡◌, ◌≤◌, ◌<◌, ◌++◌, IfOk, OnOk, flat_map, length, map};
ghost use Rattle.std.specs.Prelude.{slice_get};
ghost use Rattle.std.specs.Arc.{arc_value};
ghost use Rattle.std.specs.List.Sorted.{IsNonDecreasing, IsPartitionPoint};
ghost use Rattle.std.specs.Option.{option_and_then, option_copied};
ghost use Rattle.authority.specs.Kinds.{IsKindIndex};
ghost use Rattle.geo_terms.specs.First.{first_at};
ghost use Rattle.geo_terms.specs.Precedence.{delegation_before, delegation_cmp};
ghost use Rattle.precedence.specs.Delegations.{IsIndex, starts_from};

use authority::KindIndex;
use first_index::{Numbered, plain};
use geo_addr::{Addr, Memory};
use geo_terms::{Delegation, Stats};
use std::alloc::Global;
use std::sync::Arc;

/// The index of the delegations of several files, and where the rows of each file start among those
/// of all.
#[derive(Debug, Drop)]
pub struct Delegations {
    pub index: KindIndex,
    pub starts: Vec<usize>,
}

/// The index of the delegations of several files, to be shared.
pub fn indexed(alloc: Global, files: &[Arc<Stats>]) -> Result<Arc<Delegations>, Memory>
    ensures { IfOk result (λ made. IsIndex (map arc_value files.now) (arc_value made)) }
{
    let mut starts = Vec::with_capacity(alloc, files.len())?;
    let index = index_of(alloc, files, &mut starts)?;
    let made = Arc::new(alloc, Delegations { index, starts })?;
    Ok(made)
}

// The index of the delegations of several files. Where the rows of each file start is appended.
fn index_of(
    alloc: Global,
    files: &[Arc<Stats>],
    starts: &mut Vec<usize>,
) -> Result<KindIndex, Memory>
    ensures index { IfOk result (IsKindIndex delegation_cmp (λ d. d.range)
        (flat_map (λ t. t.rows) (map arc_value files.now))) }
    ensures starts { OnOk result
        (starts.new.items ≡ starts.old.items ++ starts_from 0 (map arc_value files.now)) }
{
    let mut rows = Numbered::new(alloc);
    push_files(&mut rows, starts, files)?;
    KindIndex::of_numbered(alloc, rows)
}

/// The delegation at an index among those of all files, whose rows start at these indexes.
pub fn delegation_at<'a>(
    files: &'a [Arc<Stats>],
    starts: &[usize],
    index: usize,
) -> Option<&'a Delegation>
    requires { starts.now ≡ starts_from 0 (map arc_value files.now) }
    ensures { option_copied result
        ≡ slice_get (flat_map (λ t. t.rows) (map arc_value files.entry.now)) index }
{
    let at = begun(starts, index).checked_sub(1)?;
    row_at(files, at, index - starts[at])
}

// How many of the files that start at these indexes start at or before an index.
fn begun(starts: &[usize], index: usize) -> usize
    requires { IsNonDecreasing starts.now }
    ensures point { IsPartitionPoint (λ start. start ≤ index) (λ start. index < start)
        starts.now result }
    ensures bound { result ≤ length starts.now }
{
    starts.partition_point(|start| *start <= index)
}

// The delegation at an index of the file at an index.
fn row_at(files: &[Arc<Stats>], at: usize, index: usize) -> Option<&Delegation>
    ensures { option_copied result ≡ option_and_then (λ t. slice_get t.rows index)
        (slice_get (map arc_value files.entry.now) at) }
{
    files.get(at)?.rows.as_slice().get(index)
}

/// The first delegation of these files that holds an address: each one is looked at.
pub fn first_of_all(files: &[Arc<Stats>], at: Addr) -> Option<&Delegation>
    ensures { option_copied result ≡ first_at delegation_before (λ d. d.range)
        (flat_map (λ t. t.rows) (map arc_value files.entry.now)) at.0 }
{
    let mut first = None;
    for file in files {
        first = plain::first_at(file.rows.as_slice(), at, first);
    }
    first
}

// Appends the delegations of all files, and where those of each file start.
fn push_files<'a>(
    rows: &mut Numbered<'a, Delegation>,
    starts: &mut Vec<usize>,
    files: &'a [Arc<Stats>],
) -> Result<(), Memory>
    ensures rows { OnOk result (rows.new ≡ rows.old
        ++ flat_map (λ t. t.rows) (map arc_value files.entry.now)) }
    ensures starts { OnOk result (starts.new.items ≡ starts.old.items
        ++ starts_from (length rows.old) (map arc_value files.entry.now)) }
{
    for file in files {
        starts.push(rows.len())?;
        rows.push_all(file.rows.as_slice())?;
    }
    Ok(())
}
