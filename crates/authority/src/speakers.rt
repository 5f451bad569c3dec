//! The references of all dumps: with an index of them where one is made, and one by one.
ghost use Rattle.std.specs.Prelude.{◌≡◌, ◌++◌, ◌&&◌, map, filter, fold, IfOk, IfSome, OnOk, Some};
ghost use Rattle.std.specs.Arc.{arc_value};
ghost use Rattle.std.specs.Option.{option_copied};
ghost use Rattle.geo_terms.specs.Covering.{covering};
ghost use Rattle.geo_terms.specs.First.{better, first_at};
ghost use Rattle.geo_terms.specs.PlaceForm.{same_text};
ghost use Rattle.geo_terms.specs.Precedence.{reference_before, reference_cmp};
ghost use Rattle.geo_terms.specs.Report.{covers};
ghost use Rattle.source_changes.specs.CutPoints.{AreCutsOf, whole};
ghost use Rattle.authority.specs.Held.{AreSpeakers, references_in};
ghost use Rattle.authority.specs.Kinds.{IsKindIndex};

use crate::kind_index::KindIndex;
use first_index::inetnums::Index;
use first_index::plain;
use geo_addr::{Addr, Block, Memory, Range, range_of};
use geo_terms::{Dump, Reference, Statement};
use split_core::cuts;
use std::alloc::Global;
use std::sync::Arc;

/// The index of the references of all dumps, and their cut points.
#[derive(Debug, Drop)]
pub struct Speakers {
    pub index: Index,
    pub cuts: Vec<u128>,
    // Where the speaker at each address stands among the references, as the index keeps them. It is
    // made where that is asked for.
    pub(crate) kind: Option<KindIndex>,
}

/// The index of the references of these dumps, to be shared; on request with where the speaker at
/// each address stands.
pub fn speakers_of(
    alloc: Global,
    dumps: &[Arc<Dump>],
    with_kind: bool,
) -> Result<Arc<Speakers>, Memory>
    ensures { IfOk result (λ made. AreSpeakers (references_in (map arc_value dumps.now))
        (arc_value made)) }
{
    let refs = references_of(alloc, dumps)?;
    let index = Index::build(alloc, refs)?;
    let kind = kind_of(alloc, index.references(), with_kind)?;
    let cuts = cuts_of(alloc, index.references(), &kind)?;
    let made = Arc::new(alloc, Speakers { index, cuts, kind })?;
    Ok(made)
}

fn kind_of(alloc: Global, refs: &[Reference], is_asked: bool) -> Result<Option<KindIndex>, Memory>
    ensures { IfOk result
        (λ kind. IfSome kind (IsKindIndex reference_cmp (λ r. r.range) refs.now)) }
{
    if !is_asked {
        return Ok(None);
    }
    let kind = KindIndex::of(alloc, refs)?;
    Ok(Some(kind))
}

// The cut points of references: those that their index has, or new ones.
fn cuts_of(alloc: Global, refs: &[Reference], kind: &Option<KindIndex>) -> Result<Vec<u128>, Memory>
    requires { IfSome kind.now (IsKindIndex reference_cmp (λ r. r.range) refs.now) }
    ensures { IfOk result (λ points. AreCutsOf (map (λ r. r.range) refs.now) points.items) }
{
    match kind {
        Some(kind) => copied_cuts(alloc, refs, kind),
        None => new_cuts(alloc, refs),
    }
}

// The cut points that the index of these references has.
fn copied_cuts(alloc: Global, refs: &[Reference], kind: &KindIndex) -> Result<Vec<u128>, Memory>
    requires { IsKindIndex reference_cmp (λ r. r.range) refs.now kind.now }
    ensures { IfOk result (λ points. AreCutsOf (map (λ r. r.range) refs.now) points.items) }
{
    let points = Vec::from_slice(alloc, kind.cuts())?;
    Ok(points)
}

fn new_cuts(alloc: Global, refs: &[Reference]) -> Result<Vec<u128>, Memory>
    ensures { IfOk result (λ points. AreCutsOf (map (λ r. r.range) refs.now) points.items) }
{
    let ranges = ranges_of(alloc, refs)?;
    let points = cuts(alloc, ranges.as_slice(), whole())?;
    Ok(points)
}

fn whole() -> Range
    ensures { result ≡ whole }
{
    Range {
        first: 0,
        last: u128::MAX,
    }
}

fn ranges_of(alloc: Global, refs: &[Reference]) -> Result<Vec<Range>, Memory>
    ensures { IfOk result (λ ranges. ranges.items ≡ map (λ r. r.range) refs.now) }
{
    let mut ranges = Vec::with_capacity(alloc, refs.len())?;
    for reference in refs {
        ranges.push(reference.range)?;
    }
    Ok(ranges)
}

fn references_of(alloc: Global, dumps: &[Arc<Dump>]) -> Result<Vec<Reference>, Memory>
    ensures { IfOk result (λ refs. refs.items ≡ references_in (map arc_value dumps.now)) }
{
    let mut refs = Vec::new(alloc);
    for dump in dumps {
        push_refs(&mut refs, dump.refs.as_slice())?;
    }
    Ok(refs)
}

fn push_refs(refs: &mut Vec<Reference>, more: &[Reference]) -> Result<(), Memory>
    ensures { OnOk result (refs.new.items ≡ refs.old.items ++ more.now) }
{
    refs.reserve(more.len())?;
    for reference in more {
        refs.push(copied(reference)?)?;
    }
    Ok(())
}

// A second owner of the texts of a reference.
fn copied(reference: &Reference) -> Result<Reference, Memory>
    ensures { IfOk result (λ copy. copy ≡ reference.now) }
{
    Ok(Reference {
        slot: reference.slot.copied()?,
        line: reference.line,
        range: reference.range,
        modified: reference.modified,
        url: reference.url.copied()?,
    })
}

/// The first reference of these dumps that holds an address: each one is looked at.
pub fn first_of_all(dumps: &[Arc<Dump>], at: Addr) -> Option<&Reference>
    ensures { option_copied result ≡ first_at reference_before (λ r. r.range)
        (references_in (map arc_value dumps.entry.now)) at.0 }
{
    let mut first = None;
    for dump in dumps {
        first = plain::first_at(dump.refs.as_slice(), at, first);
    }
    first
}

/// The first reference of these dumps of a URL that covers a block: each one is looked at.
pub fn covering_of_all<'a>(dumps: &'a [Arc<Dump>], block: Block, url: &str) -> Option<&'a Reference>
    ensures { option_copied result
        ≡ covering (references_in (map arc_value dumps.entry.now)) url.entry.now block }
{
    let mut first = None;
    for dump in dumps {
        first = covering_in(dump.refs.as_slice(), block, url, first);
    }
    first
}

// The first of these references of a URL that cover a block and of one that was found before.
fn covering_in<'a>(
    refs: &'a [Reference],
    block: Block,
    url: &str,
    found: Option<&'a Reference>,
) -> Option<&'a Reference>
    ensures { option_copied result ≡ fold (better reference_before) (option_copied found.entry)
        (filter (λ r. same_text r.url url.entry.now && covers r block) refs.entry.now) }
{
    let mut first = found;
    for reference in refs {
        if reference.url.as_str() == url && covers(reference, block) {
            first = Some(better(first, reference));
        }
    }
    first
}

// Whether the range of a reference is of the block's family and contains the block.
fn covers(reference: &Reference, block: Block) -> bool
    ensures { result ≡ covers reference.now block }
{
    let range = range_of(block);
    reference.range.is_v4() == range.is_v4()
        && reference.range.first <= range.first
        && range.last <= reference.range.last
}

// The new reference where it goes before the first one so far, else that one.
fn better<'a>(first: Option<&'a Reference>, next: &'a Reference) -> &'a Reference
    ensures { Some result.now ≡ better reference_before (option_copied first.entry) next.entry.now }
{
    match first {
        Some(first) => {
            if next.order(first).is_lt() {
                next
            } else {
                first
            }
        }
        None => next,
    }
}
