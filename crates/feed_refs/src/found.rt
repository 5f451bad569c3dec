//! What the items of a dump say.
ghost use Rattle.std.specs.Prelude.{◌≡◌, ◌+◌, ◌≤◌, ◌++◌, [], IfOk, OnOk, vec_capacity, vec_len};
ghost use Rattle.feed_refs.specs.Dumps.{AreApart, in_line_order, noted, notes_of, reference_in};
ghost use Rattle.feed_refs.specs.Dumps.{references, references_of};
ghost use Rattle.feed_refs.specs.References.{found_in_parts};

use crate::reference::{What, found_of};
use crate::urls::Urls;
use geo_addr::{Memory, Text};
use geo_terms::{LineNote, Reference};
use rpsl_reader::{AttributeSight, Sight, Sights};
use std::alloc::Global;

/// References and notes.
#[derive(Drop)]
pub(crate) struct RefsAndNotes {
    pub refs: Vec<Reference>,
    pub notes: Vec<LineNote>,
}

impl RefsAndNotes {
    /// Nothing yet; it takes no memory.
    pub fn new(alloc: Global) -> RefsAndNotes
        ensures refs { result.refs.items ≡ [] }
        ensures notes { result.notes.items ≡ [] }
    {
        RefsAndNotes {
            refs: Vec::new(alloc),
            notes: Vec::new(alloc),
        }
    }

    /// What items say, in their order. URLs that came before are given again.
    #[tactic(auto, unfolding(crate::specs::Dumps::noted, crate::specs::Dumps::references))]
    pub fn of(
        alloc: Global,
        slot: &Text,
        seen: &Sights,
        urls: &mut Urls,
    ) -> Result<RefsAndNotes, Memory>
        ensures refs { IfOk result
            (λ found. found.refs.items ≡ references slot.now seen.now.items) }
        ensures notes { IfOk result (λ found. found.notes.items ≡ noted slot.now seen.now.items) }
    {
        let mut found = RefsAndNotes::new(alloc);
        for index in 0..seen.len() {
            take_item(alloc, slot, seen.at(index), urls, &mut found)?;
        }
        Ok(found)
    }

    /// Makes room for what more items say.
    pub fn reserve(&mut self, more: &RefsAndNotes) -> Result<(), Memory>
        ensures refs { self.new.refs.items ≡ self.old.refs.items }
        ensures notes { self.new.notes.items ≡ self.old.notes.items }
        ensures room_refs { OnOk result
            (vec_len self.new.refs + vec_len more.now.refs ≤ vec_capacity self.new.refs) }
        ensures room_notes { OnOk result
            (vec_len self.new.notes + vec_len more.now.notes ≤ vec_capacity self.new.notes) }
    {
        self.refs.reserve(more.refs.len())?;
        self.notes.reserve(more.notes.len())?;
        Ok(())
    }

    /// Adds what more items say, for which there is room.
    pub fn join(&mut self, more: RefsAndNotes)
        requires room_refs { vec_len self.old.refs + vec_len more.refs
            ≤ vec_capacity self.old.refs }
        requires room_notes { vec_len self.old.notes + vec_len more.notes
            ≤ vec_capacity self.old.notes }
        ensures refs { self.new.refs.items ≡ self.old.refs.items ++ more.refs.items }
        ensures notes { self.new.notes.items ≡ self.old.notes.items ++ more.notes.items }
    {
        let mut more = more;
        let refs_joined = self.refs.append(&mut more.refs).is_ok();
        let notes_joined = self.notes.append(&mut more.notes).is_ok();
        prove!(refs_joined && notes_joined);
    }
}

#[tactic(auto, unfolding(crate::specs::References::found))]
fn take_item(
    alloc: Global,
    slot: &Text,
    item: Sight,
    urls: &mut Urls,
    found: &mut RefsAndNotes,
) -> Result<(), Memory>
    ensures refs { OnOk result
        (found.new.refs.items ≡ found.old.refs.items ++ references_of slot.now item.entry) }
    ensures notes { OnOk result
        (found.new.notes.items ≡ found.old.notes.items ++ notes_of slot.now item.entry) }
{
    let line = item.line;
    match item.rule {
        None => take_object(alloc, slot, item.parts, urls, found),
        Some(rule) => found
            .notes
            .push(LineNote { line, rule })
            .map_err(Memory::from),
    }
}

fn take_object(
    alloc: Global,
    slot: &Text,
    parts: &[AttributeSight],
    urls: &mut Urls,
    found: &mut RefsAndNotes,
) -> Result<(), Memory>
    ensures refs { OnOk result (found.new.refs.items
        ≡ found.old.refs.items ++ reference_in (found_in_parts slot.now parts.now).what) }
    ensures notes { OnOk result
        (found.new.notes.items
        ≡ found.old.notes.items ++ (found_in_parts slot.now parts.now).notes) }
{
    let told = found_of(alloc, slot, parts, urls)?;
    let mut notes = told.notes.into_vec();
    found.notes.append(&mut notes)?;
    match told.what {
        What::One(reference) => found.refs.push(reference).map_err(Memory::from),
        What::NotInet => Ok(()),
        What::Nothing => Ok(()),
        What::Void => Ok(()),
    }
}

/// Notes on distinct lines, in line order.
pub(crate) fn in_line_order(notes: Vec<LineNote>) -> Result<Vec<LineNote>, Memory>
    ensures { IfOk result
        (λ sorted. AreApart notes.items → sorted.items ≡ in_line_order notes.items) }
{
    let mut notes = notes;
    notes.sort_by_key(|note| note.line)?;
    Ok(notes)
}
