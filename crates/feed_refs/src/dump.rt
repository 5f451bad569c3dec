//! A dump, read in pieces.
ghost use Rattle.std.specs.Prelude.{◌≡◌, ◌≢◌, ◌+◌, ◌-◌, ◌<◌, ◌≤◌, ◌^◌, ◌++◌, ◌∷◌, [], Err, false};
ghost use Rattle.std.specs.Prelude.{IfErr, IfOk, List, OnErr, OnOk, length, take, ℕ};
ghost use Rattle.geo_terms.specs.declared.source.SourceFault.{SourceFault};
ghost use Rattle.feed_refs.specs.Dumps.{AreApart, dump, in_line_order, most, noted, references};
ghost use Rattle.feed_refs.specs.Dumps.{so_far};
ghost use Rattle.feed_refs.specs.Readings.{ours, reading};
ghost use Rattle.rpsl_reader.specs.Changes.{IsChange, accepted};
ghost use Rattle.rpsl_reader.specs.Reading.{after, given, last};
ghost use Rattle.rpsl_reader.specs.Selections.{wanted};

use crate::found::{RefsAndNotes, in_line_order};
use crate::limits::{LONGEST_DUMP, MOST};
use crate::urls::Urls;
use geo_addr::{List, Memory, Text};
use geo_terms::{Dump, SourceFault};
use rpsl_reader::{Progress, Reader, Selection};
use std::alloc::Global;
use std::marker::Model;

/// Reads a registry dump in pieces, however it is cut.
///
/// A dump has too many references over `MOST`, counted in the objects that end within its first
/// `LONGEST_DUMP` bytes, and else is too long over as many. Contracts see what the text so far
/// leaves.
#[derive(Drop)]
pub struct DumpReader {
    alloc: Global,
    slot: Text,
    selection: Selection,
    reader: Reader,
    // The bytes that the reader was fed.
    fed: usize,
    found: RefsAndNotes,
    // The URLs so far, which references share.
    urls: Urls,
    fault: Option<SourceFault>,
}

impl Model for DumpReader {
    ghost use Rattle.feed_refs.specs.Readings.{IsHeld, Reading, kept_by};

    ghost Value = { Reading };

    ghost view = { λ r. record {
      slot = r.slot;
      kept =
          kept_by r.fault
          (record { reader = r.reader; refs = r.found.refs.items; notes = r.found.notes.items });
    } };

    ghost invariant = { λ r. IsHeld r.slot r.selection r.fed r.fault
        (record { reader = r.reader; refs = r.found.refs.items; notes = r.found.notes.items }) };
}

impl DumpReader {
    /// A reader of the dump in a slot, before its first byte.
    pub fn new(alloc: Global, slot: &str) -> Result<DumpReader, Memory>
        ensures { IfOk result (λ reader. reader ≡ reading slot.now []) }
    {
        let slot = Text::of(alloc, slot)?;
        let selection = our_selection(alloc)?;
        Ok(DumpReader {
            alloc,
            slot,
            selection,
            reader: Reader::new(alloc),
            fed: 0,
            found: RefsAndNotes::new(alloc),
            urls: Urls::new(alloc),
            fault: None,
        })
    }

    /// Reads one more piece of the dump.
    ///
    /// A dump that is too long or has too many references stays so, whatever follows: then nothing
    /// more is read, and no memory is wanted.
    pub fn feed(&mut self, piece: &[u8]) -> Result<(), SourceFault>
        ensures read { result ≢ Err SourceFault.Memory
            → (text : List ℕ) → self.old ≡ reading self.old.slot text
            → self.new ≡ reading self.old.slot (text ++ piece.now) }
        ensures answer { result ≢ Err SourceFault.Memory
            → (text : List ℕ) → self.old ≡ reading self.old.slot text
            → result ≡ so_far self.old.slot (text ++ piece.now) }
        ensures memory { result ≡ Err SourceFault.Memory → self.new ≡ self.old }
        ensures refused { IfErr self.old.kept
            (λ fault. (result ≡ Err fault) × (self.new ≡ self.old)) }
    {
        if let Some(fault) = self.fault {
            return Err(fault);
        }
        let within = first_bytes(piece, LONGEST_DUMP.saturating_sub(self.fed));
        let (progress, more) = more_in_piece(
            self.alloc,
            &self.slot,
            &self.selection,
            &self.reader,
            within,
            &mut self.urls,
        )?;
        if self.found.refs.len() + more.refs.len() > MOST {
            self.found = RefsAndNotes::new(self.alloc);
            self.fault = Some(SourceFault::TooMany);
            return Err(SourceFault::TooMany);
        }
        if within.len() < piece.len() {
            self.found = RefsAndNotes::new(self.alloc);
            self.fault = Some(SourceFault::TooLong);
            return Err(SourceFault::TooLong);
        }
        go_on(&mut self.reader, &mut self.found, progress, more)?;
        self.fed += piece.len();
        Ok(())
    }

    /// Ends the dump, and with it its last object.
    ///
    /// A dump that was refused is so at its end too, and no memory is wanted then.
    pub fn finish(self) -> Result<Dump, SourceFault>
        ensures answer { result ≢ Err SourceFault.Memory → (text : List ℕ)
            → self ≡ reading self.slot text → result ≡ dump self.slot text }
        ensures refused { IfErr self.kept (λ fault. result ≡ Err fault) }
    {
        if let Some(refusal) = self.fault {
            drop(self);
            return Err(refusal);
        }
        let DumpReader {
            alloc,
            slot,
            selection,
            reader,
            found,
            mut urls,
            ..
        } = self;
        let ended = more_at_end(alloc, &slot, &selection, &reader, &mut urls);
        // Dropped before the ways out, since the proof pays for a drop at each of them.
        drop(urls);
        drop(reader);
        drop(selection);
        let more = ended?;
        let whole = joined(found, more)?;
        Ok(Dump {
            slot,
            refs: List::of(whole.refs),
            notes: List::of(whole.notes),
        })
    }
}

// What a piece changes of the reader, and what the objects say that end in it.
fn more_in_piece<'a>(
    alloc: Global,
    slot: &Text,
    selection: &Selection,
    reader: &Reader,
    piece: &'a [u8],
    urls: &mut Urls,
) -> Result<(Progress<'a>, RefsAndNotes), Memory>
    requires { reader.now.fed + length piece.now < 2 ^ 63 }
    ensures change { IfOk result (λ both. IsChange reader.now both.0) }
    ensures fed { IfOk result
        (λ both. (accepted reader.now both.0).fed ≡ reader.now.fed + length piece.entry.now) }
    ensures state { IfOk result (λ both. (accepted reader.now both.0).state
        ≡ after reader.now.state piece.entry.now) }
    ensures refs { IfOk result (λ both. both.1.refs.items
        ≡ references slot.now (wanted selection.now (given reader.now.state piece.entry.now))) }
    ensures notes { IfOk result (λ both. both.1.notes.items
        ≡ noted slot.now (wanted selection.now (given reader.now.state piece.entry.now))) }
{
    let mut line = Vec::new(alloc);
    let (progress, seen) = reader.see(piece, selection, &mut line)?;
    let said = RefsAndNotes::of(alloc, slot, &seen, urls);
    drop(seen);
    let more = said?;
    Ok((progress, more))
}

// Goes on behind a piece, with what its objects say.
fn go_on(
    reader: &mut Reader,
    found: &mut RefsAndNotes,
    progress: Progress,
    more: RefsAndNotes,
) -> Result<(), Memory>
    requires { IsChange reader.old progress }
    ensures reader { OnOk result (reader.new ≡ accepted reader.old progress.entry) }
    ensures refs { OnOk result (found.new.refs.items ≡ found.old.refs.items ++ more.refs.items) }
    ensures notes { OnOk result
        (found.new.notes.items ≡ found.old.notes.items ++ more.notes.items) }
    ensures err_reader { OnErr result (reader.new ≡ reader.old) }
    ensures err_refs { OnErr result (found.new.refs.items ≡ found.old.refs.items) }
    ensures err_notes { OnErr result (found.new.notes.items ≡ found.old.notes.items) }
{
    found.reserve(&more)?;
    reader.accept(progress)?;
    found.join(more);
    Ok(())
}

// What the last object of a dump says.
fn more_at_end(
    alloc: Global,
    slot: &Text,
    selection: &Selection,
    reader: &Reader,
    urls: &mut Urls,
) -> Result<RefsAndNotes, Memory>
    ensures refs { IfOk result (λ more. more.refs.items
        ≡ references slot.now (wanted selection.now (last reader.now.state))) }
    ensures notes { IfOk result (λ more. more.notes.items
        ≡ noted slot.now (wanted selection.now (last reader.now.state))) }
{
    let seen = reader.see_end(selection)?;
    RefsAndNotes::of(alloc, slot, &seen, urls)
}

// Both parts of what a dump says, with their notes in line order.
fn joined(found: RefsAndNotes, more: RefsAndNotes) -> Result<RefsAndNotes, SourceFault>
    ensures refs { IfOk result (λ whole. whole.refs.items ≡ found.refs.items ++ more.refs.items) }
    ensures notes { IfOk result (λ whole. AreApart (found.notes.items ++ more.notes.items)
        → whole.notes.items ≡ in_line_order (found.notes.items ++ more.notes.items)) }
    ensures few { OnOk result (length found.refs.items + length more.refs.items ≤ most) }
    ensures many { IfErr result (λ fault. fault ≢ SourceFault.Memory
        → (fault ≡ SourceFault.TooMany)
        × (most < length found.refs.items + length more.refs.items)) }
{
    let mut whole = found;
    if whole.refs.len() + more.refs.len() > MOST {
        return Err(SourceFault::TooMany);
    }
    whole.reserve(&more)?;
    whole.join(more);
    let notes = in_line_order(whole.notes)?;
    Ok(RefsAndNotes {
        refs: whole.refs,
        notes,
    })
}

// What the objects of a dump are read for.
fn our_selection(alloc: Global) -> Result<Selection, Memory>
    ensures { IfOk result (λ selection. selection ≡ ours) }
{
    let mut selection = Selection::new(alloc);
    add_ours(alloc, &mut selection)?;
    Ok(selection)
}

fn add_ours(alloc: Global, selection: &mut Selection) -> Result<(), Memory>
    requires { selection.old ≡ record { everything = false; classes = []; names = [] } }
    ensures { OnOk result (selection.new ≡ ours) }
{
    add_class(alloc, selection, "inetnum")?;
    add_class(alloc, selection, "inet6num")?;
    add_name(alloc, selection, "geofeed")?;
    add_name(alloc, selection, "remarks")?;
    add_name(alloc, selection, "last-modified")
}

fn add_class(alloc: Global, selection: &mut Selection, name: &str) -> Result<(), Memory>
    ensures { OnOk result (selection.new
        ≡ record selection.old { classes = selection.old.classes ++ name.now ∷ [] }) }
{
    selection.add_class(Text::of(alloc, name)?)
}

fn add_name(alloc: Global, selection: &mut Selection, name: &str) -> Result<(), Memory>
    ensures { OnOk result (selection.new
        ≡ record selection.old { names = selection.old.names ++ name.now ∷ [] }) }
{
    selection.add_name(Text::of(alloc, name)?)
}

// At most so many bytes of a piece.
fn first_bytes(piece: &[u8], count: usize) -> &[u8]
    ensures { result.now ≡ take count piece.now }
{
    if count < piece.len() {
        &piece[..count]
    } else {
        piece
    }
}
