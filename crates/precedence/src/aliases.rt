//! Notes on statements that speak nowhere, since all of their ground carries IPv4 addresses.
ghost use Rattle.std.specs.Prelude.{◌≡◌, ◌++◌, flat_map, map, OnOk};
ghost use Rattle.std.specs.Arc.{arc_value};
ghost use Rattle.geo_addr.specs.Ranges.{range_of_block};
ghost use Rattle.geo_terms.specs.Report.{alias_note};
ghost use Rattle.geo_terms.specs.declared.note.Origin.{Origin};
ghost use Rattle.geo_terms.specs.declared.note.Rule.TheVariants.{A01};

use authority::ReadyFeed;
use geo_addr::{Memory, Text};
use geo_terms::{
    Delegation, Dump, Entry, Feed, Note, Origin, Override, Reference, Rule, Statement, Stats,
    lies_in_alias,
};
use std::sync::Arc;

/// Appends the notes on references that speak nowhere, dump by dump.
pub fn push_dump_aliases(notes: &mut Vec<Note>, dumps: &[Arc<Dump>]) -> Result<(), Memory>
    ensures { OnOk result (notes.new.items ≡ notes.old.items ++ flat_map (λ r. alias_note
        (Origin.Rpsl r.slot) r.range r.line) (flat_map (λ d. d.refs) (map arc_value dumps.now))) }
{
    for dump in dumps {
        note_references(notes, dump.refs.as_slice())?;
    }
    Ok(())
}

/// Appends the notes on entries that speak nowhere, feed by feed.
pub fn push_feed_aliases(notes: &mut Vec<Note>, feeds: &[ReadyFeed]) -> Result<(), Memory>
    ensures { OnOk result (notes.new.items ≡ notes.old.items ++ flat_map (λ f.
        flat_map (λ e. alias_note (Origin.Feed f.url) (range_of_block e.block) e.line) f.entries)
        feeds.now) }
{
    for ready in feeds {
        note_entries(notes, ready.feed())?;
    }
    Ok(())
}

/// Appends the notes on delegations that speak nowhere, file by file.
pub fn push_file_aliases(notes: &mut Vec<Note>, files: &[Arc<Stats>]) -> Result<(), Memory>
    ensures { OnOk result (notes.new.items ≡ notes.old.items ++ flat_map (λ d. alias_note
        (Origin.Stats d.slot) d.range d.line) (flat_map (λ t. t.rows) (map arc_value files.now))) }
{
    for file in files {
        note_delegations(notes, file.rows.as_slice())?;
    }
    Ok(())
}

// The notes on references of a dump.
fn note_references(notes: &mut Vec<Note>, refs: &[Reference]) -> Result<(), Memory>
    ensures { OnOk result (notes.new.items ≡ notes.old.items
        ++ flat_map (λ r. alias_note (Origin.Rpsl r.slot) r.range r.line) refs.now) }
{
    for reference in refs {
        if lies_in_alias(reference.range()) {
            let origin = Origin::Rpsl(reference.slot.copied()?);
            notes.push(note(origin, reference.line))?;
        }
    }
    Ok(())
}

// The notes on the entries of a feed.
fn note_entries(notes: &mut Vec<Note>, feed: &Feed) -> Result<(), Memory>
    ensures { OnOk result (notes.new.items ≡ notes.old.items ++ flat_map (λ e.
        alias_note (Origin.Feed feed.now.url) (range_of_block e.block) e.line) feed.now.entries) }
{
    note_lines(notes, &feed.url, feed.entries.as_slice())
}

fn note_lines(notes: &mut Vec<Note>, url: &Text, entries: &[Entry]) -> Result<(), Memory>
    ensures { OnOk result (notes.new.items ≡ notes.old.items ++ flat_map
        (λ e. alias_note (Origin.Feed url.now) (range_of_block e.block) e.line) entries.now) }
{
    for entry in entries {
        if lies_in_alias(entry.range()) {
            let origin = Origin::Feed(url.copied()?);
            notes.push(note(origin, entry.line))?;
        }
    }
    Ok(())
}

// The notes on delegations of a statistics file.
fn note_delegations(notes: &mut Vec<Note>, rows: &[Delegation]) -> Result<(), Memory>
    ensures { OnOk result (notes.new.items ≡ notes.old.items
        ++ flat_map (λ d. alias_note (Origin.Stats d.slot) d.range d.line) rows.now) }
{
    for row in rows {
        if lies_in_alias(row.range()) {
            let origin = Origin::Stats(row.slot.copied()?);
            notes.push(note(origin, row.line))?;
        }
    }
    Ok(())
}

/// Appends the notes on rows of the overrides.
pub fn note_overrides(notes: &mut Vec<Note>, rows: &[Override]) -> Result<(), Memory>
    ensures { OnOk result (notes.new.items
        ≡ notes.old.items ++ flat_map (λ o. alias_note Origin.Overrides o.range o.line) rows.now) }
{
    for row in rows {
        if lies_in_alias(row.range()) {
            notes.push(note(Origin::Overrides, row.line))?;
        }
    }
    Ok(())
}

fn note(origin: Origin, line: u64) -> Note
    ensures { result ≡ record { origin = origin; line = line; rule = A01 } }
{
    Note {
        origin,
        line,
        rule: Rule::A01,
    }
}
