//! Notes of sources, each with its source named.
ghost use Rattle.std.specs.Prelude.{◌≡◌, ◌++◌, flat_map, map, IfOk, OnOk};
ghost use Rattle.std.specs.Arc.{arc_value};
ghost use Rattle.geo_terms.specs.Report.{named};
ghost use Rattle.geo_terms.specs.declared.note.Origin.{Origin};

use authority::ReadyFeed;
use geo_addr::Memory;
use geo_terms::{Dump, LineNote, Note, Origin, Stats};
use std::sync::Arc;

/// Appends the notes of one source, which is named.
pub fn push_notes(notes: &mut Vec<Note>, origin: &Origin, more: &[LineNote]) -> Result<(), Memory>
    ensures { OnOk result (notes.new.items ≡ notes.old.items ++ named origin.now more.now) }
{
    notes.reserve(more.len())?;
    for note in more {
        let origin = same_origin(origin)?;
        notes.push(Note {
            origin,
            line: note.line,
            rule: note.rule,
        })?;
    }
    Ok(())
}

/// Appends the notes of dumps, dump by dump.
pub fn push_dump_notes(notes: &mut Vec<Note>, dumps: &[Arc<Dump>]) -> Result<(), Memory>
    ensures { OnOk result (notes.new.items ≡ notes.old.items
        ++ flat_map (λ d. named (Origin.Rpsl d.slot) d.notes) (map arc_value dumps.now)) }
{
    for dump in dumps {
        let origin = Origin::Rpsl(dump.slot.copied()?);
        push_named(notes, origin, dump.notes.as_slice())?;
    }
    Ok(())
}

/// Appends the notes of feeds, feed by feed.
pub fn push_feed_notes(notes: &mut Vec<Note>, feeds: &[ReadyFeed]) -> Result<(), Memory>
    ensures { OnOk result (notes.new.items ≡ notes.old.items
        ++ flat_map (λ f. named (Origin.Feed f.url) f.notes) feeds.now) }
{
    for ready in feeds {
        let feed = ready.feed();
        let origin = Origin::Feed(feed.url.copied()?);
        push_named(notes, origin, feed.notes.as_slice())?;
    }
    Ok(())
}

/// Appends the notes of statistics files, file by file.
pub fn push_file_notes(notes: &mut Vec<Note>, files: &[Arc<Stats>]) -> Result<(), Memory>
    ensures { OnOk result (notes.new.items ≡ notes.old.items
        ++ flat_map (λ t. named (Origin.Stats t.slot) t.notes) (map arc_value files.now)) }
{
    for file in files {
        let origin = Origin::Stats(file.slot.copied()?);
        push_named(notes, origin, file.notes.as_slice())?;
    }
    Ok(())
}

// Appends the notes of one source by its name, which is let go.
fn push_named(notes: &mut Vec<Note>, origin: Origin, more: &[LineNote]) -> Result<(), Memory>
    ensures { OnOk result (notes.new.items ≡ notes.old.items ++ named origin more.now) }
{
    let pushed = push_notes(notes, &origin, more);
    drop(origin);
    pushed
}

fn same_origin(origin: &Origin) -> Result<Origin, Memory>
    ensures { IfOk result (λ copy. copy ≡ origin.now) }
{
    match origin {
        Origin::Rpsl(slot) => Ok(Origin::Rpsl(slot.copied()?)),
        Origin::Feed(url) => Ok(Origin::Feed(url.copied()?)),
        Origin::Stats(slot) => Ok(Origin::Stats(slot.copied()?)),
        Origin::Overrides => Ok(Origin::Overrides),
    }
}
