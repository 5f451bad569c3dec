//! Sources that are read from texts, set and dropped.
use feed_csv::{KnownTails, read_feed};
use feed_refs::DumpReader;
use geo_terms::Dump;
use nro_stats::read_stats;
use override_rows::read_overrides;
use precedence::{DropFault, Sources};
use std::alloc::Global;
use std::mem::drop;

/// A kind of source.
#[derive(Clone, Copy)]
pub enum Kind {
    Rpsl,
    Stats,
    Feed,
    Overrides,
}

/// A source: its kind, its slot or URL, and its text.
pub type Given = (Kind, &'static str, &'static str);

// A reader goes on no way out by itself, which would cost the proof of each.
fn dump(alloc: Global, slot: &str, text: &str) -> Option<Dump> {
    let mut reader = DumpReader::new(alloc, slot).ok()?;
    if reader.feed(text.as_bytes()).is_err() {
        drop(reader);
        return None;
    }
    reader.finish().ok()
}

fn set_dump(sources: &mut Sources, alloc: Global, slot: &str, text: &str) -> Option<bool> {
    let old = sources.set_rpsl(dump(alloc, slot, text)?).ok()?;
    Some(old.is_some())
}

fn set_stats(sources: &mut Sources, alloc: Global, slot: &str, text: &str) -> Option<bool> {
    let stats = read_stats(alloc, slot, text.as_bytes()).ok()?;
    let old = sources.set_stats(stats).ok()?;
    Some(old.is_some())
}

fn set_feed(sources: &mut Sources, alloc: Global, url: &str, text: &str) -> Option<bool> {
    let feed = read_feed(
        alloc,
        url,
        text.as_bytes(),
        &KnownTails::new(alloc),
        &mut Vec::new(alloc),
    )
    .ok()?;
    let old = sources.set_feed(feed).ok()?;
    Some(old.is_some())
}

fn set_overrides(sources: &mut Sources, alloc: Global, text: &str) -> Option<bool> {
    let rows = read_overrides(alloc, text.as_bytes()).ok()?;
    let old = sources.set_overrides(rows).ok()?;
    Some(old.is_some())
}

/// Sets a source, and says whether another one was there.
pub fn set(sources: &mut Sources, alloc: Global, given: Given) -> Option<bool> {
    let (kind, name, text) = given;
    match kind {
        Kind::Rpsl => set_dump(sources, alloc, name, text),
        Kind::Stats => set_stats(sources, alloc, name, text),
        Kind::Feed => set_feed(sources, alloc, name, text),
        Kind::Overrides => set_overrides(sources, alloc, text),
    }
}

/// Drops the source of a kind and a name, and says why not.
pub fn drop_one(sources: &mut Sources, kind: Kind, name: &str) -> Option<DropFault> {
    match kind {
        Kind::Rpsl => sources.drop_rpsl(name).err(),
        Kind::Stats => sources.drop_stats(name).err(),
        Kind::Feed => sources.drop_feed(name).err(),
        Kind::Overrides => sources.drop_overrides().err(),
    }
}
