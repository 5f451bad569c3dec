//! Sources of a session, read from texts.
use feed_csv::{KnownTails, read_feed};
use feed_refs::DumpReader;
use geo_terms::Dump;
use nro_stats::read_stats;
use override_rows::read_overrides;
use std::alloc::Global;
use std::mem::drop;
use update_session::{DropFault, Session};

/// The URL that most feeds have.
pub const FEED: &str = "https://e.example/f.csv";

/// A kind of source.
#[derive(Clone, Copy)]
pub enum Kind {
    Rpsl,
    Stats,
    Feed,
    Overrides,
}

/// A source: its kind, its slot or URL, and its text.
pub type Given<'a> = (Kind, &'a str, &'a [u8]);

fn dump(alloc: Global, slot: &str, text: &[u8]) -> Option<Dump> {
    let mut reader = DumpReader::new(alloc, slot).ok()?;
    if reader.feed(text).is_err() {
        drop(reader);
        return None;
    }
    reader.finish().ok()
}

fn set_dump(alloc: Global, session: &mut Session, slot: &str, text: &[u8]) -> Option<()> {
    session.set_rpsl(dump(alloc, slot, text)?).ok()
}

fn set_stats(alloc: Global, session: &mut Session, slot: &str, text: &[u8]) -> Option<()> {
    session.set_stats(read_stats(alloc, slot, text).ok()?).ok()
}

fn set_feed(alloc: Global, session: &mut Session, url: &str, text: &[u8]) -> Option<()> {
    let known = KnownTails::new(alloc);
    let feed = read_feed(alloc, url, text, &known, &mut Vec::new(alloc)).ok()?;
    session.set_feed(feed).ok()
}

fn set_overrides(alloc: Global, session: &mut Session, text: &[u8]) -> Option<()> {
    session
        .set_overrides(read_overrides(alloc, text).ok()?)
        .ok()
}

/// Sets a source.
pub fn set(alloc: Global, session: &mut Session, given: Given) -> Option<()> {
    let (kind, name, text) = given;
    match kind {
        Kind::Rpsl => set_dump(alloc, session, name, text),
        Kind::Stats => set_stats(alloc, session, name, text),
        Kind::Feed => set_feed(alloc, session, name, text),
        Kind::Overrides => set_overrides(alloc, session, text),
    }
}

/// Drops the source of a kind and a name.
pub fn drop_one(session: &mut Session, kind: Kind, name: &str) -> Result<(), DropFault> {
    match kind {
        Kind::Rpsl => session.drop_rpsl(name),
        Kind::Stats => session.drop_stats(name),
        Kind::Feed => session.drop_feed(name),
        Kind::Overrides => session.drop_overrides(),
    }
}
