//! What becomes of each line of a feed.
ghost use Rattle.std.specs.Prelude.{◌≡◌, ◌++◌, Some, IfOk, OnOk, length, map};
ghost use Rattle.std.specs.List.Sorted.{IsStrictlyIncreasing};
ghost use Rattle.std.specs.Option.{option_copied};
ghost use Rattle.geo_terms.specs.Covering.{covering};
ghost use Rattle.geo_terms.specs.Sources.{feed_of, references};
ghost use Rattle.check_census.specs.Verdicts.{before, entry_verdict, first_heard, merged};
ghost use Rattle.check_census.specs.Verdicts.{note_verdict, ruling, speaker_there, verdicts};

use crate::sweep::first_addresses;
use crate::verdict::{Ruling, Verdict};
use geo_addr::{Addr, Block, Memory};
use geo_terms::{Entry, Feed, LineNote, Reference};
use precedence::{Near, Sources};
use std::alloc::Global;

/// What becomes of each line of a feed in force that is an entry or is noted,
/// in the order of lines.
///
/// An entry speaks where at some address the speaker is a reference to this feed and the entry is
/// the one that speaks for it, whether or not an override decides there. Otherwise it is shadowed
/// by references or entries that go before, or covered by no reference at all.
pub fn check(alloc: Global, sources: &Sources, feed: &Feed) -> Result<Vec<Verdict>, Memory>
    requires { feed_of sources.now feed.now.url ≡ Some feed.now }
    ensures verdicts { IfOk result (λ list. list.items ≡ verdicts sources.now feed.now) }
    ensures ascending { IfOk result
        (λ list. IsStrictlyIncreasing (map (λ v. v.line) list.items)) }
{
    // Whoever asks once may not have made the sources ready.
    let mut ready = sources.snapshot()?;
    ready.make_speakers_ready()?;
    check_ready(alloc, &ready, feed)
}

// What becomes of each line of a feed in force, by sources that are ready.
fn check_ready(alloc: Global, sources: &Sources, feed: &Feed) -> Result<Vec<Verdict>, Memory>
    requires { feed_of sources.now feed.now.url ≡ Some feed.now }
    ensures verdicts { IfOk result (λ list. list.items ≡ verdicts sources.now feed.now) }
    ensures ascending { IfOk result
        (λ list. IsStrictlyIncreasing (map (λ v. v.line) list.items)) }
{
    let firsts = first_addresses(alloc, sources, feed)?;
    judged(alloc, sources, feed, firsts.as_slice())
}

// The verdicts, by the first address of each entry.
fn judged(
    alloc: Global,
    sources: &Sources,
    feed: &Feed,
    firsts: &[Option<u128>],
) -> Result<Vec<Verdict>, Memory>
    requires { firsts.now
        ≡ map (λ e. first_heard sources.now feed.now.url e.line) feed.now.entries }
    ensures verdicts { IfOk result (λ list. list.items ≡ verdicts sources.now feed.now) }
    ensures ascending { IfOk result
        (λ list. IsStrictlyIncreasing (map (λ v. v.line) list.items)) }
{
    let url = feed.url.as_str();
    let entries = feed.entries.as_slice();
    let notes = feed.notes.as_slice();
    let list = merged(alloc, sources, url, entries, notes, firsts)?;
    Ok(list)
}

// The verdicts on entries and notes of the feed of a URL.
fn merged(
    alloc: Global,
    sources: &Sources,
    url: &str,
    entries: &[Entry],
    notes: &[LineNote],
    firsts: &[Option<u128>],
) -> Result<Vec<Verdict>, Memory>
    requires { firsts.now ≡ map (λ e. first_heard sources.now url.now e.line) entries.now }
    ensures { IfOk result
        (λ list. list.items ≡ merged sources.now url.now entries.now notes.now) }
{
    let mut verdicts = Vec::with_capacity(alloc, entries.len())?;
    let mut near = Near::default();
    let mut left = notes;
    for (index, entry) in entries.iter().enumerate() {
        let (earlier, later) = left.split_at(count_before(left, entry.line));
        push_notes(&mut verdicts, earlier)?;
        let verdict = entry_verdict(sources, url, entry, firsts[index], &mut near)?;
        verdicts.push(verdict)?;
        left = later;
    }
    push_notes(&mut verdicts, left)?;
    Ok(verdicts)
}

// How many of notes in line order are on lines before this one.
fn count_before(notes: &[LineNote], line: u64) -> usize
    ensures { result ≡ length (before line notes.now) }
{
    let mut count = 0;
    for note in notes {
        if note.line >= line {
            return count;
        }
        count += 1;
    }
    count
}

fn push_notes(verdicts: &mut Vec<Verdict>, notes: &[LineNote]) -> Result<(), Memory>
    ensures { OnOk result (verdicts.new.items ≡ verdicts.old.items ++ map note_verdict notes.now) }
{
    for note in notes {
        verdicts.push(Verdict {
            line: note.line,
            ruling: Ruling::Refused(note.rule),
        })?;
    }
    Ok(())
}

// The verdict on an entry of the feed of a URL, by the lowest address at which it speaks. The
// speaker there is looked for first where that of the last entry was found.
fn entry_verdict(
    sources: &Sources,
    url: &str,
    entry: &Entry,
    first: Option<u128>,
    near: &mut Near,
) -> Result<Verdict, Memory>
    requires { first ≡ first_heard sources.now url.now entry.now.line }
    ensures { IfOk result (λ v. v ≡ entry_verdict sources.now url.now entry.now) }
{
    let speaker = speaker_there(sources, first, near);
    Ok(Verdict {
        line: entry.line,
        ruling: ruling(sources, url, entry.block, speaker)?,
    })
}

fn speaker_there<'a>(
    sources: &'a Sources,
    at: Option<u128>,
    near: &mut Near,
) -> Option<&'a Reference>
    ensures { option_copied result ≡ speaker_there sources.entry.now at }
{
    sources.why_speaker(Addr(at?), near)
}

// The ruling on an entry with this block. The first reference that covers it is asked for only
// where it is named: many may cover it.
fn ruling(
    sources: &Sources,
    url: &str,
    block: Block,
    speaker: Option<&Reference>,
) -> Result<Ruling, Memory>
    ensures { IfOk result (λ r. r
        ≡ ruling (covering (references sources.now) url.now block) (option_copied speaker.entry)) }
{
    if !sources.covers(block, url) {
        return Ok(Ruling::Uncovered);
    }
    if let Some(speaker) = speaker {
        return Ok(Ruling::Speaks {
            slot: speaker.slot.copied()?,
            object: speaker.line,
        });
    }
    match sources.covering(block, url) {
        Some(cover) => Ok(Ruling::Shadowed {
            slot: cover.slot.copied()?,
            object: cover.line,
        }),
        None => Ok(Ruling::Uncovered),
    }
}
