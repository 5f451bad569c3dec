//! What sources say, as texts.
use geo_addr::{Range, parse_addr, parse_span};
use geo_terms::{Delegation, Entry, Note, Override, Place, Reference, note_text};
use precedence::Sources;
use source_changes::GroundList;
use std::alloc::Global;

// The four fields of a place, as a feed has them, or a dash.
fn place_text(alloc: Global, place: Option<&Place>) -> Option<String> {
    let Some(place) = place else {
        return String::from_str(alloc, "-").ok();
    };
    let country = place.country();
    let region = place.region();
    let city = place.city();
    let postal = place.postal();
    format!(in alloc; "{country},{region},{city},{postal}").ok()
}

fn push_record(alloc: Global, sources: &Sources, address: &str, text: &mut String) -> Option<()> {
    let at = parse_addr(address.as_bytes()).ok()?;
    let record = place_text(alloc, sources.record_at(at))?;
    text.push_str(record.as_str()).ok()?;
    text.push(';').ok()
}

fn push_records(
    alloc: Global,
    sources: &Sources,
    addresses: &[&str],
    text: &mut String,
) -> Option<()> {
    for address in addresses {
        push_record(alloc, sources, address, text)?;
    }
    Some(())
}

fn records_by(alloc: Global, sources: &Sources, addresses: &[&str]) -> Option<String> {
    let mut text = String::new(alloc);
    push_records(alloc, sources, addresses, &mut text)?;
    Some(text)
}

// The records by the same sources made ready.
fn ready_records(alloc: Global, sources: &Sources, addresses: &[&str]) -> Option<String> {
    let mut ready = sources.snapshot().ok()?;
    let made = ready.make_ready().is_ok();
    let text = records_by(alloc, &ready, addresses);
    drop(ready);
    if made { text } else { None }
}

/// The records of several addresses, which are the same by sources that are ready.
pub fn records(alloc: Global, sources: &Sources, addresses: &[&str]) -> Option<String> {
    let text = records_by(alloc, sources, addresses)?;
    let ready = ready_records(alloc, sources, addresses)?;
    if ready.as_str() == text.as_str() {
        Some(text)
    } else {
        None
    }
}

fn override_line(row: Option<&Override>) -> u64 {
    match row {
        Some(row) => row.line,
        None => 0,
    }
}

fn reference_line(reference: Option<&Reference>) -> (&str, u64) {
    match reference {
        Some(reference) => (reference.slot.as_str(), reference.line),
        None => ("-", 0),
    }
}

/// The line of an entry; 0 where there is none.
pub fn entry_line(entry: Option<&Entry>) -> u64 {
    match entry {
        Some(entry) => entry.line,
        None => 0,
    }
}

fn row_line(row: Option<&Delegation>) -> (&str, u64) {
    match row {
        Some(row) => (row.slot.as_str(), row.line),
        None => ("-", 0),
    }
}

/// Why an address has its record: the lines of the override, the reference, the entry and the
/// delegation, and the record.
pub fn reasons(alloc: Global, sources: &Sources, address: &str) -> Option<String> {
    let why = sources.why_at(parse_addr(address.as_bytes()).ok()?);
    let over = override_line(why.over);
    let (dump, speaker) = reference_line(why.speaker);
    let entry = entry_line(why.entry);
    let (stats, row) = row_line(why.delegation);
    let place = place_text(alloc, why.place)?;
    let place = place.as_str();
    format!(in alloc; "{over}; {dump} {speaker}; {entry}; {stats} {row}; {place}").ok()
}

/// Pushes notes as a report prints them.
pub fn push_notes(alloc: Global, notes: &[Note], text: &mut String) -> Option<()> {
    for note in notes {
        let line = note_text(alloc, note).ok()?;
        text.push_str(line.as_str()).ok()?;
    }
    Some(())
}

/// The report as it is printed.
pub fn report(alloc: Global, sources: &Sources) -> Option<String> {
    let notes = sources.report().ok()?;
    let mut text = String::new(alloc);
    push_notes(alloc, notes.as_slice(), &mut text)?;
    Some(text)
}

fn push_segment(alloc: Global, sources: &Sources, segment: Range, text: &mut String) -> Option<()> {
    let place = place_text(alloc, sources.choice(segment))?;
    let (first, last) = (segment.first, segment.last);
    let line = format!(in alloc; "{first:x}-{last:x} {};", place.as_str()).ok()?;
    text.push_str(line.as_str()).ok()
}

fn push_segments(
    alloc: Global,
    sources: &Sources,
    segments: &[Range],
    text: &mut String,
) -> Option<()> {
    for segment in segments {
        push_segment(alloc, sources, *segment, text)?;
    }
    Some(())
}

// One chunk that is the whole address space.
const WHOLE: Range = Range {
    first: 0,
    last: u128::MAX,
};

/// The ends of the segments of a range, and what is said on each.
pub fn segments(alloc: Global, sources: &Sources, range: &str) -> Option<String> {
    let range = parse_span(range.as_bytes()).ok()?;
    let mut touched = GroundList::new(alloc);
    touched.push(range).ok()?;
    let segments = sources.segments_in(&touched, WHOLE).ok()?;
    let mut text = String::new(alloc);
    push_segments(alloc, sources, segments.as_slice(), &mut text)?;
    Some(text)
}
