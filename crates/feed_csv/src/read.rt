//! A feed.
ghost use Rattle.std.specs.Prelude.{◌≡◌, ◌≢◌, ◌<◌, ◌≤◌, ◌↔◌, ◌++◌, ℕ, [], List, Some, length};
ghost use Rattle.std.specs.Prelude.{IfOk, IsSome, OnOk, option_to_list};
ghost use Rattle.csv_lines.specs.Rests.{CanRead, StandsIf, handed};
ghost use Rattle.feed_csv.specs.File.{AreClean, accepted, entry_of, fault_of, feed, longest};
ghost use Rattle.feed_csv.specs.File.{most};
ghost use Rattle.feed_csv.specs.Parts.{IsFileRead, accepted_in, refused_in};

use crate::outcome::{LineOutcome, read_line};
use csv::{ByteRecord, Reader};
use csv_lines::{KnownTails, OwnTail, RepeatRules, Tails, all_handed, judge, reader_of};
use geo_addr::{Line, List, Memory, Text};
use geo_terms::{Entry, Feed, LineNote, Rule, SourceFault, Texts};
use line_parts::LinePart;
use std::alloc::Global;

/// The most bytes of a feed.
pub const LONGEST_FEED: usize = 67_108_864;

/// The most lines that pass the line rules.
pub const MOST: usize = 2_097_152;

/// For each so many bytes of a file room for one entry is taken ahead; most files have longer lines
/// on the average, and for shorter ones the list grows once.
const SHORT_LINE: usize = 32;

/// Reads a geofeed (RFC 8805): the entries and the notes of its lines.
///
/// A file is too long over `LONGEST_FEED` bytes, and has too many statements where over `MOST`
/// lines pass the rules of a line by itself.
///
/// Lines with tails that earlier feeds had share the places of those, and the tails that come new
/// are put to `learned`. That changes what memory is taken, and never what a feed says.
pub fn read_feed(
    alloc: Global,
    url: &str,
    bytes: &[u8],
    known: &KnownTails,
    learned: &mut Vec<OwnTail>,
) -> Result<Feed, SourceFault>
    ensures read { IfOk result (λ found. found ≡ feed url.now bytes.now) }
    ensures clean { IfOk result (λ found. AreClean found.entries) }
    ensures within { OnOk result (length (accepted bytes.now) ≤ most) }
    ensures too_long { (result ≡ Err SourceFault.TooLong) ↔ (longest < length bytes.now) }
    ensures too_many { result ≡ Err SourceFault.TooMany → most < length (accepted bytes.now) }
{
    if bytes.len() > LONGEST_FEED {
        return Err(SourceFault::TooLong);
    }
    let room = (bytes.len() / SHORT_LINE).min(MOST);
    let mut found = read_lines(alloc, LinePart::whole(bytes), known, room, 0, MOST)?;
    learned.append(&mut found.tails).map_err(Memory::from)?;
    let feed = feed_of(alloc, url, found)?;
    Ok(feed)
}

/// The feed under this URL of what was found in a file.
pub(crate) fn feed_of(alloc: Global, url: &str, found: Gathered) -> Result<Feed, Memory>
    requires { (file : List ℕ) × IsFileRead file found }
    ensures read { (file : List ℕ) → IsFileRead file found
        → IfOk result (λ said. said ≡ feed url.now file) }
    ensures clean { IfOk result (λ said. AreClean said.entries) }
{
    let rules = RepeatRules {
        repeats: Rule::F07,
        differs: Rule::F08,
    };
    let judged = judge(alloc, found.entries, found.faults, rules)?;
    let url = Text::of(alloc, url)?;
    Ok(Feed {
        url,
        entries: List::of(judged.rows),
        notes: List::of(judged.faults),
    })
}

/// What the lines of a part say by themselves, and the tails of theirs that no earlier feed had.
#[derive(Drop)]
pub(crate) struct Gathered {
    pub entries: Vec<Entry>,
    pub faults: Vec<LineNote>,
    pub tails: Vec<OwnTail>,
}

// What is found in the lines so far.
#[derive(Drop)]
struct Reading<'a> {
    entries: Vec<Entry>,
    faults: Vec<LineNote>,
    texts: Texts,
    tails: Tails<'a>,
    row: ByteRecord,
}

/// The entries and the faults of the lines of a part by themselves, where at most `limit` lines
/// pass the line rules, with room for so many of both.
pub(crate) fn read_lines<'a>(
    alloc: Global,
    part: LinePart<'a>,
    known: &'a KnownTails,
    entries: usize,
    faults: usize,
    limit: usize,
) -> Result<Gathered, SourceFault>
    ensures entries { IfOk result (λ found. found.entries.items ≡ accepted_in part.entry) }
    ensures faults { IfOk result (λ found. found.faults.items ≡ refused_in part.entry) }
    ensures within { IfOk result (λ found. length found.entries.items ≤ limit) }
    ensures too_many { result ≡ Err SourceFault.TooMany → limit < length (accepted_in part.entry) }
    ensures too_long { result ≢ Err SourceFault.TooLong }
{
    let handed = all_handed(alloc, part.text)?;
    let mut reader = reader_of(alloc, handed.as_slice());
    let gathered = gathered_with_room(alloc, entries, faults)?;
    let tails = Tails::with_room(alloc, part.text.len(), known)?;
    let mut found = Reading {
        entries: gathered.entries,
        faults: gathered.faults,
        texts: Texts::new(alloc),
        tails,
        row: ByteRecord::new(alloc),
    };
    for line in part.lines() {
        take_line(line, limit, &mut reader, &mut found)?;
    }
    let mut tails = Vec::new(alloc);
    found.tails.hand_on(alloc, &mut tails)?;
    Ok(Gathered {
        entries: found.entries,
        faults: found.faults,
        tails,
    })
}

/// Nothing yet, with room for so many entries and faults, so that they are not moved as they come.
pub(crate) fn gathered_with_room(
    alloc: Global,
    entries: usize,
    faults: usize,
) -> Result<Gathered, Memory>
    ensures entries { IfOk result (λ found. found.entries.items ≡ []) }
    ensures faults { IfOk result (λ found. found.faults.items ≡ []) }
{
    let entries = Vec::with_capacity(alloc, entries)?;
    let faults = Vec::with_capacity(alloc, faults)?;
    let tails = Vec::new(alloc);
    Ok(Gathered {
        entries,
        faults,
        tails,
    })
}

// Adds what one more line says.
fn take_line<'a>(
    line: Line<'a>,
    limit: usize,
    reader: &mut Option<Reader<&[u8]>>,
    found: &mut Reading<'a>,
) -> Result<(), SourceFault>
    requires few { length found.old.entries.items ≤ limit }
    requires reads { CanRead (λ s. Some s.now) reader.old line.text.now }
    ensures entries { OnOk result (found.new.entries.items ≡ found.old.entries.items
        ++ option_to_list (entry_of (line.entry.number, line.entry.text.now))) }
    ensures faults { OnOk result (found.new.faults.items ≡ found.old.faults.items
        ++ option_to_list (fault_of (line.entry.number, line.entry.text.now))) }
    ensures within { OnOk result (length found.new.entries.items ≤ limit) }
    ensures stands { (left : List ℕ)
        → StandsIf (λ s. Some s.now) reader.old (handed line.entry.text.now ++ left)
        → OnOk result (StandsIf (λ s. Some s.now) reader.new left) }
    ensures too_many { result ≡ Err SourceFault.TooMany
        → IsSome (entry_of (line.entry.number, line.entry.text.now))
        × (length found.old.entries.items ≡ limit) }
    ensures too_long { result ≢ Err SourceFault.TooLong }
{
    match read_line(
        reader,
        line.text,
        &mut found.row,
        &mut found.texts,
        &mut found.tails,
    )? {
        LineOutcome::Silent => {}
        LineOutcome::Broken(rule) => {
            let fault = LineNote {
                line: line.number,
                rule,
            };
            found.faults.push(fault).map_err(Memory::from)?;
        }
        LineOutcome::Accepted(block, said) => {
            if found.entries.len() == limit {
                return Err(SourceFault::TooMany);
            }
            let entry = Entry {
                line: line.number,
                block,
                said,
            };
            found.entries.push(entry).map_err(Memory::from)?;
        }
    }
    Ok(())
}
