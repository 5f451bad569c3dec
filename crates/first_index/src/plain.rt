//! Slow answers that look at every statement: each one is its definition,
//! for tests and small tasks.
ghost use Rattle.std.specs.Prelude.{◌≡◌, Some, find, fold};
ghost use Rattle.std.specs.Option.{option_copied};
ghost use Rattle.std.specs.Ordering.{is_lt};
ghost use Rattle.first_index.specs.AllSources.{in_force};
ghost use Rattle.geo_terms.specs.First.{better, first_of, holders};
ghost use Rattle.geo_terms.specs.PlaceForm.{same_text};
ghost use Rattle.geo_terms.specs.Precedence.{spoken_at, entries_within, entry_before};
ghost use Rattle.geo_terms.specs.Precedence.{first_delegation, first_override, lies_within};
ghost use Rattle.geo_terms.specs.Precedence.{said_place, speaker, speaking_entry};

use geo_addr::{Addr, Block, Range, range_of};
use geo_terms::{
    Delegation, Dump, Entry, Feed, Override, Overrides, Place, Reference, Said, Statement, Stats,
};

/// The sources in force, borrowed.
#[derive(Clone, Copy, Debug)]
pub struct AllSources<'a> {
    pub dumps: &'a [Dump],
    pub feeds: &'a [Feed],
    pub stats: &'a [Stats],
    pub overrides: Option<&'a Overrides>,
}

/// The speaker at an address: the first reference that holds it.
#[tactic(auto, unfolding(geo_terms::specs::Precedence::speaker))]
pub fn speaker_at<'a>(sources: &AllSources<'a>, at: Addr) -> Option<&'a Reference>
    ensures { option_copied result ≡ speaker (in_force sources.entry.now) at.0 }
{
    let dumps = sources.dumps;
    let mut first = None;
    for dump in dumps {
        first = first_at(dump.refs.as_slice(), at, first);
    }
    first
}

/// The entry that speaks at an address: the longest one of the speaker's feed that holds the
/// address and lies within the speaker's range.
#[tactic(auto, unfolding(geo_terms::specs::Precedence::speaking_entry))]
pub fn entry_at<'a>(sources: &AllSources<'a>, at: Addr) -> Option<&'a Entry>
    ensures { option_copied result ≡ speaking_entry (in_force sources.entry.now) at.0 }
{
    let speaker = speaker_at(sources, at)?;
    let feed = feed_of(sources.feeds, speaker)?;
    longest_within(feed.entries.as_slice(), speaker.range, at)
}

// The feed that a reference refers to.
fn feed_of<'a>(feeds: &'a [Feed], reference: &Reference) -> Option<&'a Feed>
    ensures { option_copied result
        ≡ find (λ f. same_text f.url reference.entry.now.url) feeds.entry.now }
{
    feeds.iter().find(|feed| feed.url == reference.url)
}

// The longest of these entries that holds the address and lies within the range.
fn longest_within<'a>(entries: &'a [Entry], range: Range, at: Addr) -> Option<&'a Entry>
    ensures { option_copied result
        ≡ first_of entry_before (entries_within entries.entry.now range at.0) }
{
    let mut longest: Option<&'a Entry> = None;
    for entry in entries {
        if range_of(entry.block).holds(at) && lies_within(entry.block, range) {
            longest = Some(longer(longest, entry));
        }
    }
    longest
}

// The new entry where it is longer than the longest one so far, else that one.
#[tactic(auto, unfolding(geo_terms::specs::Precedence::entry_cmp))]
fn longer<'a>(longest: Option<&'a Entry>, next: &'a Entry) -> &'a Entry
    ensures { Some result.now ≡ better entry_before (option_copied longest.entry) next.entry.now }
{
    match longest {
        Some(longest) => {
            if longest.block.len < next.block.len {
                next
            } else {
                longest
            }
        }
        None => next,
    }
}

fn lies_within(block: Block, range: Range) -> bool
    ensures { result ≡ lies_within block range }
{
    range.first <= block.first && range_of(block).last <= range.last
}

/// The first delegation that holds an address.
#[tactic(auto, unfolding(geo_terms::specs::Precedence::first_delegation))]
pub fn delegation_at<'a>(sources: &AllSources<'a>, at: Addr) -> Option<&'a Delegation>
    ensures { option_copied result ≡ first_delegation (in_force sources.entry.now) at.0 }
{
    let stats = sources.stats;
    let mut first = None;
    for file in stats {
        first = first_at(file.rows.as_slice(), at, first);
    }
    first
}

/// The first override that holds an address.
#[tactic(auto, unfolding(geo_terms::specs::Precedence::first_override))]
pub fn override_at<'a>(sources: &AllSources<'a>, at: Addr) -> Option<&'a Override>
    ensures { option_copied result ≡ first_override (in_force sources.entry.now) at.0 }
{
    let overrides = sources.overrides?;
    first_at(overrides.rows.as_slice(), at, None)
}

/// What the sources say of an address: an override decides, without one the entry, and without an
/// entry the delegation.
#[tactic(auto, unfolding(geo_terms::specs::Precedence::spoken_at))]
pub fn spoken_at<'a>(sources: &AllSources<'a>, at: Addr) -> Option<&'a Place>
    ensures { option_copied result ≡ spoken_at (in_force sources.entry.now) at.0 }
{
    if let Some(row) = override_at(sources, at) {
        return said_place(&row.said);
    }
    if let Some(entry) = entry_at(sources, at) {
        return said_place(&entry.said);
    }
    let row = delegation_at(sources, at)?;
    Some(&row.place)
}

// The place that is said, if one is.
fn said_place(said: &Said) -> Option<&Place>
    ensures { option_copied result ≡ said_place said.now }
{
    match said {
        Said::Nothing => None,
        Said::At(place) => Some(place),
    }
}

/// The first in its order of these statements that hold the address
/// and of one that was found before.
pub fn first_at<'a, S: Statement>(
    statements: &'a [S],
    at: Addr,
    found: Option<&'a S>,
) -> Option<&'a S>
    ensures { option_copied result ≡ fold (better (λ x y. is_lt (S.order x y)))
        (option_copied found.entry) (holders S.range statements.entry.now at.0) }
{
    let mut first = found;
    for statement in statements {
        if statement.range().holds(at) {
            first = Some(better(first, statement));
        }
    }
    first
}

// The new statement where it goes before the first one so far, else that one.
fn better<'a, S: Statement>(first: Option<&'a S>, next: &'a S) -> &'a S
    ensures { Some result.now
        ≡ better (λ x y. is_lt (S.order x y)) (option_copied first.entry) next.entry.now }
{
    match first {
        Some(first) => {
            if next.order(first).is_lt() {
                next
            } else {
                first
            }
        }
        None => next,
    }
}
