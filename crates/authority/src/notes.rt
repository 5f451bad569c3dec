//! The notes of dumps and feeds on one another.
ghost use Rattle.std.specs.Prelude.{◌≡◌, ◌++◌, [], ◌∷◌, if◌then◌else◌, None, map, find, flat_map};
ghost use Rattle.std.specs.Prelude.{is_none, not, IfOk, OnOk};
ghost use Rattle.std.specs.Option.{option_copied};
ghost use Rattle.geo_terms.specs.NoteText.{note_cmp};
ghost use Rattle.geo_terms.specs.PlaceForm.{same_text};
ghost use Rattle.geo_terms.specs.Report.{in_order, is_covered, same_ends, uncovered_in};
ghost use Rattle.geo_terms.specs.SlotOrder.{AreInOrder};
ghost use Rattle.geo_terms.specs.declared.note.Rule.TheVariants.{P08, P09};
ghost use Rattle.authority.specs.Held.{url_of};
ghost use Rattle.authority.specs.Members.{HaveAlike};
ghost use Rattle.authority.specs.Ranked.{behind, is_behind, joint_in, leader, note_on};
ghost use Rattle.authority.specs.Ranked.{outranked_in, ranked_cmp, uncovered_note, unfed_in};

use crate::ready::ReadyFeed;
use first_index::inetnums::Index;
use geo_addr::{Block, Memory};
use geo_terms::{Feed, Note, Origin, Reference, Rule, Statement};
use source_changes::{push_borrows, shelf};
use std::alloc::Global;
use std::cmp::Ordering;

/// The notes of references and feeds on one another, in the order of a report.
///
/// References are sorted by range, each of them and each entry is looked up by halving, and the
/// notes are sorted: nothing is looked at for each pair.
pub fn joint_notes(alloc: Global, index: &Index, feeds: &[ReadyFeed]) -> Result<Vec<Note>, Memory>
    requires { AreInOrder url_of feeds.now }
    ensures { IfOk result (λ notes. notes.items
        ≡ in_order note_cmp (joint_in index.now feeds.now)) }
{
    let refs = index.references();
    let mut notes = outranked_notes(alloc, refs)?;
    push_unfed(&mut notes, refs, feeds)?;
    push_uncovered(&mut notes, index, feeds)?;
    notes.sort_unstable_by(|x, y| x.order(y));
    Ok(notes)
}

// The notes on references that stand behind another one of their range.
fn outranked_notes(alloc: Global, refs: &[Reference]) -> Result<Vec<Note>, Memory>
    ensures { IfOk result (λ notes. HaveAlike (outranked_in refs.now) notes.items) }
{
    let mut ranked = Vec::new(alloc);
    push_borrows(&mut ranked, refs)?;
    ranked.sort_unstable_by(|x, y| ranked_order(x, y));
    let notes = behind_notes(alloc, ranked.as_slice())?;
    Ok(notes)
}

#[tactic(auto, unfolding(crate::specs::Ranked::ranked_cmp))]
fn ranked_order(x: &Reference, y: &Reference) -> Ordering
    ensures { result ≡ ranked_cmp x.now y.now }
{
    (x.range.first.cmp(&y.range.first))
        .then(x.range.last.cmp(&y.range.last))
        .then_with(|| x.order(y))
}

// The notes on sorted references that stand behind the first one of their range.
fn behind_notes(alloc: Global, ranked: &[&Reference]) -> Result<Vec<Note>, Memory>
    ensures { IfOk result
        (λ notes. notes.items ≡ map (note_on P08) (behind None (map (λ r. r.now) ranked.now))) }
{
    let mut notes = Vec::new(alloc);
    let mut first = None;
    for reference in ranked {
        if is_behind(first, reference) {
            notes.push(note_on(Rule::P08, reference)?)?;
        }
        first = Some(leader(first, reference));
    }
    Ok(notes)
}

fn is_behind(first: Option<&Reference>, reference: &Reference) -> bool
    ensures { result ≡ is_behind (option_copied first.entry) reference.now }
{
    match first {
        Some(first) => has_range(first, reference) && first.order(reference).is_lt(),
        None => false,
    }
}

fn leader<'a>(first: Option<&'a Reference>, reference: &'a Reference) -> &'a Reference
    ensures { result.now ≡ leader (option_copied first.entry) reference.entry.now }
{
    match first {
        Some(first) => {
            if has_range(first, reference) {
                first
            } else {
                reference
            }
        }
        None => reference,
    }
}

fn has_range(x: &Reference, y: &Reference) -> bool
    ensures { result ≡ same_ends x.now.range y.now.range }
{
    x.range.first == y.range.first && x.range.last == y.range.last
}

fn note_on(rule: Rule, reference: &Reference) -> Result<Note, Memory>
    ensures { IfOk result (λ note. note ≡ note_on rule reference.now) }
{
    Ok(Note {
        origin: Origin::Rpsl(reference.slot.copied()?),
        line: reference.line,
        rule,
    })
}

// The notes on references whose URL has no feed.
fn push_unfed(notes: &mut Vec<Note>, refs: &[Reference], feeds: &[ReadyFeed]) -> Result<(), Memory>
    requires { AreInOrder url_of feeds.now }
    ensures { OnOk result
        (notes.new.items ≡ notes.old.items ++ unfed_in refs.now feeds.now) }
{
    for reference in refs {
        push_if_unfed(notes, reference, feeds)?;
    }
    Ok(())
}

fn push_if_unfed(
    notes: &mut Vec<Note>,
    reference: &Reference,
    feeds: &[ReadyFeed],
) -> Result<(), Memory>
    requires { AreInOrder url_of feeds.now }
    ensures { OnOk result (notes.new.items ≡ notes.old.items
        ++ (if is_none (find (λ f. same_text f.url reference.now.url) feeds.now)
        then note_on P09 reference.now ∷ [] else [])) }
{
    if has_feed(feeds, reference) {
        return Ok(());
    }
    notes.push(note_on(Rule::P09, reference)?)?;
    Ok(())
}

fn has_feed(feeds: &[ReadyFeed], reference: &Reference) -> bool
    requires { AreInOrder url_of feeds.now }
    ensures { not result
        ≡ is_none (find (λ f. same_text f.url reference.now.url) feeds.now) }
{
    shelf::get(feeds, reference.url.as_str()).is_some()
}

// The notes on the entries of all feeds that no reference to their feed covers.
fn push_uncovered(notes: &mut Vec<Note>, index: &Index, feeds: &[ReadyFeed]) -> Result<(), Memory>
    ensures { OnOk result (notes.new.items ≡ notes.old.items
        ++ flat_map (uncovered_in index.now) feeds.now) }
{
    for ready in feeds {
        push_uncovered_in(notes, index, ready.feed())?;
    }
    Ok(())
}

fn push_uncovered_in(notes: &mut Vec<Note>, index: &Index, feed: &Feed) -> Result<(), Memory>
    ensures { OnOk result
        (notes.new.items ≡ notes.old.items ++ uncovered_in index.now feed.now) }
{
    for entry in feed.entries.as_slice() {
        if !index.covers(entry.block, feed.url.as_str()) {
            notes.push(uncovered_note(feed, entry.line)?)?;
        }
    }
    Ok(())
}

fn uncovered_note(feed: &Feed, line: u64) -> Result<Note, Memory>
    ensures { IfOk result (λ note. note ≡ uncovered_note feed.now.url line) }
{
    Ok(Note {
        origin: Origin::Feed(feed.url.copied()?),
        line,
        rule: Rule::F09,
    })
}
