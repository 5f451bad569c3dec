//! The reference of an object.
ghost use Rattle.std.specs.Prelude.{◌≡◌, ◌++◌, ◌∷◌, [], List, IfOk, OnOk, OnErr, MatchOption, Some};
ghost use Rattle.std.specs.Prelude.{find, filter, option_to_list};
ghost use Rattle.std.specs.Option.{option_copied};
ghost use Rattle.rpsl_reader.specs.declared.item.Attribute.{Attribute};
ghost use Rattle.feed_refs.specs.Kinds.{is_of_kind, is_last_modified, url_text, used_kind};
ghost use Rattle.feed_refs.specs.References.{class_named, found, found_by, found_in};
ghost use Rattle.feed_refs.specs.References.{found_in_parts, found_unread};
ghost use Rattle.feed_refs.specs.References.{modified_of, note_by, notes_from, notes_on, rule_on};
ghost use Rattle.feed_refs.specs.References.{v4_class, v6_class};
ghost use Rattle.feed_refs.specs.Urls.{url_read};
ghost use Rattle.geo_addr.specs.Prefixes.{block_in};
ghost use Rattle.geo_addr.specs.Spans.{range_of_read, span_in};
ghost use Rattle.feed_refs.specs.Used.{IsUsed};

use crate::feed_url::UrlRead;
use crate::kinds::{
    RefKind, is_last_modified, is_name, is_of_kind, is_reference_remark, url_text, used_kind,
};
use crate::modified::modified_in;
use crate::urls::Urls;
use geo_addr::{List, Memory, Range, Text, parse_block, parse_span, range_of};
use geo_terms::{LineNote, Reference, Rule};
use rpsl_reader::{AttributeSight, Object, parts_of};
use std::alloc::Global;

/// What an object says of feeds.
#[derive(Debug, Drop, PartialEq, Eq)]
pub enum What {
    /// It is neither an `inetnum` nor an `inet6num`.
    NotInet,
    /// Its addresses are not read, or it has no reference, or one whose URL cannot be used.
    Nothing,
    /// It refers to a feed.
    One(Reference),
    /// It has several references of the kind that counts, so that none of them does.
    Void,
}

/// The reference of an object, and the notes on its attributes, in line order.
#[derive(Debug, Drop, PartialEq, Eq)]
pub struct FoundRef {
    pub what: What,
    pub notes: List<LineNote>,
}

// The addresses of an object of a class that has some.
#[derive(Clone, Copy)]
enum Class {
    Other,
    Unread,
    Inet(Range),
}

/// The reference of an object of a dump to a feed (RFC 9632, section 3).
///
/// Where the object has a `geofeed` attribute, these count; otherwise the remarks that begin with
/// `Geofeed`, blanks and a word with `://` in it. Two or more of the kind that counts are void.
#[tactic(auto, unfolding(crate::specs::References::found))]
pub fn reference_of(alloc: Global, slot: &str, object: &Object) -> Result<FoundRef, Memory>
    ensures { IfOk result (λ told. told ≡ found slot.now object.now) }
{
    let slot = Text::of(alloc, slot)?;
    let parts = parts_of(alloc, object.parts.as_slice())?;
    let mut urls = Urls::new(alloc);
    found_of(alloc, &slot, parts.as_slice(), &mut urls)
}

/// The same, for a slot that is shared, of the attributes of an object. URLs that came before are
/// given again.
pub(crate) fn found_of(
    alloc: Global,
    slot: &Text,
    parts: &[AttributeSight],
    urls: &mut Urls,
) -> Result<FoundRef, Memory>
    ensures { IfOk result (λ told. told ≡ found_in_parts slot.now parts.now) }
{
    match parts {
        [first, ..] => match class_named(first) {
            Class::Other => Ok(without_notes(alloc, What::NotInet)),
            Class::Unread => unread(alloc, first.line),
            Class::Inet(range) => found_in(alloc, slot, range, parts, urls),
        },
        [] => Ok(without_notes(alloc, What::NotInet)),
    }
}

fn without_notes(alloc: Global, what: What) -> FoundRef
    ensures what { result.what ≡ what }
    ensures notes { result.notes ≡ [] }
{
    FoundRef {
        what,
        notes: List::of(Vec::new(alloc)),
    }
}

// An object whose addresses are not read has one note, on its first attribute.
fn unread(alloc: Global, line: u64) -> Result<FoundRef, Memory>
    ensures { IfOk result (λ told. told ≡ found_unread line) }
{
    let mut notes = Vec::new(alloc);
    push_note(line, Some(Rule::P03), &mut notes)?;
    Ok(FoundRef {
        what: What::Nothing,
        notes: List::of(notes),
    })
}

// The addresses that the first attribute of an object names.
#[tactic(auto, unfolding(crate::specs::References::class_named))]
fn class_named(first: &AttributeSight) -> Class
    ensures { result ≡ class_named first.now }
{
    if is_name(&first.name, b"inetnum") {
        v4_class(first.value.as_slice())
    } else if is_name(&first.name, b"inet6num") {
        v6_class(first.value.as_slice())
    } else {
        Class::Other
    }
}

fn v4_class(value: &[u8]) -> Class
    ensures { result ≡ v4_class (span_in value.now) }
{
    match parse_span(value) {
        Ok(range) if range.is_v4() => Class::Inet(range),
        _ => Class::Unread,
    }
}

fn v6_class(value: &[u8]) -> Class
    ensures { result ≡ v6_class (range_of_read (block_in value.now)) }
{
    let Ok(block) = parse_block(value) else {
        return Class::Unread;
    };
    let range = range_of(block);
    if range.is_v4() {
        Class::Unread
    } else {
        Class::Inet(range)
    }
}

// What the references of an object come to.
fn found_in(
    alloc: Global,
    slot: &Text,
    range: Range,
    parts: &[AttributeSight],
    urls: &mut Urls,
) -> Result<FoundRef, Memory>
    ensures { IfOk result (λ told. told ≡ found_in slot.now range parts.now) }
{
    let kind = used_kind(parts);
    match used_among(kind, parts) {
        Used::Nobody => Ok(without_notes(alloc, What::Nothing)),
        Used::One(only) => read_only(alloc, slot, range, parts, only, urls),
        Used::Several => {
            let notes = notes_on(alloc, kind, Some(Rule::P04), parts)?;
            Ok(FoundRef {
                what: What::Void,
                notes,
            })
        }
    }
}

// The references of one kind among some attributes.
#[derive(Clone, Copy)]
enum Used<'s, 'a> {
    Nobody,
    One(&'s AttributeSight<'a>),
    Several,
}

fn used_among<'s, 'a>(kind: RefKind, parts: &'s [AttributeSight<'a>]) -> Used<'s, 'a>
    ensures { IsUsed (filter (is_of_kind kind) parts.entry.now) result }
{
    let mut used = Used::Nobody;
    for attribute in parts {
        if is_of_kind(kind, attribute) {
            used = one_more(used, attribute);
        }
    }
    used
}

fn one_more<'s, 'a>(used: Used<'s, 'a>, next: &'s AttributeSight<'a>) -> Used<'s, 'a>
    ensures { (before : List Attribute) → IsUsed before used.entry
        → IsUsed (before ++ next.entry.now ∷ []) result }
{
    match used {
        Used::Nobody => Used::One(next),
        Used::One(_) => Used::Several,
        Used::Several => Used::Several,
    }
}

// What the only reference of an object comes to.
fn read_only(
    alloc: Global,
    slot: &Text,
    range: Range,
    parts: &[AttributeSight],
    only: &AttributeSight,
    urls: &mut Urls,
) -> Result<FoundRef, Memory>
    ensures { IfOk result (λ told. told ≡ found_by slot.now range parts.now only.now
        (url_read (url_text (used_kind parts.now) only.now))) }
{
    let kind = used_kind(parts);
    let (what, rule) = match urls.read(url_text(kind, only))? {
        UrlRead::Refused => (What::Nothing, Some(Rule::P05)),
        UrlRead::OtherScheme => (What::Nothing, Some(Rule::P06)),
        UrlRead::Https(url) => {
            let reference = Reference {
                slot: slot.copied()?,
                line: only.line,
                range,
                modified: modified_of(parts),
                url,
            };
            (What::One(reference), None)
        }
    };
    let notes = notes_on(alloc, kind, rule, parts)?;
    Ok(FoundRef { what, notes })
}

// The time of the last change of an object, or 0.
fn modified_of(parts: &[AttributeSight]) -> u64
    ensures { result ≡ modified_of parts.now }
{
    match first_modified(parts) {
        Some(first) => modified_in(first.value.as_slice()).unwrap_or(0),
        None => 0,
    }
}

fn first_modified<'s, 'a>(parts: &'s [AttributeSight<'a>]) -> Option<&'s AttributeSight<'a>>
    ensures { option_copied result ≡ find is_last_modified parts.now }
{
    parts.iter().find(|a| is_last_modified(a))
}

// The notes on attributes of which the references of the used kind have a rule or none.
fn notes_on(
    alloc: Global,
    kind: RefKind,
    used: Option<Rule>,
    parts: &[AttributeSight],
) -> Result<List<LineNote>, Memory>
    ensures { IfOk result (λ notes. notes ≡ notes_on kind used parts.now) }
{
    let mut notes = Vec::new(alloc);
    let mut seen = false;
    for attribute in parts {
        let rule = rule_on(kind, used, seen, attribute);
        push_note(attribute.line, rule, &mut notes)?;
        seen = seen || is_last_modified(attribute);
    }
    Ok(List::of(notes))
}

fn rule_on(
    kind: RefKind,
    used: Option<Rule>,
    seen: bool,
    attribute: &AttributeSight,
) -> Option<Rule>
    ensures { result ≡ rule_on kind used seen attribute.now }
{
    if is_of_kind(kind, attribute) {
        return used;
    }
    if is_reference_remark(attribute) {
        return Some(Rule::P10);
    }
    if is_last_modified(attribute) && !seen && modified_in(attribute.value.as_slice()).is_none() {
        return Some(Rule::P07);
    }
    None
}

fn push_note(line: u64, rule: Option<Rule>, notes: &mut Vec<LineNote>) -> Result<(), Memory>
    ensures { OnOk result
        (notes.new.items ≡ notes.old.items ++ option_to_list (note_by line rule)) }
{
    if let Some(rule) = rule {
        notes.push(LineNote { line, rule }).map_err(Memory::from)?;
    }
    Ok(())
}
