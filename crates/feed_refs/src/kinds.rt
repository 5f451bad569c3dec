//! The attributes of an object that matter: references to a feed, and `last-modified`.
ghost use Rattle.std.specs.Prelude.{◌≡◌, ◌<◌, length, position, IfSome};
ghost use Rattle.std.specs.List.{list_any};
ghost use Rattle.std.specs.Option.{option_copied};
ghost use Rattle.geo_addr.specs.Lines.{is_blank};
ghost use Rattle.geo_terms.specs.PlaceForm.{same_text};
ghost use Rattle.feed_refs.specs.Kinds.{begins_blank, first_word, holds_word, is_geofeed};
ghost use Rattle.feed_refs.specs.Kinds.{is_last_modified, is_of_kind, is_reference_remark};
ghost use Rattle.feed_refs.specs.Kinds.{remark_url, url_text, used_kind};

use geo_addr::{Text, is_blank, trim_blanks};
use rpsl_reader::AttributeSight;

/// The two kinds of references: `geofeed` attributes, and remarks of the form that stands for them.
#[derive(Clone, Copy)]
pub(crate) enum RefKind {
    Geofeed,
    Remark,
}

/// The kind of which the references of an object count.
pub(crate) fn used_kind(parts: &[AttributeSight]) -> RefKind
    ensures { result ≡ used_kind parts.now }
{
    if has_geofeed(parts) {
        RefKind::Geofeed
    } else {
        RefKind::Remark
    }
}

fn has_geofeed(parts: &[AttributeSight]) -> bool
    ensures { result ≡ list_any is_geofeed parts.now }
{
    parts.iter().any(|a| is_geofeed(a))
}

/// Whether an attribute is a reference of a kind.
pub(crate) fn is_of_kind(kind: RefKind, attribute: &AttributeSight) -> bool
    ensures { result ≡ is_of_kind kind attribute.now }
{
    match kind {
        RefKind::Geofeed => is_geofeed(attribute),
        RefKind::Remark => is_reference_remark(attribute),
    }
}

/// The URL text of a reference of a kind.
pub(crate) fn url_text<'s>(kind: RefKind, attribute: &'s AttributeSight) -> &'s [u8]
    ensures { result.now ≡ url_text kind attribute.now }
{
    let value = attribute.value.as_slice();
    match kind {
        RefKind::Geofeed => value,
        RefKind::Remark => remark_url(value).unwrap_or(&[]),
    }
}

fn is_geofeed(attribute: &AttributeSight) -> bool
    ensures { result ≡ is_geofeed attribute.now }
{
    is_name(&attribute.name, b"geofeed")
}

/// Whether an attribute is a remark that refers to a feed.
pub(crate) fn is_reference_remark(attribute: &AttributeSight) -> bool
    ensures { result ≡ is_reference_remark attribute.now }
{
    is_name(&attribute.name, b"remarks") && remark_url(attribute.value.as_slice()).is_some()
}

pub(crate) fn is_last_modified(attribute: &AttributeSight) -> bool
    ensures { result ≡ is_last_modified attribute.now }
{
    is_name(&attribute.name, b"last-modified")
}

/// Whether a name is this one.
pub(crate) fn is_name(name: &Text, known: &[u8]) -> bool
    ensures { result ≡ same_text name.now known.now }
{
    same_bytes(name.as_str().as_bytes(), known)
}

// Whether two names are one: most differ in their first byte, so that is looked at first.
fn same_bytes(name: &[u8], known: &[u8]) -> bool
    ensures { result ≡ same_text name.now known.now }
{
    let mut left = name;
    let mut right = known;
    while let [a, name @ ..] = left {
        let [b, known @ ..] = right else {
            return false;
        };
        if *a != *b {
            return false;
        }
        left = name;
        right = known;
    }
    right.is_empty()
}

// The URL text of a remark of the form `Geofeed https://..`.
#[tactic(auto, unfolding(crate::specs::Kinds::remark_url))]
fn remark_url(value: &[u8]) -> Option<&[u8]>
    ensures { option_copied result ≡ remark_url value.now }
{
    if !value.starts_with(b"Geofeed") {
        return None;
    }
    let rest = &value[7..];
    let word = first_word(rest);
    if begins_blank(rest) && holds_word(word, b"://") {
        Some(word)
    } else {
        None
    }
}

fn begins_blank(text: &[u8]) -> bool
    ensures { result ≡ begins_blank text.now }
{
    match text {
        [first, ..] => is_blank(*first),
        [] => false,
    }
}

fn holds_word(text: &[u8], word: &[u8]) -> bool
    ensures { result ≡ holds_word word.now text.now }
{
    let mut left = text;
    while let [_, rest @ ..] = left {
        if left.starts_with(word) {
            return true;
        }
        left = rest;
    }
    false
}

// The first word of a text behind blanks.
#[tactic(auto, using(crate::proofs::KindLemmas::before_some, crate::proofs::KindLemmas::before_none))]
fn first_word(text: &[u8]) -> &[u8]
    ensures { result.now ≡ first_word text.now }
{
    let text = trim_blanks(text);
    match first_blank(text) {
        Some(offset) => &text[..offset],
        None => text,
    }
}

fn first_blank(text: &[u8]) -> Option<usize>
    ensures offset { result ≡ position is_blank text.now }
    ensures within { IfSome result (λ offset. offset < length text.now) }
{
    text.iter().position(|byte| is_blank(*byte))
}
