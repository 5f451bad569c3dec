//! What the entry of a speaker is looked up by: the range of each reference, and its feed.
ghost use Rattle.std.specs.Prelude.{◌≡◌, ◌<◌, ◌^◌, map, option_and_then, slice_get, IfOk};
ghost use Rattle.std.specs.Arc.{arc_value};
ghost use Rattle.std.specs.Option.{option_copied};
ghost use Rattle.first_index.specs.Boundaries.{told};
ghost use Rattle.geo_terms.specs.First.{first_of};
ghost use Rattle.geo_terms.specs.PlaceForm.{same_text};
ghost use Rattle.geo_terms.specs.Precedence.{entries_within, entry_before};
ghost use Rattle.geo_terms.specs.SlotOrder.{AreInOrder};
ghost use Rattle.geo_terms.specs.Sources.{entries_in};
ghost use Rattle.authority.specs.Held.{url_of};
ghost use Rattle.authority.specs.Voices.{voice_of};

use crate::kind_index::KindIndex;
use crate::ready::ReadyFeed;
use geo_addr::{Addr, Memory, Range};
use geo_terms::{Entry, Reference};
use source_changes::shelf;
use std::alloc::Global;
use std::sync::Arc;

/// The range of a reference, and its feed where that is in force.
#[derive(Debug, Drop)]
pub(crate) struct Voice {
    pub(crate) range: Range,
    pub(crate) feed: Option<ReadyFeed>,
}

/// The voices of references, in their order.
#[derive(Debug, Drop)]
pub(crate) struct Voices {
    pub(crate) list: Vec<Voice>,
}

/// The voices of these references, to be shared.
///
/// References of one URL stand together, so each URL costs one halving.
pub(crate) fn voices_of(
    alloc: Global,
    refs: &[Reference],
    feeds: &[ReadyFeed],
) -> Result<Arc<Voices>, Memory>
    requires { AreInOrder url_of feeds.now }
    ensures { IfOk result
        (λ made. (arc_value made).list.items ≡ map (voice_of feeds.now) refs.now) }
{
    let list = list_of(alloc, refs, feeds)?;
    let made = Arc::new(alloc, Voices { list })?;
    Ok(made)
}

fn list_of(alloc: Global, refs: &[Reference], feeds: &[ReadyFeed]) -> Result<Vec<Voice>, Memory>
    requires { AreInOrder url_of feeds.now }
    ensures { IfOk result (λ list. list.items ≡ map (voice_of feeds.now) refs.now) }
{
    let mut list = Vec::with_capacity(alloc, refs.len())?;
    let mut near = 0;
    for reference in refs {
        list.push(voice_of(reference, feeds, &mut near)?)?;
    }
    Ok(list)
}

fn voice_of(reference: &Reference, feeds: &[ReadyFeed], near: &mut usize) -> Result<Voice, Memory>
    requires { AreInOrder url_of feeds.now }
    ensures { IfOk result (λ voice. voice ≡ voice_of feeds.now reference.now) }
{
    let found = shelf::get_near(feeds, reference.url.as_str(), near);
    let feed = owned(found)?;
    Ok(Voice {
        range: reference.range,
        feed,
    })
}

fn owned(found: Option<&ReadyFeed>) -> Result<Option<ReadyFeed>, Memory>
    ensures { IfOk result (λ feed. feed ≡ option_copied found.entry) }
{
    match found {
        Some(ready) => {
            let ready = ready.clone()?;
            Ok(Some(ready))
        }
        None => Ok(None),
    }
}

/// The voice of the speaker at an address. It is looked for first where the last one was found.
pub(crate) fn voice_near<'a>(
    voices: &'a Voices,
    kind: &KindIndex,
    at: Addr,
    near: &mut usize,
) -> Option<&'a Voice>
    ensures told { option_copied result
        ≡ option_and_then (slice_get voices.entry.now.list.items)
        (told None kind.entry.now.firsts at.0) }
    ensures range { at.0 < 2 ^ 128 }
{
    let index = kind.firsts.index_near(at, near)?;
    voices.list.as_slice().get(index)
}

/// The entry that speaks for a voice at an address. It is looked for first where the last one was
/// found.
pub(crate) fn entry_of_voice<'a>(voice: &'a Voice, at: Addr, near: &mut usize) -> Option<&'a Entry>
    ensures { option_copied result ≡ first_of entry_before (entries_within
        (entries_in voice.entry.now.feed) voice.entry.now.range at.0) }
{
    let feed = voice.feed.as_ref()?;
    feed.entry_within(voice.range, at, near)
}
