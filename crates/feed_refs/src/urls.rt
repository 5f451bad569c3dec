//! The URLs of a dump, which stand in many of its objects.
ghost use Rattle.std.specs.Prelude.{◌≡◌, IfOk, IfSome, OnOk};
ghost use Rattle.feed_refs.specs.Urls.{url_read};
ghost use Rattle.feed_refs.specs.declared.feed_url.UrlRead.TheVariants.{Https};

use crate::feed_url::{UrlRead, read_url};
use geo_addr::{Bytes, Memory, Text};
use geo_terms::Texts;
use std::alloc::Global;
use std::marker::Model;

// How many texts are remembered: registries name a few thousand feeds.
const SLOTS: usize = 4096;

// A text that was read, and its URL.
#[derive(Drop)]
struct ReadUrl {
    text: Bytes,
    url: Text,
}

impl Model for ReadUrl {
    ghost use Rattle.std.specs.Prelude.{◌≡◌, ℕ, List};
    ghost use Rattle.feed_refs.specs.Urls.{url_read};
    ghost use Rattle.feed_refs.specs.declared.feed_url.UrlRead.TheVariants.{Https};

    ghost Value = { List ℕ × List ℕ };

    ghost view = { λ r. (r.text, r.url) };

    ghost invariant = { λ r. url_read r.text ≡ Https r.url };
}

impl ReadUrl {
    // The URL, where it was read from this text.
    fn of_text(&self, text: &[u8]) -> Option<&Text>
        ensures { IfSome result (λ url. url_read text.now ≡ Https url.now) }
    {
        if self.text.as_slice() == text {
            Some(&self.url)
        } else {
            None
        }
    }
}

/// The URLs of a dump so far: references share them, and a text is mostly read once.
#[derive(Drop)]
pub(crate) struct Urls {
    alloc: Global,
    shared: Texts,
    // At the slot of its text, the newest that was read; none before the first.
    read: Vec<Option<ReadUrl>>,
}

impl Urls {
    /// No URL yet; it takes no memory.
    pub fn new(alloc: Global) -> Urls {
        Urls {
            alloc,
            shared: Texts::new(alloc),
            read: Vec::new(alloc),
        }
    }

    /// What a text is as the URL of a feed. A URL that came before is given again.
    pub fn read(&mut self, text: &[u8]) -> Result<UrlRead, Memory>
        ensures { IfOk result (λ read. read ≡ url_read text.now) }
    {
        let slot = slot_of(text);
        if let Some(url) = self.known(slot, text) {
            return Ok(UrlRead::Https(url.copied()?));
        }
        match read_url(self.alloc, text)? {
            UrlRead::Https(url) => {
                let url = self.shared.shared(url.as_str())?;
                self.keep(slot, text, &url)?;
                Ok(UrlRead::Https(url))
            }
            other => Ok(other),
        }
    }

    // The URL that was read from a text, where its slot has it.
    fn known(&self, slot: usize, text: &[u8]) -> Option<&Text>
        ensures { IfSome result (λ url. url_read text.now ≡ Https url.now) }
    {
        match self.read.get(slot) {
            Some(Some(read)) => read.of_text(text),
            _ => None,
        }
    }

    // Puts what was read from a text at its slot.
    fn keep(&mut self, slot: usize, text: &[u8], url: &Text) -> Result<(), Memory>
        requires { url_read text.now ≡ Https url.now }
    {
        if self.read.is_empty() {
            self.read = no_urls(self.alloc)?;
        }
        let text = Bytes::of(self.alloc, text)?;
        let url = url.copied()?;
        let read = ReadUrl { text, url };
        if let Some(held) = self.read.get_mut(slot) {
            *held = Some(read);
        }
        Ok(())
    }
}

// Slots without a URL.
fn no_urls(alloc: Global) -> Result<Vec<Option<ReadUrl>>, Memory> {
    let mut slots = Vec::with_capacity(alloc, SLOTS)?;
    for _slot in 0..SLOTS {
        slots.push(None)?;
    }
    Ok(slots)
}

// The slot of a text; others may have it too.
fn slot_of(text: &[u8]) -> usize {
    let mut mark: u64 = 0;
    for byte in text {
        mark = mark.wrapping_mul(31) ^ u64::from(*byte);
    }
    (mark ^ mark >> 24) as usize % SLOTS
}
