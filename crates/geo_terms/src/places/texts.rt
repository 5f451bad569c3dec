//! Texts and places that stand in a source many times.
ghost use Rattle.std.specs.Prelude.{◌≡◌, IfOk, IfSome};
ghost use Rattle.geo_terms.specs.PlaceForm.{IsPlace};

use crate::place::Place;
use crate::place::joined::JoinedTexts;
use crate::places::slots::{Slots, TOGETHER};
use geo_addr::{Memory, Text};
use std::alloc::Global;

/// The texts and the places of one source so far: one that came before is given again, and takes no
/// bytes.
///
/// Which texts it holds changes what memory is taken, and never what a text says. Each that came is
/// shared, and a look-up is at most four and one way down an ordered set, whatever strangers write.
#[derive(Drop)]
pub struct Texts {
    pub(crate) alloc: Global,
    texts: Slots<Text>,
    places: Slots<Place>,
}

impl Texts {
    /// No text yet; it takes no memory.
    pub fn new(alloc: Global) -> Texts {
        Texts {
            alloc,
            texts: Slots::new(alloc),
            places: Slots::new(alloc),
        }
    }

    /// A text that says what `text` does.
    pub fn shared(&mut self, text: &str) -> Result<Text, Memory>
        ensures { IfOk result (λ given. given ≡ text.now) }
    {
        let mark = mark_of(text.as_bytes());
        if let Some(found) = self.known_text(mark, text) {
            return found.copied();
        }
        self.new_text(mark, text)
    }

    // The text that says so, where it came before by this mark.
    fn known_text(&self, mark: u64, text: &str) -> Option<&Text>
        ensures { IfSome result (λ found. found.now ≡ text.now) }
    {
        for beside in 0..TOGETHER {
            if let Some(found) = self.texts.held(mark, beside) {
                if found.as_str() == text {
                    return Some(found);
                }
            }
        }
        None
    }

    // A text that no slot has by this mark, which from now on came before.
    fn new_text(&mut self, mark: u64, text: &str) -> Result<Text, Memory>
        ensures { IfOk result (λ given. given ≡ text.now) }
    {
        let text = Text::of(self.alloc, text)?;
        if let Some(found) = self.texts.other(mark, &text) {
            if *found == text {
                return found.copied();
            }
        }
        let copy = text.copied()?;
        self.texts.keep(self.alloc, mark, copy)?;
        Ok(text)
    }

    /// The place of four texts, where it came before by this mark.
    pub(crate) fn known_place(
        &self,
        mark: u64,
        country: &[u8],
        region: &[u8],
        city: &[u8],
        postal: &[u8],
    ) -> Option<&Place>
        ensures form { IfSome result (λ place. IsPlace place.now) }
        ensures texts { IfSome result (λ place. place.now ≡ record {
          country = country.now;
          region = region.now;
          city = city.now;
          postal = postal.now;
        }) }
    {
        for beside in 0..TOGETHER {
            if let Some(place) = self.places.held(mark, beside) {
                if place.has(country, region, city, postal) {
                    return Some(place);
                }
            }
        }
        None
    }

    /// The place of four texts: the one that came before, or a new one, which from now on did.
    pub(crate) fn place(&mut self, texts: JoinedTexts) -> Result<Place, Memory>
        requires { IsPlace texts }
        ensures { IfOk result (λ place. place ≡ texts) }
    {
        let (first, second) = (texts.country().as_bytes(), texts.region().as_bytes());
        let (third, fourth) = (texts.city().as_bytes(), texts.postal().as_bytes());
        let mark = mark_of_four(first, second, third, fourth);
        if let Some(found) = self.known_place(mark, first, second, third, fourth) {
            return found.copied();
        }
        self.new_place(mark, texts)
    }

    /// The place of four texts that no slot has by this mark, which from now on came before.
    pub(crate) fn new_place(&mut self, mark: u64, texts: JoinedTexts) -> Result<Place, Memory>
        requires { IsPlace texts }
        ensures { IfOk result (λ place. place ≡ texts) }
    {
        let place = Place::of(self.alloc, texts)?;
        if let Some(found) = self.places.other(mark, &place) {
            if *found == place {
                return found.copied();
            }
        }
        let copy = place.copied()?;
        self.places.keep(self.alloc, mark, copy)?;
        Ok(place)
    }
}

/// A number by which a place of these texts is found again; others may have it too.
pub(crate) fn mark_of_four(country: &[u8], region: &[u8], city: &[u8], postal: &[u8]) -> u64 {
    let front = mixed(mark_of(country) ^ mark_of(region)).rotate_left(1);
    mixed(front ^ mark_of(city)).rotate_left(1) ^ mark_of(postal)
}

// A number by which a text is found again; other texts may have it too.
fn mark_of(text: &[u8]) -> u64 {
    let mut mark = text.len() as u64;
    let mut left = text;
    while let [a, b, c, d, e, f, g, h, rest @ ..] = left {
        mark = mixed(mark ^ u64::from_le_bytes([*a, *b, *c, *d, *e, *f, *g, *h]));
        left = rest;
    }
    mixed(mark ^ short_word(left))
}

/// A number for a table's slot, mixed from this one: the halves of a product, one over the other.
///
/// Whoever wants to finds numbers that are mixed alike, so no table may be slow where many are.
pub fn mixed(mark: u64) -> u64 {
    let product = u128::from(mark) * 0x9e37_79b9_7f4a_7c15;
    (product & 0xffff_ffff_ffff_ffff) as u64 ^ (product >> 64) as u64
}

// A number that the bytes spell, of which the last eight count.
fn short_word(bytes: &[u8]) -> u64 {
    let mut word = 0;
    for byte in bytes {
        word = word << 8 | u64::from(*byte);
    }
    word
}
