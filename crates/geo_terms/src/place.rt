//! Places and what a line says of its addresses.
ghost use Rattle.std.specs.Prelude.{◌≡◌, ◌%◌, ◌^◌, ◌++◌, ◌&&◌, IfOk, IsTrue};
ghost use Rattle.std.specs.Cmp.{partial_equiv_from_equiv};
ghost use Rattle.std.specs.Cmp.Rules.{hashing};
ghost use Rattle.std.specs.Hash as fed;
ghost use Rattle.std.proofs.Common.{rules};
ghost use Rattle.geo_terms.specs.PlaceForm.{IsPlace, same_text};
ghost use Rattle.geo_terms.specs.PlaceMarks.{mixed_again, mixed_texts, place_mark, place_rank};
ghost use Rattle.geo_terms.specs.Numbers.{same_place};
ghost use Rattle.geo_terms.specs.PlaceEquality as equality;
ghost use Rattle.geo_terms.specs.PlaceOrder as order;
ghost use Rattle.std.specs.Prelude.{Some, refl};
ghost use Rattle.std.specs.Cmp.{partial_order_from_agreeing_total};

pub(crate) mod joined;

use crate::place::joined::JoinedTexts;
use geo_addr::Memory;
use std::alloc::Global;
use std::cmp::Ordering;
use std::hash::{FoldHasher, Hash, Hasher};
use std::marker::Model;
use std::sync::Arc;
use thiserror::Error;

/// A place: a country, a region, a city and a postal code, each of which may be empty, but not all.
///
/// The country is a code of ISO 3166-1 and the region one of ISO 3166-2, both in upper case; no
/// text is longer than `LONGEST` of `places/fields.rt`. Whether the codes exist is not asked.
/// Its copies share the four texts, which stand in one string.
#[derive(Debug, Drop)]
pub struct Place {
    parts: Arc<Parts>,
}

/// The four texts of a place, the number by which it is found again, and one by which places are
/// ordered first.
#[derive(Debug, Drop)]
struct Parts {
    mark: u32,
    rank: u32,
    texts: JoinedTexts,
}

impl Model for Place {
    ghost use Rattle.std.specs.Arc.{arc_value};
    ghost use Rattle.geo_terms.specs.PlaceForm.{PlaceParts, IsPlace};
    ghost use Rattle.geo_terms.specs.PlaceMarks.{place_mark, place_rank};
    ghost use Rattle.std.specs.Prelude.{◌≡◌};

    ghost Value = { PlaceParts };

    ghost view = { λ p. (arc_value p.parts).texts };

    ghost invariant = { λ p. IsPlace (arc_value p.parts).texts
        × ((arc_value p.parts).mark ≡ place_mark (arc_value p.parts).texts)
        × ((arc_value p.parts).rank ≡ place_rank (arc_value p.parts).texts) };
}

impl Place {
    /// The place of these texts.
    pub(crate) fn of(alloc: Global, texts: JoinedTexts) -> Result<Place, Memory>
        requires { IsPlace texts }
        ensures { IfOk result (λ place. place ≡ texts) }
    {
        let (first, second) = (texts.country().as_bytes(), texts.region().as_bytes());
        let (third, fourth) = (texts.city().as_bytes(), texts.postal().as_bytes());
        let mixed = mixed_texts(first, second, third, fourth);
        let again = mixed_again(mixed, first, second, third, fourth);
        let (mark, rank) = ((mixed % (1 << 32)) as u32, (again % (1 << 32)) as u32);
        let parts = Parts { mark, rank, texts };
        let parts = Arc::new(alloc, parts)?;
        Ok(Place { parts })
    }

    /// The country, or an empty text.
    pub fn country(&self) -> &str
        ensures text { result.now ≡ self.now.country }
        ensures form { IsPlace self.now }
    {
        self.parts.texts.country()
    }

    /// The region, or an empty text.
    pub fn region(&self) -> &str
        ensures { result.now ≡ self.now.region }
    {
        self.parts.texts.region()
    }

    /// The city, or an empty text.
    pub fn city(&self) -> &str
        ensures { result.now ≡ self.now.city }
    {
        self.parts.texts.city()
    }

    /// The postal code, or an empty text.
    pub fn postal(&self) -> &str
        ensures { result.now ≡ self.now.postal }
    {
        self.parts.texts.postal()
    }

    /// The number of a place that its slots in a table follow from; others may have it too.
    pub(crate) fn mark(&self) -> u32
        ensures { result ≡ place_mark self.now }
    {
        self.parts.mark
    }

    // The number by which places are ordered first; others may have it too.
    fn rank(&self) -> u32
        ensures { result ≡ place_rank self.now }
    {
        self.parts.rank
    }

    /// A second owner of this place, which takes no bytes.
    pub fn copied(&self) -> Result<Place, Memory>
        ensures { IfOk result (λ place. place ≡ self.now) }
    {
        let parts = self.parts.clone()?;
        Ok(Place { parts })
    }

    /// Whether these are its four texts.
    pub(crate) fn has(&self, country: &[u8], region: &[u8], city: &[u8], postal: &[u8]) -> bool
        ensures form { IsPlace self.now }
        ensures same { result ≡ same_place self.now (record {
          country = country.now;
          region = region.now;
          city = city.now;
          postal = postal.now;
        }) }
    {
        self.parts.texts.has(country, region, city, postal)
    }

    // Whether the four texts of both are the same.
    fn is_same(&self, other: &Place) -> bool
        ensures { result ≡ same_place self.now other.now }
    {
        self.parts.texts.is_same(&other.parts.texts)
    }

    // The order of both by their four texts, which are mostly the same where this is asked.
    fn text_cmp(&self, other: &Place) -> Ordering
        ensures { result ≡ order.text_cmp self.now other.now }
    {
        if self.is_same(other) {
            return Ordering::Equal;
        }
        (self.country().cmp(other.country()))
            .then_with(|| self.region().cmp(other.region()))
            .then_with(|| self.city().cmp(other.city()))
            .then_with(|| self.postal().cmp(other.postal()))
    }
}

// What four texts are mixed to.
fn mixed_texts(country: &[u8], region: &[u8], city: &[u8], postal: &[u8]) -> u64
    ensures { result ≡ mixed_texts (record {
      country = country.now;
      region = region.now;
      city = city.now;
      postal = postal.now;
    }) }
{
    let mut hasher = FoldHasher::default();
    hasher.write(country);
    hasher.write(region);
    hasher.write(city);
    hasher.write(postal);
    hasher.finish()
}

// What they are mixed to once more, the last first. It begins with what they were mixed to, so that
// texts for which the first ones do not count in it do not go unseen in the other either.
fn mixed_again(mixed: u64, country: &[u8], region: &[u8], city: &[u8], postal: &[u8]) -> u64
    requires { mixed ≡ mixed_texts (record {
      country = country.now;
      region = region.now;
      city = city.now;
      postal = postal.now;
    }) }
    ensures { result ≡ mixed_again (record {
      country = country.now;
      region = region.now;
      city = city.now;
      postal = postal.now;
    }) }
{
    let mut hasher = FoldHasher::default();
    hasher.write(&mixed.to_le_bytes());
    hasher.write(postal);
    hasher.write(city);
    hasher.write(region);
    hasher.write(country);
    hasher.finish()
}

impl PartialEq for Place {
    ghost eq = { same_place };

    ghost laws = { partial_equiv_from_equiv equality.place_equiv };

    fn eq(&self, other: &Place) -> bool {
        self.is_same(other)
    }
}

impl Eq for Place {
    ghost laws = { equality.place_equiv };
}

impl PartialOrd for Place {
    ghost partial_cmp = { λ x y. Some (order.place_cmp x y) };

    ghost laws = { partial_order_from_agreeing_total order.place_cmp order.place_total
        (λ x y. refl) order.place_ties };

    fn partial_cmp(&self, other: &Place) -> Option<Ordering> {
        Some(self.cmp(other))
    }
}

impl Ord for Place {
    ghost cmp = { order.place_cmp };

    ghost total = { order.place_total };

    ghost matches_partial_cmp = { λ x y. refl };

    ghost matches_eq = { order.place_ties };

    fn cmp(&self, other: &Place) -> Ordering {
        self.rank()
            .cmp(&other.rank())
            .then_with(|| self.text_cmp(other))
    }
}

impl Hash for Place {
    ghost hash_input = { λ p.
        fed.str p.country ++ fed.str p.region ++ fed.str p.city ++ fed.str p.postal };

    ghost respects_eq = { Prim.search (hashing, rules) };

    fn hash<H: Hasher>(&self, state: &mut H) {
        self.country().hash(state);
        self.region().hash(state);
        self.city().hash(state);
        self.postal().hash(state);
    }
}

/// What a line says of its addresses: nothing, or a place.
#[derive(Debug, Drop, PartialEq, Eq)]
pub enum Said {
    Nothing,
    At(Place),
}

/// Why four texts are no place.
#[derive(Clone, Copy, Debug, PartialEq, Eq, Error)]
pub enum PlaceFault {
    #[error("the country is not two letters")]
    Country = 1,
    #[error("the region is not a country, a dash and one to three letters or digits")]
    Region = 2,
    #[error("the city or the postal code is too long")]
    TooLong = 3,
    #[error("out of memory")]
    Memory = 4,
}

impl From<Memory> for PlaceFault {
    ghost use Rattle.std.specs.Prelude.{◌≡◌};
    ghost use Rattle.geo_terms.specs.declared.place.PlaceFault.{PlaceFault};

    ghost from_gives = { λ _ fault. fault ≡ PlaceFault.Memory };

    fn from(_refused: Memory) -> PlaceFault {
        PlaceFault::Memory
    }
}
