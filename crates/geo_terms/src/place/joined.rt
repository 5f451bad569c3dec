//! Four texts in one string.
ghost use Rattle.std.specs.Prelude.{◌≡◌, ◌+◌, ◌<◌, ◌^◌, ◌++◌, length, IfOk, string_bytes};
ghost use Rattle.geo_terms.specs.Numbers.{same_place};
ghost use Rattle.geo_terms.specs.PlaceForm.{same_text, upper};

use crate::same::same_bytes;
use geo_addr::Memory;
use std::alloc::Global;
use std::marker::Model;

/// The texts of a place, one behind the other, and where the later three begin.
#[derive(Debug, Drop)]
pub(crate) struct JoinedTexts {
    text: String,
    region_at: u16,
    city_at: u16,
    postal_at: u16,
}

impl Model for JoinedTexts {
    ghost use Rattle.std.specs.Prelude.{string_bytes};
    ghost use Rattle.geo_terms.specs.PlaceForm.{PlaceParts};
    ghost use Rattle.geo_terms.specs.JoinedTexts.{parts_at, IsCutAt};

    ghost Value = { PlaceParts };

    ghost view = { λ t. parts_at (string_bytes t.text) t.region_at t.city_at t.postal_at };

    ghost invariant = { λ t. IsCutAt (string_bytes t.text) t.region_at t.city_at t.postal_at };
}

impl JoinedTexts {
    /// A country and a region in upper case, a city and a postal code, in one block of memory.
    pub(crate) fn of(
        alloc: Global,
        country: &str,
        region: &str,
        city: &str,
        postal: &str,
    ) -> Result<JoinedTexts, Memory>
        requires { length country.now + length region.now + length city.now + length postal.now
            < 2 ^ 16 }
        ensures { IfOk result (λ texts. texts ≡ record {
          country = upper country.now;
          region = upper region.now;
          city = city.now;
          postal = postal.now;
        }) }
    {
        let region_at = country.len();
        let city_at = region_at + region.len();
        let postal_at = city_at + city.len();
        let room = postal_at + postal.len();
        let text = joined(alloc, room, country, region, city, postal)?;
        Ok(JoinedTexts {
            text,
            region_at: region_at as u16,
            city_at: city_at as u16,
            postal_at: postal_at as u16,
        })
    }

    /// Whether the four texts of both are the same.
    pub(crate) fn is_same(&self, other: &JoinedTexts) -> bool
        ensures { result ≡ same_place self.now other.now }
    {
        let cut_alike = (self.region_at == other.region_at)
            & (self.city_at == other.city_at)
            & (self.postal_at == other.postal_at);
        cut_alike
            && same_bytes(
                self.text.as_str().as_bytes(),
                other.text.as_str().as_bytes(),
            )
    }

    /// Whether these are the four texts.
    pub(crate) fn has(&self, country: &[u8], region: &[u8], city: &[u8], postal: &[u8]) -> bool
        ensures { result ≡ same_place self.now (record {
          country = country.now;
          region = region.now;
          city = city.now;
          postal = postal.now;
        }) }
    {
        let text = self.text.as_str().as_bytes();
        let region_at = self.region_at as usize;
        let city_at = self.city_at as usize;
        let postal_at = self.postal_at as usize;
        same_bytes(&text[..region_at], country)
            && same_bytes(&text[region_at..city_at], region)
            && same_bytes(&text[city_at..postal_at], city)
            && same_bytes(&text[postal_at..], postal)
    }

    pub(crate) fn country(&self) -> &str
        ensures { result.now ≡ self.now.country }
    {
        &self.text.as_str()[..self.region_at as usize]
    }

    pub(crate) fn region(&self) -> &str
        ensures { result.now ≡ self.now.region }
    {
        &self.text.as_str()[self.region_at as usize..self.city_at as usize]
    }

    pub(crate) fn city(&self) -> &str
        ensures { result.now ≡ self.now.city }
    {
        &self.text.as_str()[self.city_at as usize..self.postal_at as usize]
    }

    pub(crate) fn postal(&self) -> &str
        ensures { result.now ≡ self.now.postal }
    {
        &self.text.as_str()[self.postal_at as usize..]
    }
}

// Country and region in upper case, city and postal code in one string, made with so much room.
fn joined(
    alloc: Global,
    room: usize,
    country: &str,
    region: &str,
    city: &str,
    postal: &str,
) -> Result<String, Memory>
    ensures { IfOk result (λ text. string_bytes text
        ≡ (upper (country.now ++ region.now) ++ city.now) ++ postal.now) }
{
    let mut text = String::with_capacity(alloc, room)?;
    text.push_str(country)?;
    text.push_str(region)?;
    text.make_ascii_uppercase();
    text.push_str(city)?;
    text.push_str(postal)?;
    Ok(text)
}
