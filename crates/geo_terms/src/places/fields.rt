//! What four fields of a line say.
ghost use Rattle.std.specs.Prelude.{◌≡◌, ◌<◌, ◌≤◌, ◌↔◌, length, IfOk, IfErr, IfSome, Ok, OnOk};
ghost use Rattle.std.specs.Prelude.{IsNone, IsOkUnless, IsTrue, false, [], ◌∷◌, if◌then◌else◌};
ghost use Rattle.std.specs.List.{list_all};
ghost use Rattle.std.specs.Char.{is_ascii_alphanumeric};
ghost use Rattle.geo_terms.specs.PlaceForm.{country_fits, country_of_region, is_country, is_empty};
ghost use Rattle.geo_terms.specs.PlaceForm.{country_place, is_region, lengths_fit, names_country};
ghost use Rattle.geo_terms.specs.PlaceForm.{IsPlace, nowhere, parts_of, place_of_country};
ghost use Rattle.geo_terms.specs.PlaceForm.{region_fits, same_text, says_nothing, upper};
ghost use Rattle.geo_terms.specs.SaidOf.{said_of, said_by};
ghost use Rattle.geo_terms.specs.declared.place.Said.TheVariants.{At};

use crate::place::joined::JoinedTexts;
use crate::place::{Place, PlaceFault, Said};
use crate::places::texts::{Texts, mark_of_four};
use geo_addr::Memory;
use std::alloc::Global;

/// The longest city or postal code, in bytes.
const LONGEST: usize = 1024;

/// What the fields of a line say of its addresses: a place, or nothing where the country is `ZZ` or
/// all fields are empty.
///
/// The fields are trimmed of blanks. Country and region are read in either case and kept in upper
/// case; where only the region is there, its first two letters are the country.
#[tactic(auto, unfolding(crate::specs::SaidOf::said_of))]
pub fn place_of(
    alloc: Global,
    country: &str,
    region: &str,
    city: &str,
    postal: &str,
) -> Result<Said, PlaceFault>
    ensures said { IfOk result
        (λ said. said_of country.now region.now city.now postal.now ≡ Ok said) }
    ensures refused { IfErr (said_of country.now region.now city.now postal.now)
        (λ fault. result ≡ Err fault) }
    ensures otherwise { OnOk (said_of country.now region.now city.now postal.now)
        (IsOkUnless result PlaceFault.Memory) }
{
    place_in(&mut Texts::new(alloc), country, region, city, postal)
}

/// What `place_of` gives, with texts that came before in this source given again.
#[tactic(auto, unfolding(crate::specs::SaidOf::said_of))]
pub fn place_in(
    texts: &mut Texts,
    country: &str,
    region: &str,
    city: &str,
    postal: &str,
) -> Result<Said, PlaceFault>
    ensures said { IfOk result
        (λ said. said_of country.now region.now city.now postal.now ≡ Ok said) }
    ensures refused { IfErr (said_of country.now region.now city.now postal.now)
        (λ fault. result ≡ Err fault) }
    ensures otherwise { OnOk (said_of country.now region.now city.now postal.now)
        (IsOkUnless result PlaceFault.Memory) }
{
    let (first, second) = (country.as_bytes(), region.as_bytes());
    let (third, fourth) = (city.as_bytes(), postal.as_bytes());
    let mark = mark_of_four(first, second, third, fourth);
    if let Some(place) = said_before(texts, mark, first, second, third, fourth) {
        return Ok(Said::At(place.copied()?));
    }
    if !country_fits(country) {
        return Err(PlaceFault::Country);
    }
    if !region_fits(region) {
        return Err(PlaceFault::Region);
    }
    if !lengths_fit(city, postal) {
        return Err(PlaceFault::TooLong);
    }
    Ok(said_in_form(texts, mark, country, region, city, postal)?)
}

// The place that fields with this mark say, where it came before.
fn said_before<'a>(
    texts: &'a Texts,
    mark: u64,
    country: &[u8],
    region: &[u8],
    city: &[u8],
    postal: &[u8],
) -> Option<&'a Place>
    ensures { IfSome result
        (λ place. said_of country.now region.now city.now postal.now ≡ Ok (At place.now)) }
{
    let place = texts.known_place(mark, country, region, city, postal)?;
    Some(place)
}

/// The place that a country code alone names, or `None` where it is not two letters, or is `ZZ`.
///
/// The code is read in either case and kept in upper case.
pub fn country_place(texts: &mut Texts, country: &[u8]) -> Result<Option<Place>, Memory>
    ensures { IfOk result (λ place. place ≡ place_of_country country.now) }
{
    let Some(pair) = upper_pair(country) else {
        return Ok(None);
    };
    Ok(Some(place_of_pair(texts, country, &pair)?))
}

// The two letters of a country code in upper case, where it names a country.
fn upper_pair(country: &[u8]) -> Option<[u8; 2]>
    ensures pair { IfSome result (λ pair. pair ≡ upper country.now) }
    ensures named { IfSome result (λ pair. IsTrue (names_country country.now)) }
    ensures none { IsNone result → names_country country.now ≡ false }
{
    let [first, second] = country else {
        return None;
    };
    if !first.is_ascii_alphabetic() || !second.is_ascii_alphabetic() {
        return None;
    }
    let pair = [first.to_ascii_uppercase(), second.to_ascii_uppercase()];
    if is_nowhere(&pair) {
        return None;
    }
    Some(pair)
}

// The place of a country code that names a country, of which this is the pair in upper case.
fn place_of_pair(texts: &mut Texts, country: &[u8], pair: &[u8]) -> Result<Place, Memory>
    requires named { IsTrue (names_country country.now) }
    requires pair { pair.now ≡ upper country.now }
    ensures { IfOk result (λ place. place ≡ country_place country.now) }
{
    let mark = mark_of_four(pair, b"", b"", b"");
    if let Some(place) = texts.known_place(mark, pair, b"", b"", b"") {
        return place.copied();
    }
    // Two ASCII letters are a text.
    let country = unsafe { str::from_utf8_unchecked(country) };
    let made = JoinedTexts::of(texts.alloc, country, "", "", "")?;
    texts.new_place(mark, made)
}

// What fields that are in form and have this mark say, where it did not come before.
#[tactic(auto, using(crate::proofs::PlaceLemmas::place_in_form))]
fn said_in_form(
    texts: &mut Texts,
    mark: u64,
    country: &str,
    region: &str,
    city: &str,
    postal: &str,
) -> Result<Said, Memory>
    requires country { IsTrue (country_fits country.now) }
    requires region { IsTrue (region_fits region.now) }
    requires lengths { IsTrue (lengths_fit city.now postal.now) }
    ensures { IfOk result
        (λ said. said ≡ said_by (parts_of country.now region.now city.now postal.now)) }
{
    let made = named(texts.alloc, country, region, city, postal)?;
    if says_nothing(&made) {
        return Ok(Said::Nothing);
    }
    Ok(Said::At(place_by(texts, mark, country, region, made)?))
}

// The place of these texts; where country and region are in upper case, the mark is theirs too.
fn place_by(
    texts: &mut Texts,
    mark: u64,
    country: &str,
    region: &str,
    made: JoinedTexts,
) -> Result<Place, Memory>
    requires { IsPlace made }
    ensures { IfOk result (λ place. place ≡ made) }
{
    if begins_with(&made, country, region) {
        texts.new_place(mark, made)
    } else {
        texts.place(made)
    }
}

// Whether these are the country and the region of the texts.
fn begins_with(texts: &JoinedTexts, country: &str, region: &str) -> bool {
    texts.country() == country && texts.region() == region
}

// The texts that four fields in form name.
fn named(
    alloc: Global,
    country: &str,
    region: &str,
    city: &str,
    postal: &str,
) -> Result<JoinedTexts, Memory>
    requires country { IsTrue (country_fits country.now) }
    requires region { IsTrue (region_fits region.now) }
    requires lengths { IsTrue (lengths_fit city.now postal.now) }
    ensures { IfOk result
        (λ texts. texts ≡ parts_of country.now region.now city.now postal.now) }
{
    let letters = own_country(country, region);
    JoinedTexts::of(alloc, letters, region, city, postal)
}

// Whether these texts, in upper case, say nothing.
fn says_nothing(texts: &JoinedTexts) -> bool
    ensures { result ≡ says_nothing texts.now }
{
    if is_nowhere(texts.country().as_bytes()) {
        return true;
    }
    texts.country().is_empty()
        && texts.region().is_empty()
        && texts.city().is_empty()
        && texts.postal().is_empty()
}

// Whether a country in upper case is the code that stands for none.
fn is_nowhere(country: &[u8]) -> bool
    ensures { result ≡ same_text country.now nowhere }
{
    country == b"ZZ".as_slice()
}

// The country of two fields: the first one, or where that is empty the first letters of the region.
fn own_country<'a>(country: &'a str, region: &'a str) -> &'a str
    requires { IsTrue (region_fits region.now) }
    ensures { result.now
        ≡ (if is_empty country.now then country_of_region region.now else country.now) }
{
    if !country.is_empty() {
        return country;
    }
    match region.as_bytes() {
        [_, _, ..] => &region[..2],
        _ => "",
    }
}

#[tactic(auto, unfolding(crate::specs::PlaceForm::country_fits))]
fn country_fits(country: &str) -> bool
    ensures { result ≡ country_fits country.now }
{
    country.is_empty() || is_country(country.as_bytes())
}

#[tactic(auto, unfolding(crate::specs::PlaceForm::region_fits))]
fn region_fits(region: &str) -> bool
    ensures { result ≡ region_fits region.now }
{
    region.is_empty() || is_region(region.as_bytes())
}

#[tactic(auto, unfolding(crate::specs::PlaceForm::lengths_fit))]
fn lengths_fit(city: &str, postal: &str) -> bool
    ensures { result ≡ lengths_fit city.now postal.now }
{
    city.len() <= LONGEST && postal.len() <= LONGEST
}

fn is_country(text: &[u8]) -> bool
    ensures { result ≡ is_country text.now }
{
    match text {
        [first, second] => first.is_ascii_alphabetic() && second.is_ascii_alphabetic(),
        _ => false,
    }
}

fn is_region(text: &[u8]) -> bool
    ensures { result ≡ is_region text.now }
{
    match text {
        [first, second, dash, rest @ ..] => {
            first.is_ascii_alphabetic()
                && second.is_ascii_alphabetic()
                && *dash == b'-'
                && !rest.is_empty()
                && rest.len() <= 3
                && is_alphanumeric(rest)
        }
        _ => false,
    }
}

fn is_alphanumeric(text: &[u8]) -> bool
    ensures { result ≡ list_all is_ascii_alphanumeric text.now }
{
    text.iter().all(|byte| byte.is_ascii_alphanumeric())
}
