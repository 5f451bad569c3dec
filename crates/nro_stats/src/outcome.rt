//! What a line says.
ghost use Rattle.std.specs.Prelude.{◌≡◌, IfOk};
ghost use Rattle.geo_addr.specs.AddressTexts.{is_six};
ghost use Rattle.nro_stats.specs.Fields.{fields};
ghost use Rattle.nro_stats.specs.Outcomes.{PlacesCountryAlone, judged, outcome, placed, placed_in};
ghost use Rattle.nro_stats.specs.Outcomes.{v4_range, v4_start, v6_range, v6_start};
ghost use Rattle.nro_stats.specs.Words.{held};

use crate::record::{Record, is_heading, is_heading_line, is_skipped};
use crate::resource::{Holding, Kind, holding_of, kind_of};
use geo_addr::{Block, Memory, Range, decimal, is_aligned, is_six, parse_addr, range_of};
use geo_terms::{Place, Rule, Texts, country_place};

/// What a line says: nothing, a rule that it breaks, or that a range is delegated to a country.
#[derive(Debug, Drop)]
pub(crate) enum LineOutcome {
    Silent,
    Broken(Rule),
    Delegated(Range, Place),
}

/// What a line says.
#[tactic(auto, unfolding(crate::specs::Outcomes::outcome))]
pub(crate) fn read_line(texts: &mut Texts, line: &[u8]) -> Result<LineOutcome, Memory>
    ensures outcome { IfOk result (λ found. found ≡ outcome line.now) }
    ensures alone { IfOk result PlacesCountryAlone }
{
    if is_skipped(line) {
        return Ok(LineOutcome::Silent);
    }
    match Record::of(line) {
        Some(found) if is_heading(&found) => Ok(LineOutcome::Silent),
        Some(found) => judged(texts, &found),
        None if is_heading_line(line) => Ok(LineOutcome::Silent),
        None => Ok(LineOutcome::Broken(Rule::S01)),
    }
}

// What a record says: the first rule that holds of it, else nothing, else a delegation.
#[tactic(auto, using(crate::proofs::WordLemmas::judged_by_words))]
fn judged(texts: &mut Texts, found: &Record) -> Result<LineOutcome, Memory>
    ensures outcome { IfOk result (λ said. said ≡ judged found.now.country.now found.now.kind.now
        found.now.start.now found.now.value.now found.now.status.now) }
    ensures alone { IfOk result PlacesCountryAlone }
{
    let Some(kind) = kind_of(found.kind) else {
        return Ok(LineOutcome::Broken(Rule::S02));
    };
    match holding_of(found.status) {
        Some(Holding::Held) => held(texts, kind, found),
        Some(Holding::Free) => Ok(LineOutcome::Silent),
        None => Ok(LineOutcome::Broken(Rule::S03)),
    }
}

// What a record of a resource that is held says.
fn held(texts: &mut Texts, kind: Kind, found: &Record) -> Result<LineOutcome, Memory>
    ensures outcome { IfOk result (λ said. said ≡ held kind found.now.country.now
        found.now.start.now found.now.value.now) }
    ensures alone { IfOk result PlacesCountryAlone }
{
    match kind {
        Kind::Systems => Ok(LineOutcome::Silent),
        Kind::V4 => placed_in(texts, v4_range(found.start, found.value), found.country),
        Kind::V6 => placed_in(texts, v6_range(found.start, found.value), found.country),
    }
}

// A delegation of the addresses that were read, where they are in form.
fn placed_in(
    texts: &mut Texts,
    range: Result<Range, Rule>,
    country: &[u8],
) -> Result<LineOutcome, Memory>
    ensures outcome { IfOk result (λ said. said ≡ placed_in range country.now) }
    ensures alone { IfOk result PlacesCountryAlone }
{
    match range {
        Ok(range) => placed(texts, range, country),
        Err(rule) => Ok(LineOutcome::Broken(rule)),
    }
}

// As many addresses from an IPv4 start as the value counts.
#[tactic(auto, unfolding(crate::specs::Outcomes::v4_range))]
fn v4_range(start: &[u8], value: &[u8]) -> Result<Range, Rule>
    ensures { result ≡ v4_range start.now value.now }
{
    let Some(first) = v4_start(start) else {
        return Err(Rule::S04);
    };
    let Some(count) = decimal(value, 1, 10) else {
        return Err(Rule::S07);
    };
    if count == 0 {
        return Err(Rule::S07);
    }
    if first.saturating_add(count) > 1 << 32 {
        return Err(Rule::S05);
    }
    Ok(Range {
        first,
        last: first + count - 1,
    })
}

// The block of an IPv6 start and a prefix length.
#[tactic(auto, unfolding(crate::specs::Outcomes::v6_range))]
fn v6_range(start: &[u8], value: &[u8]) -> Result<Range, Rule>
    ensures { result ≡ v6_range start.now value.now }
{
    let Some(first) = v6_start(start) else {
        return Err(Rule::S04);
    };
    let Some(len) = decimal(value, 1, 3) else {
        return Err(Rule::S07);
    };
    if len > 128 || !is_aligned(first, len as u8) {
        return Err(Rule::S07);
    }
    let range = range_of(Block {
        first,
        len: len as u8,
    });
    if range.is_v4() {
        return Err(Rule::S07);
    }
    Ok(range)
}

#[tactic(auto, unfolding(crate::specs::Outcomes::v4_start))]
fn v4_start(start: &[u8]) -> Option<u128>
    ensures { result ≡ v4_start start.now }
{
    if is_six(start) {
        return None;
    }
    match parse_addr(start) {
        Ok(at) => Some(at.0),
        Err(_) => None,
    }
}

#[tactic(auto, unfolding(crate::specs::Outcomes::v6_start))]
fn v6_start(start: &[u8]) -> Option<u128>
    ensures { result ≡ v6_start start.now }
{
    if !is_six(start) {
        return None;
    }
    match parse_addr(start) {
        Ok(at) => Some(at.0),
        Err(_) => None,
    }
}

// A delegation of a range to a country, where that is one.
#[tactic(auto, using(crate::proofs::CountryLemmas::country_alone))]
fn placed(texts: &mut Texts, range: Range, country: &[u8]) -> Result<LineOutcome, Memory>
    ensures outcome { IfOk result (λ said. said ≡ placed range country.now) }
    ensures alone { IfOk result PlacesCountryAlone }
{
    match country_place(texts, country)? {
        Some(place) => Ok(LineOutcome::Delegated(range, place)),
        None => Ok(LineOutcome::Broken(Rule::S06)),
    }
}
