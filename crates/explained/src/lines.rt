//! The lines of an explanation, each with its line feed.
ghost use Rattle.std.specs.Prelude.{◌≡◌, ◌+◌, ◌++◌, IfOk, codes, flat_map, string_bytes};
ghost use Rattle.std.specs.Option.{option_copied};
ghost use Rattle.geo_addr.specs.Printing.{block_text};
ghost use Rattle.split_core.specs.Walk.{blocks_of};
ghost use Rattle.mmdb_file.specs.PlaceValue.{place_value};
ghost use Rattle.json_values.specs.Json.{json};
ghost use Rattle.explained.specs.Explanation.{delegation_line, entry_line, entry_word};
ghost use Rattle.explained.specs.Explanation.{override_line, override_word, prefix_words};
ghost use Rattle.explained.specs.Explanation.{prefixes_line, record_line, speaker_line};

use geo_addr::{Memory, Range, Text, block_text, range_text};
use geo_terms::{Delegation, Entry, Override, Place, Reference, Said};
use json_values::json_text;
use mmdb_file::place_value;
use split_core::blocks;
use std::alloc::Global;

#[tactic(auto, unfolding(crate::specs::Explanation::override_line))]
pub(crate) fn override_line(alloc: Global, row: Option<&Override>) -> Result<String, Memory>
    ensures { IfOk result (λ text. string_bytes text ≡ override_line (option_copied row.entry)) }
{
    let Some(row) = row else {
        let text = String::from_str(alloc, "override none\n")?;
        return Ok(text);
    };
    let line = row.line;
    let range = range_text(alloc, row.range)?;
    let range = range.as_str();
    let word = override_word(&row.said);
    let text = format!(in alloc; "override {line} {range} {word}\n")?;
    Ok(text)
}

fn override_word(said: &Said) -> &'static str
    ensures { result.now ≡ override_word said.now }
{
    match said {
        Said::Nothing => "void",
        Said::At(_) => "set",
    }
}

#[tactic(auto, unfolding(crate::specs::Explanation::speaker_line))]
pub(crate) fn speaker_line(alloc: Global, reference: Option<&Reference>) -> Result<String, Memory>
    ensures { IfOk result
        (λ text. string_bytes text ≡ speaker_line (option_copied reference.entry)) }
{
    let Some(reference) = reference else {
        let text = String::from_str(alloc, "speaker none\n")?;
        return Ok(text);
    };
    let slot = reference.slot.as_str();
    let line = reference.line;
    let range = range_text(alloc, reference.range)?;
    let range = range.as_str();
    let url = reference.url.as_str();
    let text = format!(in alloc; "speaker {slot} {line} {range} {url}\n")?;
    Ok(text)
}

#[tactic(auto, unfolding(crate::specs::Explanation::entry_line))]
pub(crate) fn entry_line(alloc: Global, entry: Option<&Entry>) -> Result<String, Memory>
    ensures { IfOk result (λ text. string_bytes text ≡ entry_line (option_copied entry.entry)) }
{
    let Some(entry) = entry else {
        let text = String::from_str(alloc, "entry none\n")?;
        return Ok(text);
    };
    let line = entry.line;
    let block = block_text(alloc, entry.block)?;
    let block = block.as_str();
    let word = entry_word(&entry.said);
    let text = format!(in alloc; "entry {line} {block} {word}\n")?;
    Ok(text)
}

fn entry_word(said: &Said) -> &'static str
    ensures { result.now ≡ entry_word said.now }
{
    match said {
        Said::Nothing => "nothing",
        Said::At(_) => "at",
    }
}

#[tactic(auto, unfolding(crate::specs::Explanation::delegation_line))]
pub(crate) fn delegation_line(alloc: Global, row: Option<&Delegation>) -> Result<String, Memory>
    ensures { IfOk result (λ text. string_bytes text ≡ delegation_line (option_copied row.entry)) }
{
    let Some(row) = row else {
        let text = String::from_str(alloc, "delegation none\n")?;
        return Ok(text);
    };
    let slot = row.slot.as_str();
    let line = row.line;
    let range = range_text(alloc, row.range)?;
    let range = range.as_str();
    let country = row.place.country();
    let text = format!(in alloc; "delegation {slot} {line} {range} {country}\n")?;
    Ok(text)
}

#[tactic(auto, unfolding(crate::specs::Explanation::prefixes_line))]
pub(crate) fn prefixes_line(alloc: Global, row: Option<&Delegation>) -> Result<String, Memory>
    ensures { IfOk result (λ text. string_bytes text ≡ prefixes_line (option_copied row.entry)) }
{
    let Some(row) = row else {
        let text = String::from_str(alloc, "prefixes none\n")?;
        return Ok(text);
    };
    let words = prefix_words(alloc, row.range)?;
    let text = format!(in alloc; "prefixes{words}\n")?;
    Ok(text)
}

// The blocks of a range, a blank before each.
#[tactic(auto, unfolding(crate::specs::Explanation::prefix_words))]
fn prefix_words(alloc: Global, range: Range) -> Result<String, Memory>
    ensures { IfOk result (λ words. string_bytes words ≡ prefix_words range) }
{
    let mut words = String::new(alloc);
    for block in blocks(range) {
        let block = block_text(alloc, block)?;
        words.push(' ')?;
        words.push_str(block.as_str())?;
    }
    Ok(words)
}

#[tactic(auto, unfolding(crate::specs::Explanation::record_line))]
pub(crate) fn record_line(alloc: Global, place: Option<&Place>) -> Result<String, Memory>
    ensures { IfOk result (λ text. string_bytes text ≡ record_line (option_copied place.entry)) }
{
    let Some(place) = place else {
        let text = String::from_str(alloc, "record none\n")?;
        return Ok(text);
    };
    let json = place_json(alloc, place)?;
    let json = json.as_str();
    let text = format!(in alloc; "record {json}\n")?;
    Ok(text)
}

// The JSON text of a place's value in the data section.
fn place_json(alloc: Global, place: &Place) -> Result<Text, Memory>
    ensures { IfOk result (λ text. text ≡ json (place_value place.now)) }
{
    let value = place_value(alloc, place)?;
    json_text(alloc, &value)
}
