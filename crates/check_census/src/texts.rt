//! What is printed of verdicts and of counts.
ghost use Rattle.std.specs.Prelude.{◌≡◌, IfOk, flat_map, string_bytes};
ghost use Rattle.check_census.specs.Texts.{count_line, count_lines, country_word, ruling_words};
ghost use Rattle.check_census.specs.Texts.{verdict_line, verdict_lines};

use crate::count::Count;
use crate::verdict::{Ruling, Verdict};
use geo_addr::{Memory, Text};
use std::alloc::Global;

/// A line for each verdict, as `LINE speaks SLOT OBJECT`, `LINE shadowed SLOT OBJECT`,
/// `LINE uncovered` or `LINE refused CODE`, and `lines N`.
#[tactic(auto, unfolding(crate::specs::Texts::verdict_lines))]
pub fn verdict_text(alloc: Global, verdicts: &[Verdict]) -> Result<Text, Memory>
    ensures { IfOk result (λ text. text ≡ verdict_lines verdicts.now) }
{
    let lines = lines_of_verdicts(alloc, verdicts)?;
    let count = verdicts.len();
    let text = format!(in alloc; "{lines}lines {count}\n")?;
    let text = Text::from_string(text)?;
    Ok(text)
}

fn lines_of_verdicts(alloc: Global, verdicts: &[Verdict]) -> Result<String, Memory>
    ensures { IfOk result (λ lines. string_bytes lines ≡ flat_map verdict_line verdicts.now) }
{
    let mut lines = String::new(alloc);
    for verdict in verdicts {
        let line = line_of_verdict(alloc, verdict)?;
        lines.push_str(line.as_str())?;
    }
    Ok(lines)
}

#[tactic(auto, unfolding(crate::specs::Texts::verdict_line))]
fn line_of_verdict(alloc: Global, verdict: &Verdict) -> Result<String, Memory>
    ensures { IfOk result (λ text. string_bytes text ≡ verdict_line verdict.now) }
{
    let line = verdict.line;
    let words = ruling_words(alloc, &verdict.ruling)?;
    let text = format!(in alloc; "{line} {words}\n")?;
    Ok(text)
}

#[tactic(auto, unfolding(crate::specs::Texts::ruling_words))]
fn ruling_words(alloc: Global, ruling: &Ruling) -> Result<String, Memory>
    ensures { IfOk result (λ text. string_bytes text ≡ ruling_words ruling.now) }
{
    let words = match ruling {
        Ruling::Speaks { slot, object } => {
            let slot = slot.as_str();
            format!(in alloc; "speaks {slot} {object}")?
        }
        Ruling::Shadowed { slot, object } => {
            let slot = slot.as_str();
            format!(in alloc; "shadowed {slot} {object}")?
        }
        Ruling::Uncovered => String::from_str(alloc, "uncovered")?,
        Ruling::Refused(rule) => {
            let code = rule.code();
            format!(in alloc; "refused {code}")?
        }
    };
    Ok(words)
}

/// A line for each country, as `COUNTRY V4 V6`, with `-` for places without one, and `countries N`.
#[tactic(auto, unfolding(crate::specs::Texts::count_lines))]
pub fn census_text(alloc: Global, counts: &[Count]) -> Result<Text, Memory>
    ensures { IfOk result (λ text. text ≡ count_lines counts.now) }
{
    let lines = lines_of_counts(alloc, counts)?;
    let count = counts.len();
    let text = format!(in alloc; "{lines}countries {count}\n")?;
    let text = Text::from_string(text)?;
    Ok(text)
}

fn lines_of_counts(alloc: Global, counts: &[Count]) -> Result<String, Memory>
    ensures { IfOk result (λ lines. string_bytes lines ≡ flat_map count_line counts.now) }
{
    let mut lines = String::new(alloc);
    for count in counts {
        let line = line_of_count(alloc, count)?;
        lines.push_str(line.as_str())?;
    }
    Ok(lines)
}

#[tactic(auto, unfolding(crate::specs::Texts::count_line))]
fn line_of_count(alloc: Global, count: &Count) -> Result<String, Memory>
    ensures { IfOk result (λ text. string_bytes text ≡ count_line count.now) }
{
    let country = country_word(count.country.as_str());
    let v4 = count.v4;
    let v6 = count.v6;
    let text = format!(in alloc; "{country} {v4} {v6}\n")?;
    Ok(text)
}

fn country_word(country: &str) -> &str
    ensures { result.now ≡ country_word country.now }
{
    if country.is_empty() { "-" } else { country }
}
