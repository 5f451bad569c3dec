//! What a line says by itself.
ghost use Rattle.std.specs.Prelude.{◌≡◌, ◌++◌, ℕ, [], List, Some, IfOk, IfSome, OnOk};
ghost use Rattle.geo_addr.specs.Ranges.{Prefix};
ghost use Rattle.geo_terms.specs.PlaceForm.{PlaceParts};
ghost use Rattle.geo_terms.specs.declared.place.Said.{Said};
ghost use Rattle.csv_lines.specs.Clean.{AreTexts};
ghost use Rattle.csv_lines.specs.Rests.{CanRead, StandsIf, handed, said_in};
ghost use Rattle.csv_lines.specs.Tails.{IsCut, SaysBare};
ghost use Rattle.feed_csv.specs.Outcomes.{accepted_at, block_rule, outcome, place_rule};
ghost use Rattle.feed_csv.specs.Outcomes.{row_outcome};
ghost use Rattle.feed_csv.specs.declared.outcome.LineOutcome.{LineOutcome};

use csv::{ByteRecord, Reader};
use csv_lines::{Content, LineCut, Row, Tails, bare_row, column, cut_line, next_row, said_in};
use geo_addr::{Block, BlockFault, Memory, parse_block};
use geo_terms::{PlaceFault, Rule, Said, Texts};

/// What a line says: nothing, a rule that it breaks, or what is said of a block.
#[derive(Debug, Drop)]
pub(crate) enum LineOutcome {
    Silent,
    Broken(Rule),
    Accepted(Block, Said),
}

/// What the next line of the reader's file says.
#[tactic(auto, unfolding(crate::specs::Outcomes::outcome))]
pub(crate) fn read_line<'a>(
    reader: &mut Option<Reader<&[u8]>>,
    line: &'a [u8],
    row: &mut ByteRecord,
    texts: &mut Texts,
    tails: &mut Tails<'a>,
) -> Result<LineOutcome, Memory>
    requires { CanRead (λ s. Some s.now) reader.old line.now }
    ensures outcome { IfOk result (λ found. found ≡ outcome line.now) }
    ensures stands { (left : List ℕ)
        → StandsIf (λ s. Some s.now) reader.old (handed line.now ++ left)
        → OnOk result (StandsIf (λ s. Some s.now) reader.new left) }
{
    let cut = cut_line(line);
    if let Some(known) = known_outcome(&cut, tails)? {
        return Ok(known);
    }
    if let Some(bare) = bare_row(line) {
        let found = row_outcome(texts, &bare)?;
        keep_tail(&cut, &found, tails)?;
        return Ok(found);
    }
    match next_row(reader, line, row)? {
        Content::Blank => Ok(LineOutcome::Silent),
        Content::NotText => Ok(LineOutcome::Broken(Rule::F01)),
        Content::NoFields => Ok(LineOutcome::Broken(Rule::F02)),
        Content::Fields => row_outcome(texts, row),
    }
}

// What a line says whose tail came before, and which hands nothing over.
fn known_outcome<'a>(
    cut: &Option<LineCut<'a>>,
    tails: &Tails<'a>,
) -> Result<Option<LineOutcome>, Memory>
    ensures { (line : List ℕ) → IfSome cut.now (λ c. IsCut line c.first c.tail) → IfOk result
        (λ found. IfSome found (λ said. (said ≡ outcome line) × (handed line ≡ []))) }
{
    match cut {
        Some(cut) => cut_outcome(cut, tails),
        None => Ok(None),
    }
}

fn cut_outcome<'a>(cut: &LineCut<'a>, tails: &Tails<'a>) -> Result<Option<LineOutcome>, Memory>
    ensures { (line : List ℕ) → IsCut line cut.now.first cut.now.tail → IfOk result
        (λ found. IfSome found (λ said. (said ≡ outcome line) × (handed line ≡ []))) }
{
    let Some(place) = tails.known(cut) else {
        return Ok(None);
    };
    let Ok(block) = parse_block(cut.first()) else {
        return Ok(None);
    };
    let place = place.copied()?;
    Ok(Some(LineOutcome::Accepted(block, Said::At(place))))
}

// Holds the tail of a line that says a place.
fn keep_tail<'a>(
    cut: &Option<LineCut<'a>>,
    found: &LineOutcome,
    tails: &mut Tails<'a>,
) -> Result<(), Memory>
    requires { IfSome cut.now (λ c. (block : Prefix) (place : PlaceParts)
        → found.now ≡ LineOutcome.Accepted block (Said.At place)
        → (line : List ℕ) × IsCut line c.first c.tail × SaysBare line place) }
{
    let Some(cut) = cut else {
        return Ok(());
    };
    let LineOutcome::Accepted(_, said) = found else {
        return Ok(());
    };
    let Said::At(place) = said else {
        return Ok(());
    };
    tails.keep(cut, place)
}

// What fields say: the first rule that they break, else an entry.
fn row_outcome<R: Row>(texts: &mut Texts, row: &R) -> Result<LineOutcome, Memory>
    requires { AreTexts (R.fields row.now) }
    ensures { IfOk result (λ found. found ≡ row_outcome (R.fields row.now)) }
{
    let prefix = column(row, 0);
    if prefix.is_empty() {
        return Ok(LineOutcome::Broken(Rule::F03));
    }
    match parse_block(prefix) {
        Ok(block) => accepted_at(texts, block, row),
        Err(fault) => Ok(LineOutcome::Broken(block_rule(fault))),
    }
}

fn accepted_at<R: Row>(texts: &mut Texts, block: Block, row: &R) -> Result<LineOutcome, Memory>
    requires { AreTexts (R.fields row.now) }
    ensures { IfOk result (λ found. found ≡ accepted_at block (said_in 1 (R.fields row.now))) }
{
    match said_in(texts, row, 1)? {
        Ok(said) => Ok(LineOutcome::Accepted(block, said)),
        Err(fault) => Ok(LineOutcome::Broken(place_rule(fault))),
    }
}

fn block_rule(fault: BlockFault) -> Rule
    ensures { result ≡ block_rule fault }
{
    match fault {
        BlockFault::Address => Rule::F04,
        BlockFault::Length => Rule::F04,
        BlockFault::HostBits => Rule::F04,
        BlockFault::InV4Space => Rule::F11,
        BlockFault::Reversed => Rule::F04,
    }
}

fn place_rule(fault: PlaceFault) -> Rule
    ensures { result ≡ place_rule fault }
{
    match fault {
        PlaceFault::Country => Rule::F05,
        PlaceFault::Region => Rule::F06,
        PlaceFault::TooLong => Rule::F10,
        PlaceFault::Memory => Rule::F10,
    }
}
