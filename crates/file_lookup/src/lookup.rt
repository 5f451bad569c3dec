//! What a file says of an address.
ghost use Rattle.std.specs.Prelude.{◌≡◌, ◌++◌, ◌∷◌, [], IfOk, codes, decimal, Option, option_map};
ghost use Rattle.geo_addr.specs.Bits.{bits_of};
ghost use Rattle.mmdb_data.specs.View.{value_tree};
ghost use Rattle.mmdb_data.specs.Reading.{reads};
ghost use Rattle.mmdb_file.specs.Walk.{value_at as value_behind, value_read, offset_at};
ghost use Rattle.json_values.specs.Json.{json};
ghost use Rattle.file_lookup.specs.Lookup.{answer, answer_of, answer_text, cause_name, file_line};
ghost use Rattle.file_lookup.specs.Lookup.{Gives, open_fault};

use geo_addr::{Addr, Memory, Text};
use json_values::json_text;
use mmdb_data::{DataCause, DataFault, Value, decode};
use mmdb_file::{Mmdb, OpenFault, WalkFault};
use std::alloc::Global;
use thiserror::Error;

/// The most bytes of a file that is looked up in.
pub const LONGEST_FILE: u64 = 1_073_741_824;

/// Why a file gives no answer for an address.
#[derive(Clone, Copy, Debug, PartialEq, Eq, Error)]
pub enum LookupFault {
    #[error("no metadata marker")]
    NoMarker,
    #[error("the metadata is not readable or not complete")]
    Metadata,
    #[error("not version 2 of the format with addresses of 128 bits")]
    Version,
    #[error("the tree does not fit before the metadata")]
    TreeCut,
    #[error("the address's bits end at a node")]
    NotEnded,
    #[error("a record leads out of the data section")]
    OutOfSection,
    /// The value at the offset `at` of the data section cannot be read.
    #[error("offset {at} of the data section: {cause}")]
    Value { at: u64, cause: DataCause },
    #[error("out of memory")]
    Memory,
}

/// What is printed of an address in a file: its record as JSON, or `none`, and a line feed.
///
/// The file is walked by the format's rules (MaxMind DB 2.0), whoever wrote it. A fault is one that
/// stands in the way of this address; what is wrong elsewhere in the file is not seen.
#[tactic(auto, using(crate::proofs::LookupLemmas::answer_by_parts))]
pub fn lookup_text(alloc: Global, bytes: &[u8], at: Addr) -> Result<Text, LookupFault>
    ensures { Gives result (answer bytes.now at.0) }
{
    match Mmdb::adopt(alloc, bytes) {
        Ok(file) => found_text(alloc, &file, at),
        Err(fault) => Err(open_fault(fault)),
    }
}

fn found_text(alloc: Global, file: &Mmdb<'_>, at: Addr) -> Result<Text, LookupFault>
    ensures { Gives result
        (answer_of (value_behind file.now (offset_at file.now (bits_of 128 at.0)))) }
{
    match file.find(at) {
        Ok(Some(offset)) => value_text(alloc, file.section(), offset),
        Ok(None) => no_record(alloc),
        Err(WalkFault::NotEnded) => Err(LookupFault::NotEnded),
        Err(WalkFault::OutOfSection) => Err(LookupFault::OutOfSection),
    }
}

/// The text of the value at this offset of the data section.
fn value_text(alloc: Global, section: &[u8], offset: u64) -> Result<Text, LookupFault>
    ensures { Gives result (answer_of (value_read (reads section.now offset))) }
{
    match decode(alloc, section, offset) {
        Ok(value) => record_text(alloc, &value),
        Err(DataFault::Bad { at, cause }) => Err(LookupFault::Value { at, cause }),
        Err(DataFault::Memory) => Err(LookupFault::Memory),
    }
}

fn record_text(alloc: Global, value: &Value) -> Result<Text, LookupFault>
    ensures { Gives result (Ok (answer_text (Some (value_tree value.now)))) }
{
    match json_line(alloc, value) {
        Ok(text) => Ok(text),
        Err(_) => Err(LookupFault::Memory),
    }
}

fn json_line(alloc: Global, value: &Value) -> Result<Text, Memory>
    ensures { IfOk result (λ text. text ≡ answer_text (Some (value_tree value.now))) }
{
    let json = json_text(alloc, value)?;
    let line = format!(in alloc; "{}\n", json.as_str())?;
    let line = Text::from_string(line)?;
    Ok(line)
}

fn no_record(alloc: Global) -> Result<Text, LookupFault>
    ensures { Gives result (Ok (answer_text None)) }
{
    match Text::of(alloc, "none\n") {
        Ok(text) => Ok(text),
        Err(_) => Err(LookupFault::Memory),
    }
}

fn open_fault(fault: OpenFault) -> LookupFault
    ensures { result ≡ open_fault fault }
{
    match fault {
        OpenFault::NoMarker => LookupFault::NoMarker,
        OpenFault::Metadata => LookupFault::Metadata,
        OpenFault::Version => LookupFault::Version,
        OpenFault::TreeCut => LookupFault::TreeCut,
        OpenFault::Memory => LookupFault::Memory,
    }
}

/// The line that a lookup prints where the file is damaged on the way to the address.
#[tactic(auto, unfolding(crate::specs::Lookup::file_line))]
pub fn file_line(alloc: Global, fault: LookupFault) -> Result<Text, Memory>
    ensures { IfOk result (λ text. text ≡ file_line fault) }
{
    match fault {
        LookupFault::NoMarker => Text::of(alloc, "stop file NoMarker\n"),
        LookupFault::Metadata => Text::of(alloc, "stop file Metadata\n"),
        LookupFault::Version => Text::of(alloc, "stop file Version\n"),
        LookupFault::TreeCut => Text::of(alloc, "stop file TreeCut\n"),
        LookupFault::NotEnded => Text::of(alloc, "stop file NotEnded\n"),
        LookupFault::OutOfSection => Text::of(alloc, "stop file OutOfSection\n"),
        LookupFault::Value { at, cause } => value_line(alloc, at, cause),
        LookupFault::Memory => Text::of(alloc, ""),
    }
}

fn value_line(alloc: Global, at: u64, cause: DataCause) -> Result<Text, Memory>
    ensures { IfOk result (λ text. text
        ≡ codes "stop file " ++ (cause_name cause ++ (codes " " ++ (decimal at ++ codes "\n")))) }
{
    let name = cause_name(cause);
    let text = format!(in alloc; "stop file {name} {at}\n")?;
    let text = Text::from_string(text)?;
    Ok(text)
}

/// A cause as it is printed.
fn cause_name(cause: DataCause) -> &'static str
    ensures { result.now ≡ cause_name cause }
{
    match cause {
        DataCause::Truncated => "Truncated",
        DataCause::Kind => "Kind",
        DataCause::PointerToPointer => "PointerToPointer",
        DataCause::OutOfSection => "OutOfSection",
        DataCause::Utf8 => "Utf8",
        DataCause::Key => "Key",
        DataCause::Deep => "Deep",
        DataCause::Many => "Many",
        DataCause::Size => "Size",
        DataCause::Big => "Big",
    }
}
