//! What the causes of a damaged file mean.
use crate::refused::said;
use crate::shown::grouped;
use file_lookup::LookupFault;
use geo_addr::Memory;
use mmdb_data::{DataCause, MOST_BYTES, MOST_LEVELS, MOST_VALUES};
use std::alloc::Global;

/// What was met in a file.
pub(crate) fn cause_words(alloc: Global, fault: LookupFault) -> Result<String, Memory> {
    let words = match fault {
        LookupFault::NoMarker => {
            "is no MaxMind DB file, or its end is cut off: no metadata marker stands in it"
        }
        LookupFault::Metadata => "has metadata that cannot be read, or that lack what is needed",
        LookupFault::Version => {
            "is not of version 2 of the MaxMind DB format, or holds IPv4 addresses alone"
        }
        LookupFault::TreeCut => {
            "is cut off: its search tree is longer than what stands before the metadata"
        }
        LookupFault::NotEnded => "is damaged: the address ends before its search tree does",
        LookupFault::OutOfSection => OUT,
        LookupFault::Value { cause, .. } => return value_words(alloc, cause),
        LookupFault::Memory => "could not be looked up in for want of memory",
    };
    said(alloc, words)
}

const OUT: &str = "is damaged: a record or a pointer leads out of the data section";

fn value_words(alloc: Global, cause: DataCause) -> Result<String, Memory> {
    let words = match cause {
        DataCause::Truncated => "is damaged: a value is cut off by the end of the data section",
        DataCause::Kind => "is damaged: a value is of no type that a data section has",
        DataCause::PointerToPointer => "is damaged: a pointer leads to a pointer",
        DataCause::OutOfSection => OUT,
        DataCause::Utf8 => "is damaged: a text in it is not UTF-8",
        DataCause::Key => "is damaged: a key of a map is no text",
        DataCause::Size => "is damaged: a value has a size that its type does not have",
        DataCause::Deep => {
            return Ok(format!(in alloc;
                "has a record that is nested more than {MOST_LEVELS} deep"
            )?);
        }
        DataCause::Many => {
            let most = grouped(alloc, u64::from(MOST_VALUES))?;
            return Ok(format!(in alloc; "has a record of more than {} values", most.as_str())?);
        }
        DataCause::Big => {
            let most = grouped(alloc, u64::from(MOST_BYTES))?;
            return Ok(format!(in alloc;
                "has a record whose texts and byte strings have more than {} bytes",
                most.as_str()
            )?);
        }
    };
    said(alloc, words)
}
