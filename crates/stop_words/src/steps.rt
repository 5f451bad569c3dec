//! Steps that could not be done with what there is.
use crate::files::name_in;
use crate::shown::{grouped, quoted};
use feed_csv::{LONGEST_FEED, MOST_ENTRIES};
use feed_refs::{LONGEST_DUMP, MOST_REFERENCES};
use file_lookup::LONGEST_FILE;
use geo_addr::Memory;
use job_run::{ActKind, Journal};
use nro_stats::{LONGEST_STATS, MOST_DELEGATIONS};
use override_rows::{LONGEST_OVERRIDES, MOST_OVERRIDES};
use std::alloc::Global;

/// A source that was to be dropped and is not set.
pub(crate) fn gone_words(alloc: Global, journal: &Journal) -> Result<String, Memory> {
    let what = match kind_of(journal) {
        Some(ActKind::DropRpsl) => "no dump is set in the slot",
        Some(ActKind::DropStats) => "no statistics are set in the slot",
        Some(ActKind::DropFeed) => "no feed is set for the URL",
        _ => return Ok(String::from_str(alloc, "no overrides are set at this line")?),
    };
    let name = quoted(alloc, name_in(journal))?;
    Ok(format!(in alloc; "{what} {} at this line", name.as_str())?)
}

/// A mark that was to be gone back to and is not there.
pub(crate) fn unmarked_words(alloc: Global, journal: &Journal) -> Result<String, Memory> {
    let name = quoted(alloc, name_in(journal))?;
    Ok(format!(in alloc; "no line before this one makes the mark {}", name.as_str())?)
}

/// A file that is over its bytes.
pub(crate) fn long_words(alloc: Global, journal: &Journal) -> Result<String, Memory> {
    let most = grouped(alloc, most_bytes(journal))?;
    let name = quoted(alloc, name_in(journal))?;
    Ok(format!(in alloc;
        "the file {} has more than {} bytes",
        name.as_str(),
        most.as_str()
    )?)
}

// The limit of bytes of what was read: for a step, or by a command that does no job.
fn most_bytes(journal: &Journal) -> u64 {
    match kind_of(journal) {
        Some(ActKind::Rpsl) => LONGEST_DUMP as u64,
        Some(ActKind::Stats) => LONGEST_STATS as u64,
        Some(ActKind::Feed) => LONGEST_FEED as u64,
        Some(_) => LONGEST_OVERRIDES as u64,
        None => LONGEST_FILE,
    }
}

/// A file that is over its statements.
pub(crate) fn many_words(alloc: Global, journal: &Journal) -> Result<String, Memory> {
    let (most, what) = match kind_of(journal) {
        Some(ActKind::Rpsl) => (MOST_REFERENCES, "references"),
        Some(ActKind::Stats) => (MOST_DELEGATIONS, "delegations"),
        Some(ActKind::Feed) => (MOST_ENTRIES, "prefixes"),
        _ => (MOST_OVERRIDES, "overrides"),
    };
    let most = grouped(alloc, most as u64)?;
    let name = quoted(alloc, name_in(journal))?;
    Ok(format!(in alloc;
        "the file {} has more than {} {what}",
        name.as_str(),
        most.as_str()
    )?)
}

/// What is too large for the format.
pub(crate) fn large_words(journal: &Journal) -> &'static str {
    match kind_of(journal) {
        Some(_) => {
            "the file is too large for its format: \
nodes, 16 and the data section together stay below 2^32"
        }
        None => {
            "the sources are too large: nodes, 16 and the data section together stay below 2^32"
        }
    }
}

fn kind_of(journal: &Journal) -> Option<ActKind> {
    let step = journal.step?;
    Some(step.kind)
}
