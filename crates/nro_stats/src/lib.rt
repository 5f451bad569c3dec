//! Reads statistics files (NRO extended allocation and assignment report).
#![tactic(auto)]

mod outcome;
mod parts;
mod read;
mod reader;
mod record;
mod resource;

pub use read::{LONGEST_STATS, MOST as MOST_DELEGATIONS, read_stats};
pub use reader::StatsReader;
