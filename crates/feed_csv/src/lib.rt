//! Reads geofeeds (RFC 8805).
#![tactic(auto)]

mod outcome;
mod parts;
mod read;

pub use csv_lines::{KnownTails, OwnTail};
pub use parts::{FEED_PART, read_feed_by_parts};
pub use read::{LONGEST_FEED, MOST as MOST_ENTRIES, read_feed};
