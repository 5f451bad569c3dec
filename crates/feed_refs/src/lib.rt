//! Finds the geofeed references of a registry dump (RFC 9632).
#![tactic(auto)]

mod dump;
mod feed_url;
mod found;
mod kinds;
pub mod laws;
mod limits;
mod modified;
mod reference;
mod urls;

pub use dump::DumpReader;
pub use feed_url::{UrlRead, read_url};
pub use limits::{LONGEST_DUMP, MOST as MOST_REFERENCES};
pub use reference::{FoundRef, What, reference_of};
