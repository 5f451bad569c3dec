//! What becomes of a line of a feed.
use geo_addr::Text;
use geo_terms::Rule;

/// What becomes of a line of a feed. A reference is named by its dump's slot and its line there.
#[derive(Debug, Drop)]
pub enum Ruling {
    /// The entry speaks somewhere: this is the speaker at the lowest such address.
    Speaks { slot: Text, object: u64 },
    /// The entry speaks nowhere, though this reference covers it.
    Shadowed { slot: Text, object: u64 },
    /// No reference to the feed covers the entry.
    Uncovered,
    /// The line is noted, by this rule.
    Refused(Rule),
}

/// A line of a feed that is an entry or is noted, and what becomes of it.
#[derive(Debug, Drop)]
pub struct Verdict {
    pub line: u64,
    pub ruling: Ruling,
}
