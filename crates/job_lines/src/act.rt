//! What a line of a job does.
use geo_addr::Text;
use geo_terms::Origin as Gone;

/// What a line of a job does.
#[derive(Debug, Drop, PartialEq, Eq)]
pub enum Act {
    /// Sets the dump in this slot to what this file holds.
    Rpsl { slot: Text, file: Text },
    /// Sets the statistics file in this slot.
    Stats { slot: Text, file: Text },
    /// Sets the feed of this URL, which is the serialised text of an https URL.
    Feed { url: Text, file: Text },
    /// Sets the overrides.
    Overrides { file: Text },
    /// Drops a source.
    Drop(Gone),
    /// Writes the MaxMind DB file.
    Emit { file: Text },
    /// Prints the notes on all sources.
    Report,
    /// Keeps the sources, as they are, under this name.
    Mark { name: Text },
    /// Takes the sources that were kept under this name.
    Back { name: Text },
    /// Gives up the nodes that no file needs, and prints how many are left.
    Compact,
}
