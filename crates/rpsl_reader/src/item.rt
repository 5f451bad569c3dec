//! What a dump says, as it is handed out.
use geo_addr::{Bytes, List, Text};
use geo_terms::Rule;

/// An attribute of an object: a name, and all that its lines say.
#[derive(Debug, Drop, PartialEq, Eq)]
pub struct Attribute {
    /// In lower case.
    pub name: Text,
    /// Without comments, and with one space between what its lines say.
    pub value: Bytes,
    /// The line that it begins on.
    pub line: u64,
}

/// An object of a dump: its attributes in order. The first one names its class.
#[derive(Debug, Drop, PartialEq, Eq)]
pub struct Object {
    /// The line of the first attribute.
    pub line: u64,
    pub parts: List<Attribute>,
}

/// What a dump says between two lines that end an object.
#[derive(Debug, Drop, PartialEq, Eq)]
pub enum Item {
    /// An object.
    Whole(Object),
    /// A line that was passed over (`P02`), or the first line of an
    /// object that is too long (`P01`).
    Passed { line: u64, rule: Rule },
}
