//! The reasons of a record.
use geo_terms::{Delegation, Entry, Override, Place, Reference};

/// Why an address has its record: each part by its own rule, also where an override decides.
#[derive(Clone, Copy, Debug)]
pub struct Why<'a> {
    /// The first override.
    pub over: Option<&'a Override>,
    /// The first reference.
    pub speaker: Option<&'a Reference>,
    /// The entry of the speaker's feed that speaks.
    pub entry: Option<&'a Entry>,
    /// The first delegation.
    pub delegation: Option<&'a Delegation>,
    /// The record.
    pub place: Option<&'a Place>,
}
