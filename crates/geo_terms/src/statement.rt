//! Statements: references, entries, delegations and overrides.
use crate::place::{Place, Said};
use geo_addr::{Block, Range, Text};
use std::marker::Model;

/// A registry object that refers to a geofeed (RFC 9632).
#[derive(Debug, Drop, PartialEq, Eq)]
pub struct Reference {
    /// The dump that it stands in.
    pub slot: Text,
    /// The line of the reference.
    pub line: u64,
    /// The addresses of the object.
    pub range: Range,
    /// The digits of `last-modified` as a number, or 0.
    pub modified: u64,
    /// The URL, serialised.
    pub url: Text,
}

/// A line of a geofeed (RFC 8805).
#[derive(Debug, Drop, PartialEq, Eq)]
pub struct Entry {
    pub line: u64,
    pub block: Block,
    pub said: Said,
}

/// A record of a statistics file: these addresses are delegated to a country.
///
/// A literal owes that the place has a country and nothing else.
#[derive(Debug, Drop, PartialEq, Eq)]
pub struct Delegation {
    /// The statistics file that it stands in.
    pub slot: Text,
    pub line: u64,
    pub range: Range,
    /// A place that has a country alone.
    pub place: Place,
}

impl Model for Delegation {
    ghost use Rattle.geo_terms.specs.DelegationForm.{DelegationParts, IsCountryAlone};

    ghost Value = { DelegationParts };

    ghost view = { λ d. record { slot = d.slot; line = d.line; range = d.range; place = d.place } };

    ghost invariant = { λ d. IsCountryAlone d.place };

    ghost inverse = { λ v. record {
      slot = v.slot;
      line = v.line;
      range = v.range;
      place = v.place;
    } };
}

/// A row of the overrides: what it says stands above all other sources.
#[derive(Debug, Drop, PartialEq, Eq)]
pub struct Override {
    pub line: u64,
    pub range: Range,
    /// The place that is set, or nothing where the row says `void`.
    pub said: Said,
}
