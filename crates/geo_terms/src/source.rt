//! Sources as they are read: what they state, and the notes on their lines.
use crate::note::LineNote;
use crate::statement::{Delegation, Entry, Override, Reference};
use geo_addr::{List, Memory, Text};
use std::marker::Model;
use thiserror::Error;

/// A registry dump, read: its references and its notes.
///
/// A literal owes that both lists are in line order, and that the references carry the slot.
#[derive(Debug, Drop)]
pub struct Dump {
    pub slot: Text,
    pub refs: List<Reference>,
    pub notes: List<LineNote>,
}

impl Model for Dump {
    ghost use Rattle.geo_terms.specs.SourceForm.{DumpParts, IsDump};

    ghost Value = { DumpParts };

    ghost view = { λ d. record { slot = d.slot; refs = d.refs; notes = d.notes } };

    ghost invariant = { λ d. IsDump (record { slot = d.slot; refs = d.refs; notes = d.notes }) };

    ghost inverse = { λ v. record { slot = v.slot; refs = v.refs; notes = v.notes } };
}

/// A feed, read: its entries and its notes.
///
/// A literal owes that both lists are in line order and share no line, and that the blocks of the
/// entries are distinct.
#[derive(Debug, Drop)]
pub struct Feed {
    pub url: Text,
    pub entries: List<Entry>,
    pub notes: List<LineNote>,
}

impl Model for Feed {
    ghost use Rattle.geo_terms.specs.SourceForm.{FeedParts, IsFeed};

    ghost Value = { FeedParts };

    ghost view = { λ f. record { url = f.url; entries = f.entries; notes = f.notes } };

    ghost invariant = { λ f.
        IsFeed (record { url = f.url; entries = f.entries; notes = f.notes }) };

    ghost inverse = { λ v. record { url = v.url; entries = v.entries; notes = v.notes } };
}

/// A statistics file, read: its delegations and its notes.
///
/// A literal owes that both lists are in line order, and that the delegations carry the slot.
#[derive(Debug, Drop)]
pub struct Stats {
    pub slot: Text,
    pub rows: List<Delegation>,
    pub notes: List<LineNote>,
}

impl Model for Stats {
    ghost use Rattle.geo_terms.specs.SourceForm.{StatsParts, IsStats};

    ghost Value = { StatsParts };

    ghost view = { λ s. record { slot = s.slot; rows = s.rows; notes = s.notes } };

    ghost invariant = { λ s. IsStats (record { slot = s.slot; rows = s.rows; notes = s.notes }) };

    ghost inverse = { λ v. record { slot = v.slot; rows = v.rows; notes = v.notes } };
}

/// The overrides, read: their rows and their notes.
///
/// A literal owes that both lists are in line order, and that the ranges of the rows are distinct.
#[derive(Debug, Drop)]
pub struct Overrides {
    pub rows: List<Override>,
    pub notes: List<LineNote>,
}

impl Model for Overrides {
    ghost use Rattle.geo_terms.specs.SourceForm.{OverridesParts, IsOverrides};

    ghost Value = { OverridesParts };

    ghost view = { λ o. record { rows = o.rows; notes = o.notes } };

    ghost invariant = { λ o. IsOverrides (record { rows = o.rows; notes = o.notes }) };

    ghost inverse = { λ v. record { rows = v.rows; notes = v.notes } };
}

/// Why a source is not read: it is past one of its limits, or memory ran out.
#[derive(Clone, Copy, Debug, PartialEq, Eq, Error)]
pub enum SourceFault {
    #[error("too many bytes")]
    TooLong = 1,
    #[error("too many statements")]
    TooMany = 2,
    #[error("out of memory")]
    Memory = 3,
}

impl From<Memory> for SourceFault {
    ghost use Rattle.std.specs.Prelude.{◌≡◌};
    ghost use Rattle.geo_terms.specs.declared.source.SourceFault.{SourceFault};

    ghost from_gives = { λ _ fault. fault ≡ SourceFault.Memory };

    fn from(_refused: Memory) -> SourceFault {
        SourceFault::Memory
    }
}
