//! The orders of precedence among statements that hold one address.
ghost use Rattle.std.specs.Prelude.{◌≡◌};
ghost use Rattle.std.specs.Cmp.{IsTotalOrder};
ghost use Rattle.std.specs.declared.cmp.Ordering.{Ordering};
ghost use Rattle.std.specs.Ordering.{nat_cmp, ordering_then};
ghost use Rattle.geo_addr.specs.Ranges.{Ends};
ghost use Rattle.geo_terms.specs.Precedence.{text_cmp};

use crate::statement::{Delegation, Entry, Override, Reference};
use geo_addr::{Block, Range, range_of};
use std::cmp::Ordering;

/// A statement about a range, with its order of precedence among its kind.
pub trait Statement {
    ghost range: { Self → Ends };

    ghost order: { Self → Self → Ordering };

    // what every statement of the kind keeps
    ghost kept: { Self → Type 0 };

    /// The addresses that the statement is about.
    fn range(&self) -> Range
        ensures range { result ≡ range self.now }
        ensures kept { kept self.now };

    /// How the statement stands to another one of its kind: the lesser one goes first.
    fn order(&self, other: &Self) -> Ordering
        ensures { result ≡ order self.now other.now };

    ghost total: { IsTotalOrder order };
}

impl Statement for Reference {
    ghost use Rattle.geo_addr.specs.Ranges.{IsRange};
    ghost use Rattle.geo_terms.specs.Precedence.{reference_cmp};
    ghost use Rattle.geo_terms.specs.TotalOrders.{reference_total};

    ghost range = { λ r. r.range };

    ghost order = { reference_cmp };

    ghost kept = { λ r. IsRange r.range };

    ghost total = { reference_total };

    fn range(&self) -> Range {
        let Range { first, last } = self.range;
        Range { first, last }
    }

    #[tactic(auto, unfolding(crate::specs::Precedence::reference_cmp))]
    fn order(&self, other: &Reference) -> Ordering {
        (self.range.size().cmp(&other.range.size()))
            .then(other.modified.cmp(&self.modified))
            .then(self.range.first.cmp(&other.range.first))
            .then_with(|| source_order(self, other))
    }
}

// The order of references by their texts, and by where they stand.
fn source_order(reference: &Reference, other: &Reference) -> Ordering
    ensures { result ≡ ordering_then (text_cmp reference.now.url other.now.url)
        (ordering_then (text_cmp reference.now.slot other.now.slot)
        (nat_cmp reference.now.line other.now.line)) }
{
    (reference.url.cmp(&other.url))
        .then_with(|| reference.slot.cmp(&other.slot))
        .then(reference.line.cmp(&other.line))
}

impl Statement for Delegation {
    ghost use Rattle.geo_terms.specs.DelegationForm.{IsDelegation};
    ghost use Rattle.geo_terms.specs.Precedence.{delegation_cmp};
    ghost use Rattle.geo_terms.specs.TotalOrders.{delegation_total};

    ghost range = { λ d. d.range };

    ghost order = { delegation_cmp };

    ghost kept = { IsDelegation };

    ghost total = { delegation_total };

    fn range(&self) -> Range {
        let Range { first, last } = self.range;
        Range { first, last }
    }

    #[tactic(auto, unfolding(crate::specs::Precedence::delegation_cmp))]
    fn order(&self, other: &Delegation) -> Ordering {
        (self.range.size().cmp(&other.range.size()))
            .then(self.range.first.cmp(&other.range.first))
            .then_with(|| self.place.country().cmp(other.place.country()))
            .then_with(|| self.slot.cmp(&other.slot))
            .then(self.line.cmp(&other.line))
    }
}

impl Statement for Override {
    ghost use Rattle.geo_addr.specs.Ranges.{IsRange};
    ghost use Rattle.geo_terms.specs.Precedence.{override_cmp};
    ghost use Rattle.geo_terms.specs.TotalOrders.{override_total};

    ghost range = { λ o. o.range };

    ghost order = { override_cmp };

    ghost kept = { λ o. IsRange o.range };

    ghost total = { override_total };

    fn range(&self) -> Range {
        let Range { first, last } = self.range;
        Range { first, last }
    }

    #[tactic(auto, unfolding(crate::specs::Precedence::override_cmp))]
    fn order(&self, other: &Override) -> Ordering {
        (self.range.size().cmp(&other.range.size())).then(self.range.first.cmp(&other.range.first))
    }
}

impl Statement for Entry {
    ghost use Rattle.geo_addr.specs.Ranges.{IsBlock, range_of_block};
    ghost use Rattle.geo_terms.specs.Precedence.{entry_cmp};
    ghost use Rattle.geo_terms.specs.TotalOrders.{entry_total};

    ghost range = { λ e. range_of_block e.block };

    ghost order = { entry_cmp };

    ghost kept = { λ e. IsBlock e.block };

    ghost total = { entry_total };

    fn range(&self) -> Range {
        let Block { first, len } = self.block;
        range_of(Block { first, len })
    }

    #[tactic(auto, unfolding(crate::specs::Precedence::entry_cmp))]
    fn order(&self, other: &Entry) -> Ordering {
        other.block.len.cmp(&self.block.len)
    }
}
