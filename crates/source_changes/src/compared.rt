//! Statements of one kind, compared by all that they have but their lines.
ghost use Rattle.std.specs.Prelude.{◌≡◌, Bool};
ghost use Rattle.std.specs.Cmp.{IsTotalOrder};
ghost use Rattle.std.specs.declared.cmp.Ordering.{Ordering};
ghost use Rattle.source_changes.specs.Sorting.{DecidesSame, said_cmp};

use geo_terms::{Delegation, Entry, Override, Reference, Said, Statement};
use std::cmp::Ordering;

/// A statement that another one of its kind can be the same as, whatever their lines.
pub trait Compared: Statement {
    ghost same: { Self → Self → Bool };

    // the order of all that a statement has but its range and its line
    ghost rest: { Self → Self → Ordering };

    /// How the statement stands to another one, their ranges and lines aside.
    fn compare_rest(&self, other: &Self) -> Ordering
        ensures { result ≡ rest self.now other.now };

    ghost rest_total: { IsTotalOrder rest };

    ghost decides: { DecidesSame Self.range same rest };
}

impl Compared for Reference {
    ghost use Rattle.source_changes.specs.SameStatement.{same_reference};
    ghost use Rattle.source_changes.specs.Sorting.{reference_rest, reference_rest_total};
    ghost use Rattle.source_changes.specs.Sorting.{reference_decides};

    ghost same = { same_reference };

    ghost rest = { reference_rest };

    ghost rest_total = { reference_rest_total };

    ghost decides = { reference_decides };

    #[tactic(auto, unfolding(crate::specs::Sorting::reference_rest))]
    fn compare_rest(&self, other: &Reference) -> Ordering {
        (self.modified.cmp(&other.modified))
            .then_with(|| self.url.cmp(&other.url))
            .then_with(|| self.slot.cmp(&other.slot))
    }
}

impl Compared for Entry {
    ghost use Rattle.source_changes.specs.SameStatement.{same_entry};
    ghost use Rattle.source_changes.specs.Sorting.{entry_rest, entry_rest_total, entry_decides};

    ghost same = { same_entry };

    ghost rest = { entry_rest };

    ghost rest_total = { entry_rest_total };

    ghost decides = { entry_decides };

    #[tactic(auto, unfolding(crate::specs::Sorting::entry_rest))]
    fn compare_rest(&self, other: &Entry) -> Ordering {
        (self.block.len.cmp(&other.block.len)).then_with(|| compare_said(&self.said, &other.said))
    }
}

impl Compared for Delegation {
    ghost use Rattle.source_changes.specs.SameStatement.{same_delegation};
    ghost use Rattle.source_changes.specs.Sorting.{delegation_rest, delegation_rest_total};
    ghost use Rattle.source_changes.specs.Sorting.{delegation_decides};

    ghost same = { same_delegation };

    ghost rest = { delegation_rest };

    ghost rest_total = { delegation_rest_total };

    ghost decides = { delegation_decides };

    #[tactic(auto, unfolding(crate::specs::Sorting::delegation_rest))]
    fn compare_rest(&self, other: &Delegation) -> Ordering {
        (self.place.cmp(&other.place)).then_with(|| self.slot.cmp(&other.slot))
    }
}

impl Compared for Override {
    ghost use Rattle.source_changes.specs.SameStatement.{same_override};
    ghost use Rattle.source_changes.specs.Sorting.{override_rest, override_rest_total};
    ghost use Rattle.source_changes.specs.Sorting.{override_decides};

    ghost same = { same_override };

    ghost rest = { override_rest };

    ghost rest_total = { override_rest_total };

    ghost decides = { override_decides };

    #[tactic(auto, unfolding(crate::specs::Sorting::override_rest))]
    fn compare_rest(&self, other: &Override) -> Ordering {
        compare_said(&self.said, &other.said)
    }
}

fn compare_said(x: &Said, y: &Said) -> Ordering
    ensures { result ≡ said_cmp x.now y.now }
{
    match (x, y) {
        (Said::Nothing, Said::Nothing) => Ordering::Equal,
        (Said::Nothing, Said::At(_)) => Ordering::Less,
        (Said::At(_), Said::Nothing) => Ordering::Greater,
        (Said::At(x), Said::At(y)) => x.cmp(y),
    }
}
