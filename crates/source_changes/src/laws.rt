//! The laws of changes, over the definitions alone.
ghost use Rattle.source_changes.specs.Laws.{GroundsHoldTheSame, KeptByAll, KeptByOneMore};
ghost use Rattle.source_changes.specs.Laws.{LinesDoNotCount, OneChange, OrderDoesNotMatter};
ghost use Rattle.source_changes.specs.Laws.{SourcesStay};

/// What is said of an address changes by a call only where the call touches the address.
pub fn one_change()
    ensures { OneChange }
{}

/// What sources keep, they keep after a call.
pub fn sources_stay()
    ensures { SourcesStay }
{}

/// Off all that was touched so far, one more call changes nothing either.
pub fn kept_by_one_more()
    ensures { KeptByOneMore }
{}

/// Off all that a list of calls touched, none of them changed anything.
pub fn kept_by_all()
    ensures { KeptByAll }
{}

/// The order of touched grounds does not matter.
pub fn order_does_not_matter()
    ensures { OrderDoesNotMatter }
{}

/// Statements are compared by everything but their lines.
#[tactic(auto, using(crate::proofs::Statements::lines_do_not_count))]
pub fn lines_do_not_count()
    ensures { LinesDoNotCount }
{}

/// A ground holds the addresses that its range holds.
#[tactic(auto, using(crate::proofs::Grounds::grounds_hold_the_same))]
pub fn grounds_hold_the_same()
    ensures { GroundsHoldTheSame }
{}
