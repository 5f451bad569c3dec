//! Laws over the definitions alone, which the crates above rest on.
ghost use Rattle.geo_terms.specs.Cuts.{ConstantBetweenCuts};
ghost use Rattle.geo_terms.specs.Orders.{FirstsAreFirst};
ghost use Rattle.geo_terms.specs.ReportOrder.{ReportsAreInOrder};
ghost use Rattle.geo_terms.specs.Numbers.{NumbersNamePlaces, NumbersStay, PlacesAreToldApart};

/// What the sources say of an address is constant between their cut points.
#[tactic(auto, using(crate::proofs::Constancy::constant_between_cuts))]
pub fn constant_between_cuts()
    ensures { ConstantBetweenCuts }
{}

/// Two places are the same where each of their four texts is.
#[tactic(auto, using(crate::proofs::NumberLemmas::places_are_told_apart))]
pub fn places_are_told_apart()
    ensures { PlacesAreToldApart }
{}

/// The number of a place leads back to the place.
#[tactic(auto, using(crate::proofs::NumberLemmas::numbers_name_places))]
pub fn numbers_name_places()
    ensures { NumbersNamePlaces }
{}

/// One more place changes no number that was given.
#[tactic(auto, using(crate::proofs::NumberLemmas::numbers_stay))]
pub fn numbers_stay()
    ensures { NumbersStay }
{}

/// In each order of precedence the first of a list is a member that no other one goes before.
#[tactic(auto, using(crate::proofs::FirstLemmas::firsts_are_first))]
pub fn firsts_are_first()
    ensures { FirstsAreFirst }
{}

/// Notes in the order of a report are the same notes, each as often, and ascend in it.
pub fn reports_are_in_order()
    ensures { ReportsAreInOrder }
{}
