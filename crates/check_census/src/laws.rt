//! Laws over the definitions, as functions that do nothing: what each ensures is the law.
ghost use Rattle.check_census.specs.Laws.{EqualCounts};

/// Where each address has the same country, the counts are the same.
#[tactic(auto, using(crate::proofs::CensusLemmas::equal_counts))]
pub fn equal_countries_equal_counts()
    ensures { EqualCounts }
{}
