//! The laws of the fewest lines, as functions that do nothing: what each ensures is the law.
ghost use Rattle.publish_least.specs.Laws.{BestCostLeast, FewestLines};

/// The best leaves of a tree are those under which it needs the fewest lines; under every other
/// leaf it needs one line more.
pub fn best_leaves_cost_least()
    ensures { BestCostLeast }
{}

/// The lines that are chosen for a tree answer as it does,
/// and no list of lines with these answers is shorter.
pub fn fewest_lines()
    ensures { FewestLines }
{}
