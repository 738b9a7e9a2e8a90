// Laws of the definitions: each is the contract of a function that does nothing.
ghost use Rattle.gr_unit.specs.GreedyLaws.{GreedyHasAnOutcome};

/// Greedy strengthening of a clause by a list of clauses has an outcome; `gr_logic` has the law that
/// it has no two.
pub fn greedy_has_an_outcome()
    ensures { GreedyHasAnOutcome }
{}
