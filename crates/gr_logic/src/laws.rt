// Laws of the definitions: each is the contract of a function that does nothing.
ghost use Rattle.gr_logic.specs.ClosureLaws.{UnitStepsReadSets, UnitStepsReadHints, ClosureGrows, GreedyIsUnique, GreedyIsWithin, NormalFormsAreNormal};
ghost use Rattle.gr_logic.specs.Laws.{UnitStepsAreSound, AdditionsAreImplied, AcceptedLogsRefute};

/// What unit steps along hints accept is implied by the clauses that they read.
pub fn unit_steps_are_sound()
    ensures { UnitStepsAreSound }
{}

/// Each clause that a log adds is implied by the formula, where no line is refused.
pub fn additions_are_implied()
    ensures { AdditionsAreImplied }
{}

/// No assignment satisfies a formula that has an accepted log.
pub fn accepted_logs_refute()
    ensures { AcceptedLogsRefute }
{}

/// Unit steps read each clause as the set of its literals.
pub fn unit_steps_read_sets()
    ensures { UnitStepsReadSets }
{}

/// Unit steps read the clauses that the hints name alone.
pub fn unit_steps_read_hints()
    ensures { UnitStepsReadHints }
{}

/// More clauses and more given literals derive no less.
pub fn closure_grows()
    ensures { ClosureGrows }
{}

/// Greedy strengthening has no two outcomes.
pub fn greedy_is_unique()
    ensures { GreedyIsUnique }
{}

/// Greedy strengthening keeps literals of the clause alone.
pub fn greedy_is_within()
    ensures { GreedyIsWithin }
{}

/// The first occurrences in a clause that is no tautology are normal, and the same set.
pub fn normal_forms_are_normal()
    ensures { NormalFormsAreNormal }
{}
