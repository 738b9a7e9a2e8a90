// What follows for every base: each law is the contract of a function that does nothing.
ghost use Rattle.gr_prop.specs.Laws.{ReasonsComeEarlier, ReasonsAreClauses, QuietBasesAreModels, LearntClausesComeIn, ArenasHaveTheClauses, MovedClausesKeepTheirIds};

/// The other literals of a reason became false before the one that it forced.
pub fn reasons_come_earlier()
    ensures { ReasonsComeEarlier }
{}

/// A reason is a clause of the base, and has the literal that it forced.
pub fn reasons_are_clauses()
    ensures { ReasonsAreClauses }
{}

/// Where a base is quiet and each variable has a value, each clause has a true literal.
pub fn quiet_bases_are_models()
    ensures { QuietBasesAreModels }
{}

/// A clause that a conflict taught may come in once the trail went back.
pub fn learnt_clauses_come_in()
    ensures { LearntClausesComeIn }
{}

/// The literals that an arena has at a place are those of the base's clause.
pub fn arenas_have_the_clauses()
    ensures { ArenasHaveTheClauses }
{}

/// An id leads to the same clause after the clauses were moved.
pub fn moved_clauses_keep_their_ids()
    ensures { MovedClausesKeepTheirIds }
{}
