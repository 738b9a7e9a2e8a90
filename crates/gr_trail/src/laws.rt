// What follows for every trail: each law is the contract of a function that does nothing.
ghost use Rattle.gr_trail.specs.Laws.{LevelsClimb, LevelsHaveEnds, VariablesStandOnce, NegationsAreFalse, GoingBackForgetsWhatIsAbove};

/// What comes earlier in a trail has no higher level, and a lower one than a decision.
pub fn levels_climb()
    ensures { LevelsClimb }
{}

/// No level is above the depth, and what was assigned at level zero has a reason.
pub fn levels_have_ends()
    ensures { LevelsHaveEnds }
{}

/// A variable is assigned once, and what is assigned to it stands in the trail.
pub fn variables_stand_once()
    ensures { VariablesStandOnce }
{}

/// A literal whose negation is true is false.
pub fn negations_are_false()
    ensures { NegationsAreFalse }
{}

/// Going back forgets what was assigned above the level, and keeps what was assigned up to it.
pub fn going_back_forgets_what_is_above()
    ensures { GoingBackForgetsWhatIsAbove }
{}
