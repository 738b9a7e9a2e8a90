// Laws of a checker that goes on after a refused line: each is the contract of a function that does
// nothing.
ghost use Rattle.gr_check.specs.Reached.{AcceptedLinesLeadOn, OpeningIsReached, ReachedStatesRefute};

/// The state of a new checker is reached, by no line.
pub fn opening_is_reached()
    ensures { OpeningIsReached }
{}

/// From a state that is reached, a line that is not refused leads to another one.
pub fn accepted_lines_lead_on()
    ensures { AcceptedLinesLeadOn }
{}

/// Where the empty clause was added on the way to a state that is reached, no assignment satisfies the
/// formula, whatever lines were refused on the way.
pub fn reached_states_refute()
    ensures { ReachedStatesRefute }
{}
