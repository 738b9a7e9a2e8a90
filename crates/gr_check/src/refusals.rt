// What the checker answers.
use gr_logic::OutOfMemory;
use thiserror::Error;

/// Why a line is refused. The causes are tested in this order, and the hints from left to right.
#[derive(Clone, Copy, Debug, Drop, PartialEq, Eq, Error)]
pub enum Refused {
    /// The lemma's id is not greater than every id so far, the formula's among them.
    #[error("the id {id} is not greater than every id so far")]
    IdNotGreater { id: u64 },
    /// A literal of the lemma with this id has a variable that the formula does not have.
    #[error("a variable of the clause {id} is above the formula's number of variables")]
    VarAbove { id: u64 },
    /// No clause has the id that a hint or a deletion names.
    #[error("there is no clause {id}")]
    NotLive { id: u64 },
    /// The clause that a hint names has two or more literals that are not false.
    #[error("the clause {id} is not unit")]
    HintNotUnit { id: u64 },
    /// The hints of the lemma with this id end, and no clause was falsified.
    #[error("the hints of the clause {id} lead to no conflict")]
    NoConflict { id: u64 },
    /// Memory was wanting.
    #[error("out of memory")]
    OutOfMemory,
}

impl From<OutOfMemory> for Refused {
    ghost use Rattle.std.specs.Prelude.{◌≡◌};
    ghost use Rattle.gr_check.specs.declared.refusals.Refused.TheVariants.{OutOfMemory as NoMemory};

    ghost from_gives = { λ _ why. why ≡ NoMemory };

    fn from(_wanting: OutOfMemory) -> Refused {
        Refused::OutOfMemory
    }
}

/// What a log whose lines are all accepted says of its formula.
#[derive(Clone, Copy, Debug, PartialEq, Eq)]
pub enum Finish {
    /// A line added the empty clause: no assignment satisfies the formula.
    Verified,
    /// No line added the empty clause.
    NoEmptyClause,
}
