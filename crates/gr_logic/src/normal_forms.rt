// What a clause is without repeated literals.
use crate::clauses::Clause;

/// A clause without repeated literals.
#[derive(Debug, Drop)]
pub enum Normal {
    /// The clause's literals, each where it stands first.
    Clause(Clause),
    /// The clause has a literal and its negation: every assignment satisfies it.
    Tautology,
}
