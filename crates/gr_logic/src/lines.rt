// A line of a proof log.
use crate::clauses::Clause;
use crate::id_lists::Ids;

/// A line of an LRAT proof log (Cruz-Filipe, Heule, Hunt, Kaufmann and Schneider-Kamp, CADE 2017).
#[derive(Debug, Drop)]
pub enum Line {
    /// Adds a clause under a new id. The hints name the clauses that unit propagation is to read, in order.
    Add { id: u64, clause: Clause, hints: Ids },
    /// Deletes the clauses of these ids. The line's own id is the greatest one so far.
    Delete { id: u64, ids: Ids },
}
