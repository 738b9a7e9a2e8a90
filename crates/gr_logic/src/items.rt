// What a work list holds, and what a strengthening gives.
use crate::clauses::Clause;
use crate::id_lists::Ids;

/// A learnt clause on offer to the reducers, by its id.
#[derive(Clone, Copy, Debug, PartialEq, Eq)]
pub struct Item {
    /// The clause's id in the proof log.
    pub id: u64,
    /// Its LBD when it was learnt: the number of different decision levels among its literals
    /// (Audemard and Simon, IJCAI 2009).
    pub lbd: u32,
    /// The number of its literals.
    pub len: u32,
}

/// What became of a clause that a reducer took (after Wieringa and Heljanko, SAT 2013).
#[derive(Debug, Drop)]
pub enum Strengthened {
    /// No literal can go.
    Same,
    /// A clause of fewer of its literals. The hints name the clauses that unit propagation is to read for it, in order.
    Shorter { clause: Clause, hints: Ids },
}
