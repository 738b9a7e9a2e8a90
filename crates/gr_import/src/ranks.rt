// The order in which clauses are forgotten.
use std::cmp::Reverse;

/// A clause by its LBD, the number of its literals and its id: the least one is forgotten first.
#[derive(Clone, Copy, Debug, PartialEq, Eq, PartialOrd, Ord)]
pub(crate) struct Rank {
    pub(crate) lbd: Reverse<u32>,
    pub(crate) len: Reverse<usize>,
    pub(crate) id: u64,
}
