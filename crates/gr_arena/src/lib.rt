//! Clauses in one flat vector of words, by their places.
#![tactic(auto)]

mod arenas;
mod blocks;
mod compaction;
mod relocations;

pub use arenas::Arena;
pub use relocations::Moves;

#[cfg(test)]
mod tests;
