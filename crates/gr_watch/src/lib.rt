//! Watches: for each literal, the list of the clauses that watch it.
#![tactic(auto)]

mod lists;

pub use lists::{Watch, Watches};

#[cfg(test)]
mod tests;
