//! Propagation by watched literals: clauses with a trail that is their unit closure.
#![tactic(auto)]

mod additions;
mod bases;
mod compacting;
mod id_maps;
pub mod laws;
mod pairs;
mod visits;
mod walks;

pub use bases::{Base, Propagated};

#[cfg(test)]
mod tests;
