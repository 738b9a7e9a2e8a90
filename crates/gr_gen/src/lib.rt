//! Formulas of any size that no assignment satisfies, for large trials.
#![tactic(auto)]

mod odd_rings;
mod pigeonholes;

pub use odd_rings::odd_ring;
pub use pigeonholes::pigeons;

#[cfg(test)]
mod tests;
