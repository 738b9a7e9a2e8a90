//! The clauses on offer to the reducers: at most so many, the best taken first.
#![tactic(auto)]

mod indexes;
pub mod laws;
mod offers;
mod ranks;

pub use offers::WorkSet;

#[cfg(test)]
mod tests;
