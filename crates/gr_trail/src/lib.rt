//! The trail: the literals that are true, in the order of their assignment, with levels and reasons.
#![tactic(auto)]

pub mod laws;
mod trails;
mod values;

pub use trails::Trail;

#[cfg(test)]
mod tests;
