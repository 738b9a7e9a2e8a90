//! Unit propagation and greedy strengthening, plain and slow: each call is its definition, and the
//! yardstick of faster code.
#![tactic(auto)]

mod closing;
mod derivations;
mod forcing;
pub mod laws;
mod strengthening;

pub use closing::{bottom, closure};
pub use strengthening::greedy;

#[cfg(test)]
mod tests;
