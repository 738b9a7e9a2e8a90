//! The DIMACS CNF grammar: formulas read from a source and written to a sink.
#![tactic(auto)]

mod builders;
mod faults;
mod headers;
pub mod laws;
mod limits;
mod numerals;
mod readers;
mod tokens;
mod writers;

pub use faults::{FaultKind, GrammarFault, ReadError};
pub use limits::{Limits, PROGRAM_LIMITS};
pub use readers::read;
pub use writers::write;

#[cfg(test)]
mod tests;
