//! Literals, clauses, formulas, assignments and proof logs, with what satisfies, implies and refutes what.
#![tactic(auto)]

mod assignments;
mod clauses;
mod formulas;
mod id_lists;
mod items;
pub mod laws;
mod lines;
mod literal_sets;
mod literals;
mod log_lines;
mod memory;
mod normal_forms;
mod normalizing;
mod places;
mod words;

pub use assignments::Assignment;
pub use clauses::Clause;
pub use formulas::Formula;
pub use id_lists::Ids;
pub use items::{Item, Strengthened};
pub use lines::Line;
pub use literal_sets::LitSet;
pub use literals::Lit;
pub use log_lines::LogLines;
pub use memory::OutOfMemory;
pub use normal_forms::Normal;
pub use normalizing::normal;
pub use places::Place;
pub use words::{Word, as_lits, as_words};

#[cfg(test)]
mod tests;
