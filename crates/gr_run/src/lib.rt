//! Whole runs: a search over an exchange.
#![tactic(auto)]

mod alone;
mod answers;
mod options;
mod results;
mod searching;
mod seating;
mod shared;
mod working;

pub use alone::solve_alone;
pub use options::SolveOptions;
pub use results::{Ran, Verdict};
pub use searching::{Searched, search_on};
pub use shared::solve_shared;

#[cfg(test)]
mod searching_tests;
#[cfg(test)]
mod shared_tests;
#[cfg(test)]
mod small_tests;
#[cfg(test)]
mod tests;
