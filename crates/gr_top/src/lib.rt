//! The program as one call over its words and its streams, whose contract is the solve theorem and the check theorem.
#![tactic(auto)]

mod checks;
mod made;
mod reading;
mod refusal_texts;
mod reports;
mod runs;
mod statuses;
mod texts;

pub use checks::run_check;
pub use gr_run::SolveOptions;
pub use gr_words::{Files, Words, files};
pub use reports::Report;
pub use runs::{run, run_alone};
pub use statuses::{Cause, LogFault, NotVerified, Status, code};

#[cfg(test)]
mod tests;
