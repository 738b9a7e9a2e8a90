//! The checker of LRAT proof logs: it takes a log line by line, and says why a line is refused.
#![tactic(auto)]

mod checker;
mod compaction;
mod deletions;
mod far_ids;
pub mod laws;
mod marks;
mod pool;
mod refusals;
mod runs;
mod unit_steps;
mod whole_logs;

pub use checker::Checker;
pub use refusals::{Finish, Refused};
pub use whole_logs::{RefusedLine, check_all};

#[cfg(test)]
mod tests;
