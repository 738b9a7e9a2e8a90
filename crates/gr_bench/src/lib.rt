//! The clause exchange between the searching thread and the reducers: one history, what follows from it, and a call
//! for each kind of entry.
#![tactic(auto)]

mod answers;
mod benches;
mod books;
mod crossing;
mod forgetting;
mod formula_views;
mod holdings;
mod importing;
mod learning;
mod lone_ids;
mod offerings;
mod offers;
mod results;
mod returning;
mod taking;
mod units;

pub use answers::{BenchError, Closing, Imported, TakeError, Taken};
pub use benches::Bench;

#[cfg(test)]
mod calls;
#[cfg(test)]
mod long_runs;
#[cfg(test)]
mod tests;
