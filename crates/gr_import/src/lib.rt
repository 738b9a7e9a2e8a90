//! What a search takes over from the reducers, and which learnt clauses it forgets.
#![tactic(auto)]

mod forgetting;
mod imports;
mod ranks;

pub use forgetting::weakest;
pub use imports::import;

#[cfg(test)]
mod tests;
