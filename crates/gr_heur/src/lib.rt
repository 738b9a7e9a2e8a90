//! What steers the search: the order in which variables are decided, the signs that they get, and when to restart.
#![tactic(auto)]

pub mod laws;
mod orders;
mod phases;
mod queues;
mod restarts;

pub use orders::Order;
pub use phases::Phases;
pub use restarts::Restart;

#[cfg(test)]
mod tests;
