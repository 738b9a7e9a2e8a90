//! Greedy strengthening of clauses by unit propagation, with hints.
#![tactic(auto)]

mod lending;
mod letting_go;
mod loading;
mod reaching;
mod shortening;
mod strengtheners;
mod units;
mod walking;

pub use strengtheners::Strengthener;
pub use units::Derived;

#[cfg(test)]
mod tests;
