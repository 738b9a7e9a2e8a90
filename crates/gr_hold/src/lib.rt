//! Who holds which learnt clause: pairs of an id and a holder.
#![tactic(auto)]

mod holds;
mod words;

pub use holds::{Holder, Holders};

#[cfg(test)]
mod tests;
