//! A reducer: it takes clauses on offer, strengthens them and gives them back, until the exchange is closed.
#![tactic(auto)]

mod endings;
mod forgetting;
mod giving;
mod keeping;
mod units;
mod working;

pub use endings::{Ended, Finished};
pub use working::work;

#[cfg(test)]
mod tests;
