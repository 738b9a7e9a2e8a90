//! The search: what the searching thread asks of the exchange, turn by turn.
#![tactic(auto)]

mod asks;
mod choosing;
mod counting;
mod descending;
mod filters;
mod grounding;
pub mod laws;
mod scores;
mod searches;
mod settling;
mod solving;
mod taking;

pub use asks::{Ask, Found, Told};
pub use filters::OfferFilter;
pub use searches::{Search, SearchState};
