//! What becomes of a finished history's proof log: it is written as text, or checked.
#![tactic(auto)]

mod history_checks;
mod history_texts;

pub use history_checks::check_history;
pub use history_texts::write_history;

#[cfg(test)]
mod tests;
