//! The words of the command line: which are lawful, and what they call for.
#![tactic(auto)]

mod arguments;
mod calls;
pub mod examples;
mod file_names;
pub mod laws;
mod reading;
mod word_lists;

pub use calls::{Call, CheckWords, Kind, LargeWords, SolveWords, WordsError};
pub use file_names::Files;
pub use word_lists::{Words, files};

#[cfg(test)]
mod tests;
