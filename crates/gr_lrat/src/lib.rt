//! Proof logs in text LRAT (Cruz-Filipe et al., CADE 2017): their text, its writer and its reader.
#![tactic(auto)]

mod additions;
pub mod laws;
mod lists;
mod numerals;
mod pieces;
mod readers;
mod statements;
mod writers;

pub use readers::{LineError, LineReader, Numbered, next_line};
pub use writers::write_line;

#[cfg(test)]
mod tests;
