//! Texts: the tokens of what a source gives, numbers among them, and what is printed into a sink.
#![tactic(auto)]

mod holds;
pub mod laws;
mod numerals;
mod printers;
mod runs;
mod scanners;

pub use holds::Held;
pub use numerals::count;
pub use printers::{Pending, Printer};
pub use scanners::{ScanError, Scanned, Scanner};

#[cfg(test)]
mod tests;
