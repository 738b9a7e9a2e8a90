//! A ticket lock: seats take turns at a value that keeps a history.
#![tactic(auto)]

mod calls;
mod crossing;
mod halves;
mod keeps;
mod locks;
mod step_kinds;
mod views;
mod waits;

pub use keeps::Keeps;
pub use locks::{Held, Opened, Seat, Turn};
pub use views::{Queue, Stage, View};

#[cfg(test)]
mod tests;
