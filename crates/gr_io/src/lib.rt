//! Where bytes come from and where they go: sources, sinks and gates, over memory and over files.
#![tactic(auto)]

mod files;
mod gates;
mod memory;
mod repeats;
mod sinks;
mod sources;
mod tallies;

pub use files::{FileSink, FileSource, OutSink};
pub use gates::{Gate, Open, Point};
pub use memory::{MemSink, MemSource};
pub use repeats::Repeat;
pub use sinks::{Sink, SinkError, TextSink};
pub use sources::{Source, SourceError, TextSource};
