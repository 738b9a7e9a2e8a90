// Sinks of bytes.
ghost use Rattle.std.specs.Prelude.{◌≡◌, ◌≤◌, ℕ, List, [], Option, IfErr, OnOk, OnErr};
ghost use Rattle.gr_io.specs.Pieces.{Gains, GainsPart, Rose};

use std::alloc::Global;
use std::marker::Model;
use thiserror::Error;

/// Why a sink did not take the whole of a piece.
#[derive(Clone, Copy, Debug, Drop, Error, PartialEq, Eq)]
pub enum SinkError {
    #[error("the sink failed")]
    Fault,
    #[error("no memory is left")]
    OutOfMemory,
}

/// Takes bytes in pieces.
pub trait Sink {
    /// What was written, where the sink tells it.
    ghost written: { Self → Option (List ℕ) };

    /// How many writes failed. The count never falls, and ends at the last value of a `u64`.
    ghost faults: { Self → ℕ };

    /// Adds the piece to what was written; an error leaves the old text and a front part of the
    /// piece. Where it succeeds no write failed.
    fn write(&mut self, piece: &[u8]) -> Result<(), SinkError>
        ensures ok { OnOk result (Gains piece.now (written self.old) (written self.new)) }
        ensures err { OnErr result (GainsPart piece.now (written self.old) (written self.new)) }
        ensures fault { IfErr result (λ e. e ≡ SinkError.Fault →
            Rose (faults self.old) (faults self.new)) }
        ensures calm { OnOk result (faults self.new ≡ faults self.old) }
        ensures grows { faults self.old ≤ faults self.new };
}

/// Keeps what is written in memory. A contract sees those bytes.
#[derive(Debug, Drop)]
pub struct TextSink {
    text: Vec<u8>,
}

impl Model for TextSink {
    ghost use Rattle.std.specs.Prelude.{ℕ, List};

    ghost Value = { List ℕ };

    ghost view = { λ s. s.text.items };
}

impl TextSink {
    /// A sink that holds nothing, and never faults. It asks for no memory.
    pub fn new(alloc: Global) -> TextSink
        ensures { result ≡ [] }
    {
        TextSink {
            text: Vec::new(alloc),
        }
    }

    /// What was written.
    pub fn text(&self) -> &[u8]
        ensures { result.now ≡ self.now }
    {
        self.text.as_slice()
    }
}

impl Sink for TextSink {
    ghost use Rattle.std.specs.Prelude.{Some};

    ghost written = { λ s. Some s };

    ghost faults = { λ s. 0 };

    fn write(&mut self, piece: &[u8]) -> Result<(), SinkError>
        ensures ok { OnOk result (Gains piece.now (Some self.old) (Some self.new)) }
        ensures err { OnErr result (self.new ≡ self.old) }
        ensures only_memory { IfErr result (λ e. e ≡ SinkError.OutOfMemory) }
    {
        match self.text.extend_from_slice(piece) {
            Ok(()) => Ok(()),
            Err(_) => Err(SinkError::OutOfMemory),
        }
    }
}
