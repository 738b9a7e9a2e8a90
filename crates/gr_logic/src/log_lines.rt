// The lines of a proof log, in memory.
ghost use Rattle.std.specs.Prelude.{◌≡◌, ◌++◌, ◌∷◌, [], OnOk, OnErr};

use crate::lines::Line;
use crate::memory::OutOfMemory;
use std::alloc::Global;
use std::marker::Model;

/// A proof log in memory: a contract sees the list of its lines.
#[derive(Debug, Drop)]
pub struct LogLines {
    lines: Vec<Line>,
}

impl Model for LogLines {
    ghost use Rattle.std.specs.Prelude.{List};
    ghost use Rattle.gr_logic.specs.declared.lines.Line.{Line};

    ghost Value = { List Line };

    ghost view = { λ log. log.lines.items };
}

impl LogLines {
    /// No lines. Takes no memory.
    pub fn new(alloc: Global) -> LogLines
        ensures { result ≡ [] }
    {
        LogLines {
            lines: Vec::new(alloc),
        }
    }

    /// The lines, in order. Takes no memory.
    pub fn all(&self) -> &[Line]
        ensures { result.now ≡ self.now }
    {
        self.lines.as_slice()
    }

    /// Appends a line. Where memory is wanting, the line is dropped and the log stays.
    pub fn push(&mut self, line: Line) -> Result<(), OutOfMemory>
        ensures ok { OnOk result (self.new ≡ self.old ++ line ∷ []) }
        ensures err { OnErr result (self.new ≡ self.old) }
    {
        self.lines.push(line)?;
        Ok(())
    }
}
