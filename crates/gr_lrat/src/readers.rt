// The reader of logs.
ghost use Rattle.std.specs.Prelude.{◌≡◌, ◌≤◌, ℕ, true, false, List, None, IsOk, IfOk, IfErr};
ghost use Rattle.std.specs.Option.{option_map};
ghost use Rattle.gr_io.specs.Pieces.{Rose};
ghost use Rattle.gr_text.specs.Places.{known, limit_of};
ghost use Rattle.gr_text.specs.Stands.{stand};
ghost use Rattle.gr_lrat.specs.Logs.{log_read};
ghost use Rattle.gr_lrat.specs.Stages.{log_to_come};
ghost use Rattle.gr_lrat.specs.Answers.{Answers, GoesOn, IsAnswer, PassesLine, line_error_of};

use crate::statements::{Spelt, read_statement};
use gr_io::Source;
use gr_logic::{Line, OutOfMemory};
use gr_text::{Held, ScanError, Scanner};
use std::alloc::Global;
use std::mem;
use thiserror::Error;

/// A line of a log and its number in the text, where blank lines and comments count.
#[derive(Debug, Drop)]
pub struct Numbered {
    pub number: u64,
    pub line: Line,
}

/// Why no further line was read.
#[derive(Clone, Copy, Debug, Drop, Error, PartialEq, Eq)]
pub enum LineError {
    #[error("line {line}: this is no line of a proof log")]
    BadLine { line: u64 },
    #[error("line {line}: negative hints are not supported")]
    RatHint { line: u64 },
    #[error("line {line}: the log is too long")]
    TooLong { line: u64 },
    #[error("the source failed")]
    ReadFault,
    #[error("no memory is left")]
    OutOfMemory,
}

fn line_error(failed: ScanError) -> LineError
    ensures { result ≡ line_error_of failed }
{
    match failed {
        ScanError::TooLong { line } => LineError::TooLong { line },
        ScanError::ReadFault => LineError::ReadFault,
        ScanError::OutOfMemory => LineError::OutOfMemory,
    }
}

/// Reads a proof log line by line. After an error it may only be dropped.
///
/// `H` is always `Held`, as it is for a `Scanner`.
pub struct LineReader<'a, S: Source, H: Drop = Held> {
    source: &'a mut S,
    held: H,
    alloc: Global,
    ended: bool,
}

impl<'a, S: Source, H: Drop> Drop for LineReader<'a, S, H> {
    fn drop(self)
        ensures { self.exit.0.now ≡ self.entry.source.now }
    {
        let LineReader {
            source: _,
            held: _,
            alloc: _,
            ended: _,
        } = self;
    }
}

impl<'a, S: Source> LineReader<'a, S> {
    /// A reader of what the source has left, of which it takes at most `max_bytes` bytes. It never
    /// fails, since it asks for no memory: the first line that is read asks for a buffer.
    pub fn new(
        alloc: Global,
        source: &'a mut S,
        max_bytes: u64,
    ) -> Result<LineReader<'a, S>, OutOfMemory>
        ensures succeeds { IsOk result }
        ensures same { IfOk result (λ r. r.source.ghost_name ≡ source.entry.ghost_name) }
        ensures source { IfOk result (λ r. r.source.now ≡ source.old) }
        ensures told { IfOk result (λ r. (limit : ℕ) →
            log_to_come limit r.ended r.held (S.left source.old)
            ≡ option_map (log_read limit) (S.left source.old)) }
        ensures limit { IfOk result (λ r. limit_of r.held ≡ max_bytes) }
        ensures known { IfOk result (λ r. known r.held ≡ 0) }
    {
        Ok(LineReader {
            source,
            held: Held::new(alloc, max_bytes),
            alloc,
            ended: false,
        })
    }

    /// The next line, or `None` at the end of the text.
    pub fn next(&mut self) -> Result<Option<Numbered>, LineError>
        ensures same { self.new.source.ghost_name ≡ self.old.source.ghost_name }
        ensures answers { Answers result
            self.old.ended self.old.held (S.left self.old.source.now)
            self.new.ended self.new.held (S.left self.new.source.now) }
        ensures passes { PassesLine result self.old.held self.new.held }
        ensures ended { IfOk result (λ found. found ≡ None → self.new.ended ≡ true) }
        ensures goes { GoesOn (stand S.left S.taken S.faults self.old.held self.old.source.now)
            (stand S.left S.taken S.faults self.new.held self.new.source.now) }
        ensures fault { IfErr result (λ e. e ≡ LineError.ReadFault →
            Rose (S.faults self.old.source.now) (S.faults self.new.source.now)) }
        ensures calm { IsAnswer result →
            S.faults self.new.source.now ≡ S.faults self.old.source.now }
    {
        let held = mem::replace(&mut self.held, Held::new(self.alloc, 0));
        let mut scanner = Scanner::over(self.source, held);
        let found = next_line(self.alloc, &mut scanner, &mut self.ended);
        self.held = scanner.into_held();
        found
    }
}

/// The next line that a scanner comes to, or `None` at the end of the text: `ended` tells that it was
/// reached, and is false at first. Behind `None` it is true, and no line comes any more.
pub fn next_line<S: Source>(
    alloc: Global,
    scanner: &mut Scanner<'_, S>,
    ended: &mut bool,
) -> Result<Option<Numbered>, LineError>
    ensures same { scanner.new.source.ghost_name ≡ scanner.old.source.ghost_name }
    ensures answers { Answers result
        ended.old scanner.old.held (S.left scanner.old.source.now)
        ended.new scanner.new.held (S.left scanner.new.source.now) }
    ensures passes { PassesLine result scanner.old.held scanner.new.held }
    ensures ended { IfOk result (λ found. found ≡ None → ended.new ≡ true) }
    ensures goes { GoesOn (stand S.left S.taken S.faults scanner.old.held scanner.old.source.now)
        (stand S.left S.taken S.faults scanner.new.held scanner.new.source.now) }
    ensures fault { IfErr result (λ e. e ≡ LineError.ReadFault →
        Rose (S.faults scanner.old.source.now) (S.faults scanner.new.source.now)) }
    ensures calm { IsAnswer result →
        S.faults scanner.new.source.now ≡ S.faults scanner.old.source.now }
{
    'lines: while !*ended {
        let statement = match read_statement(alloc, scanner) {
            Ok(statement) => statement,
            Err(failed) => return Err(line_error(failed)),
        };
        let number = statement.end.line;
        *ended = statement.end.last;
        match statement.spelt {
            Spelt::Nothing => {}
            Spelt::Spelled(line) => return Ok(Some(Numbered { number, line })),
            Spelt::Misspelt => return Err(LineError::BadLine { line: number }),
            Spelt::HasNegativeHint => return Err(LineError::RatHint { line: number }),
        }
    }
    Ok(None)
}
