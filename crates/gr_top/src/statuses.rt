// How a call ends.
ghost use Rattle.std.specs.Prelude.{◌≡◌};
ghost use Rattle.gr_top.specs.Statuses.{cut_status, exit_code, finish_status, refused_for, refused_status, stop_status, unread_status};

use gr_check::{Finish, Refused};
use gr_dimacs::GrammarFault;
use gr_io::SinkError;
use gr_lrat::LineError;

/// Why a proof log proves nothing.
#[derive(Clone, Copy, Debug, PartialEq, Eq)]
pub enum NotVerified {
    /// The line of this number is the first that is refused.
    Line { line: u64, cause: Cause },
    /// Each line is accepted, and none adds the empty clause.
    NoEmptyClause,
}

/// Why a line of a proof log is refused.
#[derive(Clone, Copy, Debug, PartialEq, Eq)]
pub enum Cause {
    /// The lemma's id is not greater than every id so far, the formula's among them.
    IdNotGreater { id: u64 },
    /// A literal of the lemma with this id has a variable that the formula does not have.
    VarAbove { id: u64 },
    /// No clause has the id that a hint or a deletion names.
    NotLive { id: u64 },
    /// The clause that a hint names has two or more literals that are not false.
    HintNotUnit { id: u64 },
    /// The hints of the lemma with this id end, and no clause was falsified.
    NoConflict { id: u64 },
}

/// Where the text of a proof log is first at fault.
#[derive(Clone, Copy, Debug, PartialEq, Eq)]
pub enum LogFault {
    /// This line is no line of a proof log.
    BadLine { line: u64 },
    /// This line has a negative hint.
    RatHint { line: u64 },
    /// More bytes are wanted than are looked at, and the last of them is on this line.
    TooLong { line: u64 },
}

/// How a call of the program ends.
#[derive(Clone, Copy, Debug, PartialEq, Eq)]
pub enum Status {
    /// The report's model satisfies every clause.
    Satisfiable,
    /// No assignment satisfies the formula: the log of the report's diary is accepted.
    Unsatisfiable,
    /// As many clauses were learnt as the options allow, and the formula is not decided.
    Unknown,
    /// Each line of the proof log is accepted, and one adds the empty clause: no assignment satisfies the formula.
    Verified,
    /// The proof log proves nothing.
    NotVerified(NotVerified),
    /// The words are no lawful command line.
    Usage,
    /// The text spells no formula within the limits on its counts, its literals and its bytes: this is its first fault.
    Grammar(GrammarFault),
    /// The text of the proof log is misspelt, or longer than may be looked at: this is its first fault.
    LogGrammar(LogFault),
    /// A source failed.
    ReadFault,
    /// A sink failed.
    SinkFault,
    /// Memory was wanting.
    OutOfMemory,
}

/// Why a check comes to nothing.
#[derive(Clone, Copy, Debug, PartialEq, Eq)]
pub enum Stop {
    ReadFault,
    OutOfMemory,
}

/// The program's exit status: 10 and 20 as SAT solvers answer, and small numbers for what went wrong. Takes no memory.
pub fn code(status: &Status) -> u8
    ensures { result ≡ exit_code status.now }
{
    match status {
        Status::Satisfiable => 10,
        Status::Unsatisfiable => 20,
        Status::Unknown => 0,
        Status::Verified => 0,
        Status::NotVerified(_) => 1,
        Status::Usage => 2,
        Status::Grammar(_) => 3,
        Status::LogGrammar(_) => 3,
        Status::ReadFault => 4,
        Status::SinkFault => 5,
        Status::OutOfMemory => 6,
    }
}

/// The status where a sink did not take a text.
pub fn cut_status(failed: SinkError) -> Status
    ensures { result ≡ cut_status failed }
{
    match failed {
        SinkError::Fault => Status::SinkFault,
        SinkError::OutOfMemory => Status::OutOfMemory,
    }
}

/// The status where a check comes to nothing.
pub fn stop_status(stopped: Stop) -> Status
    ensures { result ≡ stop_status stopped }
{
    match stopped {
        Stop::ReadFault => Status::ReadFault,
        Stop::OutOfMemory => Status::OutOfMemory,
    }
}

/// The status where a log was read to its end and each line was accepted.
pub fn finish_status(finish: Finish) -> Status
    ensures { result ≡ finish_status finish }
{
    match finish {
        Finish::Verified => Status::Verified,
        Finish::NoEmptyClause => Status::NotVerified(NotVerified::NoEmptyClause),
    }
}

/// What a check comes to where the next line of a log was not read.
pub fn unread_status(failed: LineError) -> Result<Status, Stop>
    ensures { result ≡ unread_status failed }
{
    match failed {
        LineError::BadLine { line } => Ok(Status::LogGrammar(LogFault::BadLine { line })),
        LineError::RatHint { line } => Ok(Status::LogGrammar(LogFault::RatHint { line })),
        LineError::TooLong { line } => Ok(Status::LogGrammar(LogFault::TooLong { line })),
        LineError::ReadFault => Err(Stop::ReadFault),
        LineError::OutOfMemory => Err(Stop::OutOfMemory),
    }
}

/// What a check comes to where the line of this number was refused.
pub fn refused_status(line: u64, why: Refused) -> Result<Status, Stop>
    ensures { result ≡ refused_status line why }
{
    match why {
        Refused::IdNotGreater { id } => Ok(refused_for(line, Cause::IdNotGreater { id })),
        Refused::VarAbove { id } => Ok(refused_for(line, Cause::VarAbove { id })),
        Refused::NotLive { id } => Ok(refused_for(line, Cause::NotLive { id })),
        Refused::HintNotUnit { id } => Ok(refused_for(line, Cause::HintNotUnit { id })),
        Refused::NoConflict { id } => Ok(refused_for(line, Cause::NoConflict { id })),
        Refused::OutOfMemory => Err(Stop::OutOfMemory),
    }
}

/// The status where the line of this number is refused for this cause.
fn refused_for(line: u64, cause: Cause) -> Status
    ensures { result ≡ refused_for line cause }
{
    Status::NotVerified(NotVerified::Line { line, cause })
}
