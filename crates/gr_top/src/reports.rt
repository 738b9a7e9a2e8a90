// What a call hands back.
ghost use Rattle.std.specs.Prelude.{◌≡◌, []};
ghost use Rattle.gr_top.specs.Reporting.{Reports};
ghost use Rattle.gr_top.specs.Solving.{IsBare};
ghost use Rattle.gr_top.specs.Statuses.{end_status};

use crate::statuses::{Status, cut_status};
use gr_diary::Diary;
use gr_io::SinkError;
use gr_logic::Assignment;
use gr_run::Ran;
use std::alloc::Global;

/// How a call ended, and what it found. Beside `Satisfiable` there is no model; beside that,
/// `Unsatisfiable` and `Unknown` the diary has no entries.
#[derive(Debug, Drop)]
pub struct Report {
    pub status: Status,
    /// A value for each variable, which satisfy every clause.
    pub model: Assignment,
    /// The history of the run: its lines are those that were written to the proof log.
    pub diary: Diary,
}

impl Report {
    /// A report of no model and no history. Takes no memory.
    pub(crate) fn bare(alloc: Global, status: Status) -> Report
        ensures status { result.status ≡ status }
        ensures model { result.model ≡ [] }
        ensures diary { result.diary.entries ≡ [] }
    {
        Report {
            status,
            model: Assignment::empty(alloc),
            diary: Diary::empty(alloc),
        }
    }
}

/// The report of a call that was to end so, once its text was written.
pub fn ended(alloc: Global, done: Result<(), SinkError>, due: Status) -> Report
    ensures status { result.status ≡ end_status done due }
    ensures bare { IsBare result }
{
    match done {
        Ok(()) => Report::bare(alloc, due),
        Err(failed) => Report::bare(alloc, cut_status(failed)),
    }
}

/// The report of a run that was to end so, once its text was written: the run's model and history, or nothing.
pub fn reported(alloc: Global, done: Result<(), SinkError>, due: Status, ran: Ran) -> Report
    ensures status { result.status ≡ end_status done due }
    ensures reports { Reports done ran result }
{
    match done {
        Ok(()) => Report {
            status: due,
            model: ran.model,
            diary: ran.diary,
        },
        Err(failed) => Report::bare(alloc, cut_status(failed)),
    }
}
