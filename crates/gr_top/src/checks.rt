// A formula and a proof log, checked.
ghost use Rattle.std.specs.Prelude.{◌≡◌, OnOk};
ghost use Rattle.gr_text.specs.Places.{at_start};
ghost use Rattle.gr_top.specs.CheckedLogs.{LogGives, shown};
ghost use Rattle.gr_top.specs.Checking.{Checks, Judges, output, sources};
ghost use Rattle.gr_top.specs.Statuses.{IsWellRead, IsWellWritten};

use crate::reading::read_formula;
use crate::refusal_texts::write_check;
use crate::reports::{Report, ended};
use crate::statuses::{Status, Stop, finish_status, refused_status, stop_status, unread_status};
use gr_check::Checker;
use gr_dimacs::ReadError;
use gr_io::{Sink, Source};
use gr_logic::Formula;
use gr_lrat::next_line;
use gr_text::{Held, Scanner};
use std::alloc::Global;

/// How many bytes of a proof log are looked at.
const MAX_LOG_BYTES: u64 = 1_099_511_627_776;

/// Checks a proof log in text LRAT against a formula in DIMACS CNF, and writes to `out` what it comes to. All of
/// `cnf` is read, and then `log` line by line; the first line that is misspelt or refused decides. It waits for
/// nothing. The report has neither a model nor a log. A read that fails ends the check.
pub fn run_check<A: Source, B: Source, C: Sink>(
    alloc: Global,
    cnf: &mut A,
    log: &mut B,
    out: &mut C,
) -> Report
    ensures checks { Checks
        (sources (A.left cnf.old) (A.faults cnf.old) (B.left log.old) (B.faults log.old))
        (sources (A.left cnf.new) (A.faults cnf.new) (B.left log.new) (B.faults log.new))
        (output (C.written out.old) (C.faults out.old)) (output (C.written out.new) (C.faults out.new))
        result }
    ensures out { result.status ≡ Status.ReadFault → out.new ≡ out.old }
    ensures calm { IsWellRead result.status →
        (A.faults cnf.new ≡ A.faults cnf.old) × (B.faults log.new ≡ B.faults log.old) }
    ensures calm_out { IsWellWritten result.status → C.faults out.new ≡ C.faults out.old }
{
    match judge(alloc, cnf, log) {
        Ok(due) => ended(alloc, write_check(due, out), due),
        Err(stopped) => Report::bare(alloc, stop_status(stopped)),
    }
}

/// Reads the formula, and checks the log against it.
fn judge<A: Source, B: Source>(alloc: Global, cnf: &mut A, log: &mut B) -> Result<Status, Stop>
    ensures judges { Judges result
        (sources (A.left cnf.old) (A.faults cnf.old) (B.left log.old) (B.faults log.old))
        (sources (A.left cnf.new) (A.faults cnf.new) (B.left log.new) (B.faults log.new)) }
    ensures calm { OnOk result
        ((A.faults cnf.new ≡ A.faults cnf.old) × (B.faults log.new ≡ B.faults log.old)) }
{
    match read_formula(alloc, cnf) {
        Ok(formula) => check_log(alloc, &formula, log),
        Err(ReadError::Grammar(fault)) => Ok(Status::Grammar(fault)),
        Err(ReadError::ReadFault) => Err(Stop::ReadFault),
        Err(ReadError::OutOfMemory) => Err(Stop::OutOfMemory),
    }
}

/// Checks a proof log from its start.
fn check_log<B: Source>(alloc: Global, formula: &Formula, log: &mut B) -> Result<Status, Stop>
    ensures gives { LogGives result formula.now
        (shown (B.left log.old) (B.faults log.old)) (shown (B.left log.new) (B.faults log.new)) }
    ensures calm { OnOk result (B.faults log.new ≡ B.faults log.old) }
{
    let mut scanner = Scanner::over(log, Held::new(alloc, MAX_LOG_BYTES));
    check_lines(alloc, formula, &mut scanner)
}

/// Hands the lines of a proof log to a checker, up to the first that is misspelt or refused.
fn check_lines<B: Source>(
    alloc: Global,
    formula: &Formula,
    scanner: &mut Scanner<'_, B>,
) -> Result<Status, Stop>
    requires { scanner.old.held ≡ at_start MAX_LOG_BYTES }
    ensures same { scanner.new.source.ghost_name ≡ scanner.old.source.ghost_name }
    ensures gives { LogGives result formula.now
        (shown (B.left scanner.old.source.now) (B.faults scanner.old.source.now))
        (shown (B.left scanner.new.source.now) (B.faults scanner.new.source.now)) }
    ensures calm { OnOk result
        (B.faults scanner.new.source.now ≡ B.faults scanner.old.source.now) }
{
    let Ok(mut checker) = Checker::new(alloc, formula) else {
        return Err(Stop::OutOfMemory);
    };
    let mut last = false;
    'lines: loop {
        let numbered = match next_line(alloc, scanner, &mut last) {
            Ok(Some(numbered)) => numbered,
            Ok(None) => return Ok(finish_status(checker.finish())),
            Err(failed) => return unread_status(failed),
        };
        match checker.line(&numbered.line) {
            Ok(()) => {}
            Err(why) => return refused_status(numbered.number, why),
        }
    }
}
