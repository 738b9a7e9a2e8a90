// The formula's text: read, or why there is no formula.
ghost use Rattle.std.specs.Prelude.{◌≡◌, ℕ, List, Option, Err, IfErr};
ghost use Rattle.gr_io.specs.Pieces.{Rose};
ghost use Rattle.gr_dimacs.specs.Reads.{program_limits, IsSettled, IsTold, Reads};
ghost use Rattle.gr_run.specs.declared.options.SolveOptions.{SolveOptions};
ghost use Rattle.gr_top.specs.Solving.{Solves};
ghost use Rattle.gr_top.specs.Statuses.{IsWellRead, IsWellWritten};
ghost use Rattle.gr_top.specs.Streams.{streams};

use crate::reports::{Report, ended};
use crate::statuses::Status;
use crate::texts::write_fault;
use gr_dimacs::{PROGRAM_LIMITS, ReadError, read};
use gr_io::{Sink, Source};
use gr_logic::Formula;
use std::alloc::Global;

/// Reads a formula within the program's limits.
pub fn read_formula<A: Source>(alloc: Global, cnf: &mut A) -> Result<Formula, ReadError>
    ensures answer { Reads program_limits result (A.left cnf.old) (A.left cnf.new) }
    ensures fault { IfErr result (λ e. e ≡ ReadError.ReadFault →
        Rose (A.faults cnf.old) (A.faults cnf.new)) }
    ensures calm { IsSettled result → A.faults cnf.new ≡ A.faults cnf.old }
{
    read(alloc, cnf, &PROGRAM_LIMITS)
}

/// Reports why there is no formula to decide, and writes the first fault of its text to `out`.
pub fn report_unread<C: Sink>(alloc: Global, failed: ReadError, out: &mut C) -> Report
    ensures solves { (o : SolveOptions) (left rest : Option (List ℕ)) (n m : ℕ)
        (proof : Option (List ℕ)) (k : ℕ)
        → Reads program_limits (Err failed) left rest → (failed ≡ ReadError.ReadFault → Rose n m)
        → Solves o (streams left n (C.written out.old) (C.faults out.old) proof k)
        (streams rest m (C.written out.new) (C.faults out.new) proof k) result }
    ensures out { result.status ≡ Status.ReadFault → out.new ≡ out.old }
    ensures told { IsWellRead result.status → IsTold failed }
    ensures calm_out { IsWellWritten result.status → C.faults out.new ≡ C.faults out.old }
{
    match failed {
        ReadError::Grammar(fault) => ended(alloc, write_fault(fault, out), Status::Grammar(fault)),
        ReadError::ReadFault => Report::bare(alloc, Status::ReadFault),
        ReadError::OutOfMemory => Report::bare(alloc, Status::OutOfMemory),
    }
}
