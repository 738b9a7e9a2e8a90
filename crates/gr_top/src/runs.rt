// The call that the program makes.
ghost use Rattle.std.specs.Prelude.{◌≡◌, ℕ, All, IfErr, IfOk, OnOk};
ghost use Rattle.gr_logic.specs.Log.{HasIds};
ghost use Rattle.gr_history.specs.HistoryLogs.{lines_in};
ghost use Rattle.gr_logic.specs.Formulas.{Cnf};
ghost use Rattle.gr_run.specs.Offers.{IsOfferedUpTo};
ghost use Rattle.gr_run.specs.Results.{AreInRange, IsRan};
ghost use Rattle.gr_run.specs.declared.options.SolveOptions.{SolveOptions};
ghost use Rattle.gr_words.specs.Calls.{IsWithinLimits, options_of};
ghost use Rattle.gr_words.specs.Cases.{IsCheck, IsLarge, IsSolve, IsUnlawful};
ghost use Rattle.gr_words.specs.Meanings.{Solving};
ghost use Rattle.gr_words.specs.declared.calls.Kind.{Kind};
ghost use Rattle.gr_top.specs.Checking.{Checks, output, sources};
ghost use Rattle.gr_top.specs.Commands.{run_options};
ghost use Rattle.gr_top.specs.Histories.{HasRefutation};
ghost use Rattle.gr_top.specs.Making.{Makes};
ghost use Rattle.gr_top.specs.Sinks.{sinks, TellsRefutation, CutRefutation};
ghost use Rattle.gr_top.specs.Refusing.{Refuses};
ghost use Rattle.gr_top.specs.Statuses.{IsWellRead, IsWellWritten};
ghost use Rattle.gr_top.specs.Solving.{Answers, IsRefuted, Solves, SparesProof};
ghost use Rattle.gr_top.specs.Streams.{streams};

use crate::checks::run_check;
use crate::made::run_large;
use crate::reading::{read_formula, report_unread};
use crate::reports::{Report, ended, reported};
use crate::statuses::Status;
use crate::texts::{write_model, write_unknown, write_unsatisfiable, write_usage};
use gr_diary::Diary;
use gr_history::write_history;
use gr_io::{Gate, Sink, SinkError, Source};
use gr_logic::OutOfMemory;
use gr_run::{Ran, SolveOptions, Verdict, solve_alone, solve_shared};
use gr_words::{Call, SolveWords, Words, WordsError};
use std::alloc::Global;
use std::sync::Wait;
use std::thread::Threads;

/// Runs the program over its words and its streams. For the words `solve CNF LOG`, with options, it
/// reads a formula in DIMACS CNF from `cnf`, decides it, writes the lines of a refutation to `proof`
/// in text LRAT and then the verdict to `out`, for a satisfiable formula with an assignment; `log` is
/// not read. For the words `check CNF LOG` it checks the proof log that it reads from `log` against
/// the formula, and writes to `out` what it comes to. For `large KIND N` it makes a formula that no
/// assignment satisfies, decides it, and writes a summary to `out`; nothing is read. Reducers work in
/// threads of their own, which have ended when it returns; the searching thread and each reducer pass
/// `gate`. With reducers it may wait for a turn or a thread.
pub fn run<R: Threads + Wait + Sync, A: Source, B: Source, C: Sink, D: Sink, G: Gate>(
    rt: &R,
    alloc: Global,
    words: &Words,
    cnf: &mut A,
    log: &mut B,
    out: &mut C,
    proof: &mut D,
    gate: &G,
) -> Report
    ensures solve { (s : Solving) → IsSolve s words.now → Solves (run_options s)
        (streams (A.left cnf.old) (A.faults cnf.old)
        (C.written out.old) (C.faults out.old) (D.written proof.old) (D.faults proof.old))
        (streams (A.left cnf.new) (A.faults cnf.new)
        (C.written out.new) (C.faults out.new) (D.written proof.new) (D.faults proof.new))
        result }
    ensures check { IsCheck words.now → Checks
        (sources (A.left cnf.old) (A.faults cnf.old) (B.left log.old) (B.faults log.old))
        (sources (A.left cnf.new) (A.faults cnf.new) (B.left log.new) (B.faults log.new))
        (output (C.written out.old) (C.faults out.old)) (output (C.written out.new) (C.faults out.new))
        result }
    ensures large { (kind : Kind) (n : ℕ) → IsLarge kind n words.now → Makes kind n
        (output (C.written out.old) (C.faults out.old)) (output (C.written out.new) (C.faults out.new))
        result }
    ensures unlawful { IsUnlawful words.now → Refuses
        (streams (A.left cnf.old) (A.faults cnf.old)
        (C.written out.old) (C.faults out.old) (D.written proof.old) (D.faults proof.old))
        (streams (A.left cnf.new) (A.faults cnf.new)
        (C.written out.new) (C.faults out.new) (D.written proof.new) (D.faults proof.new))
        result }
    ensures log { (IsCheck words.now → ⊥) → log.new ≡ log.old }
    ensures proof { SparesProof result.status → proof.new ≡ proof.old }
    ensures unrefuted { (IsRefuted (A.left cnf.old) (A.left cnf.new) → ⊥) → proof.new ≡ proof.old }
    ensures proof_of_others { ((s : Solving) → IsSolve s words.now → ⊥) → proof.new ≡ proof.old }
    ensures out { result.status ≡ Status.ReadFault → out.new ≡ out.old }
    ensures cnf { ((s : Solving) → IsSolve s words.now → ⊥) → (IsCheck words.now → ⊥) → cnf.new ≡ cnf.old }
    ensures calm { IsWellRead result.status →
        (A.faults cnf.new ≡ A.faults cnf.old) × (B.faults log.new ≡ B.faults log.old) }
    ensures calm_out { IsWellWritten result.status → C.faults out.new ≡ C.faults out.old }
    ensures calm_proof { IsWellWritten result.status → D.faults proof.new ≡ D.faults proof.old }
{
    match words.call(alloc) {
        Ok(Call::Solve(words)) => solve(rt, alloc, &run_options(words), cnf, out, proof, gate),
        Ok(Call::Check(_)) => run_check(alloc, cnf, log, out),
        Ok(Call::Large(large)) => run_large(rt, alloc, large, out, gate),
        Err(WordsError::Usage) => ended(alloc, write_usage(out), Status::Usage),
        Err(WordsError::OutOfMemory) => Report::bare(alloc, Status::OutOfMemory),
    }
}

/// The options of a run, as the words tell them.
fn run_options(words: SolveWords<'_>) -> SolveOptions
    requires limits { IsWithinLimits words }
    ensures options { result ≡ run_options (options_of words.entry) }
    ensures in_range { AreInRange result }
{
    SolveOptions {
        reducers: words.reducers,
        conflicts: u64::from(words.conflicts),
        capacity: words.capacity as usize,
        offer: words.offer,
        keep_all: words.keep_all,
    }
}

/// Reads a formula and decides it, beside so many reducers as the options say.
fn solve<R: Threads + Wait + Sync, A: Source, C: Sink, D: Sink, G: Gate>(
    rt: &R,
    alloc: Global,
    options: &SolveOptions,
    cnf: &mut A,
    out: &mut C,
    proof: &mut D,
    gate: &G,
) -> Report
    requires in_range { AreInRange options.now }
    ensures solves { Solves options.now
        (streams (A.left cnf.old) (A.faults cnf.old)
        (C.written out.old) (C.faults out.old) (D.written proof.old) (D.faults proof.old))
        (streams (A.left cnf.new) (A.faults cnf.new)
        (C.written out.new) (C.faults out.new) (D.written proof.new) (D.faults proof.new))
        result }
    ensures calm { IsWellRead result.status → A.faults cnf.new ≡ A.faults cnf.old }
    ensures out { result.status ≡ Status.ReadFault → out.new ≡ out.old }
    ensures calm_out { IsWellWritten result.status → C.faults out.new ≡ C.faults out.old }
    ensures proof { SparesProof result.status → proof.new ≡ proof.old }
    ensures unrefuted { (IsRefuted (A.left cnf.old) (A.left cnf.new) → ⊥) → proof.new ≡ proof.old }
    ensures calm_proof { IsWellWritten result.status → D.faults proof.new ≡ D.faults proof.old }
{
    if options.reducers == 0 {
        return run_alone(alloc, options, cnf, out, proof);
    }
    match read_formula(alloc, cnf) {
        Ok(formula) => {
            let ran = solve_shared(rt, alloc, &formula, options, gate);
            answer(alloc, ran, out, proof)
        }
        Err(failed) => report_unread(alloc, failed, out),
    }
}

/// Reads a formula and decides it on one thread, or tells why there is no answer: the command `solve`
/// without reducers, once its words are read. `cnf` is read to the end of the formula, the lines of a
/// refutation are written to `proof`, and then the verdict to `out`. It waits for nothing.
pub fn run_alone<A: Source, C: Sink, D: Sink>(
    alloc: Global,
    options: &SolveOptions,
    cnf: &mut A,
    out: &mut C,
    proof: &mut D,
) -> Report
    requires alone { options.now.reducers ≡ 0 }
    requires in_range { AreInRange options.now }
    ensures solves { Solves options.now
        (streams (A.left cnf.old) (A.faults cnf.old)
        (C.written out.old) (C.faults out.old) (D.written proof.old) (D.faults proof.old))
        (streams (A.left cnf.new) (A.faults cnf.new)
        (C.written out.new) (C.faults out.new) (D.written proof.new) (D.faults proof.new))
        result }
    ensures proof { SparesProof result.status → proof.new ≡ proof.old }
    ensures unrefuted { (IsRefuted (A.left cnf.old) (A.left cnf.new) → ⊥) → proof.new ≡ proof.old }
    ensures out { result.status ≡ Status.ReadFault → out.new ≡ out.old }
    ensures calm { IsWellRead result.status → A.faults cnf.new ≡ A.faults cnf.old }
    ensures calm_out { IsWellWritten result.status → C.faults out.new ≡ C.faults out.old }
    ensures calm_proof { IsWellWritten result.status → D.faults proof.new ≡ D.faults proof.old }
{
    match read_formula(alloc, cnf) {
        Ok(formula) => answer(alloc, solve_alone(alloc, &formula, options), out, proof),
        Err(failed) => report_unread(alloc, failed, out),
    }
}

/// Tells what a run on the formula found, or that memory was wanting for it.
fn answer<C: Sink, D: Sink>(
    alloc: Global,
    ran: Result<Ran, OutOfMemory>,
    out: &mut C,
    proof: &mut D,
) -> Report
    requires ids { IfOk ran (λ ran. All HasIds (lines_in ran.diary)) }
    ensures answers { (f : Cnf) (o : SolveOptions) → IfOk ran (IsRan f o)
        → IfOk ran (λ ran. All (IsOfferedUpTo o.offer) ran.diary.entries) → Answers f o
        (sinks (C.written out.old) (C.faults out.old) (D.written proof.old) (D.faults proof.old))
        (sinks (C.written out.new) (C.faults out.new) (D.written proof.new) (D.faults proof.new))
        result }
    ensures proof { SparesProof result.status → proof.new ≡ proof.old }
    ensures unrefuted { (f : Cnf) (o : SolveOptions) → IfOk ran (IsRan f o) → (HasRefutation f → ⊥)
        → proof.new ≡ proof.old }
    ensures calm_out { IsWellWritten result.status → C.faults out.new ≡ C.faults out.old }
    ensures calm_proof { IsWellWritten result.status → D.faults proof.new ≡ D.faults proof.old }
{
    match ran {
        Ok(ran) => tell(alloc, ran, out, proof),
        Err(_) => Report::bare(alloc, Status::OutOfMemory),
    }
}

/// Tells what a run found.
fn tell<C: Sink, D: Sink>(alloc: Global, ran: Ran, out: &mut C, proof: &mut D) -> Report
    requires ids { All HasIds (lines_in ran.diary) }
    ensures answers { (f : Cnf) (o : SolveOptions) → IsRan f o ran
        → All (IsOfferedUpTo o.offer) ran.diary.entries → Answers f o
        (sinks (C.written out.old) (C.faults out.old) (D.written proof.old) (D.faults proof.old))
        (sinks (C.written out.new) (C.faults out.new) (D.written proof.new) (D.faults proof.new))
        result }
    ensures proof { SparesProof result.status → proof.new ≡ proof.old }
    ensures unrefuted { (f : Cnf) (o : SolveOptions) → IsRan f o ran → (HasRefutation f → ⊥)
        → proof.new ≡ proof.old }
    ensures calm_out { IsWellWritten result.status → C.faults out.new ≡ C.faults out.old }
    ensures calm_proof { IsWellWritten result.status → D.faults proof.new ≡ D.faults proof.old }
{
    match ran.verdict {
        Verdict::Satisfiable => {
            let done = write_model(&ran.model, out);
            reported(alloc, done, Status::Satisfiable, ran)
        }
        Verdict::Unsatisfiable => {
            let done = write_refutation(&ran.diary, out, proof);
            reported(alloc, done, Status::Unsatisfiable, ran)
        }
        Verdict::Unknown => {
            let done = write_unknown(out);
            reported(alloc, done, Status::Unknown, ran)
        }
    }
}

/// Writes the proof log of a history, and then the verdict on it.
fn write_refutation<C: Sink, D: Sink>(
    diary: &Diary,
    out: &mut C,
    proof: &mut D,
) -> Result<(), SinkError>
    requires { All HasIds (lines_in diary.now) }
    ensures ok { OnOk result (TellsRefutation (lines_in diary.now)
        (sinks (C.written out.old) (C.faults out.old) (D.written proof.old) (D.faults proof.old))
        (sinks (C.written out.new) (C.faults out.new) (D.written proof.new) (D.faults proof.new))) }
    ensures err { IfErr result (CutRefutation (lines_in diary.now)
        (sinks (C.written out.old) (C.faults out.old) (D.written proof.old) (D.faults proof.old))
        (sinks (C.written out.new) (C.faults out.new) (D.written proof.new) (D.faults proof.new))) }
    ensures calm_out { OnOk result (C.faults out.new ≡ C.faults out.old) }
    ensures calm_proof { OnOk result (D.faults proof.new ≡ D.faults proof.old) }
{
    // The log is whole before the verdict begins: no verdict stands over a torn log.
    match write_history(diary, proof) {
        Ok(()) => write_unsatisfiable(out),
        Err(failed) => Err(failed),
    }
}
