// Formulas that are made, for large trials.
ghost use Rattle.std.specs.Prelude.{◌≡◌, ◌≤◌, IfErr, IfOk, OnErr, OnOk, string_bytes, true};
ghost use Rattle.gr_io.specs.Pieces.{Gains, GainsPart, Rose};
ghost use Rattle.gr_logic.specs.Truth.{IsUnsatisfiable};
ghost use Rattle.gr_words.specs.Calls.{is_in_range, kind_name};
ghost use Rattle.gr_top.specs.Checking.{output};
ghost use Rattle.gr_top.specs.Commands.{default_options};
ghost use Rattle.gr_top.specs.MadeTexts.{large_text};
ghost use Rattle.gr_top.specs.Making.{Makes, formula_made};
ghost use Rattle.gr_top.specs.Statuses.{IsWellWritten};

use crate::reports::{Report, reported};
use crate::statuses::Status;
use gr_gen::{odd_ring, pigeons};
use gr_history::check_history;
use gr_io::{Gate, Sink, SinkError};
use gr_logic::{Formula, OutOfMemory};
use gr_run::{SolveOptions, Verdict, solve_shared};
use gr_words::{Kind, LargeWords};
use itoa::Buffer;
use std::alloc::Global;
use std::sync::Wait;
use std::thread::Threads;

/// The options of a run for which none are given.
fn default_options() -> SolveOptions
    ensures { result ≡ default_options }
{
    SolveOptions {
        reducers: 1,
        conflicts: 1_000_000,
        capacity: 1_000,
        offer: 1_000_000,
        keep_all: false,
    }
}

/// Makes a formula, decides it with the default options, checks the log, and writes a summary to `out`.
pub fn run_large<R: Threads + Wait + Sync, C: Sink, G: Gate>(
    rt: &R,
    alloc: Global,
    large: LargeWords,
    out: &mut C,
    gate: &G,
) -> Report
    requires range { is_in_range large.kind large.n ≡ true }
    ensures makes { Makes large.kind large.n
        (output (C.written out.old) (C.faults out.old)) (output (C.written out.new) (C.faults out.new))
        result }
    ensures calm_out { IsWellWritten result.status → C.faults out.new ≡ C.faults out.old }
{
    match make(alloc, large) {
        Ok(formula) => answer_made(rt, alloc, large, &formula, out, gate),
        Err(_) => Report::bare(alloc, Status::OutOfMemory),
    }
}

/// The formula of this kind and number. No assignment satisfies it.
fn make(alloc: Global, large: LargeWords) -> Result<Formula, OutOfMemory>
    requires range { is_in_range large.kind large.n ≡ true }
    ensures made { IfOk result (λ formula. formula ≡ formula_made large.kind large.n) }
    ensures unsatisfiable { IfOk result (λ formula. IsUnsatisfiable formula.clauses) }
{
    match large.kind {
        Kind::OddRing => odd_ring(alloc, large.n),
        Kind::Pigeons => pigeons(alloc, large.n),
    }
}

/// Decides a formula that was made, checks the log, and writes a summary.
fn answer_made<R: Threads + Wait + Sync, C: Sink, G: Gate>(
    rt: &R,
    alloc: Global,
    large: LargeWords,
    formula: &Formula,
    out: &mut C,
    gate: &G,
) -> Report
    requires made { formula.now ≡ formula_made large.kind large.n }
    requires unsatisfiable { IsUnsatisfiable formula.now.clauses }
    ensures makes { Makes large.kind large.n
        (output (C.written out.old) (C.faults out.old)) (output (C.written out.new) (C.faults out.new))
        result }
    ensures calm_out { IsWellWritten result.status → C.faults out.new ≡ C.faults out.old }
{
    let Ok(ran) = solve_shared(rt, alloc, formula, &default_options(), gate) else {
        return Report::bare(alloc, Status::OutOfMemory);
    };
    match ran.verdict {
        Verdict::Unsatisfiable => match check_history(alloc, formula, &ran.diary) {
            Ok(true) => {
                let lines = "s UNSATISFIABLE\nc log VERIFIED\n";
                let done = write_made(alloc, large, formula, lines, out);
                reported(alloc, done, Status::Unsatisfiable, ran)
            }
            // No legal history has a log that is not accepted.
            Ok(false) => unreachable!(),
            Err(_) => Report::bare(alloc, Status::OutOfMemory),
        },
        Verdict::Unknown => {
            let done = write_made(alloc, large, formula, "s UNKNOWN\n", out);
            reported(alloc, done, Status::Unknown, ran)
        }
        // No assignment satisfies such a formula.
        Verdict::Satisfiable => unreachable!(),
    }
}

/// Writes what was made, and what came of it.
fn write_made<C: Sink>(
    alloc: Global,
    large: LargeWords,
    formula: &Formula,
    verdict: &str,
    out: &mut C,
) -> Result<(), SinkError>
    ensures ok { OnOk result (Gains (large_text large.kind large.n formula.now verdict.now)
        (C.written out.old) (C.written out.new)) }
    ensures err { OnErr result (GainsPart (large_text large.kind large.n formula.now verdict.now)
        (C.written out.old) (C.written out.new)) }
    ensures fault { IfErr result (λ e. e ≡ SinkError.Fault → Rose (C.faults out.old) (C.faults out.new)) }
    ensures calm { OnOk result (C.faults out.new ≡ C.faults out.old) }
    ensures grows { C.faults out.old ≤ C.faults out.new }
{
    match large_text(alloc, large, formula, verdict) {
        Ok(text) => out.write(text.as_bytes()),
        Err(_) => Err(SinkError::OutOfMemory),
    }
}

/// What was made, and what came of it.
fn large_text(
    alloc: Global,
    large: LargeWords,
    formula: &Formula,
    verdict: &str,
) -> Result<String, OutOfMemory>
    ensures { IfOk result (λ text. string_bytes text
        ≡ large_text large.kind large.n formula.now verdict.now) }
{
    let mut digits = Buffer::new();
    let mut text = String::new(alloc);
    text.push_str("c ")?;
    text.push_str(kind_name(large.kind))?;
    text.push_str(" ")?;
    text.push_str(digits.format(large.n))?;
    text.push_str("\nc variables ")?;
    text.push_str(digits.format(formula.vars()))?;
    text.push_str(" clauses ")?;
    text.push_str(digits.format(formula.clauses().len()))?;
    text.push_str("\n")?;
    text.push_str(verdict)?;
    Ok(text)
}

/// The name of a kind of formula.
fn kind_name(kind: Kind) -> &'static str
    ensures { result.now ≡ kind_name kind }
{
    match kind {
        Kind::OddRing => "odd_ring",
        Kind::Pigeons => "pigeons",
    }
}
