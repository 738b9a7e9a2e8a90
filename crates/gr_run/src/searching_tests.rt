// A search at a shared exchange that has no reducers, on formulas whose answers are known.
ghost use Rattle.std.specs.Prelude.{◌≡◌, length, IfOk};
ghost use Rattle.gr_run.specs.Results.{AreInRange};

use crate::{Searched, SolveOptions, search_on};
use gr_bench::Bench;
use gr_diary::{Diary, Entry};
use gr_gen::pigeons;
use gr_io::{Gate, Point};
use gr_logic::{Clause, Formula, Lit, OutOfMemory};
use gr_search::Found;
use gr_seat::{Shared, SharedBench};
use std::alloc::Global;
use std::sync::Wait;
use std::sync::atomic::{AtomicU64, Ordering};
use std::test::Fail;

/// The options that the program has where none are given, but for reducers.
const DEFAULTS: SolveOptions = SolveOptions {
    reducers: 0,
    conflicts: 1_000_000,
    capacity: 1_000,
    offer: 1_000_000,
    keep_all: false,
};

/// Counts how often the search has learnt.
#[derive(Drop)]
struct Passes {
    learnt: AtomicU64,
}

impl Gate for Passes {
    fn pass(&self, _actor: u32, point: Point) {
        if point == Point::Learnt {
            self.learnt.fetch_add(1, Ordering::SeqCst);
        }
    }
}

/// What a search found, how often it passed the gate, and the history.
#[derive(Drop)]
struct Outcome {
    found: Found,
    passes: u64,
    diary: Diary,
}

/// Searches at an exchange of its own.
fn search_alone<R: Wait>(
    rt: &R,
    alloc: Global,
    formula: &Formula,
    options: &SolveOptions,
) -> Result<Outcome, OutOfMemory>
    requires { AreInRange options.now }
{
    let gate = Passes {
        learnt: AtomicU64::new(0),
    };
    let bench = Bench::open(alloc, formula, 0, options.capacity)?;
    let Shared { bench, solver } = SharedBench::open(alloc, bench)?;
    let Searched { seat, found } = search_on(rt, alloc, &bench, solver, formula, options, &gate);
    Ok(Outcome {
        found: found?,
        passes: gate.learnt.load(Ordering::SeqCst),
        diary: bench.finish(seat).into_diary(),
    })
}

/// How many clauses were learnt.
fn learns(diary: &Diary) -> Result<u64, OutOfMemory> {
    let mut count = 0;
    for k in 0..diary.len() {
        if let Entry::Learn { .. } = diary.get(k)? {
            count += 1;
        }
    }
    Ok(count)
}

/// The clauses over two variables that the assignment of true to both meets.
fn met_by_true(alloc: Global) -> Result<Formula, OutOfMemory>
    ensures { IfOk result (λ formula. (formula.vars ≡ 2) × (length formula.clauses ≡ 3)) }
{
    let mut formula = Formula::new(alloc, 2);
    formula.push(Clause::from_lits(alloc, &[Lit::of_var(1, true), Lit::of_var(2, true)])?)?;
    formula.push(Clause::from_lits(alloc, &[Lit::of_var(1, true), Lit::of_var(2, false)])?)?;
    formula.push(Clause::from_lits(alloc, &[Lit::of_var(1, false), Lit::of_var(2, true)])?)?;
    Ok(formula)
}

#[test]
fn refutes_all_signs_of_two(rt: HostRuntime) -> Result<(), Fail> {
    let alloc = rt.alloc();
    let mut formula = met_by_true(alloc)?;
    formula.push(Clause::from_lits(alloc, &[Lit::of_var(1, false), Lit::of_var(2, false)])?)?;
    let outcome = search_alone(&rt, alloc, &formula, &DEFAULTS)?;
    assert!(rt; matches!(outcome.found, Found::Refuted));
    assert_eq!(rt; outcome.passes, learns(&outcome.diary)?);
    Ok(())
}

#[test]
fn finds_the_only_assignment_of_two(rt: HostRuntime) -> Result<(), Fail> {
    let alloc = rt.alloc();
    let formula = met_by_true(alloc)?;
    let Outcome { found, .. } = search_alone(&rt, alloc, &formula, &DEFAULTS)?;
    match found {
        Found::Model(model) => assert_eq!(rt; model.values(), [true, true].as_slice()),
        _ => assert!(rt; false),
    }
    Ok(())
}

#[test]
fn passes_the_gate_at_each_clause_that_it_learns(rt: HostRuntime) -> Result<(), Fail> {
    let alloc = rt.alloc();
    let few = SolveOptions {
        conflicts: 5,
        ..DEFAULTS
    };
    let outcome = search_alone(&rt, alloc, &pigeons(alloc, 4)?, &few)?;
    assert!(rt; matches!(outcome.found, Found::Spent));
    assert_eq!(rt; outcome.passes, 5);
    assert_eq!(rt; learns(&outcome.diary)?, 5);
    Ok(())
}
