// What a reducer does on one thread, where it ends.
ghost use Rattle.std.specs.Prelude.{◌≡◌, OnOk};
ghost use Rattle.gr_seat.specs.Handles.{HasSeenLegal};
ghost use Rattle.gr_seat.specs.Turns.{SeesMore};

use crate::{Ended, work};
use gr_bench::Bench;
use gr_diary::Entry;
use gr_io::Open;
use gr_logic::{Clause, Formula, Ids, Lit};
use gr_seat::{Shared, SharedBench, SolverSeat};
use std::alloc::Global;
use std::sync::Wait;
use std::test::Fail;

/// The clauses 1, -1 2, 3 4, 3 -4, -3 5 and -3 -5: unit propagation derives 2, and refutes them once -3 is known.
fn trap(alloc: Global) -> Result<Formula, Fail> {
    let mut formula = Formula::new(alloc, 5);
    formula.push(Clause::from_lits(alloc, &[Lit::of_var(1, true)])?)?;
    formula.push(Clause::from_lits(alloc, &[Lit::of_var(1, false), Lit::of_var(2, true)])?)?;
    formula.push(Clause::from_lits(alloc, &[Lit::of_var(3, true), Lit::of_var(4, true)])?)?;
    formula.push(Clause::from_lits(alloc, &[Lit::of_var(3, true), Lit::of_var(4, false)])?)?;
    formula.push(Clause::from_lits(alloc, &[Lit::of_var(3, false), Lit::of_var(5, true)])?)?;
    formula.push(Clause::from_lits(alloc, &[Lit::of_var(3, false), Lit::of_var(5, false)])?)?;
    Ok(formula)
}

/// Learns a clause of two variables that the formula has, and offers it.
fn offer<R: Wait>(
    rt: &R,
    alloc: Global,
    bench: &SharedBench,
    solver: &mut SolverSeat,
    formula: &Formula,
    index: usize,
) -> Result<(), Fail>
    requires lock { solver.old.lock ≡ bench.now }
    requires formula { solver.old.formula ≡ formula.now }
    requires legal { HasSeenLegal solver.old }
    ensures { OnOk result (SeesMore solver.old solver.new) }
{
    let clauses = formula.clauses();
    if clauses.len() <= index {
        return Err(Fail::from("no clause"));
    }
    match clauses[index].lits() {
        [one, other] if one.var() != other.var() => {
            let mut hints = Ids::new(alloc);
            hints.push(index as u64 + 1)?;
            bench.learn(
                rt,
                solver,
                Clause::from_lits(alloc, &[*one, *other])?,
                hints,
                2,
                true,
            )?;
            Ok(())
        }
        _ => Err(Fail::from("no clause of two variables")),
    }
}

#[test]
fn ends_at_once_where_the_exchange_is_closed(rt: HostRuntime) -> Result<(), Fail> {
    let alloc = rt.alloc();
    let formula = trap(alloc)?;
    let bench = Bench::open(alloc, &formula, 1, 1)?;
    let Shared { bench, mut solver } = SharedBench::open(alloc, bench)?;
    let reducer = bench.reducer_seat(&mut solver);
    let _closing = bench.close(&rt, &mut solver);
    let finished = work(&rt, alloc, &bench, reducer, &formula, &Open);
    assert_eq!(rt; finished.ended, Ended::Closed);
    bench.join_reducer(&mut solver, finished.seat);
    assert_eq!(rt; bench.finish(solver).diary().len(), 1);
    Ok(())
}

// The clause -3 5 is the latest. Strengthened to -3 and kept, it makes the other one empty, and this ends the history.
#[test]
fn shares_a_unit_and_gives_back_shorter_clauses(rt: HostRuntime) -> Result<(), Fail> {
    let alloc = rt.alloc();
    let formula = trap(alloc)?;
    let bench = Bench::open(alloc, &formula, 1, 2)?;
    let Shared { bench, mut solver } = SharedBench::open(alloc, bench)?;
    let reducer = bench.reducer_seat(&mut solver);
    offer(&rt, alloc, &bench, &mut solver, &formula, 2)?;
    offer(&rt, alloc, &bench, &mut solver, &formula, 4)?;
    let finished = work(&rt, alloc, &bench, reducer, &formula, &Open);
    assert_eq!(rt; finished.ended, Ended::Closed);
    bench.join_reducer(&mut solver, finished.seat);
    let bench = bench.finish(solver);
    let kinds = ["learn", "learn", "take", "unit", "return", "take", "return"];
    assert_eq!(rt; bench.diary().len(), 7);
    for index in 0..7usize {
        assert_eq!(rt; kind_of(&bench.diary().get(index as u64)?), kinds[index]);
    }
    Ok(())
}

fn kind_of(entry: &Entry) -> &'static str {
    match entry {
        Entry::Learn { .. } => "learn",
        Entry::Take { actor: 1 } => "take",
        Entry::Unit { actor: 1, .. } => "unit",
        Entry::Return { actor: 1, .. } => "return",
        _ => "another",
    }
}
