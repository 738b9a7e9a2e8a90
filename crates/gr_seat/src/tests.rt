// Seats on one thread: what each call answers.
ghost use Rattle.std.specs.Prelude.{◌≡◌, ◌≤◌, [], IfOk};
ghost use Rattle.gr_diary.specs.Examples.{chain};

use crate::{ReducerSeat, Shared, SharedBench, SolverSeat};
use gr_bench::{Bench, BenchError, Closing, Imported, TakeError, Taken};
use gr_logic::{Clause, Formula, Ids, Lit, OutOfMemory};
use std::alloc::Global;
use std::sync::Wait;
use std::test::Fail;

/// The formula `1`, `-1 2`, `3 4 -2`.
pub(crate) fn chain(alloc: Global) -> Result<Formula, OutOfMemory>
    ensures { IfOk result (λ formula. formula ≡ chain) }
{
    let mut formula = Formula::new(alloc, 4);
    let [one, two] = [Lit::of_var(1, true), Lit::of_var(2, true)];
    let [three, four] = [Lit::of_var(3, true), Lit::of_var(4, true)];
    formula.push(Clause::from_lits(alloc, &[one])?)?;
    formula.push(Clause::from_lits(alloc, &[one.negate(), two])?)?;
    formula.push(Clause::from_lits(alloc, &[three, four, two.negate()])?)?;
    Ok(formula)
}

pub(crate) fn ids(alloc: Global, numbers: &[u64]) -> Result<Ids, OutOfMemory>
    ensures { IfOk result (λ ids. ids ≡ numbers.now) }
{
    Ok(Ids::from_vec(numbers.to_vec(alloc)?))
}

/// Shares an exchange over the formula, for so many reducers, with room for one clause on offer.
pub(crate) fn share(alloc: Global, formula: &Formula, reducers: u32) -> Result<Shared, OutOfMemory>
    requires { reducers ≤ 8 }
    ensures lock { IfOk result (λ shared. shared.solver.lock ≡ shared.bench) }
    ensures formula { IfOk result (λ shared. shared.solver.formula ≡ formula.now) }
    ensures sizes { IfOk result (λ shared. (shared.solver.reducers ≡ reducers) × (shared.solver.capacity ≡ 1)) }
    ensures first { IfOk result (λ shared. (shared.solver.actor ≡ 0) × (shared.solver.seen ≡ [])) }
    ensures counts { IfOk result (λ shared. (shared.solver.splits ≡ 0) × (shared.solver.out ≡ 0)) }
{
    let bench = Bench::open(alloc, formula, reducers, 1)?;
    SharedBench::open(alloc, bench)
}

/// The searching thread offers `3 4`, whatever it and others did before.
#[tactic(auto, using(crate::proofs::Runs::offer_stays))]
pub(crate) fn offer<R: Wait>(
    rt: &R,
    alloc: Global,
    bench: &SharedBench,
    seat: &mut SolverSeat,
) -> Result<u64, BenchError>
    requires at { (seat.old.lock ≡ bench.now) × (seat.old.formula ≡ chain) }
    ensures at { (seat.new.lock ≡ bench.now) × (seat.new.formula ≡ chain) }
{
    let _actor = seat.actor();
    let lits = [Lit::of_var(3, true), Lit::of_var(4, true)];
    let clause = Clause::from_lits(alloc, &lits)?;
    let hints = ids(alloc, &[1, 2, 3])?;
    bench.learn(rt, seat, clause, hints, 2, true)
}

/// It adds the unit clause `2`.
#[tactic(auto, using(crate::proofs::Runs::two_stays))]
pub(crate) fn add_two<R: Wait>(
    rt: &R,
    alloc: Global,
    bench: &SharedBench,
    seat: &mut SolverSeat,
) -> Result<u64, BenchError>
    requires at { (seat.old.lock ≡ bench.now) × (seat.old.formula ≡ chain) }
    ensures at { (seat.new.lock ≡ bench.now) × (seat.new.formula ≡ chain) }
{
    let hints = ids(alloc, &[1, 2])?;
    let _actor = seat.actor();
    bench.solver_unit(rt, seat, Lit::of_var(2, true), hints)
}

/// So does a reducer.
#[tactic(auto, using(crate::proofs::Runs::two_stays))]
pub(crate) fn share_two<R: Wait>(
    rt: &R,
    alloc: Global,
    bench: &SharedBench,
    seat: &mut ReducerSeat,
) -> Result<u64, BenchError>
    requires at { (seat.old.lock ≡ bench.now) × (seat.old.formula ≡ chain) }
    ensures at { (seat.new.lock ≡ bench.now) × (seat.new.formula ≡ chain) }
{
    let _actor = seat.actor();
    let hints = ids(alloc, &[1, 2])?;
    bench.reducer_unit(rt, seat, Lit::of_var(2, true), hints)
}

/// A reducer that has seen nothing takes a clause, and waits while none is on offer.
pub(crate) fn take_first<R: Wait>(
    rt: &R,
    bench: &SharedBench,
    seat: &mut ReducerSeat,
) -> Result<Taken, BenchError>
    requires at { (seat.old.lock ≡ bench.now) × (seat.old.formula ≡ chain) }
    requires first { seat.old.seen ≡ [] }
    ensures at { (seat.new.lock ≡ bench.now) × (seat.new.formula ≡ chain) }
{
    let _actor = seat.actor();
    bench.next_work(rt, seat)
}

#[test]
fn nothing_is_taken_before_an_offer_or_after_the_end(rt: HostRuntime) -> Result<(), Fail> {
    let formula = chain(rt.alloc())?;
    let Shared { bench, mut solver } = share(rt.alloc(), &formula, 2)?;
    let mut early = bench.reducer_seat(&mut solver);
    let mut late = bench.reducer_seat(&mut solver);
    assert!(rt; matches!(bench.take(&rt, &mut early), Err(TakeError::Idle)));
    assert!(rt; matches!(bench.import(&rt, &mut solver)?, Imported::Drained));
    assert_eq!(rt; bench.close(&rt, &mut solver), Closing::Done);
    assert_eq!(rt; bench.close(&rt, &mut solver), Closing::Already);
    assert!(rt; matches!(take_first(&rt, &bench, &mut late), Err(BenchError::Closed)));
    Ok(())
}
