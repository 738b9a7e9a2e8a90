// What a reducer that ends early leaves, in a whole history made through seats on one thread.
ghost use Rattle.std.specs.Prelude.{◌≡◌, ◌+◌, ◌∷◌, [], true, IfOk};
ghost use Rattle.gr_diary.specs.Examples.{plus};
ghost use Rattle.gr_diary.specs.ExampleRuns.{skips};
ghost use Rattle.gr_diary.specs.declared.entries.Entry.TheVariants.{Learn, Forget};
ghost use Rattle.gr_seat.specs.Handles.{Enables, HasSameExchange};
ghost use Rattle.gr_seat.specs.Turns.{IsSameSeat, IsCounted, Makes};

use crate::tests::{ids, share};
use crate::{ReducerSeat, Shared, SharedBench, SolverSeat};
use gr_bench::{BenchError, Closing, TakeError, Taken};
use gr_diary::Diary;
use gr_logic::{Clause, Formula, Lit, OutOfMemory};
use std::alloc::Global;
use std::sync::Wait;
use std::test::Fail;

/// The formula `1 -2`, `1 2 3 4`, `1 2 3 -4`.
pub(crate) fn skips(alloc: Global) -> Result<Formula, OutOfMemory>
    ensures { IfOk result (λ formula. formula ≡ skips) }
{
    let mut formula = Formula::new(alloc, 4);
    let [one, two] = [Lit::of_var(1, true), Lit::of_var(2, true)];
    let [three, four] = [Lit::of_var(3, true), Lit::of_var(4, true)];
    formula.push(Clause::from_lits(alloc, &[one, two.negate()])?)?;
    formula.push(Clause::from_lits(alloc, &[one, two, three, four])?)?;
    formula.push(Clause::from_lits(alloc, &[one, two, three, four.negate()])?)?;
    Ok(formula)
}

/// The searching thread offers `1 2 3`, the first that it does. It may let the clause go from then on.
pub(crate) fn offer_three<R: Wait>(
    rt: &R,
    alloc: Global,
    bench: &SharedBench,
    seat: &mut SolverSeat,
) -> Result<u64, BenchError>
    requires at { (seat.old.lock ≡ bench.now) × (seat.old.formula ≡ skips) }
    requires first { seat.old.seen ≡ [] }
    ensures same { IsSameSeat seat.old seat.new × IsCounted seat.old seat.new }
    ensures held { IfOk result (λ id. Enables seat.new (Forget 0 (id ∷ []))) }
    ensures made { IfOk result (λ id. Makes seat.old seat.new
        (Learn (plus 1 ∷ plus 2 ∷ plus 3 ∷ []) (2 ∷ 3 ∷ []) 2 true) (λ s. id ≡ s.next)) }
{
    let lits = [
        Lit::of_var(1, true),
        Lit::of_var(2, true),
        Lit::of_var(3, true),
    ];
    let clause = Clause::from_lits(alloc, &lits)?;
    let hints = ids(alloc, &[2, 3])?;
    let id = bench.learn(rt, seat, clause, hints, 2, true)?;
    Ok(id)
}

/// A reducer that has seen nothing takes the clause on offer.
fn take_three<R: Wait>(
    rt: &R,
    bench: &SharedBench,
    seat: &mut ReducerSeat,
) -> Result<Taken, TakeError>
    requires lock { seat.old.lock ≡ bench.now }
    requires first { seat.old.seen ≡ [] }
    ensures { IsSameSeat seat.old seat.new }
{
    let _actor = seat.actor();
    bench.take(rt, seat)
}

/// The searching thread takes a reducer's seat back. What it might let go before, it may let go still.
fn join_holding(bench: &SharedBench, solver: &mut SolverSeat, reducer: ReducerSeat, id: u64)
    requires at { (solver.old.lock ≡ bench.now) × (reducer.lock ≡ bench.now) }
    requires same { HasSameExchange solver.old reducer }
    requires held { Enables solver.old (Forget 0 (id ∷ [])) }
    ensures same { IsSameSeat solver.old solver.new }
    ensures fewer { solver.new.out + 1 ≡ solver.old.out }
    ensures held { Enables solver.new (Forget 0 (id ∷ [])) }
{
    let _actor = solver.actor();
    bench.join_reducer(solver, reducer);
}

/// It lets the clause go, and ends the history.
fn let_go<R: Wait>(
    rt: &R,
    alloc: Global,
    bench: &SharedBench,
    seat: &mut SolverSeat,
    id: u64,
) -> Result<Closing, BenchError>
    requires lock { seat.old.lock ≡ bench.now }
    requires held { Enables seat.old (Forget 0 (id ∷ [])) }
    ensures { IsSameSeat seat.old seat.new × IsCounted seat.old seat.new }
{
    let gone = ids(alloc, &[id])?;
    bench.solver_forget(rt, seat, gone)?;
    Ok(bench.close(rt, seat))
}

/// The lines of the proof log, one below the other.
pub(crate) fn log_of(alloc: Global, diary: &Diary) -> Result<String, Fail> {
    let mut told = String::new(alloc);
    let mut lines = diary.lines();
    for _ in 0..1000 {
        match lines.next()? {
            Some(line) => {
                let text = format!(in alloc; "{line:?}\n")?;
                told.push_str(&text)?;
            }
            None => break,
        }
    }
    Ok(told)
}

#[test]
fn what_an_ended_reducer_has_taken_stays(rt: HostRuntime) -> Result<(), Fail> {
    let alloc = rt.alloc();
    let formula = skips(alloc)?;
    let Shared { bench, mut solver } = share(alloc, &formula, 1)?;
    let mut reducer = bench.reducer_seat(&mut solver);
    let id = offer_three(&rt, alloc, &bench, &mut solver)?;
    let taken = take_three(&rt, &bench, &mut reducer)?;
    assert_eq!(rt; (id, taken.id), (4, 4));
    join_holding(&bench, &mut solver, reducer, id);
    assert_eq!(rt; let_go(&rt, alloc, &bench, &mut solver, id)?, Closing::Done);
    let diary = bench.finish(solver).into_diary();
    assert_eq!(rt; diary.len(), 4);
    // The line `4 1 2 3 0 2 3 0` alone: no line deletes 4, since the reducer holds it.
    let wanted =
        "Add { id: 4, clause: Clause { lits: [Lit { code: 0 }, Lit { code: 2 }, Lit { code: 4 }] }, \
        hints: Ids { ids: [2, 3] } }\n";
    assert_eq!(rt; log_of(alloc, &diary)?.as_str(), wanted);
    Ok(())
}
