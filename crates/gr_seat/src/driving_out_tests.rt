// A clause driven out of the work list beside one that is taken, in a whole history made through seats
// on one thread.
ghost use Rattle.std.specs.Prelude.{◌≡◌, ◌+◌, [], ◌∷◌, ◌++◌, true, take, length, IfOk, OnOk, IfSome};
ghost use Rattle.gr_diary.specs.ExampleRuns.{pairs, shortening_run};
ghost use Rattle.gr_diary.specs.declared.entries.Entry.TheVariants.{Learn, Take, Forget};
ghost use Rattle.gr_seat.specs.Handles.{Enables};
ghost use Rattle.gr_seat.specs.Turns.{IsSameSeat, IsCounted};

use crate::run_tests::log_of;
use crate::shorter_tests::{count, import_one, take_alone};
use crate::tests::ids;
use crate::{ReducerSeat, Shared, SharedBench, SolverSeat};
use gr_bench::{Bench, BenchError, Closing, Imported};
use gr_logic::{Clause, Formula, Lit, OutOfMemory, Strengthened};
use std::alloc::Global;
use std::sync::Wait;
use std::test::Fail;

/// The lines `4 1 2 3 4 5 0 1 0`, `5 1 2 3 4 6 0 1 0`, `6 1 2 3 5 6 0 1 0`, `6 d 4 0`, `7 1 2 0 1 0` and
/// `7 d 5 0`: the clause that was taken leaves with what is given back, and that one stays.
const LOG: &str = "\
Add { id: 4, clause: Clause { lits: [Lit { code: 0 }, Lit { code: 2 }, Lit { code: 4 }, \
Lit { code: 6 }, Lit { code: 8 }] }, hints: Ids { ids: [1] } }\n\
Add { id: 5, clause: Clause { lits: [Lit { code: 0 }, Lit { code: 2 }, Lit { code: 4 }, \
Lit { code: 6 }, Lit { code: 10 }] }, hints: Ids { ids: [1] } }\n\
Add { id: 6, clause: Clause { lits: [Lit { code: 0 }, Lit { code: 2 }, Lit { code: 4 }, \
Lit { code: 8 }, Lit { code: 10 }] }, hints: Ids { ids: [1] } }\n\
Delete { id: 6, ids: Ids { ids: [4] } }\n\
Add { id: 7, clause: Clause { lits: [Lit { code: 0 }, Lit { code: 2 }] }, hints: Ids { ids: [1] } }\n\
Delete { id: 7, ids: Ids { ids: [5] } }\n";

/// The formula `1 2`, `3 4`, `5 6`.
fn pairs(alloc: Global) -> Result<Formula, OutOfMemory>
    ensures { IfOk result (λ formula. formula ≡ pairs) }
{
    let mut formula = Formula::new(alloc, 6);
    let [one, two] = [Lit::of_var(1, true), Lit::of_var(2, true)];
    let [three, four] = [Lit::of_var(3, true), Lit::of_var(4, true)];
    let [five, six] = [Lit::of_var(5, true), Lit::of_var(6, true)];
    formula.push(Clause::from_lits(alloc, &[one, two])?)?;
    formula.push(Clause::from_lits(alloc, &[three, four])?)?;
    formula.push(Clause::from_lits(alloc, &[five, six])?)?;
    Ok(formula)
}

/// A shared exchange over the formula, for one reducer, with room for two clauses on offer.
fn share_pairs(alloc: Global) -> Result<Shared, OutOfMemory>
    ensures lock { IfOk result (λ shared. shared.solver.lock ≡ shared.bench) }
    ensures formula { IfOk result (λ shared. shared.solver.formula ≡ pairs) }
    ensures sizes { IfOk result (λ shared.
        (shared.solver.reducers ≡ 1) × (shared.solver.capacity ≡ 2)) }
    ensures first { IfOk result (λ shared. (shared.solver.actor ≡ 0) × (shared.solver.seen ≡ [])) }
    ensures counts { IfOk result (λ shared. (shared.solver.splits ≡ 0) × (shared.solver.out ≡ 0)) }
{
    let formula = pairs(alloc)?;
    let bench = Bench::open(alloc, &formula, 1, 2)?;
    SharedBench::open(alloc, bench)
}

/// The searching thread offers a clause that the first one implies, with which there are so many entries.
fn offer_next<R: Wait>(
    rt: &R,
    alloc: Global,
    bench: &SharedBench,
    seat: &mut SolverSeat,
    clause: Clause,
    lbd: u32,
    entries: u64,
) -> Result<u64, Fail>
    requires lock { seat.old.lock ≡ bench.now }
    requires able { Enables seat.old (Learn clause (1 ∷ []) lbd true) }
    requires entries { entries ≡ length seat.old.seen + 1 }
    ensures same { IsSameSeat seat.old seat.new × IsCounted seat.old seat.new }
    ensures seen { IfOk result (λ _. seat.new.seen ≡ seat.old.seen ++ Learn clause (1 ∷ []) lbd true ∷ []) }
{
    let hints = ids(alloc, &[1])?;
    let id = bench.learn(rt, seat, clause, hints, lbd, true)?;
    if count(rt, bench, seat) != entries {
        return Err(Fail::from("other entries"));
    }
    Ok(id)
}

/// It offers three clauses, where two have room.
fn offer_all<R: Wait>(
    rt: &R,
    alloc: Global,
    bench: &SharedBench,
    seat: &mut SolverSeat,
) -> Result<(u64, u64, u64), Fail>
    requires at { (seat.old.lock ≡ bench.now) × (seat.old.formula ≡ pairs) }
    requires sizes { (seat.old.reducers ≡ 1) × (seat.old.capacity ≡ 2) }
    requires first { seat.old.seen ≡ [] }
    ensures same { IsSameSeat seat.old seat.new × IsCounted seat.old seat.new }
    ensures seen { IfOk result (λ _. seat.new.seen ≡ take 3 shortening_run) }
{
    let [one, two, three] = [
        Lit::of_var(1, true),
        Lit::of_var(2, true),
        Lit::of_var(3, true),
    ];
    let [four, five, six] = [
        Lit::of_var(4, true),
        Lit::of_var(5, true),
        Lit::of_var(6, true),
    ];
    let first = Clause::from_lits(alloc, &[one, two, three, four, five])?;
    let first_id = offer_next(rt, alloc, bench, seat, first, 5, 1)?;
    let second = Clause::from_lits(alloc, &[one, two, three, four, six])?;
    let second_id = offer_next(rt, alloc, bench, seat, second, 3, 2)?;
    let third = Clause::from_lits(alloc, &[one, two, three, five, six])?;
    let third_id = offer_next(rt, alloc, bench, seat, third, 4, 3)?;
    Ok((first_id, second_id, third_id))
}

/// It lets a clause go.
fn let_one_go<R: Wait>(
    rt: &R,
    alloc: Global,
    bench: &SharedBench,
    seat: &mut SolverSeat,
    id: u64,
) -> Result<(), BenchError>
    requires lock { seat.old.lock ≡ bench.now }
    requires held { Enables seat.old (Forget 0 (id ∷ [])) }
    ensures same { IsSameSeat seat.old seat.new × IsCounted seat.old seat.new }
{
    let gone = ids(alloc, &[id])?;
    bench.solver_forget(rt, seat, gone)
}

/// It lets the clause go that was driven out, and may let the taken one go then.
fn let_driven_out_go<R: Wait>(
    rt: &R,
    alloc: Global,
    bench: &SharedBench,
    seat: &mut SolverSeat,
) -> Result<(), BenchError>
    requires at { (seat.old.lock ≡ bench.now) × (seat.old.formula ≡ pairs) }
    requires sizes { (seat.old.reducers ≡ 1) × (seat.old.capacity ≡ 2) × (seat.old.actor ≡ 0) }
    requires third { seat.old.seen ≡ take 3 shortening_run }
    ensures same { IsSameSeat seat.old seat.new × IsCounted seat.old seat.new }
    ensures held { OnOk result (Enables seat.new (Forget 0 (5 ∷ []))) }
{
    let gone = ids(alloc, &[4])?;
    bench.solver_forget(rt, seat, gone)?;
    Ok(())
}

/// The reducer gives the part `1 2` of its clause back. It may let that go then.
fn give_pair<R: Wait>(
    rt: &R,
    alloc: Global,
    bench: &SharedBench,
    seat: &mut ReducerSeat,
) -> Result<Option<u64>, BenchError>
    requires at { (seat.old.lock ≡ bench.now) × (seat.old.formula ≡ pairs) }
    requires sizes { (seat.old.reducers ≡ 1) × (seat.old.capacity ≡ 2) × (seat.old.actor ≡ 1) }
    requires fourth { seat.old.seen ≡ take 3 shortening_run ++ Take seat.old.actor ∷ [] }
    ensures same { IsSameSeat seat.old seat.new }
    ensures held { IfOk result (λ id. IfSome id (λ id. Enables seat.new (Forget seat.new.actor (id ∷ [])))) }
{
    let _actor = seat.actor();
    let clause = Clause::from_lits(alloc, &[Lit::of_var(1, true), Lit::of_var(2, true)])?;
    let hints = ids(alloc, &[1])?;
    let id = bench.give_back(rt, seat, Strengthened::Shorter { clause, hints })?;
    Ok(id)
}

/// It lets a clause go.
fn let_part_go<R: Wait>(
    rt: &R,
    alloc: Global,
    bench: &SharedBench,
    seat: &mut ReducerSeat,
    id: u64,
) -> Result<(), BenchError>
    requires lock { seat.old.lock ≡ bench.now }
    requires held { Enables seat.old (Forget seat.old.actor (id ∷ [])) }
    ensures { IsSameSeat seat.old seat.new }
{
    let gone = ids(alloc, &[id])?;
    bench.reducer_forget(rt, seat, gone)
}

#[test]
fn a_clause_driven_out_goes_and_a_taken_one_stays(rt: HostRuntime) -> Result<(), Fail> {
    let alloc = rt.alloc();
    let Shared { bench, mut solver } = share_pairs(alloc)?;
    let offered = offer_all(&rt, alloc, &bench, &mut solver)?;
    let mut reducer = bench.reducer_seat(&mut solver);
    let taken = take_alone(&rt, &bench, &mut reducer, 4)?;
    assert_eq!(rt; (offered, taken.id), ((4, 5, 6), 5));
    let_driven_out_go(&rt, alloc, &bench, &mut solver)?;
    let_one_go(&rt, alloc, &bench, &mut solver, 5)?;
    let Some(shorter) = give_pair(&rt, alloc, &bench, &mut reducer)? else {
        return Err(Fail::from("no shorter clause"));
    };
    assert_eq!(rt; import_one(&rt, &bench, &mut solver)?, (Some(5), 7));
    assert!(rt; matches!(bench.import(&rt, &mut solver)?, Imported::Drained));
    let_part_go(&rt, alloc, &bench, &mut reducer, shorter)?;
    assert_eq!(rt; bench.close(&rt, &mut solver), Closing::Done);
    bench.join_reducer(&mut solver, reducer);
    let diary = bench.finish(solver).into_diary();
    assert_eq!(rt; (shorter, diary.len()), (7, 11));
    assert_eq!(rt; log_of(alloc, &diary)?.as_str(), LOG);
    Ok(())
}
