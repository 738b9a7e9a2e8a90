// A clause given back shorter, in a whole history made through seats on one thread.
ghost use Rattle.std.specs.Prelude.{◌≡◌, ◌+◌, [], ◌∷◌, ◌++◌, take, length, IfOk};
ghost use mathlib.Core.List.{IsPrefix};
ghost use Rattle.gr_diary.specs.ExampleRuns.{skips, skipping_run};
ghost use Rattle.gr_diary.specs.declared.entries.Entry.TheVariants.{Take};
ghost use Rattle.gr_diary.specs.Histories.{entries_of};
ghost use Rattle.gr_seat.specs.Handles.{Enables};
ghost use Rattle.gr_seat.specs.Turns.{IsSameSeat, IsCounted};

use crate::run_tests::{log_of, offer_three, skips};
use crate::tests::{ids, share};
use crate::{ReducerSeat, Shared, SharedBench, SolverSeat};
use gr_bench::{BenchError, Closing, Imported, TakeError, Taken};
use gr_logic::{Clause, Lit, Strengthened};
use std::alloc::Global;
use std::sync::Wait;
use std::test::Fail;

/// How many entries there are by now: a turn that makes none.
pub(crate) fn count<R: Wait>(rt: &R, bench: &SharedBench, seat: &mut SolverSeat) -> u64
    requires { seat.old.lock ≡ bench.now }
    ensures same { IsSameSeat seat.old seat.new × IsCounted seat.old seat.new }
    ensures seen { IsPrefix seat.old.seen seat.new.seen }
    ensures all { result ≡ length seat.new.seen }
{
    let held = bench.turn.enter(rt, &mut seat.seat);
    let count = held.value().bench.diary().len();
    bench.turn.leave(&mut seat.seat, held, false);
    count
}

/// The same at a reducer's seat.
fn count_too<R: Wait>(rt: &R, bench: &SharedBench, seat: &mut ReducerSeat) -> u64
    requires { seat.old.lock ≡ bench.now }
    ensures same { IsSameSeat seat.old seat.new }
    ensures seen { IsPrefix seat.old.seen seat.new.seen }
    ensures all { result ≡ length seat.new.seen }
{
    let held = bench.turn.enter(rt, &mut seat.seat);
    let count = held.value().bench.diary().len();
    bench.turn.leave(&mut seat.seat, held, false);
    count
}

/// The searching thread offers `1 2 3`, the first entry.
fn offer_alone<R: Wait>(
    rt: &R,
    alloc: Global,
    bench: &SharedBench,
    seat: &mut SolverSeat,
) -> Result<u64, Fail>
    requires at { (seat.old.lock ≡ bench.now) × (seat.old.formula ≡ skips) }
    requires first { seat.old.seen ≡ [] }
    ensures same { IsSameSeat seat.old seat.new × IsCounted seat.old seat.new }
    ensures seen { IfOk result (λ _. seat.new.seen ≡ take 1 skipping_run) }
{
    let id = offer_three(rt, alloc, bench, seat)?;
    if count(rt, bench, seat) != 1 {
        return Err(Fail::from("other entries"));
    }
    Ok(id)
}

/// A reducer takes a clause for the first time, with which there are so many entries.
pub(crate) fn take_alone<R: Wait>(
    rt: &R,
    bench: &SharedBench,
    seat: &mut ReducerSeat,
    entries: u64,
) -> Result<Taken, Fail>
    requires lock { seat.old.lock ≡ bench.now }
    requires none { entries_of seat.old.seen seat.old.actor ≡ [] }
    requires entries { entries ≡ length seat.old.seen + 1 }
    ensures same { IsSameSeat seat.old seat.new }
    ensures seen { IfOk result (λ _. seat.new.seen ≡ seat.old.seen ++ Take seat.old.actor ∷ []) }
{
    let _actor = seat.actor();
    let taken = bench.take(rt, seat)?;
    if count_too(rt, bench, seat) != entries {
        return Err(Fail::from("other entries"));
    }
    Ok(taken)
}

/// It gives the part `1 3` of its clause back. It may take another clause then.
fn give_shorter<R: Wait>(
    rt: &R,
    alloc: Global,
    bench: &SharedBench,
    seat: &mut ReducerSeat,
) -> Result<Option<u64>, BenchError>
    requires at { (seat.old.lock ≡ bench.now) × (seat.old.formula ≡ skips) }
    requires sizes { (seat.old.reducers ≡ 1) × (seat.old.capacity ≡ 1) × (seat.old.actor ≡ 1) }
    requires third { seat.old.seen ≡ take 1 skipping_run ++ Take seat.old.actor ∷ [] }
    ensures same { IsSameSeat seat.old seat.new }
    ensures free { IfOk result (λ _. Enables seat.new (Take seat.new.actor)) }
{
    let _actor = seat.actor();
    let clause = Clause::from_lits(alloc, &[Lit::of_var(1, true), Lit::of_var(3, true)])?;
    let hints = ids(alloc, &[1, 2, 3])?;
    let id = bench.give_back(rt, seat, Strengthened::Shorter { clause, hints })?;
    Ok(id)
}

/// The lines so far: a turn that makes no entry.
fn log_so_far<R: Wait>(
    rt: &R,
    alloc: Global,
    bench: &SharedBench,
    seat: &mut SolverSeat,
) -> Result<String, Fail>
    requires { seat.old.lock ≡ bench.now }
    ensures { IsSameSeat seat.old seat.new × IsCounted seat.old seat.new }
{
    let held = bench.turn.enter(rt, &mut seat.seat);
    let told = log_of(alloc, held.value().bench.diary());
    bench.turn.leave(&mut seat.seat, held, false);
    told
}

/// The searching thread takes a result over: the id that it stands for, and its own.
pub(crate) fn import_one<R: Wait>(
    rt: &R,
    bench: &SharedBench,
    seat: &mut SolverSeat,
) -> Result<(Option<u64>, u64), Fail>
    requires { seat.old.lock ≡ bench.now }
    ensures { IsSameSeat seat.old seat.new × IsCounted seat.old seat.new }
{
    match bench.import(rt, seat)? {
        Imported::Import { old, new, .. } => Ok((old, new)),
        Imported::Drained => Err(Fail::from("no result")),
    }
}

/// It ends the history, and tries once more.
fn close_twice<R: Wait>(rt: &R, bench: &SharedBench, seat: &mut SolverSeat) -> (Closing, Closing)
    requires { seat.old.lock ≡ bench.now }
    ensures { IsSameSeat seat.old seat.new × IsCounted seat.old seat.new }
{
    let first = bench.close(rt, seat);
    (first, bench.close(rt, seat))
}

#[test]
fn a_shorter_clause_stands_for_the_one_that_was_taken(rt: HostRuntime) -> Result<(), Fail> {
    let alloc = rt.alloc();
    let formula = skips(alloc)?;
    let Shared { bench, mut solver } = share(alloc, &formula, 1)?;
    let offered = offer_alone(&rt, alloc, &bench, &mut solver)?;
    let mut reducer = bench.reducer_seat(&mut solver);
    let taken = take_alone(&rt, &bench, &mut reducer, 2)?;
    let shorter = give_shorter(&rt, alloc, &bench, &mut reducer)?;
    assert_eq!(rt; (offered, taken.id, shorter), (4, 4, Some(5)));
    // The lines `4 1 2 3 0 2 3 0` and `5 1 3 0 1 2 3 0`: the searching thread holds 4 still.
    let wanted =
        "Add { id: 4, clause: Clause { lits: [Lit { code: 0 }, Lit { code: 2 }, Lit { code: 4 }] }, \
        hints: Ids { ids: [2, 3] } }\n\
        Add { id: 5, clause: Clause { lits: [Lit { code: 0 }, Lit { code: 4 }] }, hints: Ids { ids: [1, 2, 3] } }\n";
    assert_eq!(rt;
        log_so_far(&rt, alloc, &bench, &mut solver)?.as_str(),
        wanted
    );
    assert_eq!(rt; import_one(&rt, &bench, &mut solver)?, (Some(4), 5));
    assert_eq!(rt;
        close_twice(&rt, &bench, &mut solver),
        (Closing::Done, Closing::Already)
    );
    assert!(rt; matches!(bench.take(&rt, &mut reducer), Err(TakeError::Closed)));
    // And the line `5 d 4 0`.
    let wanted =
        "Add { id: 4, clause: Clause { lits: [Lit { code: 0 }, Lit { code: 2 }, Lit { code: 4 }] }, \
        hints: Ids { ids: [2, 3] } }\n\
        Add { id: 5, clause: Clause { lits: [Lit { code: 0 }, Lit { code: 4 }] }, hints: Ids { ids: [1, 2, 3] } }\n\
        Delete { id: 5, ids: Ids { ids: [4] } }\n";
    assert_eq!(rt;
        log_so_far(&rt, alloc, &bench, &mut solver)?.as_str(),
        wanted
    );
    Ok(())
}
