// A run with reducers, each in a thread of its own where one can be made.
ghost use Rattle.std.specs.Prelude.{◌≡◌, [], IfOk, All, vec_len};
ghost use Rattle.std.specs.Thread.{IsSync};
ghost use Rattle.gr_diary.specs.Histories.{IsClosed, entries_of};
ghost use Rattle.gr_seat.specs.Handles.{HasSameExchange};
ghost use Rattle.gr_run.specs.Beside.{IsUnused, IsUnusedBy, AllSeeMore, HasSearched, HasDiary};
ghost use Rattle.gr_run.specs.Offers.{IsOfferedUpTo};
ghost use Rattle.gr_run.specs.Results.{AreInRange, IsRan};

use crate::options::SolveOptions;
use crate::results::{Ran, report};
use crate::searching::{Searched, search_on};
use crate::seating::{join_all, seat_all};
use crate::working::work_all;
use gr_bench::Bench;
use gr_diary::Diary;
use gr_io::Gate;
use gr_logic::{Formula, OutOfMemory};
use gr_seat::{ReducerSeat, Shared, SharedBench, SolverSeat};
use std::alloc::{AllocError, Global};
use std::sync::Wait;
use std::thread::{Threads, join};

/// Solves a formula beside so many reducers, each in a thread of its own where one can be made. No thread is left when
/// it answers.
pub fn solve_shared<R: Threads + Wait + Sync, G: Gate>(
    rt: &R,
    alloc: Global,
    formula: &Formula,
    options: &SolveOptions,
    gate: &G,
) -> Result<Ran, OutOfMemory>
    requires in_range { AreInRange options.now }
    ensures ran { IfOk result (λ ran. IsRan formula.now options.now ran) }
    ensures offered { IfOk result (λ ran. All (IsOfferedUpTo options.now.offer) ran.diary.entries) }
{
    // The formula's clauses say that there are few, so that the log's ids can be written.
    let _few = formula.clauses();
    let bench = Bench::open(alloc, formula, options.reducers, options.capacity)?;
    let Shared { bench, mut solver } = SharedBench::open(alloc, bench)?;
    let seats = seat_all(alloc, &bench, &mut solver, options.reducers)?;
    let (seats, searched) = run_beside(rt, alloc, &bench, solver, seats, formula, options, gate);
    let Searched { seat, found } = searched;
    let diary = diary_of(bench, seat, seats?);
    Ok(report(alloc, found?, diary))
}

/// The reducers' work and the search, beside each other where a thread can be made.
fn run_beside<R: Threads + Wait + Sync, G: Gate>(
    rt: &R,
    alloc: Global,
    bench: &SharedBench,
    solver: SolverSeat,
    seats: Vec<ReducerSeat>,
    formula: &Formula,
    options: &SolveOptions,
    gate: &G,
) -> (Result<Vec<ReducerSeat>, AllocError>, Searched)
    requires solver { IsUnusedBy bench.now formula.now 0 solver }
    requires options { AreInRange options.now }
    requires all { vec_len seats ≡ options.now.reducers }
    requires unused { All (IsUnused bench.now formula.now) seats.items }
    ensures len { IfOk result.0 (λ back. vec_len back ≡ vec_len seats) }
    ensures each { IfOk result.0 (λ back. AllSeeMore seats.items back.items) }
    ensures searched { HasSearched options.now solver result.1 }
{
    // Where no thread can be made, the first half runs last. So it is the reducers' work, which then finds the
    // exchange closed, and ends.
    join(
        rt,
        move || -> Result<Vec<ReducerSeat>, AllocError>
            requires { IsSync R.row × IsSync G.row × All (IsUnused bench.now formula.now) seats.items }
            ensures { IfOk result (λ back. (vec_len back ≡ vec_len seats) × AllSeeMore seats.items back.items) }
        { work_all(rt, alloc, bench, seats, formula, gate) },
        move || -> Searched
            requires { IsSync R.row × IsSync G.row × IsUnusedBy bench.now formula.now 0 solver
                × AreInRange options.now }
            ensures { HasSearched options.entry.now solver result }
        { search_on(rt, alloc, bench, solver, formula, options, gate) },
    )
}

/// Takes the reducers' seats back, and gives the history of the exchange, which the searching thread has closed.
fn diary_of(bench: SharedBench, solver: SolverSeat, seats: Vec<ReducerSeat>) -> Diary
    requires lock { solver.lock ≡ bench }
    requires closed { IsClosed solver.seen }
    requires beside { All (HasSameExchange solver) seats.items }
    requires out { solver.out ≡ vec_len seats }
    ensures { HasDiary solver result }
{
    let mut solver = solver;
    join_all(&bench, &mut solver, seats);
    bench.finish(solver).into_diary()
}
