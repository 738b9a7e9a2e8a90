// Reducers on threads of their own beside a searching thread, and the history that they make.
ghost use Rattle.std.specs.Prelude.{◌≡◌, ◌≤◌, [], All, IfOk};
ghost use Rattle.std.specs.Thread.{IsSync};
ghost use Rattle.gr_diary.specs.Examples.{chain};
ghost use Rattle.gr_seat.specs.Handles.{Handle};

use crate::tests::{add_two, chain, offer, share, share_two, take_first};
use crate::{ReducerSeat, Shared, SharedBench, SolverSeat};
use gr_diary::{Diary, Entry};
use std::alloc::{AllocError, Global};
use std::sync::Wait;
use std::sync::atomic::{AtomicU64, Ordering};
use std::test::Fail;
use std::thread;
use std::thread::{Threads, join, map_vec};

/// How many clauses each of them adds.
const CLAUSES: u32 = 30;

/// How often one looks for what another is to do.
const LONG: u32 = 10_000_000;

/// A call: whose it was, and the id of the clause that it added, or 0.
#[derive(Clone, Copy)]
struct Call {
    actor: u32,
    id: u64,
}

/// How many reducers have taken a clause, and how many have added all of their own.
#[derive(Drop)]
struct Progress {
    taken: AtomicU64,
    done: AtomicU64,
}

/// Seats for so many reducers, before anything was done.
fn seat_all(
    alloc: Global,
    bench: &SharedBench,
    solver: &mut SolverSeat,
    reducers: u32,
) -> Result<Vec<ReducerSeat>, AllocError>
    requires at { (solver.old.lock ≡ bench.now) × (solver.old.formula ≡ chain) }
    requires reducers { (solver.old.reducers ≡ reducers) × (solver.old.splits ≡ 0) }
    requires first { solver.old.seen ≡ [] }
    ensures at { (solver.new.lock ≡ bench.now) × (solver.new.formula ≡ chain) }
    ensures seats { IfOk result (λ seats.
        All (λ (h : Handle). (h.lock ≡ bench.now) × (h.formula ≡ chain) × (h.seen ≡ [])) seats.items) }
{
    let mut seats = Vec::new(alloc);
    for _ in 0..reducers {
        let seat = bench.reducer_seat(solver);
        seats.push(seat)?;
    }
    Ok(seats)
}

/// Yields until the count is that high, or for so many looks.
fn wait_for(count: &AtomicU64, least: u64, looks: u32) {
    for _ in 0..looks {
        if count.load(Ordering::SeqCst) >= least {
            break;
        }
        thread::yield_now();
    }
}

/// A reducer waits for a clause, and once it has taken one, adds its own. The ids by call: none where
/// the end came first.
fn reduce<R: Wait>(
    rt: &R,
    alloc: Global,
    bench: &SharedBench,
    mut seat: ReducerSeat,
    progress: &Progress,
) -> Option<Vec<u64>>
    requires at { (seat.lock ≡ bench.now) × (seat.formula ≡ chain) }
    requires first { seat.seen ≡ [] }
{
    let mut told = Vec::new(alloc);
    if take_first(rt, bench, &mut seat).is_err() {
        return Some(told);
    }
    progress.taken.fetch_add(1, Ordering::SeqCst);
    told.push(0).ok()?;
    for _ in 0..CLAUSES {
        let id = share_two(rt, alloc, bench, &mut seat).ok()?;
        told.push(id).ok()?;
    }
    progress.done.fetch_add(1, Ordering::SeqCst);
    Some(told)
}

/// The searching thread offers a clause to each of so many reducers, one by one, and adds its own. The ids by call.
fn offer_to<R: Wait>(
    rt: &R,
    alloc: Global,
    bench: &SharedBench,
    seat: &mut SolverSeat,
    reducers: u64,
    progress: &Progress,
) -> Option<Vec<u64>>
    requires at { (seat.old.lock ≡ bench.now) × (seat.old.formula ≡ chain) }
    ensures at { (seat.new.lock ≡ bench.now) × (seat.new.formula ≡ chain) }
{
    let mut told = Vec::new(alloc);
    'offers: for before in 0..reducers {
        let id = offer(rt, alloc, bench, seat).ok()?;
        told.push(id).ok()?;
        wait_for(&progress.taken, before + 1, LONG);
    }
    'clauses: for _ in 0..CLAUSES {
        let id = add_two(rt, alloc, bench, seat).ok()?;
        told.push(id).ok()?;
    }
    Some(told)
}

/// The searching thread offers a clause to each reducer but one, and ends the history once these have added theirs. The
/// ids of its own calls, and all calls.
fn search<R: Wait>(
    rt: &R,
    alloc: Global,
    bench: &SharedBench,
    mut seat: SolverSeat,
    reducers: u32,
    progress: &Progress,
) -> Option<(Vec<u64>, Vec<Call>)>
    requires at { (seat.lock ≡ bench.now) × (seat.formula ≡ chain) }
{
    let takers = reducers.saturating_sub(1) as u64;
    // The reducers fall asleep.
    wait_for(&progress.taken, 1, 20_000);
    let told = offer_to(rt, alloc, bench, &mut seat, takers, progress);
    wait_for(&progress.done, takers, LONG);
    bench.close(rt, &mut seat);
    let held = bench.turn.enter(rt, &mut seat.seat);
    let calls = calls_in(alloc, held.value().bench.diary());
    bench.turn.leave(&mut seat.seat, held, false);
    Some((told?, calls?))
}

/// The calls of a history but the one that ends it. The ids begin at 4.
fn calls_in(alloc: Global, diary: &Diary) -> Option<Vec<Call>> {
    let mut calls = Vec::new(alloc);
    let mut next = 4u64;
    for place in 0..diary.len() {
        let (actor, adds) = match diary.get(place).ok()? {
            Entry::Learn { .. } => (0, true),
            Entry::Unit { actor, .. } => (actor, true),
            Entry::Take { actor } => (actor, false),
            Entry::Close => continue,
            _ => return None,
        };
        let id = if adds { next } else { 0 };
        next = next.saturating_add(adds as u64);
        calls.push(Call { actor, id }).ok()?;
    }
    Some(calls)
}

/// Whether the actor's calls are those, in this order.
fn has_just(calls: &[Call], actor: u32, told: &[u64]) -> bool {
    let mut rest = told;
    for call in calls {
        if call.actor == actor {
            match rest {
                [first, later @ ..] if *first == call.id => rest = later,
                _ => return false,
            }
        }
    }
    rest.is_empty()
}

/// How many reducers made no call, where each made those that it tells.
fn idle_ones(told: &[Option<Vec<u64>>], calls: &[Call]) -> Option<u64> {
    let (mut actor, mut idle) = (0u32, 0u64);
    for ids in told {
        actor = actor.wrapping_add(1);
        match ids {
            Some(ids) if has_just(calls, actor, ids.as_slice()) => {
                idle = idle.wrapping_add(ids.is_empty() as u64);
            }
            _ => return None,
        }
    }
    Some(idle)
}

/// One to eight reducers sleep beside a searching thread. Each but one is woken by a clause on offer,
/// and the last by the end.
#[test]
fn each_call_is_there_once_in_order(rt: HostRuntime) -> Result<(), Fail> {
    for reducers in 1..9u32 {
        assert_eq!(rt; run(&rt, rt.alloc(), reducers)?, Some(1), "of {reducers}");
    }
    Ok(())
}

/// How many of so many reducers made no call, where the history has just the calls that each tells.
fn run<R: Threads + Wait + Sync>(rt: &R, alloc: Global, reducers: u32) -> Result<Option<u64>, Fail>
    requires { reducers ≤ 8 }
{
    let formula = chain(alloc)?;
    let Shared { bench, mut solver } = share(alloc, &formula, reducers)?;
    let seats = seat_all(alloc, &bench, &mut solver, reducers)?;
    let progress = Progress {
        taken: AtomicU64::new(0),
        done: AtomicU64::new(0),
    };
    let (told, searched) = run_all(rt, alloc, &bench, solver, seats, reducers, &progress);
    let told = told?;
    let Some((own, calls)) = searched else {
        return Ok(None);
    };
    if !has_just(calls.as_slice(), 0, own.as_slice()) {
        return Ok(None);
    }
    Ok(idle_ones(told.as_slice(), calls.as_slice()))
}

/// What the reducers tell, and what the searching thread does.
fn run_all<R: Threads + Wait + Sync>(
    rt: &R,
    alloc: Global,
    bench: &SharedBench,
    solver: SolverSeat,
    seats: Vec<ReducerSeat>,
    reducers: u32,
    progress: &Progress,
) -> (
    Result<Vec<Option<Vec<u64>>>, AllocError>,
    Option<(Vec<u64>, Vec<Call>)>,
)
    requires solver { (solver.lock ≡ bench.now) × (solver.formula ≡ chain) }
    requires seats { All (λ (h : Handle). (h.lock ≡ bench.now) × (h.formula ≡ chain) × (h.seen ≡ [])) seats.items }
{
    join(
        rt,
        move || -> Result<Vec<Option<Vec<u64>>>, AllocError>
            requires { IsSync R.row × All (λ (h : Handle). (h.lock ≡ bench.now) × (h.formula ≡ chain)
                × (h.seen ≡ [])) seats.items }
        { reduce_all(rt, alloc, bench, seats, progress) },
        move || -> Option<(Vec<u64>, Vec<Call>)>
            requires { IsSync R.row × (solver.lock ≡ bench.now) × (solver.formula ≡ chain) }
        { search(rt, alloc, bench, solver, reducers, progress) },
    )
}

fn reduce_all<R: Threads + Wait + Sync>(
    rt: &R,
    alloc: Global,
    bench: &SharedBench,
    seats: Vec<ReducerSeat>,
    progress: &Progress,
) -> Result<Vec<Option<Vec<u64>>>, AllocError>
    requires { All (λ (h : Handle). (h.lock ≡ bench.now) × (h.formula ≡ chain) × (h.seen ≡ [])) seats.items }
{
    map_vec(
        rt,
        seats,
        &|seat: ReducerSeat| -> Option<Vec<u64>>
            requires { (seat.lock ≡ bench.now) × (seat.formula ≡ chain) × (seat.seen ≡ []) }
        { reduce(rt, alloc, bench, seat, progress) },
    )
}
