// The seats of the reducers.
ghost use Rattle.std.specs.Prelude.{◌≡◌, ◌+◌, IfOk, All, vec_len};
ghost use mathlib.Core.List.{IsPrefix};
ghost use Rattle.gr_seat.specs.Handles.{HasSameExchange};
ghost use Rattle.gr_run.specs.Beside.{IsUnused};

use gr_logic::OutOfMemory;
use gr_seat::{ReducerSeat, SharedBench, SolverSeat};
use std::alloc::Global;

/// A seat for each reducer.
pub(crate) fn seat_all(
    alloc: Global,
    bench: &SharedBench,
    solver: &mut SolverSeat,
    reducers: u32,
) -> Result<Vec<ReducerSeat>, OutOfMemory>
    requires lock { solver.old.lock ≡ bench.now }
    requires reducers { (solver.old.reducers ≡ reducers) × (solver.old.splits ≡ 0) }
    ensures same { HasSameExchange solver.old solver.new }
    ensures seen { (solver.new.actor ≡ solver.old.actor) × (solver.new.seen ≡ solver.old.seen) }
    ensures all { IfOk result (λ seats. vec_len seats ≡ reducers) }
    ensures out { IfOk result (λ seats. solver.new.out ≡ solver.old.out + vec_len seats) }
    ensures unused { IfOk result (λ seats. All (IsUnused solver.old.lock solver.old.formula) seats.items) }
    ensures beside { IfOk result (λ seats. All (HasSameExchange solver.old) seats.items) }
{
    let mut seats = Vec::new(alloc);
    for _ in 0..reducers {
        let seat = bench.reducer_seat(solver);
        seats.push(seat)?;
    }
    Ok(seats)
}

/// Takes each reducer's seat back.
pub(crate) fn join_all(bench: &SharedBench, solver: &mut SolverSeat, seats: Vec<ReducerSeat>)
    requires lock { solver.old.lock ≡ bench.now }
    requires beside { All (HasSameExchange solver.old) seats.items }
    ensures same { HasSameExchange solver.old solver.new }
    ensures seen { IsPrefix solver.old.seen solver.new.seen }
    ensures out { solver.new.out + vec_len seats ≡ solver.old.out }
{
    for seat in seats {
        bench.join_reducer(solver, seat);
    }
}
