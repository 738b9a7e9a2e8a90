// The reducers of a run.
ghost use Rattle.std.specs.Prelude.{◌≡◌, IfOk, All, vec_len};
ghost use Rattle.gr_seat.specs.Turns.{SeesMore};
ghost use Rattle.gr_run.specs.Beside.{IsUnused, AllSeeMore};

use gr_io::Gate;
use gr_logic::Formula;
use gr_reducer::work;
use gr_seat::{ReducerSeat, SharedBench};
use std::alloc::{AllocError, Global};
use std::sync::Wait;
use std::thread::{Threads, map_vec};

/// Lets each reducer work, in as many threads as there are. One that wants memory ends alone.
pub(crate) fn work_all<R: Threads + Wait + Sync, G: Gate>(
    rt: &R,
    alloc: Global,
    bench: &SharedBench,
    seats: Vec<ReducerSeat>,
    formula: &Formula,
    gate: &G,
) -> Result<Vec<ReducerSeat>, AllocError>
    requires { All (IsUnused bench.now formula.now) seats.items }
    ensures len { IfOk result (λ back. vec_len back ≡ vec_len seats) }
    ensures each { IfOk result (λ back. AllSeeMore seats.items back.items) }
{
    map_vec(
        rt,
        seats,
        &|seat: ReducerSeat| -> ReducerSeat
            requires { IsUnused bench.now formula.now seat }
            ensures { SeesMore seat result }
        { work(rt, alloc, bench, seat, formula, gate).seat },
    )
}
