// What may cross threads: these functions are only proved, and never called.
use crate::seats::{ReducerSeat, SolverSeat};
use crate::shared_benches::SharedBench;

fn is_shared<T: Sync>(_shared: &T) {}

fn is_moved<T: Send>(_moved: &T) {}

/// Threads may share a shared exchange, and its seats may move from one to another.
pub(crate) fn cross(bench: &SharedBench, solver: &SolverSeat, reducer: &ReducerSeat) {
    is_shared(bench);
    is_moved(bench);
    is_moved(solver);
    is_moved(reducer);
}
