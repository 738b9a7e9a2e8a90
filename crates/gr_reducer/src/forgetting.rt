// What a reducer forgets.
ghost use Rattle.std.specs.Prelude.{◌≡◌, OnOk};
ghost use Rattle.gr_diary.specs.Histories.{IsClosed};
ghost use Rattle.gr_seat.specs.Turns.{SeesMore};
ghost use Rattle.gr_reducer.specs.Steps.{IsBetweenRounds};

use crate::endings::{Ended, end_by};
use crate::keeping::Keeping;
use gr_seat::{ReducerSeat, SharedBench};
use std::sync::Wait;

/// Lets clauses go, where it keeps more than enough.
pub(crate) fn let_go<R: Wait>(
    rt: &R,
    bench: &SharedBench,
    seat: &mut ReducerSeat,
    keeping: &mut Keeping<'_>,
) -> Result<(), Ended>
    requires ready { IsBetweenRounds bench.now seat.old keeping.old.strengthener }
    ensures sees { SeesMore seat.old seat.new }
    ensures ready { OnOk result (IsBetweenRounds bench.now seat.new keeping.new.strengthener) }
    ensures closed { result ≡ Err Ended.Closed → IsClosed seat.new.seen }
{
    if !keeping.is_full() {
        return Ok(());
    }
    let ids = keeping.let_go_half()?;
    if ids.all().is_empty() {
        return Ok(());
    }
    match bench.reducer_forget(rt, seat, ids) {
        Ok(()) => Ok(()),
        Err(why) => Err(end_by(why)),
    }
}
