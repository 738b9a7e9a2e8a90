// A reducer's work.
ghost use Rattle.std.specs.Prelude.{◌≡◌, [], OnOk, IfOk};
ghost use Rattle.gr_diary.specs.Histories.{IsClosed, entries_of};
ghost use Rattle.gr_seat.specs.Turns.{SeesMore};
ghost use Rattle.gr_reducer.specs.Steps.{IsInStep, HasTaken, IsBetweenRounds};

use crate::endings::{Ended, Finished, end_by};
use crate::forgetting::let_go;
use crate::giving::give;
use crate::keeping::Keeping;
use crate::units::share_units;
use gr_bench::Taken;
use gr_io::{Gate, Point};
use gr_logic::Formula;
use gr_seat::{ReducerSeat, SharedBench};
use gr_strengthen::Strengthener;
use std::alloc::Global;
use std::sync::Wait;

/// Works until the exchange is closed, or memory is wanting: takes a clause, shares the units that its clauses derive,
/// strengthens the clause and gives it back.
pub fn work<R: Wait, G: Gate>(
    rt: &R,
    alloc: Global,
    bench: &SharedBench,
    seat: ReducerSeat,
    formula: &Formula,
    gate: &G,
) -> Finished
    requires lock { seat.lock ≡ bench.now }
    requires formula { seat.formula ≡ formula.now }
    requires first { entries_of seat.seen seat.actor ≡ [] }
    ensures sees { SeesMore seat result.seat }
    ensures closed { result.ended ≡ Ended.Closed → IsClosed result.seat.seen }
{
    let mut seat = seat;
    // That what it has seen is legal.
    let _actor = seat.actor();
    match Strengthener::new(alloc, formula) {
        Ok(strengthener) => {
            let mut keeping = Keeping {
                strengthener,
                long: 0,
            };
            let ended = work_on(rt, alloc, bench, gate, &mut seat, &mut keeping);
            Finished { seat, ended }
        }
        Err(_) => Finished {
            seat,
            ended: Ended::OutOfMemory,
        },
    }
}

/// Takes clause after clause, until it ends.
fn work_on<R: Wait, G: Gate>(
    rt: &R,
    alloc: Global,
    bench: &SharedBench,
    gate: &G,
    seat: &mut ReducerSeat,
    keeping: &mut Keeping<'_>,
) -> Ended
    requires ready { IsBetweenRounds bench.now seat.old keeping.old.strengthener }
    ensures sees { SeesMore seat.old seat.new }
    ensures closed { result ≡ Ended.Closed → IsClosed seat.new.seen }
{
    for _ in rt.forever() {
        if let Err(ended) = work_once(rt, alloc, bench, gate, seat, keeping) {
            return ended;
        }
    }
    unreachable!()
}

/// Takes a clause, and does with it what there is to do.
fn work_once<R: Wait, G: Gate>(
    rt: &R,
    alloc: Global,
    bench: &SharedBench,
    gate: &G,
    seat: &mut ReducerSeat,
    keeping: &mut Keeping<'_>,
) -> Result<(), Ended>
    requires ready { IsBetweenRounds bench.now seat.old keeping.old.strengthener }
    ensures sees { SeesMore seat.old seat.new }
    ensures ready { OnOk result (IsBetweenRounds bench.now seat.new keeping.new.strengthener) }
    ensures closed { result ≡ Err Ended.Closed → IsClosed seat.new.seen }
{
    let taken = take_one(rt, bench, gate, seat, keeping)?;
    share_units(rt, alloc, bench, seat, keeping)?;
    give(rt, bench, seat, keeping, taken)?;
    let_go(rt, bench, seat, keeping)
}

/// Takes the best clause on offer, and passes the gate.
fn take_one<R: Wait, G: Gate>(
    rt: &R,
    bench: &SharedBench,
    gate: &G,
    seat: &mut ReducerSeat,
    keeping: &Keeping<'_>,
) -> Result<Taken, Ended>
    requires ready { IsBetweenRounds bench.now seat.old keeping.now.strengthener }
    ensures sees { SeesMore seat.old seat.new }
    ensures in_step { OnOk result (IsInStep seat.new keeping.now.strengthener) }
    ensures taken { IfOk result (λ taken. HasTaken seat.new taken.id taken.clause) }
    ensures closed { result ≡ Err Ended.Closed → IsClosed seat.new.seen }
{
    match bench.next_work(rt, seat) {
        Ok(taken) => {
            gate.pass(seat.actor(), Point::Taken);
            Ok(taken)
        }
        Err(why) => Err(end_by(why)),
    }
}
