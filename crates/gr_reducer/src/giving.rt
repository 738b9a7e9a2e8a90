// What a reducer gives back.
ghost use Rattle.std.specs.Prelude.{◌≡◌, OnOk};
ghost use Rattle.gr_logic.specs.declared.items.Strengthened.TheVariants.{Same, Shorter};
ghost use Rattle.gr_diary.specs.Histories.{IsClosed};
ghost use Rattle.gr_seat.specs.Turns.{SeesMore};
ghost use Rattle.gr_strengthen.specs.Families.{cited_family};
ghost use Rattle.gr_strengthen.specs.Outcomes.{IsStrengthened};
ghost use Rattle.gr_reducer.specs.Steps.{IsBetweenRounds, IsReadyToGive};

use crate::endings::{Ended, end_by};
use crate::keeping::Keeping;
use gr_bench::Taken;
use gr_logic::{Clause, Ids, Strengthened};
use gr_seat::{ReducerSeat, SharedBench};
use std::sync::Wait;

/// Strengthens the clause that was taken, gives the outcome back, and keeps what it holds then.
pub(crate) fn give<R: Wait>(
    rt: &R,
    bench: &SharedBench,
    seat: &mut ReducerSeat,
    keeping: &mut Keeping<'_>,
    taken: Taken,
) -> Result<(), Ended>
    requires ready { IsReadyToGive bench.now seat.old keeping.old.strengthener taken.id taken.clause }
    ensures sees { SeesMore seat.old seat.new }
    ensures ready { OnOk result (IsBetweenRounds bench.now seat.new keeping.new.strengthener) }
    ensures closed { result ≡ Err Ended.Closed → IsClosed seat.new.seen }
{
    // That what it has seen is legal.
    let _actor = seat.actor();
    match keeping.strengthener.run(&taken)? {
        Strengthened::Same => give_same(rt, bench, seat, keeping, taken),
        Strengthened::Shorter { clause, hints } => {
            give_shorter(rt, bench, seat, keeping, &taken, clause, hints)
        }
    }
}

/// Gives a clause back as it is, and keeps it.
fn give_same<R: Wait>(
    rt: &R,
    bench: &SharedBench,
    seat: &mut ReducerSeat,
    keeping: &mut Keeping<'_>,
    taken: Taken,
) -> Result<(), Ended>
    requires ready { IsReadyToGive bench.now seat.old keeping.old.strengthener taken.id taken.clause }
    requires strengthened { IsStrengthened
        (cited_family keeping.old.strengthener.formula keeping.old.strengthener.kept)
        keeping.old.strengthener.formula.vars taken.id taken.clause Same }
    ensures sees { SeesMore seat.old seat.new }
    ensures ready { OnOk result (IsBetweenRounds bench.now seat.new keeping.new.strengthener) }
    ensures closed { result ≡ Err Ended.Closed → IsClosed seat.new.seen }
{
    match bench.give_back(rt, seat, Strengthened::Same) {
        Ok(_id) => {
            keeping.keep(taken.id, &taken.clause)?;
            Ok(())
        }
        Err(why) => Err(end_by(why)),
    }
}

/// Gives a shorter clause back, and keeps it.
fn give_shorter<R: Wait>(
    rt: &R,
    bench: &SharedBench,
    seat: &mut ReducerSeat,
    keeping: &mut Keeping<'_>,
    taken: &Taken,
    clause: Clause,
    hints: Ids,
) -> Result<(), Ended>
    requires ready { IsReadyToGive bench.now seat.old keeping.old.strengthener taken.now.id
        taken.now.clause }
    requires strengthened { IsStrengthened
        (cited_family keeping.old.strengthener.formula keeping.old.strengthener.kept)
        keeping.old.strengthener.formula.vars taken.now.id taken.now.clause (Shorter clause hints) }
    ensures sees { SeesMore seat.old seat.new }
    ensures ready { OnOk result (IsBetweenRounds bench.now seat.new keeping.new.strengthener) }
    ensures closed { result ≡ Err Ended.Closed → IsClosed seat.new.seen }
{
    let kept = clause.copy()?;
    match bench.give_back(rt, seat, Strengthened::Shorter { clause, hints }) {
        Ok(Some(id)) => {
            keeping.keep(id, &kept)?;
            Ok(())
        }
        Ok(None) => unreachable!(),
        Err(why) => Err(end_by(why)),
    }
}
