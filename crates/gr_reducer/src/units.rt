// The units that a reducer shares.
ghost use Rattle.std.specs.Prelude.{◌≡◌, ◌∷◌, [], OnOk};
ghost use Rattle.gr_diary.specs.Histories.{IsClosed};
ghost use Rattle.gr_seat.specs.Turns.{SeesMore};
ghost use Rattle.gr_strengthen.specs.Families.{cited_family};
ghost use Rattle.gr_strengthen.specs.Outcomes.{IsJustified, HasItsUnits};
ghost use Rattle.gr_reducer.specs.Steps.{IsInStep, KeepsTaken};

use crate::endings::{Ended, end_by};
use crate::keeping::Keeping;
use gr_logic::Clause;
use gr_seat::{ReducerSeat, SharedBench};
use gr_strengthen::Derived;
use std::alloc::Global;
use std::sync::Wait;

/// Shares the units that its clauses derive, one by one, until each is a clause of its own.
pub(crate) fn share_units<R: Wait>(
    rt: &R,
    alloc: Global,
    bench: &SharedBench,
    seat: &mut ReducerSeat,
    keeping: &mut Keeping<'_>,
) -> Result<(), Ended>
    requires lock { seat.old.lock ≡ bench.now }
    requires in_step { IsInStep seat.old keeping.old.strengthener }
    ensures sees { SeesMore seat.old seat.new }
    ensures in_step { OnOk result (IsInStep seat.new keeping.new.strengthener) }
    ensures taken { OnOk result (KeepsTaken seat.old seat.new) }
    ensures units { OnOk result
        (HasItsUnits (cited_family keeping.new.strengthener.formula keeping.new.strengthener.kept)) }
    ensures closed { result ≡ Err Ended.Closed → IsClosed seat.new.seen }
{
    for _ in rt.forever() {
        match keeping.strengthener.next_unit()? {
            Some(unit) => share_unit(rt, alloc, bench, seat, keeping, unit)?,
            None => return Ok(()),
        }
    }
    unreachable!()
}

/// Shares a unit, and keeps it.
fn share_unit<R: Wait>(
    rt: &R,
    alloc: Global,
    bench: &SharedBench,
    seat: &mut ReducerSeat,
    keeping: &mut Keeping<'_>,
    unit: Derived,
) -> Result<(), Ended>
    requires lock { seat.old.lock ≡ bench.now }
    requires in_step { IsInStep seat.old keeping.old.strengthener }
    requires justified { IsJustified (cited_family keeping.old.strengthener.formula keeping.old.strengthener.kept)
        keeping.old.strengthener.formula.vars (unit.lit ∷ []) unit.hints }
    ensures sees { SeesMore seat.old seat.new }
    ensures in_step { OnOk result (IsInStep seat.new keeping.new.strengthener) }
    ensures taken { OnOk result (KeepsTaken seat.old seat.new) }
    ensures closed { result ≡ Err Ended.Closed → IsClosed seat.new.seen }
{
    let Derived { lit, hints } = unit;
    let clause = Clause::from_lits(alloc, &[lit])?;
    match bench.reducer_unit(rt, seat, lit, hints) {
        Ok(id) => {
            keeping.keep(id, &clause)?;
            Ok(())
        }
        Err(why) => Err(end_by(why)),
    }
}
