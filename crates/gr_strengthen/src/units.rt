// Literals that are derived and have no unit clause yet.
ghost use Rattle.std.specs.Prelude.{◌≡◌, ◌≤◌, ◌<◌, true, false, All, IfOk, length, take, slice_index_or};
ghost use Rattle.gr_logic.specs.Closure.{ClauseFamily};
ghost use Rattle.gr_trail.specs.Trails.{Assigned};
ghost use Rattle.gr_prop.specs.BaseChanges.{IsForcedAt};
ghost use Rattle.gr_strengthen.specs.Holding.{AreSettled, HasUnitReason};
ghost use Rattle.gr_strengthen.specs.Outcomes.{IsMissingUnit};
ghost use Rattle.gr_strengthen.specs.Reached.{AreSized};
ghost use Rattle.gr_strengthen.specs.Unsettled.{IsUnsettledAt};
ghost use Rattle.gr_strengthen.specs.Walking.{Represents};

use crate::lending::trail_of;
use crate::reaching::{Reached, cite, reach};
use gr_logic::{Ids, Lit, OutOfMemory};
use gr_prop::Base;
use std::alloc::Global;

/// A literal that the clauses imply, with the ids of the clauses that unit steps are to read for its
/// unit clause, in order.
#[derive(Debug, Drop)]
pub struct Derived {
    pub lit: Lit,
    pub hints: Ids,
}

/// The index of the first literal of the trail, from an index on, whose reason is no unit clause: the
/// trail's length where there is none.
pub(crate) fn first_unsettled(base: &Base, from: usize) -> usize
    requires within { from ≤ length base.now.trail.assigned }
    requires done { All (HasUnitReason base.now.clauses) (take from base.now.trail.assigned) }
    ensures within { result ≤ length base.now.trail.assigned }
    ensures done { All (HasUnitReason base.now.clauses) (take result base.now.trail.assigned) }
    ensures next { IsUnsettledAt base.now.clauses base.now.trail.assigned result }
{
    let len = base.trail().lits().len();
    let mut index = from;
    while index < len {
        if !is_settled(base, index) {
            return index;
        }
        index += 1;
    }
    index
}

/// Whether the reason of the literal at an index of the trail is its unit clause.
fn is_settled(base: &Base, index: usize) -> bool
    requires within { index < length base.now.trail.assigned }
    ensures yes { (d : Assigned) → result ≡ true
        → HasUnitReason base.now.clauses (slice_index_or base.now.trail.assigned index d) }
    ensures no { (d : Assigned) → result ≡ false
        → HasUnitReason base.now.clauses (slice_index_or base.now.trail.assigned index d) → ⊥ }
{
    let trail = base.trail();
    let lit = trail.lits()[index];
    match trail.reason(lit.var()) {
        Some(place) => base.arena().lits(place).len() == 1,
        None => false,
    }
}

/// The literal at an index of the trail, whose reason is no unit clause, with hints.
pub(crate) fn derive(
    alloc: Global,
    reached: &mut Reached,
    base: &Base,
    index: usize,
) -> Result<Derived, OutOfMemory>
    requires sized { AreSized reached.old base.now.trail.vars }
    requires low { All (IsForcedAt 0) base.now.trail.assigned }
    requires quiet { base.now.quiet ≡ true }
    requires settled { AreSettled base.now.clauses base.now.trail.assigned }
    requires within { index < length base.now.trail.assigned }
    requires unsettled { IsUnsettledAt base.now.clauses base.now.trail.assigned index }
    ensures sized { AreSized reached.new base.now.trail.vars }
    ensures unit { IfOk result (λ unit. (k : ClauseFamily) → Represents k base.now.clauses
        → IsMissingUnit k base.now.trail.vars unit) }
{
    let arena = base.arena();
    let trail = trail_of(base);
    let lit = trail.lits()[index];
    let reason = trail.reason(lit.var()).unwrap();
    let source = arena.lits(reason);
    reach(reached, arena, trail, source);
    let hints = cite(alloc, reached, arena, trail, source, arena.id(reason))?;
    Ok(Derived { lit, hints })
}
