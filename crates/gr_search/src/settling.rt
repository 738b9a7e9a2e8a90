// Unit clauses for the literals of level zero.
ghost use Rattle.std.specs.Prelude.{◌≡◌, ◌≤◌, ◌∷◌, [], true, Some, length, IsSome, IfOk, IfSome, IfNone, OnOk};
ghost use Rattle.gr_logic.specs.Literals.{var_of};
ghost use Rattle.gr_trail.specs.Trails.{Assigned, assigned_to};
ghost use Rattle.gr_search.specs.Keeping.{IsSettled, IsProved};
ghost use Rattle.gr_search.specs.Settling.{AreSettled, IsFirstUnsettled, AppendsReason};

use gr_logic::{Ids, Lit, OutOfMemory};
use gr_prop::Base;
use std::alloc::Global;

/// The first literal from a position on that has no unit clause of its own as its reason, and its position.
pub(crate) fn first_unsettled(base: &Base, from: usize) -> Option<(usize, Lit)>
    requires ground { base.now.trail.depth ≡ 0 }
    requires settled { AreSettled base.now.clauses base.now.trail.assigned from }
    ensures further { IfSome result (λ found. from ≤ found.0) }
    ensures first { IfSome result (λ found. IsFirstUnsettled base.now.clauses base.now.trail.assigned found.0 found.1) }
    ensures none { IfNone result
        (AreSettled base.now.clauses base.now.trail.assigned (length base.now.trail.assigned)) }
{
    let lits = base.trail().lits();
    let mut position = from;
    while position < lits.len() {
        let lit = lits[position];
        if !is_settled(base, lit) {
            return Some((position, lit));
        }
        position += 1;
    }
    None
}

/// Whether a literal's reason is a unit clause, which is never forgotten.
fn is_settled(base: &Base, lit: Lit) -> bool
    requires ground { base.now.trail.depth ≡ 0 }
    requires assigned { IsSome (assigned_to base.now.trail.assigned (var_of lit)) }
    ensures { result ≡ true → (a : Assigned) → assigned_to base.now.trail.assigned (var_of lit) ≡ Some a
        → IsSettled base.now.clauses a }
{
    match base.trail().reason(lit.var()) {
        None => false,
        Some(place) => {
            let arena = base.arena();
            arena.lits(place).len() == 1 && arena.lbd(place) <= 2
        }
    }
}

/// The hints by which unit steps derive a literal of level zero: the unit clauses of the other literals of its reason,
/// and the reason.
pub(crate) fn hints_of(
    alloc: Global,
    base: &Base,
    position: usize,
    lit: Lit,
) -> Result<Ids, OutOfMemory>
    requires ground { base.now.trail.depth ≡ 0 }
    requires first { IsFirstUnsettled base.now.clauses base.now.trail.assigned position lit }
    ensures { IfOk result (λ hints. IsProved base.now.clauses base.now.trail.vars (lit ∷ []) hints) }
{
    let mut hints = Ids::new(alloc);
    let Some(place) = base.trail().reason(lit.var()) else {
        return Ok(hints);
    };
    let arena = base.arena();
    let lits = arena.lits(place);
    for other in lits {
        if *other != lit {
            push_reason(base, *other, &mut hints)?;
        }
    }
    hints.push(arena.id(place))?;
    Ok(hints)
}

/// Appends the id of a literal's reason.
fn push_reason(base: &Base, lit: Lit, hints: &mut Ids) -> Result<(), OutOfMemory>
    requires assigned { IsSome (assigned_to base.now.trail.assigned (var_of lit)) }
    ensures { OnOk result (AppendsReason base.now lit hints.old hints.new) }
{
    match base.trail().reason(lit.var()) {
        None => Ok(()),
        Some(place) => hints.push(base.arena().id(place)),
    }
}
