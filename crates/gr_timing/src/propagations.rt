// Propagating from decisions that are drawn, over the clauses of a formula.
ghost use Rattle.std.specs.Prelude.{◌≡◌, ◌≤◌, ◌<◌, None, IfOk};
ghost use Rattle.gr_prop.specs.Bases.{decisions};
ghost use Rattle.gr_timing.specs.Rounds.{EndsAs, decided};

use crate::bases::base_of;
use crate::mixing::{literal, next};
use gr_logic::{Formula, Lit, OutOfMemory, Place};
use gr_prop::{Base, Propagated};
use std::alloc::Global;

/// Decides and propagates from level zero up to a conflict, this many times.
pub fn rounds(alloc: Global, formula: &Formula, rounds: u32) -> Result<u64, OutOfMemory> {
    let vars = formula.vars();
    let mut base = base_of(alloc, formula)?;
    let mut conflict = propagate(&mut base)?;
    let mut sum = 0u64;
    let mut conflicts = 0u64;
    for round in 0..rounds {
        // A formula that is refuted without a decision has no rounds.
        if conflict.is_some() {
            break;
        }
        if descend(&mut base, vars, round as u64)?.is_some() {
            conflicts = conflicts.wrapping_add(1);
        }
        sum = sum.wrapping_mul(31).wrapping_add(
            base.trail().lits().len() as u64 + base.trail().depth() as u64,
        );
        base.backtrack(0);
        conflict = propagate(&mut base)?;
    }
    Ok(sum.wrapping_mul(31).wrapping_add(conflicts))
}

/// Decides literals that are drawn, twice as many as there are variables, or up to the first conflict: the place of the
/// clause that is false then.
pub(crate) fn descend(base: &mut Base, vars: u32, seed: u64) -> Result<Option<Place>, OutOfMemory>
    requires vars { base.old.trail.vars ≡ vars }
    requires few { vars ≤ 1_000_000 }
    requires ended { EndsAs None base.old }
    ensures clauses { base.new.clauses ≡ base.old.clauses }
    ensures vars { base.new.trail.vars ≡ base.old.trail.vars }
    ensures ends { IfOk result (λ conflict. EndsAs conflict base.new) }
{
    let mut state = seed;
    for _draw in 0..2 * vars {
        state = next(state);
        if let Some(place) = decide(base, literal(state, vars))? {
            return Ok(Some(place));
        }
    }
    Ok(None)
}

/// Decides a literal where its variable has no value, and propagates: the place of a clause that is false, where one
/// is.
fn decide(base: &mut Base, lit: Lit) -> Result<Option<Place>, OutOfMemory>
    requires known { lit.index < base.old.trail.vars }
    requires ended { EndsAs None base.old }
    ensures clauses { base.new.clauses ≡ base.old.clauses }
    ensures vars { base.new.trail.vars ≡ base.old.trail.vars }
    ensures decided { decisions base.new.trail.assigned ≡ decided base.old.trail.assigned lit }
    ensures ends { IfOk result (λ conflict. EndsAs conflict base.new) }
{
    if base.trail().value(lit).is_some() {
        return Ok(None);
    }
    base.decide(lit);
    propagate(base)
}

/// Propagates: the place of a clause that is false, where one is.
pub(crate) fn propagate(base: &mut Base) -> Result<Option<Place>, OutOfMemory>
    ensures clauses { base.new.clauses ≡ base.old.clauses }
    ensures vars { base.new.trail.vars ≡ base.old.trail.vars }
    ensures decisions { decisions base.new.trail.assigned ≡ decisions base.old.trail.assigned }
    ensures ends { IfOk result (λ conflict. EndsAs conflict base.new) }
{
    match base.propagate()? {
        Propagated::Quiet => Ok(None),
        Propagated::Conflict { place } => Ok(Some(place)),
    }
}
