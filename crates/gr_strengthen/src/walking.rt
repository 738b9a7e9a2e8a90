// The walk of greedy strengthening along a trail.
ghost use Rattle.std.specs.Prelude.{◌≡◌, ◌<◌, ◌++◌, ◌∷◌, [], map, true, false, All, IfOk, OnOk};
ghost use Rattle.gr_logic.specs.Formulas.{VarsUpTo};
ghost use Rattle.gr_logic.specs.Literals.{negation};
ghost use Rattle.gr_logic.specs.NormalForms.{IsNormal};
ghost use Rattle.gr_logic.specs.Rup.{members};
ghost use Rattle.gr_trail.specs.Trails.{up_to};
ghost use Rattle.gr_prop.specs.Bases.{decisions};
ghost use Rattle.gr_prop.specs.BaseChanges.{IsForcedAt, IsGrown, back_to};
ghost use Rattle.gr_strengthen.specs.Walking.{HasWalked, IsStep};

use gr_logic::{Clause, Lit, OutOfMemory, Place};
use gr_prop::{Base, Propagated};

/// Decides the negations of the literals one by one: a false one is left out, a true one ends the walk,
/// and so does a conflict. Leaves the kept literals. The answer is the place of the clause that ended
/// the walk, if one did: all its literals are false, but for one that is true and kept last.
pub(crate) fn walk(
    base: &mut Base,
    kept: &mut Clause,
    clause: &[Lit],
) -> Result<Option<Place>, OutOfMemory>
    requires ground { base.old.trail.depth ≡ 0 }
    requires low { All (IsForcedAt 0) base.old.trail.assigned }
    requires known { VarsUpTo base.old.trail.vars clause.now }
    requires normal { IsNormal clause.now }
    ensures clauses { OnOk result (base.new.clauses ≡ base.old.clauses) }
    ensures ground { OnOk result (IsGrown base.old.trail (back_to base.new.trail 0)) }
    ensures walked { IfOk result (λ stop. HasWalked base.new kept.new clause.now stop) }
{
    kept.clear();
    match base.propagate()? {
        Propagated::Conflict { place } => return Ok(Some(place)),
        Propagated::Quiet => {}
    }
    let mut rest = clause;
    'lits: while let [lit, others @ ..] = rest {
        match step(base, kept, *lit)? {
            Some(place) => return Ok(Some(place)),
            None => rest = others,
        }
    }
    Ok(None)
}

/// One step of the walk: a place where it ends.
fn step(base: &mut Base, kept: &mut Clause, lit: Lit) -> Result<Option<Place>, OutOfMemory>
    requires quiet { base.old.quiet ≡ true }
    requires known { lit.index < base.old.trail.vars }
    requires decided { decisions base.old.trail.assigned ≡ map negation kept.old }
    requires new { members kept.old (negation lit) ≡ false }
    ensures clauses { OnOk result (base.new.clauses ≡ base.old.clauses) }
    ensures vars { OnOk result (base.new.trail.vars ≡ base.old.trail.vars) }
    ensures ground { OnOk result (up_to 0 base.new.trail.assigned ≡ up_to 0 base.old.trail.assigned) }
    ensures stepped { IfOk result (λ stop. IsStep base.old base.new kept.old kept.new lit stop) }
{
    match base.trail().value(lit) {
        Some(false) => Ok(None),
        Some(true) => {
            kept.push(lit)?;
            Ok(Some(base.trail().reason(lit.var()).unwrap()))
        }
        None => {
            kept.push(lit)?;
            base.decide(lit.negate());
            match base.propagate()? {
                Propagated::Quiet => Ok(None),
                Propagated::Conflict { place } => Ok(Some(place)),
            }
        }
    }
}
