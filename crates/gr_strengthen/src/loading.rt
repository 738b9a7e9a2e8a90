// Clauses that come into a strengthener's base.
ghost use Rattle.std.specs.Prelude.{◌≡◌, ◌<◌, ◌+◌, ◌∷◌, [], true, length, IfOk, IfSome, IfNone, OnOk};
ghost use Rattle.gr_logic.specs.Formulas.{VarsUpTo};
ghost use Rattle.gr_logic.specs.NormalForms.{IsNormal};
ghost use Rattle.gr_logic.specs.Literals.{Literal};
ghost use Rattle.gr_trail.specs.Trails.{IsTrail, true_in};
ghost use Rattle.gr_prop.specs.Bases.{LacksId};
ghost use Rattle.gr_strengthen.specs.Loading.{IsEntered, IsLoaded};

use crate::lending::trail_of;
use crate::reaching::is_true;
use gr_logic::{Clause, Formula, Lit, Normal, OutOfMemory, normal};
use gr_prop::Base;
use std::alloc::Global;

/// A base of the formula's clauses, with the ids from 1 on, but for tautologies.
pub(crate) fn load(alloc: Global, formula: &Formula) -> Result<Base, OutOfMemory>
    ensures { IfOk result (λ base. IsLoaded formula.now base (length formula.now.clauses)) }
{
    let clauses = formula.clauses();
    let mut base = Base::new(alloc, formula.vars())?;
    let mut index = 0;
    while index < clauses.len() {
        load_one(alloc, &mut base, formula, index)?;
        index += 1;
    }
    Ok(base)
}

/// Enters the formula's clause at an index, unless it is a tautology.
fn load_one(
    alloc: Global,
    base: &mut Base,
    formula: &Formula,
    index: usize,
) -> Result<(), OutOfMemory>
    requires within { index < length formula.now.clauses }
    requires loaded { IsLoaded formula.now base.old index }
    ensures { OnOk result (IsLoaded formula.now base.new (index + 1)) }
{
    match normal(alloc, &formula.clauses()[index])? {
        Normal::Clause(clause) => enter(base, index as u64 + 1, &clause),
        Normal::Tautology => Ok(()),
    }
}

/// Adds a clause at level zero. The unit clause of a literal that is true becomes its reason.
pub(crate) fn enter(base: &mut Base, id: u64, clause: &Clause) -> Result<(), OutOfMemory>
    requires ground { base.old.trail.depth ≡ 0 }
    requires normal { IsNormal clause.now }
    requires known { VarsUpTo base.old.trail.vars clause.now }
    requires unused { LacksId base.old.clauses id }
    ensures { OnOk result (IsEntered base.old base.new id clause.now) }
{
    match true_unit(base, clause.lits()) {
        Some(lit) => {
            base.settle(lit, id)?;
        }
        None => {
            let lbd = clause.lits().len().min(1_000_000) as u32;
            base.add(id, lbd, clause)?;
        }
    }
    Ok(())
}

/// The literal of a unit clause, where it is true.
fn true_unit(base: &Base, lits: &[Lit]) -> Option<Lit>
    requires { VarsUpTo base.now.trail.vars lits.now }
    ensures some { IfSome result (λ l. (lits.now ≡ l ∷ []) × (true_in base.now.trail.assigned l ≡ true)) }
    ensures none { IfNone result ((l : Literal) → lits.now ≡ l ∷ [] → true_in base.now.trail.assigned l ≡ true → ⊥) }
    ensures is_trail { IsTrail base.now.trail }
{
    let trail = trail_of(base);
    if lits.len() == 1 && is_true(trail, lits[0]) {
        return Some(lits[0]);
    }
    None
}
