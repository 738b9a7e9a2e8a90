// The clauses of a formula as a base.
ghost use Rattle.std.specs.Prelude.{◌≡◌, All, IfOk, OnOk};
ghost use Rattle.gr_logic.specs.Formulas.{VarsUpTo};
ghost use Rattle.gr_prop.specs.Bases.{LacksId};
ghost use Rattle.gr_timing.specs.Rounds.{IsTaken, IsTakenUnder};

use gr_logic::{Clause, Formula, Normal, OutOfMemory, normal};
use gr_prop::Base;
use std::alloc::Global;

/// A base with the formula's clauses, each literal where it stands first, without those that every assignment
/// satisfies. The id of a clause is its number in the formula, counted from 1.
pub fn base_of(alloc: Global, formula: &Formula) -> Result<Base, OutOfMemory>
    ensures vars { IfOk result (λ base. base.trail.vars ≡ formula.now.vars) }
    ensures ground { IfOk result (λ base. base.trail.depth ≡ 0) }
    ensures taken { IfOk result (λ base. All (IsTaken base.clauses) formula.now.clauses) }
{
    let mut base = Base::new(alloc, formula.vars())?;
    let mut id = 0u64;
    for clause in formula.clauses() {
        id += 1;
        add(alloc, &mut base, id, clause)?;
    }
    Ok(base)
}

/// Adds a clause at level zero, unless every assignment satisfies it.
fn add(alloc: Global, base: &mut Base, id: u64, clause: &Clause) -> Result<(), OutOfMemory>
    requires ground { base.old.trail.depth ≡ 0 }
    requires known { VarsUpTo base.old.trail.vars clause.now }
    requires unused { LacksId base.old.clauses id }
    ensures { OnOk result (IsTakenUnder base.old base.new id clause.now) }
{
    match normal(alloc, clause)? {
        Normal::Clause(clause) => {
            base.add(id, 1, &clause)?;
        }
        Normal::Tautology => {}
    }
    Ok(())
}
