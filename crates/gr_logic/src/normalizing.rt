// How a clause is made normal.
ghost use Rattle.std.specs.Prelude.{◌≡◌, IfOk, OnOk, OnErr};
ghost use Rattle.gr_logic.specs.Rup.{members};
ghost use Rattle.gr_logic.specs.NormalForms.{IsNormalFormOf, with_new};
ghost use Rattle.gr_logic.specs.Seen.{Sees};

use crate::clauses::Clause;
use crate::literals::Lit;
use crate::memory::OutOfMemory;
use crate::normal_forms::Normal;
use std::alloc::Global;
use std::collections::HashSet;

/// Up to this length the literals before one are looked through one by one.
const SHORT: usize = 32;

/// The clause without repeated literals, or that it is a tautology. Takes time in proportion to the
/// clause's length.
pub fn normal(alloc: Global, clause: &Clause) -> Result<Normal, OutOfMemory>
    ensures { IfOk result (IsNormalFormOf clause.now) }
{
    let lits = clause.lits();
    if lits.len() <= SHORT {
        normal_by_scan(alloc, lits)
    } else {
        normal_by_set(alloc, lits)
    }
}

/// The normal form of a short clause.
fn normal_by_scan(alloc: Global, lits: &[Lit]) -> Result<Normal, OutOfMemory>
    ensures { IfOk result (IsNormalFormOf lits.now) }
{
    let mut firsts = Clause::new(alloc);
    for lit in lits {
        if has(firsts.lits(), lit.negate()) {
            return Ok(Normal::Tautology);
        }
        push_new(&mut firsts, *lit)?;
    }
    Ok(Normal::Clause(firsts))
}

/// The normal form of a long clause.
fn normal_by_set(alloc: Global, lits: &[Lit]) -> Result<Normal, OutOfMemory>
    ensures { IfOk result (IsNormalFormOf lits.now) }
{
    let mut firsts = Clause::new(alloc);
    let mut seen = HashSet::new(alloc);
    for lit in lits {
        if seen.contains(&lit.negate()) {
            return Ok(Normal::Tautology);
        }
        push_unseen(&mut firsts, &mut seen, *lit)?;
    }
    Ok(Normal::Clause(firsts))
}

/// Whether the literal is in the list.
fn has(lits: &[Lit], lit: Lit) -> bool
    ensures { result ≡ members lits.now lit }
{
    lits.contains(&lit)
}

/// Appends a literal that is new to the clause.
fn push_new(firsts: &mut Clause, lit: Lit) -> Result<(), OutOfMemory>
    ensures ok { OnOk result (firsts.new ≡ with_new firsts.old lit) }
    ensures err { OnErr result (firsts.new ≡ firsts.old) }
{
    if has(firsts.lits(), lit) {
        return Ok(());
    }
    firsts.push(lit)
}

/// Appends a literal that is new to the clause, where `seen` has the clause's literals.
fn push_unseen(firsts: &mut Clause, seen: &mut HashSet<Lit>, lit: Lit) -> Result<(), OutOfMemory>
    requires { Sees seen.old firsts.old }
    ensures ok { OnOk result (firsts.new ≡ with_new firsts.old lit) }
    ensures seen { OnOk result (Sees seen.new firsts.new) }
{
    if seen.insert(lit)? {
        firsts.push(lit)?;
    }
    Ok(())
}
