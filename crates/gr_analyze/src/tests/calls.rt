// Calls of a base over the variables 1 to 8, each made where its condition holds.
ghost use Rattle.std.specs.Prelude.{◌≡◌, ◌<◌, All, true, Some, OnOk, IfOk, IfNone, IfSome};

use gr_logic::{Clause, Lit, Normal, Place, normal};
use gr_prop::{Base, Propagated};
use std::alloc::Global;
use std::mem;
use std::test::Fail;

/// The clauses, of which each has a zero behind its literals.
pub(super) fn clauses_of(alloc: Global, numbers: &[i32]) -> Result<Vec<Clause>, Fail> {
    let mut clauses = Vec::new(alloc);
    let mut clause = Clause::new(alloc);
    for number in numbers {
        match Lit::new(*number) {
            Some(lit) => clause.push(lit)?,
            None => clauses.push(mem::replace(&mut clause, Clause::new(alloc)))?,
        }
    }
    Ok(clauses)
}

/// The literals with these numbers.
pub(super) fn lits_of(alloc: Global, numbers: &[i32]) -> Result<Vec<Lit>, Fail> {
    let mut lits = Vec::new(alloc);
    for number in numbers {
        lits.push(Lit::new(*number).ok_or("no literal")?)?;
    }
    Ok(lits)
}

/// Whether the literals are of the variables 1 to 8.
fn are_known(lits: &[Lit]) -> bool
    ensures { result ≡ true → All (λ l. l.index < 8) lits.now }
{
    let mut index = 0;
    while index < lits.len() {
        if lits[index].index() >= 8 {
            return false;
        }
        index += 1;
    }
    true
}

/// Adds a clause over the variables 1 to 8 at level zero.
fn add(base: &mut Base, alloc: Global, id: u64, clause: &Clause) -> Result<(), Fail>
    requires { base.old.trail.vars ≡ 8 }
    ensures { OnOk result (base.new.trail.vars ≡ 8) }
{
    let Normal::Clause(clause) = normal(alloc, clause)? else {
        return Err(Fail::from("a tautology"));
    };
    if base.trail().depth() != 0 {
        return Err(Fail::from("above level zero"));
    }
    if base.find(id).is_some() {
        return Err(Fail::from("the id is there"));
    }
    if !are_known(clause.lits()) {
        return Err(Fail::from("a literal beyond the eighth variable"));
    }
    base.add(id, 2, &clause)?;
    Ok(())
}

/// A base of these clauses, with the ids from 1 on.
pub(super) fn base_of(alloc: Global, clauses: &[Clause]) -> Result<Base, Fail>
    ensures { IfOk result (λ base. base.trail.vars ≡ 8) }
{
    let mut base = Base::new(alloc, 8)?;
    let mut id = 0u64;
    for clause in clauses {
        id = id.saturating_add(1);
        add(&mut base, alloc, id, clause)?;
    }
    Ok(base)
}

/// Decides a literal where its variable has no value.
fn decide(base: &mut Base, lit: Lit)
    requires vars { base.old.trail.vars ≡ 8 }
    requires quiet { base.old.quiet ≡ true }
    ensures { base.new.trail.vars ≡ 8 }
{
    if lit.index() < 8 && base.trail().value(lit).is_none() {
        base.decide(lit);
    }
}

/// Propagates: the place of a clause that is false, where one is.
fn propagate(base: &mut Base) -> Result<Option<Place>, Fail>
    requires { base.old.trail.vars ≡ 8 }
    ensures vars { OnOk result (base.new.trail.vars ≡ 8) }
    ensures none { IfOk result (λ found. IfNone found (base.new.quiet ≡ true)) }
    ensures some { IfOk result (λ found. IfSome found (λ place. base.new.conflict ≡ Some place)) }
{
    match base.propagate()? {
        Propagated::Quiet => Ok(None),
        Propagated::Conflict { place } => Ok(Some(place)),
    }
}

/// Decides one literal after the other, up to a conflict: the place of the clause that is false then.
pub(super) fn conflict_of(base: &mut Base, decisions: &[Lit]) -> Result<Place, Fail>
    requires { base.old.trail.vars ≡ 8 }
    ensures vars { OnOk result (base.new.trail.vars ≡ 8) }
    ensures conflict { IfOk result (λ place. base.new.conflict ≡ Some place) }
{
    if let Some(place) = propagate(base)? {
        return Ok(place);
    }
    for lit in decisions {
        decide(base, *lit);
        if let Some(place) = propagate(base)? {
            return Ok(place);
        }
    }
    Err(Fail::from("no conflict"))
}
