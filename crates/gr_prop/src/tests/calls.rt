// Calls of a base over the variables 1 to 300, each made where its condition holds. Of what they do their contracts say
// what the next call needs, and no more: so the proofs of the tests have little to read.
ghost use Rattle.std.specs.Prelude.{◌≡◌, ◌≢◌, ◌≤◌, ◌<◌, [], ◌∷◌, All, true, Some, IfNone, OnOk, IfOk};
ghost use Rattle.gr_prop.specs.BaseChanges.{IsLearnt};

use crate::visits::holds;
use crate::{Base, Propagated};
use gr_logic::{Clause, Lit, Normal, Place, normal};
use gr_trail::Trail;
use std::alloc::Global;
use std::mem;
use std::test::Fail;

/// The positive literal of a variable.
pub(super) fn pos(var: u32) -> Lit
    requires low { 0 < var }
    requires high { var ≤ 300 }
{
    Lit::of_var(var, true)
}

/// The negative literal of a variable.
pub(super) fn neg(var: u32) -> Lit
    requires low { 0 < var }
    requires high { var ≤ 300 }
{
    Lit::of_var(var, false)
}

/// The clauses of a text, each with a zero behind its literals.
pub(super) fn clauses_of(alloc: Global, text: &str) -> Result<Vec<Clause>, Fail> {
    let mut clauses = Vec::new(alloc);
    let mut clause = Clause::new(alloc);
    for word in text.split_ascii_whitespace() {
        if word == "0" {
            clauses.push(mem::replace(&mut clause, Clause::new(alloc)))?;
        } else {
            clause.push(Lit::new(word.parse::<i32>()?).ok_or("no literal")?)?;
        }
    }
    Ok(clauses)
}

/// Whether the literals are of the variables 1 to 300.
fn are_known(lits: &[Lit]) -> bool
    ensures { result ≡ true → All (λ l. l.index < 300) lits.now }
{
    let mut index = 0;
    while index < lits.len() {
        if lits[index].index() >= 300 {
            return false;
        }
        index += 1;
    }
    true
}

/// Adds a clause over the variables 1 to 300 at level zero.
pub(super) fn add(base: &mut Base, alloc: Global, id: u64, clause: &Clause) -> Result<Place, Fail>
    requires { base.old.trail.vars ≡ 300 }
    ensures { OnOk result (base.new.trail.vars ≡ 300) }
{
    let Normal::Clause(clause) = normal(alloc, clause)? else {
        return Err(Fail::from("a tautology"));
    };
    if base.trail().depth() != 0 {
        return Err(Fail::from("above level zero"));
    }
    if base.find(id).is_some() {
        return Err(Fail::from("the id is there"));
    }
    if !are_known(clause.lits()) {
        return Err(Fail::from("a literal beyond the last variable"));
    }
    Ok(base.add(id, 2, &clause)?)
}

/// A base of these clauses, with the ids from 1 on.
pub(super) fn base_of(alloc: Global, clauses: &[Clause]) -> Result<Base, Fail>
    ensures { IfOk result (λ base. base.trail.vars ≡ 300) }
{
    let mut base = Base::new(alloc, 300)?;
    let mut id = 0u64;
    for clause in clauses {
        id = id.saturating_add(1);
        add(&mut base, alloc, id, clause)?;
    }
    Ok(base)
}

/// A base of the clauses of a text.
pub(super) fn base_for(alloc: Global, formula: &str) -> Result<Base, Fail>
    ensures { IfOk result (λ base. base.trail.vars ≡ 300) }
{
    let clauses = clauses_of(alloc, formula)?;
    base_of(alloc, clauses.as_slice())
}

/// Whether the first literal has no value, and the second is false since the present level.
fn is_taught(trail: &Trail, first: Lit, second: Lit) -> bool
    requires first { first.index < trail.now.vars }
    requires second { second.index < trail.now.vars }
    ensures { result ≡ true → IsLearnt trail.now (first ∷ second ∷ []) }
{
    if trail.value(first).is_some() {
        return false;
    }
    match trail.value(second) {
        Some(false) => trail.level(second.var()) == trail.depth(),
        _ => false,
    }
}

/// Adds the clause of two literals, where a conflict may have taught it.
pub(super) fn learn(
    base: &mut Base,
    alloc: Global,
    id: u64,
    first: Lit,
    second: Lit,
) -> Result<Place, Fail>
    requires { base.old.trail.vars ≡ 300 }
    ensures { OnOk result (base.new.trail.vars ≡ 300) }
{
    if first.index() >= 300 || second.index() >= 300 || first.index() == second.index() {
        return Err(Fail::from("not two of the variables"));
    }
    if base.find(id).is_some() {
        return Err(Fail::from("the id is there"));
    }
    if !is_taught(base.trail(), first, second) {
        return Err(Fail::from("no conflict teaches the clause"));
    }
    let mut clause = Clause::new(alloc);
    clause.push(first)?;
    clause.push(second)?;
    Ok(base.add(id, 2, &clause)?)
}

/// Propagates: the place of a clause that is false, or `None` where nothing is left.
pub(super) fn propagate(base: &mut Base) -> Result<Option<Place>, Fail>
    requires { base.old.trail.vars ≡ 300 }
    ensures { OnOk result (base.new.trail.vars ≡ 300) }
{
    match base.propagate()? {
        Propagated::Quiet => Ok(None),
        Propagated::Conflict { place } => Ok(Some(place)),
    }
}

/// Opens a level by a literal, where its variable has no value and propagation is quiet: whether it did.
pub(super) fn decide(base: &mut Base, lit: Lit) -> Result<bool, Fail>
    requires { base.old.trail.vars ≡ 300 }
    ensures { OnOk result (base.new.trail.vars ≡ 300) }
{
    let Propagated::Quiet = base.propagate()? else {
        return Ok(false);
    };
    if lit.index() >= 300 || base.trail().value(lit).is_some() {
        return Ok(false);
    }
    base.decide(lit);
    Ok(true)
}

/// Whether these are the literals of the trail.
pub(super) fn has_trail(base: &Base, lits: &[Lit]) -> bool {
    base.trail().lits() == lits
}

/// Whether the literal is true.
pub(super) fn is_true(base: &Base, lit: Lit) -> bool
    requires { base.now.trail.vars ≡ 300 }
{
    lit.index() < 300 && holds(base.trail(), lit)
}

/// The first literal of the trail whose reason is at the place.
pub(super) fn forced_by(trail: &Trail, place: Place) -> Option<Lit>
    ensures { IfNone result (All (λ a. a.reason ≢ Some place) trail.now.assigned) }
{
    let lits = trail.lits();
    let mut index = 0;
    while index < lits.len() {
        let lit = lits[index];
        let var = lit.var();
        if let Some(reason) = trail.reason(var) {
            if reason.0 == place.0 {
                return Some(lit);
            }
        }
        index += 1;
    }
    None
}

/// Whether the clause of an id is the reason of the literal.
pub(super) fn is_reason(base: &Base, id: u64, lit: Lit) -> bool {
    match base.find(id) {
        Some(place) => forced_by(base.trail(), place) == Some(lit),
        None => false,
    }
}

/// Removes the clause of an id, where it is no literal's reason: whether it did.
pub(super) fn remove(base: &mut Base, id: u64) -> bool
    requires { base.old.trail.vars ≡ 300 }
    ensures { base.new.trail.vars ≡ 300 }
{
    let Some(place) = base.find(id) else {
        return false;
    };
    if forced_by(base.trail(), place).is_some() {
        return false;
    }
    base.remove(place);
    true
}

/// Moves the clauses together, at level zero: whether that gives words back.
pub(super) fn gives_words_back(base: &mut Base) -> Result<bool, Fail>
    requires { base.old.trail.vars ≡ 300 }
    ensures { OnOk result (base.new.trail.vars ≡ 300) }
{
    base.backtrack(0);
    let words = base.arena().words();
    base.compact()?;
    Ok(base.arena().words() < words)
}

/// Settles a literal that is true at level zero.
pub(super) fn settle(base: &mut Base, lit: Lit, id: u64) -> Result<Place, Fail>
    requires { base.old.trail.vars ≡ 300 }
    ensures { OnOk result (base.new.trail.vars ≡ 300) }
{
    if base.trail().depth() != 0 {
        return Err(Fail::from("above level zero"));
    }
    if base.find(id).is_some() {
        return Err(Fail::from("the id is there"));
    }
    if lit.index() >= 300 {
        return Err(Fail::from("a literal beyond the last variable"));
    }
    if !holds(base.trail(), lit) {
        return Err(Fail::from("the literal is not true"));
    }
    Ok(base.settle(lit, id)?)
}

/// Whether the clause of an id has these literals, in this order.
pub(super) fn has_lits(base: &Base, id: u64, lits: &[Lit]) -> bool {
    match base.find(id) {
        Some(place) => base.arena().lits(place) == lits,
        None => false,
    }
}

/// Whether these are the ids of the clauses, ascending.
pub(super) fn has_ids(base: &Base, ids: &[u64]) -> Result<bool, Fail> {
    let all = base.ids()?;
    Ok(all.all() == ids)
}
