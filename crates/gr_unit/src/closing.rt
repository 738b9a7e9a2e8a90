// The closure under unit propagation, and whether it is a conflict.
ghost use Rattle.std.specs.Prelude.{◌≡◌, ◌↔◌, ◌||◌, ℕ, [], IsTrue, IfOk};
ghost use Rattle.std.specs.List.{list_any};
ghost use Rattle.std.specs.FinSet as set;
ghost use Rattle.gr_logic.specs.Literals.{Literal, negation};
ghost use Rattle.gr_logic.specs.Rup.{members};
ghost use Rattle.gr_logic.specs.Log.{is_empty};
ghost use Rattle.gr_logic.specs.Closure.{listed, InClosure, DerivesConflict};
ghost use Rattle.gr_unit.specs.Closing.{IsClosureOf, is_conflict_of};

use crate::derivations::Derived;
use crate::forcing::next_forced;
use gr_logic::{Clause, Lit, LitSet, OutOfMemory};
use std::alloc::Global;

/// The literals that unit propagation derives from the given ones: the least set that has these, and
/// that has a literal of a clause wherever it has the negations of the clause's other literals. It
/// does not stop at a conflict.
pub fn closure(alloc: Global, clauses: &[Clause], given: &[Lit]) -> Result<LitSet, OutOfMemory>
    ensures { IfOk result (λ outcome.
        (l : Literal) → IsTrue (set.contains outcome l) ↔ InClosure (listed clauses.now) (members given.now) l) }
{
    let derived = derive(alloc, clauses, given)?;
    Ok(derived.into_set())
}

/// Whether unit propagation derives a conflict from the given literals: a literal and its negation,
/// or an empty clause is there.
pub fn bottom(alloc: Global, clauses: &[Clause], given: &[Lit]) -> Result<bool, OutOfMemory>
    ensures { IfOk result (λ outcome. IsTrue outcome ↔ DerivesConflict (listed clauses.now) (members given.now)) }
{
    let derived = derive(alloc, clauses, given)?;
    Ok(is_conflict(clauses, &derived))
}

/// What is derived from the given literals.
pub(crate) fn derive(
    alloc: Global,
    clauses: &[Clause],
    given: &[Lit],
) -> Result<Derived, OutOfMemory>
    ensures { IfOk result (IsClosureOf clauses.now given.now) }
{
    let mut derived = given_only(alloc, given)?;
    let mut from = 0;
    while let Some(found) = next_forced(clauses, from, &derived) {
        derived = derived.with(found.lit)?;
        from = found.place;
    }
    Ok(derived)
}

/// The given literals.
fn given_only(alloc: Global, given: &[Lit]) -> Result<Derived, OutOfMemory>
    ensures { IfOk result (λ derived. derived ≡ given.now) }
{
    let mut derived = Derived::new(alloc);
    for lit in given {
        derived = derived.with(*lit)?;
    }
    Ok(derived)
}

/// Whether a literal and its negation were derived, or a clause is empty.
pub(crate) fn is_conflict(clauses: &[Clause], derived: &Derived) -> bool
    ensures { result ≡ is_conflict_of clauses.now derived.now }
{
    has_opposed(derived) || has_empty(clauses)
}

/// Whether a literal and its negation were derived.
fn has_opposed(derived: &Derived) -> bool
    ensures { result ≡ list_any (λ l. members derived.now (negation l)) derived.now }
{
    derived.lits().iter().any(|lit| derived.has(lit.negate()))
}

/// Whether a clause is empty.
fn has_empty(clauses: &[Clause]) -> bool
    ensures { result ≡ list_any is_empty clauses.now }
{
    clauses.iter().any(|clause| clause.lits().is_empty())
}
