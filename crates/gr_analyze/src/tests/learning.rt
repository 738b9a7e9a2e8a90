// Each case of the table is learnt, twice, and plain unit propagation over the cited clauses refutes its negation.
ghost use Rattle.std.specs.Prelude.{◌≡◌, Some};

use crate::tests::calls::{base_of, clauses_of, conflict_of, lits_of};
use crate::tests::cases::{CASES, Case};
use crate::{Analyzer, Learnt};
use gr_logic::{Clause, Lit, Place};
use gr_prop::Base;
use gr_unit::bottom;
use std::alloc::Global;
use std::test::Fail;

/// Whether the clause is the wanted one, but for the order behind its second literal.
fn is_clause(lits: &[Lit], wanted: &[Lit]) -> bool {
    lits.len() == wanted.len()
        && lits.first() == wanted.first()
        && lits.iter().all(|lit| wanted.contains(lit))
}

/// Whether the hints are the wanted ids, in some order.
fn are_hints(hints: &[u64], wanted: &[u64]) -> bool {
    hints.len() == wanted.len() && hints.iter().all(|id| wanted.contains(id))
}

/// Whether unit propagation over the cited clauses alone refutes the negation of what was learnt.
fn is_refuted(alloc: Global, clauses: &[Clause], learnt: &Learnt) -> Result<bool, Fail> {
    let mut cited = Vec::new(alloc);
    for id in learnt.hints.all() {
        let clause = clauses
            .get(id.wrapping_sub(1) as usize)
            .ok_or("no such id")?;
        cited.push(clause.copy()?)?;
    }
    let mut negated = Vec::new(alloc);
    for lit in learnt.clause.lits() {
        negated.push(lit.negate())?;
    }
    Ok(bottom(alloc, cited.as_slice(), negated.as_slice())?)
}

/// Analyses the conflict, and compares.
fn compare(
    alloc: Global,
    analyzer: &mut Analyzer,
    base: &Base,
    conflict: Place,
    clauses: &[Clause],
    case: &Case,
) -> Result<bool, Fail>
    requires conflict { base.now.conflict ≡ Some conflict }
    requires vars { base.now.trail.vars ≡ analyzer.old.vars }
    ensures { analyzer.new.vars ≡ analyzer.old.vars }
{
    let learnt = analyzer.first_uip(base, conflict)?;
    let wanted = lits_of(alloc, case.clause)?;
    Ok(
        is_clause(learnt.clause.lits(), wanted.as_slice())
            && are_hints(learnt.hints.all(), case.hints)
            && learnt.lbd == case.lbd
            && learnt.back_to == case.back_to
            && is_refuted(alloc, clauses, &learnt)?,
    )
}

/// Whether the case is learnt, and again by the same analyzer.
fn is_learnt(alloc: Global, case: &Case) -> Result<bool, Fail> {
    let clauses = clauses_of(alloc, case.formula)?;
    let decisions = lits_of(alloc, case.decisions)?;
    let mut base = base_of(alloc, clauses.as_slice())?;
    let conflict = conflict_of(&mut base, decisions.as_slice())?;
    let mut analyzer = Analyzer::new(alloc, 8)?;
    let first = compare(
        alloc,
        &mut analyzer,
        &base,
        conflict,
        clauses.as_slice(),
        case,
    )?;
    let again = compare(
        alloc,
        &mut analyzer,
        &base,
        conflict,
        clauses.as_slice(),
        case,
    )?;
    Ok(first && again)
}

#[test]
fn learns_each_case(rt: HostRuntime) -> Result<(), Fail> {
    for case in CASES {
        assert!(rt; is_learnt(rt.alloc(), &case)?, "{case:?}");
    }
    Ok(())
}
