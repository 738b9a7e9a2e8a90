// Clauses against plain greedy strengthening.
ghost use Rattle.std.specs.Prelude.{◌≡◌, ◌<◌, None, length, IfOk, OnOk};
ghost use Rattle.std.specs.FinMap as finite;
ghost use Rattle.gr_logic.specs.Formulas.{VarsUpTo};
ghost use Rattle.gr_logic.specs.NormalForms.{IsNormal};

use crate::Strengthener;
use crate::tests::calls::{clauses_of, taken_of};
use crate::tests::formulas::TAKEN;
use gr_bench::Taken;
use gr_logic::{Clause, Ids, Lit, Strengthened};
use gr_unit::{bottom, greedy};
use std::alloc::Global;
use std::test::Fail;

/// The literal of the clause that is not false yet, if there is one; `Err` where there are more.
fn open_of(falsified: &[Lit], read: &[Lit]) -> Result<Option<Lit>, Fail> {
    let mut open = None;
    for lit in read {
        if !falsified.contains(lit) {
            if open.is_some() {
                return Err(Fail::from("a hint with two open literals"));
            }
            open = Some(*lit);
        }
    }
    Ok(open)
}

/// Whether unit steps along the hints accept the clause: each clause that is read has one literal that is
/// not false yet, which becomes true, and the last has none. The clauses have the ids from 1 on, and then
/// comes the taken one.
fn accepts(
    alloc: Global,
    clauses: &[Clause],
    taken: &Taken,
    lits: &[Lit],
    hints: &[u64],
) -> Result<bool, Fail> {
    let mut falsified = Vec::from_slice(alloc, lits)?;
    for hint in hints {
        let read = clauses
            .get(hint.wrapping_sub(1) as usize)
            .unwrap_or(&taken.clause);
        match open_of(falsified.as_slice(), read.lits())? {
            Some(lit) => falsified.push(lit.negate())?,
            None => return Ok(true),
        }
    }
    Ok(false)
}

/// The clauses but for those of these ids.
fn without(alloc: Global, clauses: &[Clause], gone: &[u64]) -> Result<Vec<Clause>, Fail> {
    let mut left = Vec::new(alloc);
    for (index, clause) in clauses.iter().enumerate() {
        if !gone.contains(&(index as u64).wrapping_add(1)) {
            left.push(clause.copy()?)?;
        }
    }
    Ok(left)
}

/// Whether each literal of the one clause is in the other.
fn is_part(one: &[Lit], other: &[Lit]) -> bool {
    one.iter().all(|lit| other.contains(lit))
}

/// Whether the clauses are in conflict with the clause.
fn is_refuted(alloc: Global, clauses: &[Clause], lits: &[Lit]) -> Result<bool, Fail> {
    let mut negated = Vec::new(alloc);
    for lit in lits {
        negated.push(lit.negate())?;
    }
    Ok(bottom(alloc, clauses, negated.as_slice())?)
}

/// Whether greedy strengthening says so: the literals are all that it keeps, or, where a conflict or a true
/// literal ends its walk, a part of that.
fn is_greedy(
    alloc: Global,
    clauses: &[Clause],
    taken: &Clause,
    lits: &[Lit],
) -> Result<bool, Fail> {
    let kept = greedy(alloc, clauses, taken)?;
    if !is_part(lits, kept.lits()) {
        return Ok(false);
    }
    Ok(is_part(kept.lits(), lits) || is_refuted(alloc, clauses, kept.lits())?)
}

/// Whether the outcome is as it should be.
fn is_right(
    alloc: Global,
    all: &[Clause],
    left: &[Clause],
    taken: &Taken,
    outcome: &Strengthened,
) -> Result<bool, Fail> {
    let whole = taken.clause.lits();
    match outcome {
        Strengthened::Same => is_greedy(alloc, left, &taken.clause, whole),
        Strengthened::Shorter { clause, hints } => {
            let lits = clause.lits();
            if lits.len() >= whole.len() || !is_greedy(alloc, left, &taken.clause, lits)? {
                return Ok(false);
            }
            accepts(alloc, all, taken, lits, hints.all())
        }
    }
}

/// Whether the clause is strengthened as it should be.
fn runs_right(
    alloc: Global,
    strengthener: &mut Strengthener<'_>,
    all: &[Clause],
    left: &[Clause],
    taken: &Taken,
) -> Result<bool, Fail>
    requires above { length strengthener.old.formula.clauses < taken.now.id }
    requires unused { finite.get strengthener.old.kept taken.now.id ≡ None }
    requires normal { IsNormal taken.now.clause }
    requires known { VarsUpTo strengthener.old.formula.vars taken.now.clause }
    ensures { OnOk result (strengthener.new ≡ strengthener.old) }
{
    let outcome = strengthener.run(taken)?;
    is_right(alloc, all, left, taken, &outcome)
}

/// Whether each clause of the table is strengthened as it should be. All clauses that there ever were have
/// the ids from 1 on, and some of them are left.
fn run_right(
    alloc: Global,
    strengthener: &mut Strengthener<'_>,
    next: u64,
    all: &[Clause],
    left: &[Clause],
) -> Result<bool, Fail>
    requires vars { strengthener.old.formula.vars ≡ 6 }
    requires above { length strengthener.old.formula.clauses < next }
    requires unused { finite.get strengthener.old.kept next ≡ None }
    ensures { OnOk result (strengthener.new ≡ strengthener.old) }
{
    for clause in clauses_of(alloc, &[TAKEN])? {
        let taken = taken_of(alloc, next, &clause)?;
        if !runs_right(alloc, strengthener, all, left, &taken)? {
            return Ok(false);
        }
    }
    Ok(true)
}

/// Lets half of the clauses go, and no id comes into use.
fn let_go(strengthener: &mut Strengthener<'_>, next: u64) -> Result<Ids, Fail>
    requires { finite.get strengthener.old.kept next ≡ None }
    ensures formula { OnOk result (strengthener.new.formula ≡ strengthener.old.formula) }
    ensures unused { OnOk result (finite.get strengthener.new.kept next ≡ None) }
{
    Ok(strengthener.let_go_half()?)
}

/// Whether each clause of the table is strengthened as it should be, and again after half of the kept
/// clauses went.
pub(super) fn is_plain_greedy(
    alloc: Global,
    strengthener: &mut Strengthener<'_>,
    next: u64,
    all: &[Clause],
) -> Result<bool, Fail>
    requires vars { strengthener.old.formula.vars ≡ 6 }
    requires above { length strengthener.old.formula.clauses < next }
    requires unused { finite.get strengthener.old.kept next ≡ None }
{
    if !run_right(alloc, strengthener, next, all, all)? {
        return Ok(false);
    }
    let gone = let_go(strengthener, next)?;
    let left = without(alloc, all, gone.all())?;
    run_right(alloc, strengthener, next, all, left.as_slice())
}
