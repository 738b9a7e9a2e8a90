// Formulas over the variables 1 to 6, taken clauses, and clauses that a strengthener keeps.
ghost use Rattle.std.specs.Prelude.{◌≡◌, ◌≤◌, ◌<◌, ℕ, true, All, None, length, IfOk, OnOk};
ghost use Rattle.std.specs.FinMap as finite;
ghost use Rattle.std.specs.FinSet as set;
ghost use Rattle.gr_logic.specs.Formulas.{VarsUpTo};
ghost use Rattle.gr_logic.specs.NormalForms.{IsNormal};

use crate::Strengthener;
use gr_bench::Taken;
use gr_logic::{Clause, Formula, Lit, Normal, normal};
use std::alloc::Global;
use std::mem;
use std::test::Fail;

/// The clauses of texts, each with a zero behind its literals.
pub(super) fn clauses_of(alloc: Global, texts: &[&str]) -> Result<Vec<Clause>, Fail> {
    let mut clauses = Vec::new(alloc);
    let mut clause = Clause::new(alloc);
    for text in texts {
        for word in text.split_ascii_whitespace() {
            if word == "0" {
                clauses.push(mem::replace(&mut clause, Clause::new(alloc)))?;
            } else {
                clause.push(Lit::new(word.parse::<i32>()?).ok_or("no literal")?)?;
            }
        }
    }
    Ok(clauses)
}

/// Whether the literals are of the variables 1 to 6.
fn are_known(lits: &[Lit]) -> bool
    ensures { result ≡ true → All (λ l. l.index < 6) lits.now }
{
    lits.iter().all(|lit| lit.index() < 6)
}

/// The formula of a text.
pub(super) fn formula_of(alloc: Global, text: &str) -> Result<Formula, Fail>
    ensures { IfOk result (λ formula. formula.vars ≡ 6) }
{
    let mut formula = Formula::new(alloc, 6);
    for clause in clauses_of(alloc, &[text])? {
        if !are_known(clause.lits()) || formula.clauses().len() >= 1000 {
            return Err(Fail::from("no small formula"));
        }
        formula.push(clause)?;
    }
    Ok(formula)
}

/// The clause, taken under an id.
pub(super) fn taken_of(alloc: Global, id: u64, clause: &Clause) -> Result<Taken, Fail>
    ensures id { IfOk result (λ taken. taken.id ≡ id) }
    ensures normal { IfOk result (λ taken. IsNormal taken.clause) }
    ensures known { IfOk result (λ taken. VarsUpTo 6 taken.clause) }
{
    let Normal::Clause(clause) = normal(alloc, clause)? else {
        return Err(Fail::from("a tautology"));
    };
    if !are_known(clause.lits()) {
        return Err(Fail::from("a literal beyond the sixth variable"));
    }
    Ok(Taken { id, clause })
}

/// Keeps the clauses under the ids from the next one on: the id that is next then.
pub(super) fn keep_all(
    alloc: Global,
    strengthener: &mut Strengthener<'_>,
    mut next: u64,
    kept: &[Clause],
) -> Result<u64, Fail>
    requires vars { strengthener.old.formula.vars ≡ 6 }
    requires above { length strengthener.old.formula.clauses < next }
    requires unused { strengthener.old.kept ≡ finite.empty }
    ensures formula { OnOk result (strengthener.new.formula ≡ strengthener.old.formula) }
    ensures above { IfOk result (λ id. length strengthener.old.formula.clauses < id) }
    ensures unused { IfOk result (λ id. finite.get strengthener.new.kept id ≡ None) }
{
    for clause in kept {
        let taken = taken_of(alloc, next, clause)?;
        strengthener.keep(taken.id, &taken.clause)?;
        if next == u64::MAX {
            return Err(Fail::from("too many clauses"));
        }
        next += 1;
    }
    Ok(next)
}
