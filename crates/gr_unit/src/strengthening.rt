// Greedy strengthening.
ghost use Rattle.std.specs.Prelude.{◌≡◌, [], map, IfOk};
ghost use Rattle.gr_logic.specs.Literals.{negation};
ghost use Rattle.gr_logic.specs.Closure.{listed};
ghost use Rattle.gr_logic.specs.Greedy.{GreedyKeeps};
ghost use Rattle.gr_unit.specs.Strengthening.{IsVerdictOn};

use crate::closing::{derive, is_conflict};
use gr_logic::{Clause, Lit, OutOfMemory};
use std::alloc::Global;

/// What becomes of a literal of the clause.
#[derive(Drop)]
enum Verdict {
    /// The kept literals are enough.
    Enough,
    /// It is false: it is left out.
    LeftOut,
    /// It is true: it is the last that is kept.
    Last,
    /// It is kept.
    Kept,
}

/// The literals of the clause that greedy strengthening keeps, in order: under the negations of those
/// kept so far a false literal is left out, a true one ends the walk, and so does a conflict.
pub fn greedy(alloc: Global, clauses: &[Clause], clause: &Clause) -> Result<Clause, OutOfMemory>
    ensures { IfOk result (GreedyKeeps (listed clauses.now) clause.now) }
{
    strengthened(alloc, clauses, clause.lits())
}

/// Greedy strengthening of a list of literals.
fn strengthened(alloc: Global, clauses: &[Clause], lits: &[Lit]) -> Result<Clause, OutOfMemory>
    ensures { IfOk result (GreedyKeeps (listed clauses.now) lits.now) }
{
    let mut kept = Clause::new(alloc);
    for lit in lits {
        match judge(alloc, clauses, kept.lits(), *lit)? {
            Verdict::Enough => return Ok(kept),
            Verdict::LeftOut => continue,
            Verdict::Last => {
                kept.push(*lit)?;
                return Ok(kept);
            }
            Verdict::Kept => kept.push(*lit)?,
        }
    }
    Ok(kept)
}

/// What becomes of a literal behind the kept ones.
fn judge(alloc: Global, clauses: &[Clause], kept: &[Lit], lit: Lit) -> Result<Verdict, OutOfMemory>
    ensures { IfOk result (IsVerdictOn clauses.now kept.now lit) }
{
    let assumed = negations(alloc, kept)?;
    let derived = derive(alloc, clauses, assumed.as_slice())?;
    if is_conflict(clauses, &derived) {
        return Ok(Verdict::Enough);
    }
    if derived.has(lit.negate()) {
        return Ok(Verdict::LeftOut);
    }
    if derived.has(lit) {
        return Ok(Verdict::Last);
    }
    Ok(Verdict::Kept)
}

/// The negation of each of the literals.
fn negations(alloc: Global, lits: &[Lit]) -> Result<Vec<Lit>, OutOfMemory>
    ensures { IfOk result (λ negated. negated.items ≡ map negation lits.now) }
{
    let mut negated = Vec::new(alloc);
    for lit in lits {
        negated.push(lit.negate())?;
    }
    Ok(negated)
}
