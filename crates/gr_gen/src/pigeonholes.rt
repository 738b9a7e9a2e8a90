// The pigeonhole principle.
ghost use Rattle.std.specs.Prelude.{◌≡◌, ◌≤◌, ◌<◌, ◌+◌, ◌*◌, ◌++◌, length, IfOk, OnOk};
ghost use Rattle.gr_logic.specs.Formulas.{VarsUpTo};
ghost use Rattle.gr_logic.specs.Truth.{IsUnsatisfiable};
ghost use Rattle.gr_gen.specs.Pigeonholes.{nest, is_somewhere, apart_from_later, alone_in, pigeonhole};

use gr_logic::{Clause, Formula, Lit, OutOfMemory};
use std::alloc::Global;

/// `n` pigeons in `n - 1` holes: variable `(p - 1) * (n - 1) + h` says that pigeon `p` is in hole `h`.
/// First each pigeon is in some hole; then, hole by hole, no two pigeons are in it, the pairs in
/// ascending order. No assignment satisfies this.
pub fn pigeons(alloc: Global, n: u32) -> Result<Formula, OutOfMemory>
    requires low { 2 ≤ n }
    requires high { n ≤ 50 }
    ensures pigeonhole { IfOk result (λ formula. formula ≡ pigeonhole n) }
    ensures unsatisfiable { IfOk result (λ formula. IsUnsatisfiable formula.clauses) }
{
    let holes = n - 1;
    let mut formula = Formula::new(alloc, n * holes);
    for pigeon in 0..n {
        let clause = somewhere(alloc, holes, pigeon)?;
        formula.push(clause)?;
    }
    for hole in 0..holes {
        push_alone(alloc, &mut formula, holes, hole)?;
    }
    Ok(formula)
}

/// That the pigeon is in one of the holes.
fn somewhere(alloc: Global, holes: u32, pigeon: u32) -> Result<Clause, OutOfMemory>
    requires few { holes < 50 }
    requires pigeon { pigeon ≤ holes }
    ensures clause { IfOk result (λ clause. clause ≡ is_somewhere holes pigeon) }
    ensures within { IfOk result (λ clause. VarsUpTo ((holes + 1) * holes) clause) }
{
    let mut clause = Clause::new(alloc);
    for hole in 0..holes {
        clause.push(in_hole(holes, pigeon, hole, true))?;
    }
    Ok(clause)
}

/// Appends that no two pigeons are in the hole.
fn push_alone(
    alloc: Global,
    formula: &mut Formula,
    holes: u32,
    hole: u32,
) -> Result<(), OutOfMemory>
    requires few { holes < 50 }
    requires hole { hole < holes }
    requires vars { formula.old.vars ≡ (holes + 1) * holes }
    requires room { length formula.old.clauses + 2_500 ≤ 5_000_000 }
    ensures { OnOk result (formula.new
        ≡ record formula.old { clauses = formula.old.clauses ++ alone_in holes hole }) }
{
    for pigeon in 0..holes + 1 {
        push_apart(alloc, formula, holes, hole, pigeon)?;
    }
    Ok(())
}

/// Appends that the pigeon is in the hole with none of the later ones.
fn push_apart(
    alloc: Global,
    formula: &mut Formula,
    holes: u32,
    hole: u32,
    pigeon: u32,
) -> Result<(), OutOfMemory>
    requires few { holes < 50 }
    requires hole { hole < holes }
    requires pigeon { pigeon ≤ holes }
    requires vars { formula.old.vars ≡ (holes + 1) * holes }
    requires room { length formula.old.clauses + 50 ≤ 5_000_000 }
    ensures { OnOk result (formula.new
        ≡ record formula.old { clauses = formula.old.clauses ++ apart_from_later holes hole pigeon }) }
{
    for other in pigeon + 1..holes + 1 {
        let first = in_hole(holes, pigeon, hole, false);
        let second = in_hole(holes, other, hole, false);
        let clause = Clause::from_lits(alloc, &[first, second])?;
        formula.push(clause)?;
    }
    Ok(())
}

/// That the pigeon is in the hole, or that it is not.
fn in_hole(holes: u32, pigeon: u32, hole: u32, positive: bool) -> Lit
    requires few { holes < 50 }
    requires hole { hole < holes }
    requires pigeon { pigeon ≤ holes }
    ensures lit { result ≡ record { index = nest holes pigeon hole; positive = positive } }
    ensures within { nest holes pigeon hole < (holes + 1) * holes }
{
    Lit::of_var(pigeon * holes + hole + 1, positive)
}
