// Rings of an odd number of variables.
ghost use Rattle.std.specs.Prelude.{◌≡◌, ◌≤◌, ◌<◌, ◌+◌, ◌%◌, ◌++◌, length, IfOk, OnOk};
ghost use Rattle.gr_logic.specs.Truth.{IsUnsatisfiable};
ghost use Rattle.gr_gen.specs.OddRings.{differ, ring};

use gr_logic::{Clause, Formula, Lit, OutOfMemory};
use std::alloc::Global;

/// The ring of `n` variables: for each variable `i` from 1 on, and the next one `j`, which is 1 for
/// the last, the clauses `i j` and `-i -j`. No assignment satisfies them, since `n` is odd.
pub fn odd_ring(alloc: Global, n: u32) -> Result<Formula, OutOfMemory>
    requires odd { n % 2 ≡ 1 }
    requires low { 3 ≤ n }
    requires high { n ≤ 999_999 }
    ensures ring { IfOk result (λ formula. formula ≡ ring n) }
    ensures unsatisfiable { IfOk result (λ formula. IsUnsatisfiable formula.clauses) }
{
    let last = n - 1;
    let mut formula = Formula::new(alloc, n);
    for i in 0..last {
        push_differ(alloc, &mut formula, i, i + 1)?;
    }
    push_differ(alloc, &mut formula, last, 0)?;
    Ok(formula)
}

/// Appends that the variables with these indices have different values.
fn push_differ(alloc: Global, formula: &mut Formula, i: u32, j: u32) -> Result<(), OutOfMemory>
    requires i { i < formula.old.vars }
    requires j { j < formula.old.vars }
    requires room { length formula.old.clauses + 1 < 5_000_000 }
    ensures { OnOk result (formula.new
        ≡ record formula.old { clauses = formula.old.clauses ++ differ i j }) }
{
    let _most = formula.vars();
    let one = Clause::from_lits(alloc, &[Lit::of_var(i + 1, true), Lit::of_var(j + 1, true)])?;
    formula.push(one)?;
    let not_both = Clause::from_lits(
        alloc,
        &[Lit::of_var(i + 1, false), Lit::of_var(j + 1, false)],
    )?;
    formula.push(not_both)
}
