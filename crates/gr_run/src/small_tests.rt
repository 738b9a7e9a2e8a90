// Small formulas on one thread, each decided by trying all assignments too.
ghost use Rattle.std.specs.Prelude.{◌≤◌};

use crate::{SolveOptions, Verdict, solve_alone};
use gr_logic::{Clause, Formula, Lit, OutOfMemory};
use std::alloc::Global;
use std::mem;
use std::process::Abort;
use std::test::Fail;

/// Puts a clause into a formula that has room for it.
fn push(rt: &impl Abort, formula: &mut Formula, clause: Clause) -> Result<(), OutOfMemory> {
    let vars = formula.vars();
    assert!(rt; clause.lits().iter().all(|lit| lit.var() <= vars));
    assert!(rt; formula.clauses().len() < 2_000);
    formula.push(clause)
}

/// A formula of these clauses, each ended by a zero.
fn formula_of(
    rt: &impl Abort,
    alloc: Global,
    vars: u32,
    numbers: &[i32],
) -> Result<Formula, OutOfMemory> {
    assert!(rt; vars <= 100);
    let mut formula = Formula::new(alloc, vars);
    let mut clause = Clause::new(alloc);
    for number in numbers {
        match Lit::new(*number) {
            Some(lit) => clause.push(lit)?,
            None => {
                let ended = mem::replace(&mut clause, Clause::new(alloc));
                push(rt, &mut formula, ended)?;
            }
        }
    }
    Ok(formula)
}

/// The next number below this one, of a sequence that looks as if it were random (Knuth's linear congruences).
fn draw(seed: &mut u64, below: u64) -> u64 {
    *seed = seed
        .wrapping_mul(6_364_136_223_846_793_005)
        .wrapping_add(1_442_695_040_888_963_407);
    (*seed / 4_294_967_296).checked_rem(below).unwrap_or(0)
}

/// A literal of one of the variables 1 to 6.
fn lit_from(seed: &mut u64) -> Lit {
    let drawn = u32::try_from(draw(seed, 12)).unwrap_or(0);
    Lit::from_code(drawn % 12)
}

/// A formula over the variables 1 to 6, of 12 to 31 clauses of one to four literals, some of them twice in a clause or
/// beside their negations.
fn formula_from(rt: &impl Abort, alloc: Global, seed: &mut u64) -> Result<Formula, OutOfMemory> {
    let mut formula = Formula::new(alloc, 6);
    for _clause in 0..draw(seed, 20).saturating_add(12) {
        let mut clause = Clause::new(alloc);
        for _lit in 0..draw(seed, 23).saturating_add(12) / 7 {
            clause.push(lit_from(seed))?;
        }
        push(rt, &mut formula, clause)?;
    }
    Ok(formula)
}

fn is_met(clause: &Clause, values: &[bool]) -> bool {
    for lit in clause.lits() {
        if values.get(lit.index()).copied() == Some(lit.is_positive()) {
            return true;
        }
    }
    false
}

fn are_met(clauses: &[Clause], values: &[bool]) -> bool {
    for clause in clauses {
        if !is_met(clause, values) {
            return false;
        }
    }
    true
}

/// Whether one of all assignments of the variables 1 to 6 satisfies the formula.
fn is_satisfiable(formula: &Formula) -> bool {
    let mut values = [false; 6];
    for _assignment in 0..64 {
        if are_met(formula.clauses(), &values) {
            return true;
        }
        for value in values.iter_mut() {
            *value = !*value;
            if *value {
                break;
            }
        }
    }
    false
}

/// The verdict of a run that may learn so many clauses.
fn verdict(alloc: Global, formula: &Formula, conflicts: u64) -> Result<Verdict, OutOfMemory>
    requires some { 1 ≤ conflicts }
    requires few { conflicts ≤ 1_000 }
{
    let options = SolveOptions {
        reducers: 0,
        conflicts,
        capacity: 1_000,
        offer: 1_000_000,
        keep_all: false,
    };
    let ran = solve_alone(alloc, formula, &options)?;
    Ok(ran.verdict)
}

#[test]
fn decides_a_hundred_formulas(rt: HostRuntime) -> Result<(), Fail> {
    let alloc = rt.alloc();
    let mut seed = 1;
    let mut satisfiable = 0u32;
    for _formula in 0..100u32 {
        let formula = formula_from(&rt, alloc, &mut seed)?;
        let found = verdict(alloc, &formula, 1_000)?;
        if is_satisfiable(&formula) {
            satisfiable = satisfiable.saturating_add(1);
            assert_eq!(rt; found, Verdict::Satisfiable);
        } else {
            assert_eq!(rt; found, Verdict::Unsatisfiable);
        }
    }
    // Both kinds are among them.
    assert!(rt; 20 <= satisfiable && satisfiable <= 80);
    Ok(())
}

/// The verdict on these clauses over two variables, each ended by a zero.
fn verdict_of(
    rt: &impl Abort,
    alloc: Global,
    numbers: &[i32],
    conflicts: u64,
) -> Result<Verdict, OutOfMemory>
    requires some { 1 ≤ conflicts }
    requires few { conflicts ≤ 1_000 }
{
    verdict(alloc, &formula_of(rt, alloc, 2, numbers)?, conflicts)
}

#[test]
fn decides_what_is_decided_at_once(rt: HostRuntime) -> Result<(), Fail> {
    let alloc = rt.alloc();
    assert_eq!(rt; verdict_of(&rt, alloc, &[], 1)?, Verdict::Satisfiable);
    assert_eq!(rt; verdict_of(&rt, alloc, &[0], 1)?, Verdict::Unsatisfiable);
    assert_eq!(rt;
        verdict_of(&rt, alloc, &[1, 0, -2, 0], 1)?,
        Verdict::Satisfiable
    );
    assert_eq!(rt;
        verdict_of(&rt, alloc, &[1, 0, -1, 0], 1)?,
        Verdict::Unsatisfiable
    );
    assert_eq!(rt;
        verdict_of(&rt, alloc, &[1, -1, 0], 1)?,
        Verdict::Satisfiable
    );
    assert_eq!(rt;
        verdict_of(&rt, alloc, &[1, 1, 0, -1, -1, 0], 1)?,
        Verdict::Unsatisfiable
    );
    Ok(())
}

#[test]
fn is_spent_where_one_clause_more_refutes(rt: HostRuntime) -> Result<(), Fail> {
    let alloc = rt.alloc();
    let all_signs = [1, 2, 0, 1, -2, 0, -1, 2, 0, -1, -2, 0];
    assert_eq!(rt; verdict_of(&rt, alloc, &all_signs, 1)?, Verdict::Unknown);
    assert_eq!(rt;
        verdict_of(&rt, alloc, &all_signs, 2)?,
        Verdict::Unsatisfiable
    );
    Ok(())
}
