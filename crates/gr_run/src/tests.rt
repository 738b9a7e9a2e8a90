// One run for each verdict, on formulas whose answers are known.
use crate::{SolveOptions, Verdict, solve_alone};
use gr_gen::{odd_ring, pigeons};
use gr_logic::{Clause, Formula, Lit};
use std::test::Fail;

/// The options that the program has where none are given, but for reducers.
const DEFAULTS: SolveOptions = SolveOptions {
    reducers: 0,
    conflicts: 1_000_000,
    capacity: 1_000,
    offer: 1_000_000,
    keep_all: false,
};

#[test]
fn finds_the_only_assignment(rt: HostRuntime) -> Result<(), Fail> {
    let alloc = rt.alloc();
    let mut formula = Formula::new(alloc, 2);
    formula.push(Clause::from_lits(alloc, &[Lit::of_var(1, true)])?)?;
    formula.push(Clause::from_lits(alloc, &[Lit::of_var(1, false), Lit::of_var(2, false)])?)?;
    let ran = solve_alone(alloc, &formula, &DEFAULTS)?;
    assert_eq!(rt; ran.verdict, Verdict::Satisfiable);
    assert_eq!(rt; ran.model.values(), [true, false].as_slice());
    Ok(())
}

#[test]
fn refutes_an_odd_ring(rt: HostRuntime) -> Result<(), Fail> {
    let alloc = rt.alloc();
    let ran = solve_alone(alloc, &odd_ring(alloc, 5)?, &DEFAULTS)?;
    assert_eq!(rt; ran.verdict, Verdict::Unsatisfiable);
    assert_eq!(rt; ran.model.len(), 0);
    Ok(())
}

#[test]
fn learns_no_more_than_it_may(rt: HostRuntime) -> Result<(), Fail> {
    let alloc = rt.alloc();
    let one = SolveOptions {
        conflicts: 1,
        ..DEFAULTS
    };
    let ran = solve_alone(alloc, &pigeons(alloc, 4)?, &one)?;
    assert_eq!(rt; ran.verdict, Verdict::Unknown);
    Ok(())
}
