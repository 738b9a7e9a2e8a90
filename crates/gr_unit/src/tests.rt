// The calls against worked rows, over three clauses of four variables.
use crate::{bottom, closure, greedy};
use gr_logic::{Clause, Lit};
use std::alloc::Global;
use std::test::Fail;

fn lit(n: i32) -> Result<Lit, Fail> {
    Ok(Lit::new(n).ok_or("no literal")?)
}

fn lits(alloc: Global, numbers: &[i32]) -> Result<Vec<Lit>, Fail> {
    let mut list = Vec::new(alloc);
    for n in numbers {
        list.push(lit(*n)?)?;
    }
    Ok(list)
}

fn clause(alloc: Global, numbers: &[i32]) -> Result<Clause, Fail> {
    Ok(Clause::from_lits(alloc, lits(alloc, numbers)?.as_slice())?)
}

/// `1 -2`, `1 2 3 4` and `1 2 3 -4`.
fn three_clauses(alloc: Global) -> Result<Vec<Clause>, Fail> {
    let mut clauses = Vec::new(alloc);
    clauses.push(clause(alloc, &[1, -2])?)?;
    clauses.push(clause(alloc, &[1, 2, 3, 4])?)?;
    clauses.push(clause(alloc, &[1, 2, 3, -4])?)?;
    Ok(clauses)
}

#[test]
fn closes_a_set(rt: HostRuntime) -> Result<(), Fail> {
    let alloc = rt.alloc();
    let clauses = three_clauses(alloc)?;
    let set = closure(alloc, clauses.as_slice(), lits(alloc, &[-1])?.as_slice())?;
    let rows = [
        (-1, true),
        (-2, true),
        (1, false),
        (2, false),
        (3, false),
        (-3, false),
        (4, false),
        (-4, false),
    ];
    for (number, wanted) in rows {
        assert_eq!(rt; set.has(lit(number)?), wanted, "{number}");
    }
    Ok(())
}

#[test]
fn tells_conflicts(rt: HostRuntime) -> Result<(), Fail> {
    let alloc = rt.alloc();
    let mut clauses = three_clauses(alloc)?;
    let rows: [(&[i32], bool); 5] = [
        (&[], false),
        (&[-1], false),
        (&[-1, -3], true),
        (&[4, -4], true),
        (&[1], false),
    ];
    for (given, wanted) in rows {
        let outcome = bottom(alloc, clauses.as_slice(), lits(alloc, given)?.as_slice())?;
        assert_eq!(rt; outcome, wanted, "of {given:?}");
    }
    clauses.push(Clause::new(alloc))?;
    assert!(rt;
        bottom(alloc, clauses.as_slice(), &[])?,
        "with the empty clause"
    );
    Ok(())
}

#[test]
fn strengthens_clauses(rt: HostRuntime) -> Result<(), Fail> {
    let alloc = rt.alloc();
    let clauses = three_clauses(alloc)?;
    let rows: [(&[i32], &[i32]); 4] = [
        (&[1, 2, 3], &[1, 3]),
        (&[], &[]),
        (&[1, -2, 3], &[1, -2]),
        (&[4, 2, 3, 1], &[4, 2, 3, 1]),
    ];
    for (numbers, wanted) in rows {
        let kept = greedy(alloc, clauses.as_slice(), &clause(alloc, numbers)?)?;
        let expected = lits(alloc, wanted)?;
        assert_eq!(rt; kept.lits(), expected.as_slice(), "of {numbers:?}");
    }
    Ok(())
}
