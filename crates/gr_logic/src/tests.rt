// Each public call on its happy path, on values from outside.
use crate::{Assignment, Clause, Formula, Ids, Line, Lit, LitSet, LogLines, Normal, Place, normal};
use std::alloc::Global;
use std::test::Fail;

fn lit(n: i32) -> Result<Lit, Fail> {
    Ok(Lit::new(n).ok_or("no literal")?)
}

fn clause(alloc: Global, numbers: &[i32]) -> Result<Clause, Fail> {
    let mut clause = Clause::new(alloc);
    for n in numbers {
        clause.push(lit(*n)?)?;
    }
    Ok(clause)
}

#[test]
fn reads_dimacs_numbers(rt: HostRuntime) -> Result<(), Fail> {
    assert_eq!(rt; lit(-7)?.number(), -7);
    assert_eq!(rt; lit(-7)?.var(), 7);
    assert_eq!(rt; lit(7)?.negate(), lit(-7)?);
    assert_eq!(rt; lit(1)?.code(), 0);
    assert_eq!(rt; Lit::of_var(3, false), lit(-3)?);
    assert_eq!(rt; lit(-1)?.code(), 1);
    assert_eq!(rt; lit(-1_000_000)?.number(), -1_000_000);
    assert_eq!(rt; Lit::new(0), None);
    assert_eq!(rt; Lit::new(1_000_001), None);
    assert_eq!(rt; Lit::new(-1_000_001), None);
    Ok(())
}

#[test]
fn meets_a_formula_by_a_true_literal_each(rt: HostRuntime) -> Result<(), Fail> {
    let alloc = rt.alloc();
    let mut formula = Formula::new(alloc, 3);
    let mut model = Assignment::new(alloc, 3)?;
    assert!(rt; formula.met_by(&model), "the empty formula");
    let unit = clause(alloc, &[1])?;
    assert_eq!(rt; unit.lits().len(), 1);
    assert!(rt; unit.lits()[0].var() <= 3);
    formula.push(unit)?;
    assert!(rt; !formula.met_by(&model));
    model.set(1, true);
    assert!(rt; formula.met_by(&model));
    assert!(rt; model.value(1));
    assert_eq!(rt; model.values(), [true, false, false].as_slice());
    assert_eq!(rt; model.len(), 3);
    Ok(())
}

#[test]
fn keeps_what_is_pushed(rt: HostRuntime) -> Result<(), Fail> {
    let alloc = rt.alloc();
    let mut ids = Ids::new(alloc);
    ids.push(3)?;
    ids.push(1)?;
    assert_eq!(rt; ids.all(), [3, 1].as_slice());
    assert_eq!(rt; Ids::from_vec(vec![in alloc; 3, 1]?).all(), ids.all());
    let mut same = clause(alloc, &[1, -2])?.copy()?;
    assert_eq!(rt; same.lits(), [lit(1)?, lit(-2)?].as_slice());
    same.clear();
    assert_eq!(rt; same.lits().len(), 0);
    let mut log = LogLines::new(alloc);
    log.push(Line::Add {
        id: 4,
        clause: same,
        hints: ids,
    })?;
    assert_eq!(rt; log.all().len(), 1);
    Ok(())
}

#[test]
fn holds_the_literals_that_were_added(rt: HostRuntime) -> Result<(), Fail> {
    let mut set = LitSet::new(rt.alloc());
    assert!(rt; !set.has(lit(3)?), "in the empty set");
    set.add(lit(3)?)?;
    assert!(rt; set.has(lit(3)?));
    assert!(rt; !set.has(lit(-3)?), "the negation");
    set.add(lit(-1_000_000)?)?;
    set.add(lit(1)?)?;
    assert!(rt; set.has(lit(-1_000_000)?) && set.has(lit(1)?) && set.has(lit(3)?));
    assert!(rt; !set.has(lit(2)?));
    assert_eq!(rt; Place(4).0, 4);
    Ok(())
}

/// The numbers of a normal clause, or 0 for a tautology.
fn normal_numbers(alloc: Global, numbers: &[i32]) -> Result<Vec<i32>, Fail> {
    let mut outcome = Vec::new(alloc);
    match normal(alloc, &clause(alloc, numbers)?)? {
        Normal::Tautology => outcome.push(0)?,
        Normal::Clause(firsts) => {
            for one in firsts.lits() {
                outcome.push(one.number())?;
            }
        }
    }
    Ok(outcome)
}

#[test]
fn makes_clauses_normal(rt: HostRuntime) -> Result<(), Fail> {
    let alloc = rt.alloc();
    let rows: [(&[i32], &[i32]); 6] = [
        (&[2, 1, 2], &[2, 1]),
        (&[1, -1], &[0]),
        (&[], &[]),
        (&[-4, 3, 3, -4], &[-4, 3]),
        (&[5, 2, 5, -2], &[0]),
        (&[7], &[7]),
    ];
    for (numbers, wanted) in rows {
        assert_eq!(rt;
            normal_numbers(alloc, numbers)?.as_slice(),
            wanted,
            "of {numbers:?}"
        );
    }
    Ok(())
}

#[test]
fn makes_a_clause_of_a_thousand_literals_normal(rt: HostRuntime) -> Result<(), Fail> {
    let alloc = rt.alloc();
    let mut numbers = Vec::new(alloc);
    for n in 0..1000u16 {
        numbers.push(i32::from(n) - 1010)?;
    }
    let firsts = numbers.as_slice().to_vec(alloc)?;
    numbers.push(-1010)?;
    numbers.push(-11)?;
    assert_eq!(rt;
        normal_numbers(alloc, numbers.as_slice())?.as_slice(),
        firsts.as_slice()
    );
    numbers.push(30)?;
    assert_eq!(rt;
        normal_numbers(alloc, numbers.as_slice())?.as_slice(),
        [0].as_slice()
    );
    Ok(())
}
