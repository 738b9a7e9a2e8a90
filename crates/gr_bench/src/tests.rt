// Legal histories, made call by call, and what the calls answer.
ghost use Rattle.std.specs.Prelude.{◌≤◌};
ghost use Rattle.gr_diary.specs.Histories.{IsLegal};

use crate::calls::{Call, Row, clause_of, formula_of, make, pair_of};
use crate::{Bench, BenchError, Closing, Imported, TakeError};
use gr_logic::{Formula, Line, Lit};
use std::alloc::Global;
use std::process::Abort;
use std::test::Fail;

/// Makes a legal history, row by row.
fn replay<R: Abort>(
    rt: &R,
    alloc: Global,
    formula: &Formula,
    capacity: usize,
    rows: &[Row],
) -> Result<Bench, Fail>
    requires low { 1 ≤ capacity }
    requires high { capacity ≤ 100_000 }
    requires legal { IsLegal formula.now 1 capacity rows.now }
{
    let mut bench = Bench::open(alloc, formula, 1, capacity)?;
    'rows: for row in rows {
        let told = make(alloc, &mut bench, row)?;
        assert_eq!(rt; told.as_slice(), row.told);
    }
    Ok(bench)
}

/// Over `1 2`, `3 4`, `5 6`: where two clauses have room on offer, the third drives out the first.
const SHORTENING: [Row; 10] = [
    Row {
        call: Call::Offer {
            lits: &[1, 2, 3, 4, 5],
            hints: &[1],
            lbd: 5,
        },
        told: &[4],
    },
    Row {
        call: Call::Offer {
            lits: &[1, 2, 3, 4, 6],
            hints: &[1],
            lbd: 3,
        },
        told: &[5],
    },
    Row {
        call: Call::Offer {
            lits: &[1, 2, 3, 5, 6],
            hints: &[1],
            lbd: 4,
        },
        told: &[6],
    },
    Row {
        call: Call::Take,
        told: &[5, 1, 2, 3, 4, 6],
    },
    Row {
        call: Call::Forget {
            actor: 0,
            ids: &[4],
        },
        told: &[],
    },
    Row {
        call: Call::Forget {
            actor: 0,
            ids: &[5],
        },
        told: &[],
    },
    Row {
        call: Call::Shorter {
            lits: &[1, 2],
            hints: &[1],
        },
        told: &[7],
    },
    Row {
        call: Call::Import,
        told: &[7, 1, 2, 5],
    },
    Row {
        call: Call::Drained,
        told: &[],
    },
    Row {
        call: Call::Forget {
            actor: 1,
            ids: &[7],
        },
        told: &[],
    },
];

/// Over `1 -2`, `1 2 3 4`, `1 2 3 -4`: the import lets the old clause go.
const SKIPPING: [Row; 5] = [
    Row {
        call: Call::Offer {
            lits: &[1, 2, 3],
            hints: &[2, 3],
            lbd: 2,
        },
        told: &[4],
    },
    Row {
        call: Call::Take,
        told: &[4, 1, 2, 3],
    },
    Row {
        call: Call::Shorter {
            lits: &[1, 3],
            hints: &[1, 2, 3],
        },
        told: &[5],
    },
    Row {
        call: Call::Import,
        told: &[5, 1, 3, 4],
    },
    Row {
        call: Call::Close,
        told: &[],
    },
];

/// Over `1`, `-1 2`, `3 4 -2`: the reducer's unit clause is a result.
const WHOLE: [Row; 8] = [
    Row {
        call: Call::Offer {
            lits: &[3, 4],
            hints: &[1, 2, 3],
            lbd: 2,
        },
        told: &[4],
    },
    Row {
        call: Call::Take,
        told: &[4, 3, 4],
    },
    Row {
        call: Call::Unit {
            actor: 1,
            lit: 2,
            hints: &[1, 2],
        },
        told: &[5],
    },
    Row {
        call: Call::Same,
        told: &[],
    },
    Row {
        call: Call::Import,
        told: &[5, 2, 0],
    },
    Row {
        call: Call::Drained,
        told: &[],
    },
    Row {
        call: Call::Forget {
            actor: 0,
            ids: &[4, 5],
        },
        told: &[],
    },
    Row {
        call: Call::Close,
        told: &[],
    },
];

/// Over `1`, `-1 2`: the searching thread lets its unit clause go.
const LETTING_GO: [Row; 2] = [
    Row {
        call: Call::Unit {
            actor: 0,
            lit: 2,
            hints: &[1, 2],
        },
        told: &[3],
    },
    Row {
        call: Call::Forget {
            actor: 0,
            ids: &[3],
        },
        told: &[],
    },
];

/// Whether the line adds this clause under the id, by these hints.
fn is_addition(line: &Option<Line>, id: u64, lits: &[Lit], cited: &[u64]) -> bool {
    match line {
        Some(
            Line::Add {
                id: added,
                clause,
                hints,
            },
        ) => *added == id && clause.lits() == lits && hints.all() == cited,
        _ => false,
    }
}

/// Whether the line deletes these ids under the id.
fn is_deletion(line: &Option<Line>, id: u64, deleted: &[u64]) -> bool {
    match line {
        Some(Line::Delete { id: last, ids }) => *last == id && ids.all() == deleted,
        _ => false,
    }
}

#[test]
fn gives_the_best_and_takes_a_shorter_one(rt: HostRuntime) -> Result<(), Fail> {
    let formula = formula_of(rt.alloc(), 6, &[1, 2], &[3, 4], &[5, 6])?;
    gr_diary::examples::shortening_run_is_legal();
    let bench = replay(&rt, rt.alloc(), &formula, 2, &SHORTENING)?;
    assert_eq!(rt; bench.into_diary().len(), 10);
    Ok(())
}

#[test]
fn lets_the_old_clause_go_with_the_import(rt: HostRuntime) -> Result<(), Fail> {
    let formula = formula_of(rt.alloc(), 4, &[1, -2], &[1, 2, 3, 4], &[1, 2, 3, -4])?;
    gr_diary::examples::skipping_run_is_legal();
    let mut bench = replay(&rt, rt.alloc(), &formula, 1, &SKIPPING)?;
    assert_eq!(rt; bench.close(), Closing::Already);
    assert!(rt; matches!(bench.import(), Err(BenchError::Closed)));
    Ok(())
}

#[test]
fn a_reducers_unit_clause_is_a_result(rt: HostRuntime) -> Result<(), Fail> {
    let formula = formula_of(rt.alloc(), 4, &[1], &[-1, 2], &[3, 4, -2])?;
    gr_diary::examples::whole_run_is_legal();
    replay(&rt, rt.alloc(), &formula, 1, &WHOLE)?;
    Ok(())
}

#[test]
fn deletes_a_unit_clause_that_is_let_go(rt: HostRuntime) -> Result<(), Fail> {
    let formula = pair_of(rt.alloc(), 2, &[1], &[-1, 2])?;
    let bench = replay(&rt, rt.alloc(), &formula, 1, &LETTING_GO)?;
    let two = clause_of(rt.alloc(), &[2])?;
    let mut lines = bench.diary().lines();
    assert!(rt; is_addition(&lines.next()?, 3, two.lits(), &[1, 2]));
    assert!(rt; is_deletion(&lines.next()?, 3, &[3]));
    assert!(rt; lines.next()?.is_none());
    Ok(())
}

#[test]
fn nothing_is_there_before_the_first_entry(rt: HostRuntime) -> Result<(), Fail> {
    let formula = formula_of(rt.alloc(), 4, &[1, -2], &[1, 2, 3, 4], &[1, 2, 3, -4])?;
    let mut bench = Bench::open(rt.alloc(), &formula, 1, 1)?;
    assert!(rt; matches!(bench.take(1), Err(TakeError::Idle)));
    assert_eq!(rt; bench.diary().len(), 0);
    assert!(rt; matches!(bench.import(), Ok(Imported::Drained)));
    assert_eq!(rt; bench.close(), Closing::Done);
    assert_eq!(rt; bench.into_diary().len(), 2);
    Ok(())
}
