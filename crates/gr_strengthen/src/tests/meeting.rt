// A strengthener for each text.
ghost use Rattle.std.specs.Prelude.{◌≡◌};

use crate::Strengthener;
use crate::tests::calls::{clauses_of, formula_of, keep_all};
use crate::tests::comparisons::is_plain_greedy;
use crate::tests::formulas::{FORMULAS, KEPT};
use crate::tests::rows::{ROWS, Row, is_met};
use gr_logic::{Clause, Formula};
use std::alloc::Global;
use std::test::Fail;

/// Whether a strengthener over the formula that keeps clauses does as the row says, or as plain greedy
/// strengthening does where there is no row.
fn is_met_by(
    alloc: Global,
    formula: &Formula,
    kept: &[Clause],
    all: &[Clause],
    row: Option<&Row>,
) -> Result<bool, Fail>
    requires { formula.now.vars ≡ 6 }
{
    let next = formula.clauses().len() as u64 + 1;
    let mut strengthener = Strengthener::new(alloc, formula)?;
    let next = keep_all(alloc, &mut strengthener, next, kept)?;
    match row {
        Some(row) => is_met(alloc, &mut strengthener, next, row),
        None => is_plain_greedy(alloc, &mut strengthener, next, all),
    }
}

/// The same by texts.
fn is_met_by_texts(
    alloc: Global,
    formula: &str,
    kept: &str,
    row: Option<&Row>,
) -> Result<bool, Fail> {
    let all = clauses_of(alloc, &[formula, kept])?;
    let formula = formula_of(alloc, formula)?;
    let kept = clauses_of(alloc, &[kept])?;
    is_met_by(alloc, &formula, kept.as_slice(), all.as_slice(), row)
}

#[test]
fn meets_each_row_and_is_greedy(rt: HostRuntime) -> Result<(), Fail> {
    for row in ROWS {
        assert!(rt;
            is_met_by_texts(rt.alloc(), row.formula, row.kept, Some(&row))?,
            "{row:?}"
        );
    }
    for text in FORMULAS {
        for kept in ["", KEPT] {
            assert!(rt;
                is_met_by_texts(rt.alloc(), text, kept, None)?,
                "{text} with {kept}"
            );
        }
    }
    Ok(())
}
