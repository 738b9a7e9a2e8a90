// Small formulas against worked rows.
ghost use Rattle.std.specs.Prelude.{◌≡◌, ◌<◌, None, length};
ghost use Rattle.std.specs.FinMap as finite;
ghost use Rattle.gr_logic.specs.Formulas.{VarsUpTo};
ghost use Rattle.gr_logic.specs.NormalForms.{IsNormal};

use crate::Strengthener;
use crate::tests::calls::{clauses_of, taken_of};
use gr_bench::Taken;
use gr_logic::{Lit, Strengthened};
use std::alloc::Global;
use std::test::Fail;

const THREE: &str = "1 -2 0 1 2 3 4 0 1 2 3 -4 0";

/// A formula, clauses that are kept, and one that is strengthened.
#[derive(Clone, Copy, Debug)]
pub(super) struct Row {
    pub(super) formula: &'static str,
    pub(super) kept: &'static str,
    taken: &'static str,
    /// What it becomes, where it gets shorter, with its hints.
    shorter: Option<(&'static str, &'static [u64])>,
    /// A unit that is missing, with its hints.
    unit: Option<(i32, &'static [u64])>,
    /// The ids that are let go.
    gone: &'static [u64],
}

/// A row in which nothing comes of a clause.
const SAME: Row = Row {
    formula: "1 2 0",
    kept: "",
    taken: "1 2 0",
    shorter: None,
    unit: None,
    gone: &[],
};

pub(super) const ROWS: [Row; 9] = [
    SAME,
    Row {
        formula: THREE,
        taken: "1 2 3 0",
        shorter: Some(("1 3 0", &[1, 2, 3])),
        ..SAME
    },
    // The taken clause, with the id 2, is cited.
    Row {
        formula: "1 -2 0",
        shorter: Some(("1 0", &[1, 2])),
        ..SAME
    },
    // The clauses are in conflict by themselves.
    Row {
        formula: "1 0 -1 2 0 -1 -2 0",
        taken: "3 4 0",
        shorter: Some(("0", &[1, 2, 3])),
        ..SAME
    },
    // A tautology derives nothing.
    Row {
        formula: "1 -1 0 1 2 0",
        taken: "3 1 2 0",
        shorter: Some(("1 2 0", &[2])),
        ..SAME
    },
    // A kept clause is unit under level zero, and a reason.
    Row {
        formula: "1 0",
        kept: "-1 2 0",
        taken: "3 2 0",
        shorter: Some(("2 0", &[1, 2])),
        unit: Some((2, &[1, 2])),
        ..SAME
    },
    Row {
        formula: "1 0 -1 2 0",
        taken: "3 0",
        unit: Some((2, &[1, 2])),
        ..SAME
    },
    Row {
        formula: "1 0 -1 2 0",
        kept: "2 0",
        taken: "3 0",
        ..SAME
    },
    // The earlier one of two kept clauses goes.
    Row {
        formula: THREE,
        kept: "1 2 3 0 1 3 0",
        taken: "2 3 0",
        gone: &[4],
        ..SAME
    },
];

/// Whether the clause becomes what the row wants.
fn is_strengthened(
    alloc: Global,
    strengthener: &mut Strengthener<'_>,
    taken: &Taken,
    row: &Row,
) -> Result<bool, Fail>
    requires above { length strengthener.old.formula.clauses < taken.now.id }
    requires unused { finite.get strengthener.old.kept taken.now.id ≡ None }
    requires normal { IsNormal taken.now.clause }
    requires known { VarsUpTo strengthener.old.formula.vars taken.now.clause }
{
    match (strengthener.run(taken)?, row.shorter) {
        (Strengthened::Same, None) => Ok(true),
        (Strengthened::Shorter { clause, hints }, Some((wanted, ids))) => {
            let wanted = clauses_of(alloc, &[wanted])?.pop().ok_or("no clause")?;
            Ok(clause.lits() == wanted.lits() && hints.all() == ids)
        }
        _ => Ok(false),
    }
}

/// Whether the row's unit is missing.
fn has_unit(strengthener: &mut Strengthener<'_>, row: &Row) -> Result<bool, Fail> {
    match (strengthener.next_unit()?, row.unit) {
        (None, None) => Ok(true),
        (Some(unit), Some((number, ids))) => {
            Ok(Lit::new(number) == Some(unit.lit) && unit.hints.all() == ids)
        }
        _ => Ok(false),
    }
}

/// Whether the row's ids are let go, and then none.
fn lets_go(strengthener: &mut Strengthener<'_>, row: &Row) -> Result<bool, Fail> {
    let gone = strengthener.let_go_half()?;
    let again = strengthener.let_go_half()?;
    Ok(gone.all() == row.gone && again.all().is_empty())
}

/// Whether all is as the row says.
pub(super) fn is_met(
    alloc: Global,
    strengthener: &mut Strengthener<'_>,
    next: u64,
    row: &Row,
) -> Result<bool, Fail>
    requires vars { strengthener.old.formula.vars ≡ 6 }
    requires above { length strengthener.old.formula.clauses < next }
    requires unused { finite.get strengthener.old.kept next ≡ None }
{
    let clause = clauses_of(alloc, &[row.taken])?.pop().ok_or("no clause")?;
    let taken = taken_of(alloc, next, &clause)?;
    Ok(
        is_strengthened(alloc, strengthener, &taken, row)?
            && has_unit(strengthener, row)?
            && lets_go(strengthener, row)?,
    )
}
