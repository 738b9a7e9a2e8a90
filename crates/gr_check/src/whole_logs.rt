// A whole log at once.
ghost use Rattle.std.specs.Prelude.{◌≡◌, ◌↔◌, Ok, None, IfOk, IfErr};
ghost use Rattle.gr_logic.specs.Log.{Accepts, refusal};
ghost use Rattle.gr_logic.specs.Truth.{IsUnsatisfiable};
ghost use Rattle.gr_check.specs.WholeLogs.{IsRefusalOf};

use crate::checker::Checker;
use crate::refusals::{Finish, Refused};
use gr_logic::{Formula, Line};
use std::alloc::Global;

/// A refused line of a log, and why it is refused.
#[derive(Clone, Copy, Debug, PartialEq, Eq)]
pub struct RefusedLine {
    /// Lines are counted from 1. Where memory was wanting it says nothing that is promised.
    pub line: u64,
    pub why: Refused,
}

/// Checks a whole log: what it says of the formula, or the first line that is refused.
pub fn check_all(alloc: Global, formula: &Formula, lines: &[Line]) -> Result<Finish, RefusedLine>
    ensures verified { IfOk result (λ finish. (finish ≡ Finish.Verified) ↔ Accepts formula.now lines.now) }
    ensures unsatisfiable { result ≡ Ok Finish.Verified → IsUnsatisfiable formula.now.clauses }
    ensures accepted { IfOk result (λ _. refusal formula.now lines.now ≡ None) }
    ensures refused { IfErr result (λ at. IsRefusalOf at (refusal formula.now lines.now)) }
{
    let Ok(mut checker) = Checker::new(alloc, formula) else {
        return Err(RefusedLine {
            line: 0,
            why: Refused::OutOfMemory,
        });
    };
    for (i, line) in lines.iter().enumerate() {
        if let Err(why) = checker.line(line) {
            return Err(RefusedLine {
                line: i as u64 + 1,
                why,
            });
        }
    }
    Ok(checker.finish())
}
