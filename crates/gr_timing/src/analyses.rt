// Analysing conflicts to which decisions lead that are drawn, over the clauses of a formula.
ghost use Rattle.std.specs.Prelude.{◌≡◌, ◌≤◌, Some, None};
ghost use Rattle.gr_timing.specs.Rounds.{EndsAs};

use crate::arenas::codes;
use crate::bases::base_of;
use crate::propagations::{descend, propagate};
use gr_analyze::{Analyzer, Learnt};
use gr_logic::{Formula, OutOfMemory, Place};
use gr_prop::Base;
use std::alloc::Global;

/// How often the loop decides up to a conflict.
const CONFLICTS: u32 = 200;

/// Decides up to a conflict, and analyses it this many times, for each of so many conflicts.
pub fn rounds(alloc: Global, formula: &Formula, times: u32) -> Result<u64, OutOfMemory> {
    let vars = formula.vars();
    let mut base = base_of(alloc, formula)?;
    let mut analyzer = Analyzer::new(alloc, vars)?;
    let mut conflict = propagate(&mut base)?;
    let mut sum = 0u64;
    for round in 0..CONFLICTS {
        // A formula that is refuted without a decision has no rounds.
        if conflict.is_some() {
            break;
        }
        let learnt = learn(&mut base, &mut analyzer, vars, round as u64, times)?;
        sum = sum.wrapping_mul(31).wrapping_add(learnt);
        base.backtrack(0);
        conflict = propagate(&mut base)?;
    }
    Ok(sum)
}

/// Decides up to a conflict, and analyses it this many times: what it taught, as a number.
fn learn(
    base: &mut Base,
    analyzer: &mut Analyzer,
    vars: u32,
    seed: u64,
    times: u32,
) -> Result<u64, OutOfMemory>
    requires vars { base.old.trail.vars ≡ vars }
    requires few { vars ≤ 1_000_000 }
    requires analyzer { analyzer.old.vars ≡ vars }
    requires ended { EndsAs None base.old }
    ensures vars { base.new.trail.vars ≡ base.old.trail.vars }
    ensures analyzer { analyzer.new.vars ≡ analyzer.old.vars }
{
    match descend(base, vars, seed)? {
        Some(place) => analyze(analyzer, base, place, times),
        None => Ok(0),
    }
}

/// Analyses a conflict this many times: what it taught, as a number.
fn analyze(
    analyzer: &mut Analyzer,
    base: &Base,
    conflict: Place,
    times: u32,
) -> Result<u64, OutOfMemory>
    requires conflict { base.now.conflict ≡ Some conflict }
    requires vars { base.now.trail.vars ≡ analyzer.old.vars }
    ensures vars { analyzer.new.vars ≡ analyzer.old.vars }
{
    let mut sum = 0u64;
    for _time in 0..times {
        let learnt = analyzer.first_uip(base, conflict)?;
        sum = sum
            .wrapping_mul(31)
            .wrapping_add(number_of(&learnt))
            .wrapping_mul(31)
            .wrapping_add(analyzer.touched().len() as u64);
    }
    Ok(sum)
}

/// What was learnt, as a number: the order of the clause's literals matters in its first one alone.
fn number_of(learnt: &Learnt) -> u64 {
    let mut sum = (learnt.lbd as u64)
        .wrapping_mul(31)
        .wrapping_add(learnt.back_to as u64);
    if let [first, others @ ..] = learnt.clause.lits() {
        sum = sum.wrapping_mul(31).wrapping_add(first.code() as u64);
        sum = sum.wrapping_mul(31).wrapping_add(codes(others));
    }
    for id in learnt.hints.all() {
        sum = sum.wrapping_mul(31).wrapping_add(*id);
    }
    sum
}
