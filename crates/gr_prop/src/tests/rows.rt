// Small bases against worked rows.
ghost use Rattle.std.specs.Prelude.{◌≡◌, OnOk};

use crate::Base;
use crate::tests::calls::{
    base_for, decide, forced_by, gives_words_back, has_ids, has_lits, has_trail, is_reason, learn,
    neg, pos, propagate, settle,
};
use gr_logic::{Lit, Place};
use std::alloc::Global;
use std::test::Fail;

/// Decides two literals, with propagation before and behind each: the place of the conflict, where
/// there is one at the second level, and the trail had just these literals at the first.
fn second_level(
    base: &mut Base,
    first: Lit,
    second: Lit,
    trail: &[Lit],
) -> Result<Option<Place>, Fail>
    requires { base.old.trail.vars ≡ 300 }
    ensures { OnOk result (base.new.trail.vars ≡ 300) }
{
    if !decide(base, first)? || propagate(base)?.is_some() || !has_trail(base, trail) {
        return Ok(None);
    }
    if !decide(base, second)? {
        return Ok(None);
    }
    propagate(base)
}

/// Whether the second of two decisions ends in a conflict of one of the clauses of these ids, and the
/// trail was this one before it.
fn ends_at(
    alloc: Global,
    formula: &str,
    first: Lit,
    second: Lit,
    trail: &[Lit],
    ids: (u64, u64),
) -> Result<bool, Fail> {
    let mut base = base_for(alloc, formula)?;
    let found = second_level(&mut base, first, second, trail)?;
    Ok(found.is_some() && (base.find(ids.0) == found || base.find(ids.1) == found))
}

const TAUGHT: &str = "1 -2 0 1 2 3 4 0 1 2 3 -4 0";

/// The first two clauses are in conflict at the second level too.
const BINARY_CLAUSES_LAST: &str = "-1 -5 3 0 -1 -5 -3 0 -1 2 0 -1 -2 0";

#[test]
fn ends_in_a_conflict(rt: HostRuntime) -> Result<(), Fail> {
    let trail = [neg(1), neg(2)];
    assert!(rt; ends_at(rt.alloc(), TAUGHT, neg(1), neg(3), &trail, (2, 3))?);
    let trail = [pos(5)];
    assert!(rt;
        ends_at(
            rt.alloc(),
            BINARY_CLAUSES_LAST,
            pos(5),
            pos(1),
            &trail,
            (3, 4)
        )?,
        "binary clauses come first"
    );
    Ok(())
}

/// Goes back to the first level and adds the clause of two literals that a conflict taught, with the id 4:
/// whether the first is forced by it.
fn is_forced_by_learnt(
    base: &mut Base,
    alloc: Global,
    first: Lit,
    second: Lit,
) -> Result<bool, Fail>
    requires { base.old.trail.vars ≡ 300 }
    ensures { OnOk result (base.new.trail.vars ≡ 300) }
{
    if base.trail().depth() != 2 {
        return Ok(false);
    }
    base.backtrack(1);
    let place = learn(base, alloc, 4, first, second)?;
    Ok(forced_by(base.trail(), place) == Some(first))
}

/// Whether the conflict at the second level teaches the clause `3 1`, which forces 3 at the first.
fn goes_on_with_learnt(base: &mut Base, alloc: Global) -> Result<bool, Fail>
    requires { base.old.trail.vars ≡ 300 }
{
    let trail = [neg(1), neg(2), pos(3)];
    if second_level(base, neg(1), neg(3), &trail[..2])?.is_none() {
        return Ok(false);
    }
    if !is_forced_by_learnt(base, alloc, pos(3), pos(1))? || propagate(base)?.is_some() {
        return Ok(false);
    }
    Ok(has_trail(base, &trail))
}

#[test]
fn adds_what_a_conflict_taught(rt: HostRuntime) -> Result<(), Fail> {
    let mut base = base_for(rt.alloc(), TAUGHT)?;
    assert!(rt; goes_on_with_learnt(&mut base, rt.alloc())?);
    Ok(())
}

/// Whether the clauses are `1`, `-1 2` and `2` with the ids 1, 2 and 3, and the last is the reason of 2.
fn is_settled(base: &Base) -> Result<bool, Fail> {
    let (one, two, binary) = ([pos(1)], [pos(2)], [neg(1), pos(2)]);
    let turned = [pos(2), neg(1)];
    let has_binary = has_lits(base, 2, &binary) || has_lits(base, 2, &turned);
    let has_units = has_lits(base, 1, &one) && has_lits(base, 3, &two);
    Ok(has_binary && has_units && is_reason(base, 3, pos(2)) && has_ids(base, &[1, 2, 3])?)
}

/// Propagates, settles 2 and moves the clauses: whether each does what it should.
fn settles_and_moves(base: &mut Base) -> Result<bool, Fail>
    requires { base.old.trail.vars ≡ 300 }
{
    let trail = [pos(1), pos(2)];
    if propagate(base)?.is_some() || !has_trail(base, &trail) {
        return Ok(false);
    }
    settle(base, pos(2), 3)?;
    if !is_settled(base)? {
        return Ok(false);
    }
    gives_words_back(base)?;
    is_settled(base)
}

#[test]
fn settles_a_literal_and_moves_the_clauses(rt: HostRuntime) -> Result<(), Fail> {
    let mut base = base_for(rt.alloc(), "1 0 -1 2 0")?;
    assert!(rt; settles_and_moves(&mut base)?);
    Ok(())
}
