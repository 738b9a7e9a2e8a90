// A base of many clauses of many sizes.
ghost use Rattle.std.specs.Prelude.{◌≡◌, ◌<◌, OnOk};

use crate::Base;
use crate::tests::calls::{add, decide, gives_words_back, is_true, propagate, remove, settle};
use gr_logic::{Clause, Lit};
use std::alloc::Global;
use std::test::Fail;

/// The clause of the last so many of 300 variables.
fn last_of(alloc: Global, count: u32) -> Result<Clause, Fail> {
    let mut clause = Clause::new(alloc);
    for index in 0..300u32 {
        if index.saturating_add(count) >= 300 {
            clause.push(Lit::from_code(2 * index))?;
        }
    }
    Ok(clause)
}

/// Adds a thousand clauses of 2 to 300 literals, with the ids from 0 on.
fn fill(base: &mut Base, alloc: Global) -> Result<(), Fail>
    requires { base.old.trail.vars ≡ 300 }
    ensures { OnOk result (base.new.trail.vars ≡ 300) }
{
    for id in 0..1_000u32 {
        add(base, alloc, id as u64, &last_of(alloc, 2 + id % 299)?)?;
    }
    Ok(())
}

/// Decides the negation of each variable but the last, from the first on: whether the last one is true then.
fn forces_the_last(base: &mut Base) -> Result<bool, Fail>
    requires { base.old.trail.vars ≡ 300 }
    ensures { OnOk result (base.new.trail.vars ≡ 300) }
{
    base.backtrack(0);
    for index in 0..299u32 {
        if !decide(base, Lit::from_code(2 * index + 1))? {
            return Ok(false);
        }
    }
    Ok(propagate(base)?.is_none() && is_true(base, Lit::from_code(598)))
}

/// Removes each second clause: whether all were there.
fn halve(base: &mut Base) -> bool
    requires { base.old.trail.vars ≡ 300 }
    ensures { base.new.trail.vars ≡ 300 }
{
    base.backtrack(0);
    for id in 0..500u32 {
        if !remove(base, 2 * id as u64) {
            return false;
        }
    }
    true
}

/// Makes a variable true at level zero, by a clause of its own, and settles it.
fn settle_one(base: &mut Base, alloc: Global, index: u32) -> Result<(), Fail>
    requires base { base.old.trail.vars ≡ 300 }
    requires index { index < 300 }
    ensures { OnOk result (base.new.trail.vars ≡ 300) }
{
    let lit = Lit::from_code(2 * index);
    let clause = Clause::from_lits(alloc, &[lit])?;
    add(base, alloc, 1_000 + index as u64, &clause)?;
    settle(base, lit, 2_000 + index as u64)?;
    Ok(())
}

/// Makes each variable but the first true at level zero, and settles it.
fn settle_each(base: &mut Base, alloc: Global) -> Result<(), Fail>
    requires { base.old.trail.vars ≡ 300 }
{
    base.backtrack(0);
    for index in 1..300u32 {
        settle_one(base, alloc, index)?;
    }
    Ok(())
}

/// Fills the base, halves it, moves what is left together, and settles each variable: whether all does as it should.
fn goes_its_way(base: &mut Base, alloc: Global) -> Result<bool, Fail>
    requires { base.old.trail.vars ≡ 300 }
{
    fill(base, alloc)?;
    if !forces_the_last(base)? || !halve(base) {
        return Ok(false);
    }
    if !gives_words_back(base)? || !forces_the_last(base)? {
        return Ok(false);
    }
    settle_each(base, alloc)?;
    Ok(count(base)? == 1_098)
}

/// How many ids there are.
fn count(base: &Base) -> Result<usize, Fail> {
    let ids = base.ids()?;
    Ok(ids.all().len())
}

#[test]
fn takes_a_thousand_clauses_of_many_sizes(rt: HostRuntime) -> Result<(), Fail> {
    let mut base = Base::new(rt.alloc(), 300)?;
    assert!(rt; goes_its_way(&mut base, rt.alloc())?);
    Ok(())
}
