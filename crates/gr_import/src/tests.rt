// Imports and forgetting over small bases of the variables 1 to 6.
ghost use Rattle.std.specs.Prelude.{◌≡◌, ◌<◌, [], All, true, IfOk, OnOk};
ghost use Rattle.gr_logic.specs.NormalForms.{IsNormal};
ghost use Rattle.gr_prop.specs.Bases.{LacksId};

use crate::{import, weakest};
use gr_logic::{Clause, Lit, Normal, normal};
use gr_prop::Base;
use std::alloc::Global;
use std::test::Fail;

/// The clause of these numbers, without repeats.
fn clause_of(alloc: Global, numbers: &[i32]) -> Result<Clause, Fail> {
    let mut clause = Clause::new(alloc);
    for n in numbers {
        clause.push(Lit::new(*n).ok_or("no literal")?)?;
    }
    Ok(clause)
}

/// Whether the literals are of the variables 1 to 6.
fn are_known(lits: &[Lit]) -> bool
    ensures { result ≡ true → All (λ l. l.index < 6) lits.now }
{
    let mut index = 0;
    while index < lits.len() {
        if lits[index].index() >= 6 {
            return false;
        }
        index += 1;
    }
    true
}

/// The clause of these numbers, where it may come in now under the id.
fn incoming(base: &Base, alloc: Global, id: u64, numbers: &[i32]) -> Result<Clause, Fail>
    requires { base.now.trail.vars ≡ 6 }
    ensures normal { IfOk result IsNormal }
    ensures known { IfOk result (λ clause. All (λ l. l.index < 6) clause) }
    ensures ground { OnOk result (base.now.trail.depth ≡ 0) }
    ensures begun { OnOk result (base.now.trail.assigned ≡ []) }
    ensures unused { OnOk result (LacksId base.now.clauses id) }
{
    let Normal::Clause(clause) = normal(alloc, &clause_of(alloc, numbers)?)? else {
        return Err(Fail::from("a tautology"));
    };
    if base.trail().depth() != 0 || !base.trail().lits().is_empty() {
        return Err(Fail::from("a literal is true"));
    }
    if base.find(id).is_some() {
        return Err(Fail::from("the id is there"));
    }
    if !are_known(clause.lits()) {
        return Err(Fail::from("a literal beyond the sixth variable"));
    }
    Ok(clause)
}

/// Adds a clause with this LBD.
fn add(base: &mut Base, alloc: Global, id: u64, lbd: u32, numbers: &[i32]) -> Result<(), Fail>
    requires { base.old.trail.vars ≡ 6 }
    ensures { OnOk result (base.new.trail.vars ≡ 6) }
{
    let clause = incoming(base, alloc, id, numbers)?;
    base.add(id, lbd, &clause)?;
    Ok(())
}

/// Takes a clause over. Answers its LBD.
fn take_over(
    base: &mut Base,
    alloc: Global,
    old: Option<u64>,
    id: u64,
    numbers: &[i32],
) -> Result<u32, Fail>
    requires { base.old.trail.vars ≡ 6 }
{
    let clause = incoming(base, alloc, id, numbers)?;
    import(base, old, id, &clause)?;
    match base.find(id) {
        None => Err(Fail::from("it is not there")),
        Some(place) => {
            let lbd = base.arena().lbd(place);
            Ok(lbd)
        }
    }
}

/// A base of `1 -2`, `1 2 3 4`, `1 2 3 -4` and, with this LBD, `1 2 3`.
fn base_of_four(alloc: Global, lbd: u32) -> Result<Base, Fail>
    ensures { IfOk result (λ base. base.trail.vars ≡ 6) }
{
    let mut base = Base::new(alloc, 6)?;
    add(&mut base, alloc, 1, 2, &[1, -2])?;
    add(&mut base, alloc, 2, 4, &[1, 2, 3, 4])?;
    add(&mut base, alloc, 3, 4, &[1, 2, 3, -4])?;
    add(&mut base, alloc, 4, lbd, &[1, 2, 3])?;
    Ok(base)
}

#[test]
fn takes_over_for_the_old_clause(rt: HostRuntime) -> Result<(), Fail> {
    let alloc = rt.alloc();
    let rows: [(u32, Option<u64>, &[i32], u32, &[u64]); 5] = [
        (3, Some(4), &[1, 3], 2, &[1, 2, 3, 5]),
        (2, Some(4), &[1, 3, 5], 2, &[1, 2, 3, 5]),
        (2, Some(9), &[1, 3, 5], 3, &[1, 2, 3, 4, 5]),
        (2, None, &[1, 3, 5], 3, &[1, 2, 3, 4, 5]),
        (3, Some(4), &[], 0, &[1, 2, 3, 5]),
    ];
    for (before, old, numbers, lbd, ids) in rows {
        let mut base = base_of_four(alloc, before)?;
        let found = take_over(&mut base, alloc, old, 5, numbers)?;
        assert_eq!(rt; found, lbd, "{old:?} {numbers:?}");
        assert_eq!(rt; base.ids()?.all(), ids, "{old:?} {numbers:?}");
    }
    Ok(())
}

/// The weakest of learnt clauses with the ids from 10 on, each an LBD and a number of literals.
fn weakest_of(alloc: Global, learnt: &[(u32, usize)]) -> Result<Vec<u64>, Fail> {
    let mut base = Base::new(alloc, 6)?;
    add(&mut base, alloc, 1, 6, &[1, 2, 3, 4, 5, 6])?;
    let mut id = 10u64;
    for (lbd, len) in learnt {
        let numbers = [1, 2, 3, 4, 5, 6];
        let front = numbers.get(..*len).ok_or("too long")?;
        add(&mut base, alloc, id, *lbd, front)?;
        id = id.saturating_add(1);
    }
    Ok(weakest(alloc, &base, 10)?.all().to_vec(alloc)?)
}

#[test]
fn forgets_the_weakest_half(rt: HostRuntime) -> Result<(), Fail> {
    let alloc = rt.alloc();
    let rows: [(&[(u32, usize)], &[u64]); 5] = [
        (&[(3, 3), (5, 3), (2, 3), (4, 3)], &[11]),
        (&[(3, 3), (3, 4), (3, 4), (3, 4)], &[11, 12]),
        (&[(4, 2), (3, 6), (9, 2), (3, 5), (3, 6)], &[10, 12]),
        (&[(2, 6), (1, 6), (3, 6)], &[]),
        (&[], &[]),
    ];
    for (learnt, ids) in rows {
        assert_eq!(rt; weakest_of(alloc, learnt)?.as_slice(), ids, "of {learnt:?}");
    }
    Ok(())
}
