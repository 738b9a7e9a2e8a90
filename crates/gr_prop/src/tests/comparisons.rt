// Bases of small formulas against plain unit propagation.
ghost use Rattle.std.specs.Prelude.{◌≡◌, OnOk};

use crate::Base;
use crate::tests::calls::{
    add, base_of, clauses_of, decide, gives_words_back, is_true, propagate, remove,
};
use crate::tests::formulas::FORMULAS;
use gr_logic::{Clause, Lit, LitSet};
use gr_unit::{bottom, closure};
use std::alloc::Global;
use std::test::Fail;

/// Whether the literals of the trail are those of the set.
fn agrees(base: &Base, derived: &LitSet) -> bool
    requires { base.now.trail.vars ≡ 300 }
{
    for code in 0..12u32 {
        let lit = Lit::from_code(code);
        if derived.has(lit) != is_true(base, lit) {
            return false;
        }
    }
    true
}

/// Whether the trail is what plain unit propagation derives.
fn is_closure(base: &Base, alloc: Global, clauses: &[Clause], given: &[Lit]) -> Result<bool, Fail>
    requires { base.now.trail.vars ≡ 300 }
{
    let derived = closure(alloc, clauses, given)?;
    Ok(agrees(base, &derived))
}

fn differs(wanted: &str, clauses: &[Clause], given: &[Lit]) -> Fail {
    Fail::new(format_args!("wanted {wanted} of {clauses:?} from {given:?}"))
}

/// Propagates, and compares with plain unit propagation from the decisions: whether the base is quiet.
fn compare(base: &mut Base, alloc: Global, clauses: &[Clause], given: &[Lit]) -> Result<bool, Fail>
    requires { base.old.trail.vars ≡ 300 }
    ensures { OnOk result (base.new.trail.vars ≡ 300) }
{
    let is_quiet = propagate(base)?.is_none();
    if bottom(alloc, clauses, given)? == is_quiet {
        return Err(differs("another end", clauses, given));
    }
    if is_quiet && !is_closure(base, alloc, clauses, given)? {
        return Err(differs("another closure", clauses, given));
    }
    Ok(is_quiet)
}

/// Compares, and opens the next level, where the base is quiet: whether it did.
fn compare_and_decide(
    base: &mut Base,
    alloc: Global,
    clauses: &[Clause],
    given: &[Lit],
    next: Lit,
) -> Result<bool, Fail>
    requires { base.old.trail.vars ≡ 300 }
    ensures { OnOk result (base.new.trail.vars ≡ 300) }
{
    if !compare(base, alloc, clauses, given)? {
        return Ok(false);
    }
    decide(base, next)
}

/// Compares at level zero, and at the levels that two decisions open, as far as they do.
fn compare_levels(
    base: &mut Base,
    alloc: Global,
    clauses: &[Clause],
    first: Lit,
    second: Lit,
) -> Result<(), Fail>
    requires { base.old.trail.vars ≡ 300 }
    ensures { OnOk result (base.new.trail.vars ≡ 300) }
{
    base.backtrack(0);
    if !compare_and_decide(base, alloc, clauses, &[], first)? {
        return Ok(());
    }
    if !compare_and_decide(base, alloc, clauses, &[first], second)? {
        return Ok(());
    }
    compare(base, alloc, clauses, &[first, second])?;
    Ok(())
}

/// Compares before and after the clauses are moved, which gives words back.
fn compare_moved(
    base: &mut Base,
    alloc: Global,
    left: &[Clause],
    first: Lit,
    second: Lit,
) -> Result<(), Fail>
    requires { base.old.trail.vars ≡ 300 }
    ensures { OnOk result (base.new.trail.vars ≡ 300) }
{
    compare_levels(base, alloc, left, second, first)?;
    if !gives_words_back(base)? {
        return Err(differs("fewer words", left, &[]));
    }
    compare_levels(base, alloc, left, first, second)
}

/// Compares with the last of the clauses once it is added again.
fn compare_again(
    base: &mut Base,
    alloc: Global,
    clauses: &[Clause],
    id: u64,
    first: Lit,
    second: Lit,
) -> Result<(), Fail>
    requires { base.old.trail.vars ≡ 300 }
{
    let [.., last] = clauses else {
        return Ok(());
    };
    base.backtrack(0);
    add(base, alloc, id, last)?;
    compare_levels(base, alloc, clauses, second, first)
}

/// Compares without the clause at an index, if it can be removed, and with it again.
fn compare_without(
    base: &mut Base,
    alloc: Global,
    clauses: &mut Vec<Clause>,
    index: usize,
    first: Lit,
    second: Lit,
) -> Result<(), Fail>
    requires { base.old.trail.vars ≡ 300 }
{
    let id = (index as u64).saturating_add(1);
    if index >= clauses.len() || !remove(base, id) {
        return Ok(());
    }
    let last = clauses.len() - 1;
    clauses.swap(index, last);
    compare_moved(base, alloc, &clauses.as_slice()[..last], first, second)?;
    compare_again(base, alloc, clauses.as_slice(), id, first, second)
}

/// Compares with all the clauses, and then without the one at an index.
fn compare_calls(
    alloc: Global,
    formula: &str,
    first: Lit,
    second: Lit,
    index: usize,
) -> Result<(), Fail> {
    let mut clauses = clauses_of(alloc, formula)?;
    let mut base = base_of(alloc, clauses.as_slice())?;
    compare_levels(&mut base, alloc, clauses.as_slice(), first, second)?;
    compare_without(&mut base, alloc, &mut clauses, index, first, second)
}

#[test]
fn is_plain_unit_propagation(rt: HostRuntime) -> Result<(), Fail> {
    for formula in FORMULAS {
        for code in 0..12u32 {
            let first = Lit::from_code(code);
            let second = Lit::from_code((code + 5) % 12);
            compare_calls(rt.alloc(), formula, first, second, code as usize)?;
        }
    }
    Ok(())
}
