// Clauses that a strengthener lets go.
ghost use Rattle.std.specs.Prelude.{◌≡◌, ◌<◌, [], true, AllPairs, IfOk, OnOk, IfSome, IsSome};
ghost use Rattle.std.specs.FinMap as finite;
ghost use Rattle.std.specs.List.{list_any};
ghost use Rattle.gr_logic.specs.Formulas.{VarsUpTo};
ghost use Rattle.gr_strengthen.specs.LettingGo.{HasUniqueIds, IsFree, IsLettingGo, IsMoved, IsPassed, IsUnneeded, forces};

use crate::lending::trail_of;
use crate::reaching::is_true;
use gr_logic::{Ids, Lit, OutOfMemory, Place};
use gr_prop::Base;
use gr_trail::Trail;
use std::alloc::Global;

/// How many of the clauses of these ids may go.
pub(crate) fn count_free(base: &Base, last: u64, ids: &[u64]) -> usize {
    let mut count = 0usize;
    for id in ids {
        if find_free(base, last, *id).is_some() {
            count = count.saturating_add(1);
        }
    }
    count
}

/// Removes the first clauses of these ids that may go, as many as are wanted: their ids. Counts the
/// words that they took.
pub(crate) fn let_go(
    alloc: Global,
    base: &mut Base,
    dead: &mut usize,
    last: u64,
    ids: &[u64],
    wanted: usize,
) -> Result<Ids, OutOfMemory>
    requires unique { HasUniqueIds base.old.clauses }
    requires rising { AllPairs (λ a b. a < b) ids.now }
    ensures { IfOk result (λ gone. IsLettingGo base.old base.new last gone []) }
{
    let mut gone = Ids::new(alloc);
    let mut rest = ids;
    'ids: while let [id, others @ ..] = rest {
        let_go_one(base, dead, last, *id, wanted, &mut gone)?;
        rest = others;
    }
    Ok(gone)
}

/// Removes the clause of an id, where it may go and more are wanted, and notes the id.
fn let_go_one(
    base: &mut Base,
    dead: &mut usize,
    last: u64,
    id: u64,
    wanted: usize,
    gone: &mut Ids,
) -> Result<(), OutOfMemory>
    ensures { OnOk result (IsPassed base.old base.new last id gone.old gone.new) }
{
    if gone.all().len() >= wanted {
        return Ok(());
    }
    match find_free(base, last, id) {
        Some(place) => {
            gone.push(id)?;
            *dead = dead.saturating_add(size_at(base, place));
            base.remove(place);
            Ok(())
        }
        None => Ok(()),
    }
}

/// Moves the clauses together, where a quarter of the arena's words or more are of removed ones.
pub(crate) fn compact_dead(base: &mut Base, dead: &mut usize) -> Result<(), OutOfMemory>
    requires { base.old.trail.depth ≡ 0 }
    ensures { OnOk result (IsMoved base.old base.new) }
{
    if dead.saturating_mul(4) < base.arena().words() {
        return Ok(());
    }
    base.compact()?;
    *dead = 0;
    Ok(())
}

/// How many words a clause takes.
fn size_at(base: &Base, place: Place) -> usize
    requires { IsSome (finite.get base.now.clauses place.0) }
{
    base.arena().lits(place).len().saturating_add(4)
}

/// The place of the clause of an id, where the id is above the formula's last one, and the clause has at
/// least two literals and is no literal's reason.
fn find_free(base: &Base, last: u64, id: u64) -> Option<Place>
    ensures { IfSome result (IsFree base.now last id) }
{
    if id <= last {
        return None;
    }
    match base.find(id) {
        Some(place) => {
            if is_free(base, place) {
                Some(place)
            } else {
                None
            }
        }
        None => None,
    }
}

/// Whether the clause at the place has at least two literals, and is no literal's reason.
fn is_free(base: &Base, place: Place) -> bool
    requires { IsSome (finite.get base.now.clauses place.0) }
    ensures { result ≡ true → IsUnneeded base.now place }
{
    let trail = trail_of(base);
    let lits = base.arena().lits(place);
    if lits.len() < 2 {
        return false;
    }
    !forces_one(trail, lits, place)
}

/// Whether the clause at the place is the reason of one of the literals.
fn forces_one(trail: &Trail, lits: &[Lit], place: Place) -> bool
    requires { VarsUpTo trail.now.vars lits.now }
    ensures { result ≡ list_any (forces trail.now.assigned place) lits.now }
{
    lits.iter().any(|lit| forces(trail, *lit, place))
}

/// Whether the literal is true, and the clause at the place its reason.
fn forces(trail: &Trail, lit: Lit, place: Place) -> bool
    requires { lit.index < trail.now.vars }
    ensures { result ≡ forces trail.now.assigned place lit }
{
    if !is_true(trail, lit) {
        return false;
    }
    match trail.reason(lit.var()) {
        Some(reason) => reason.0 == place.0,
        None => false,
    }
}
