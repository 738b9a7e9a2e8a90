// The visit of a clause that watches a literal which became false.
ghost use Rattle.std.specs.Prelude.{◌≡◌, ◌≤◌, ◌<◌, ℕ, All, length, true, false, IsSome, IfSome, IfNone, IfOk, OnErr, slice_index_or};
ghost use Rattle.std.specs.FinMap as finite;
ghost use Rattle.gr_logic.specs.Literals.{Literal, negation};
ghost use Rattle.gr_arena.specs.Arenas.{Has};
ghost use Rattle.gr_trail.specs.Trails.{true_in};
ghost use Rattle.gr_prop.specs.Watching.{lits_at};
ghost use Rattle.gr_prop.specs.Visits.{IsWatchedIn, IsReordered, IsTurned, Visited, IsCut};

use gr_arena::Arena;
use gr_logic::{Lit, OutOfMemory, Place};
use gr_trail::Trail;
use gr_watch::{Watch, Watches};

/// How the visit of a watch ends.
#[derive(Clone, Copy, Debug)]
pub(crate) enum Ending {
    /// The clause keeps the watch. The other watched literal is true, and makes the better blocker.
    Stays(Lit),
    /// The clause watches another literal.
    Moves,
    /// All literals of the clause are false.
    Fails,
}

/// Whether the literal is true.
pub(crate) fn holds(trail: &Trail, lit: Lit) -> bool
    requires { lit.index < trail.now.vars }
    ensures { result ≡ true_in trail.now.assigned lit }
{
    match trail.value(lit) {
        Some(value) => value,
        None => false,
    }
}

/// Whether the literal is false: one load, where its negation's value would be looked up elsewhere.
fn falls(trail: &Trail, lit: Lit) -> bool
    requires { lit.index < trail.now.vars }
    ensures { result ≡ true_in trail.now.assigned (negation lit) }
{
    let _depth = trail.depth();
    match trail.value(lit) {
        Some(value) => !value,
        None => false,
    }
}

/// Makes the literal the second of the clause.
fn bring_second(arena: &mut Arena, place: Place, gone: Lit)
    requires there { Has arena.old place }
    requires watched { IsWatchedIn (lits_at arena.old.clauses place.0) gone }
    ensures reordered { IsReordered arena.old.clauses arena.new.clauses place.0 }
    ensures turned { IsTurned (lits_at arena.old.clauses place.0) (lits_at arena.new.clauses place.0) gone }
{
    if arena.lits(place)[0] == gone {
        arena.swap(place, 0, 1);
    }
}

/// The first literal from this index on that is not false.
pub(crate) fn find_free(lits: &[Lit], trail: &Trail, from: usize) -> Option<usize>
    requires within { from ≤ length lits.now }
    requires known { All (λ l. l.index < trail.now.vars) lits.now }
    ensures low { IfSome result (λ k. from ≤ k) }
    ensures high { IfSome result (λ k. k < length lits.now) }
    ensures free { IfSome result (λ k. (d : Literal) →
        true_in trail.now.assigned (negation (slice_index_or lits.now k d)) ≡ false) }
    ensures none { IfNone result ((k : ℕ) (d : Literal) → from ≤ k → k < length lits.now
        → true_in trail.now.assigned (negation (slice_index_or lits.now k d)) ≡ true) }
{
    let mut at = from;
    while at < lits.len() {
        if !falls(trail, lits[at]) {
            return Some(at);
        }
        at += 1;
    }
    None
}

/// Visits a clause that watches a literal which became false.
pub(crate) fn visit(
    arena: &mut Arena,
    trail: &mut Trail,
    watches: &mut Watches,
    place: Place,
    gone: Lit,
) -> Result<Ending, OutOfMemory>
    requires there { Has arena.old place }
    requires watched { IsWatchedIn (lits_at arena.old.clauses place.0) gone }
    requires falsified { true_in trail.old.assigned (negation gone) ≡ true }
    requires known { All (λ l. l.index < trail.old.vars) (lits_at arena.old.clauses place.0) }
    requires vars { watches.old.vars ≡ trail.old.vars }
    ensures ok { IfOk result (λ ending. Visited ending arena.old.clauses arena.new.clauses trail.old trail.new
        watches.old watches.new place.0 gone) }
    ensures err { OnErr result (IsCut arena.old.clauses arena.new.clauses trail.old trail.new
        watches.old watches.new place.0 gone) }
{
    bring_second(arena, place, gone);
    let other = arena.lits(place)[0];
    if holds(trail, other) {
        return Ok(Ending::Stays(other));
    }
    match find_free(arena.lits(place), trail, 2) {
        Some(k) => {
            let next = arena.lits(place)[k];
            // The clause is at hand, and the end of the other list may not be: written first, it does not wait.
            arena.swap(place, 1, k);
            let moved = watches.attach(
                next,
                Watch {
                    place,
                    blocker: other,
                },
            );
            if let Err(wanting) = moved {
                arena.swap(place, 1, k);
                return Err(wanting);
            }
            Ok(Ending::Moves)
        }
        None => {
            if falls(trail, other) {
                return Ok(Ending::Fails);
            }
            trail.assign(other, place);
            Ok(Ending::Stays(other))
        }
    }
}
