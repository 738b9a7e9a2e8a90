// The watches of a clause that comes in or leaves.
ghost use Rattle.std.specs.Prelude.{◌≡◌, ◌≤◌, ◌<◌, ◌≢◌, ℕ, All, IsTrue, length, true, false, OnOk, OnErr, slice_index_or, take, [], ◌∷◌, ◌&&◌, not, nat_eq};
ghost use Rattle.std.specs.List.{list_any};
ghost use Rattle.gr_logic.specs.Literals.{Literal, negation};
ghost use Rattle.gr_arena.specs.Arenas.{Has};
ghost use Rattle.gr_watch.specs.WatchLists.{list_of, is_at};
ghost use Rattle.gr_prop.specs.Watching.{lits_at, is_in, longer, paired};
ghost use Rattle.gr_prop.specs.Visits.{IsReordered};
ghost use Rattle.gr_prop.specs.Additions.{IsArranged, IsFronted, watching_too, unwatching, IsWatchedByTwo, StandsAs, attached, detached};
ghost use Rattle.gr_trail.specs.Trails.{true_in};

use crate::visits::{find_free, holds};
use gr_arena::Arena;
use gr_logic::{Lit, OutOfMemory, Place};
use gr_trail::Trail;
use gr_watch::{Watch, Watches};

/// How a clause stands whose first literals are not false, as far as there are such.
#[derive(Clone, Copy, Debug)]
pub(crate) enum Standing {
    /// All its literals are false.
    Broken,
    /// It forces a literal that has no value.
    Forced(Lit),
    /// A literal of it is true, or two have no value.
    Rests,
}

/// Exchanges the literal at an index with the first one from there on that is not false.
fn bring_free(arena: &mut Arena, trail: &Trail, place: Place, at: usize)
    requires there { Has arena.old place }
    requires known { All (λ l. l.index < trail.now.vars) (lits_at arena.old.clauses place.0) }
    requires within { at ≤ length (lits_at arena.old.clauses place.0) }
    ensures reordered { IsReordered arena.old.clauses arena.new.clauses place.0 }
    ensures fronted { IsFronted trail.now.assigned
        (lits_at arena.old.clauses place.0) (lits_at arena.new.clauses place.0) at }
{
    if let Some(k) = find_free(arena.lits(place), trail, at) {
        arena.swap(place, at, k);
    }
}

/// At level zero brings two literals that are not false to the front of a clause, as far as there are
/// two. Above it a clause comes with its watches in front.
pub(crate) fn arrange(arena: &mut Arena, trail: &Trail, place: Place)
    requires there { Has arena.old place }
    requires known { All (λ l. l.index < trail.now.vars) (lits_at arena.old.clauses place.0) }
    ensures reordered { IsReordered arena.old.clauses arena.new.clauses place.0 }
    ensures arranged { trail.now.depth ≡ 0 → IsArranged trail.now.assigned (lits_at arena.new.clauses place.0) }
    ensures still { 0 < trail.now.depth → lits_at arena.new.clauses place.0 ≡ lits_at arena.old.clauses place.0 }
{
    if trail.depth() > 0 || arena.lits(place).len() < 2 {
        return;
    }
    bring_free(arena, trail, place, 0);
    bring_free(arena, trail, place, 1);
}

/// How the clause stands.
pub(crate) fn assess(lits: &[Lit], trail: &Trail) -> Standing
    requires arranged { IsArranged trail.now.assigned lits.now }
    requires known { All (λ l. l.index < trail.now.vars) lits.now }
    ensures { StandsAs trail.now.assigned lits.now result }
{
    if lits.is_empty() {
        return Standing::Broken;
    }
    let first = lits[0];
    if holds(trail, first) {
        return Standing::Rests;
    }
    if holds(trail, first.negate()) {
        return Standing::Broken;
    }
    if lits.len() == 1 || holds(trail, lits[1].negate()) {
        return Standing::Forced(first);
    }
    Standing::Rests
}

/// Watches a clause by its first two literals, where it has two: one of two literals in lists of its
/// own.
pub(crate) fn watch(
    watches: &mut Watches,
    pairs: &mut Watches,
    place: Place,
    lits: &[Lit],
) -> Result<(), OutOfMemory>
    requires known { All (λ l. l.index < watches.old.vars) lits.now }
    requires alike { pairs.old.vars ≡ watches.old.vars }
    ensures ok { OnOk result (watches.new ≡ watching_too watches.old place (longer lits.now)) }
    ensures pairs { OnOk result (pairs.new ≡ watching_too pairs.old place (paired lits.now)) }
    ensures err { OnErr result (watches.new ≡ watches.old) }
    ensures err_pairs { OnErr result (pairs.new ≡ pairs.old) }
{
    match lits.len() {
        0 | 1 => Ok(()),
        2 => attach_both(pairs, place, lits[0], lits[1]),
        _ => attach_both(watches, place, lits[0], lits[1]),
    }
}

/// Attaches a watch of the clause to both literals, each the other's blocker.
fn attach_both(
    watches: &mut Watches,
    place: Place,
    first: Lit,
    second: Lit,
) -> Result<(), OutOfMemory>
    requires known { first.index < watches.old.vars }
    requires known_too { second.index < watches.old.vars }
    ensures ok { OnOk result (watches.new
        ≡ attached (attached watches.old first (record { place = place; blocker = second }))
        second (record { place = place; blocker = first })) }
    ensures err { OnErr result (watches.new ≡ watches.old) }
{
    let kept = watches.list(first).len();
    watches.attach(
        first,
        Watch {
            place,
            blocker: second,
        },
    )?;
    match watches.attach(
        second,
        Watch {
            place,
            blocker: first,
        },
    ) {
        Ok(()) => Ok(()),
        Err(wanting) => {
            let mut list = watches.take(first);
            list.truncate(kept);
            watches.put(first, list);
            Err(wanting)
        }
    }
}

/// Takes the watches of a clause out, where it has two literals.
pub(crate) fn unwatch(watches: &mut Watches, pairs: &mut Watches, place: Place, lits: &[Lit])
    requires known { All (λ l. l.index < watches.old.vars) lits.now }
    requires alike { pairs.old.vars ≡ watches.old.vars }
    requires watched { IsWatchedByTwo watches.old place (longer lits.now) }
    requires watched_pair { IsWatchedByTwo pairs.old place (paired lits.now) }
    ensures watches { watches.new ≡ unwatching watches.old place (longer lits.now) }
    ensures pairs { pairs.new ≡ unwatching pairs.old place (paired lits.now) }
{
    match lits.len() {
        0 | 1 => {}
        2 => detach_both(pairs, place, lits[0], lits[1]),
        _ => detach_both(watches, place, lits[0], lits[1]),
    }
}

/// Takes the watches of the clause out of the lists of both literals.
fn detach_both(watches: &mut Watches, place: Place, first: Lit, second: Lit)
    requires known { first.index < watches.old.vars }
    requires known_too { second.index < watches.old.vars }
    requires watched { IsTrue (list_any (is_at place) (list_of watches.old first)) }
    requires watched_too { IsTrue (list_any (is_at place) (list_of (detached watches.old first place) second)) }
    ensures { watches.new ≡ detached (detached watches.old first place) second place }
{
    watches.detach(first, place);
    watches.detach(second, place);
}

/// Takes a place out of a list.
pub(crate) fn forget(places: &mut Vec<Place>, place: Place)
    ensures { (q : ℕ) → is_in places.new.items q ≡ (is_in places.old.items q && not (nat_eq place.0 q)) }
{
    let mut index = 0;
    while index < places.len() {
        if places[index].0 == place.0 {
            places.swap_remove(index);
        } else {
            index += 1;
        }
    }
}
