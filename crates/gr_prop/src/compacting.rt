// Places after the clauses were moved together.
ghost use Rattle.std.specs.Prelude.{◌≡◌, ◌<◌, ◌≤◌, ◌*◌, ℕ, All, Some, IsSome, option_map, length, map};
ghost use Rattle.std.specs.FinMap as finite;
ghost use Rattle.gr_watch.specs.WatchLists.{list_of};
ghost use Rattle.gr_trail.specs.Trails.{TrailState};
ghost use Rattle.gr_prop.specs.BaseChanges.{moved_place, moved_assigned};
ghost use Rattle.gr_prop.specs.Compactions.{moved_watch, IsMovedFrom, AreMoved, HasMovedReason};
ghost use Rattle.gr_prop.specs.Ascending.{AreKeysOf};
ghost use Rattle.gr_logic.specs.Literals.{Literal};
ghost use Rattle.gr_logic.specs.declared.places.Place.{Place};

use crate::id_maps::IdMap;
use gr_arena::Moves;
use gr_logic::{Lit, Place};
use gr_trail::Trail;
use gr_watch::{Watch, Watches};

/// Puts the new place into each watch of a list.
fn move_list(list: &mut Vec<Watch>, moves: &Moves)
    requires { All (IsMovedFrom moves.now) list.old.items }
    ensures { list.new.items ≡ map (moved_watch moves.now) list.old.items }
{
    let mut index = 0;
    while index < list.len() {
        let watch = list[index];
        list[index] = Watch {
            place: moves.to(watch.place),
            blocker: watch.blocker,
        };
        index += 1;
    }
}

/// Puts the new place into each watch. No watch is copied, and no memory taken.
pub(crate) fn move_watches(watches: &mut Watches, moves: &Moves, vars: u32)
    requires vars { vars ≡ watches.old.vars }
    requires small { vars ≤ 1_000_000 }
    requires room { length watches.old.lists ≡ 2 * vars }
    requires moved { AreMoved moves.now watches.old }
    ensures vars { watches.new.vars ≡ watches.old.vars }
    ensures room { length watches.new.lists ≡ length watches.old.lists }
    ensures lists { (l : Literal) → list_of watches.new l ≡ map (moved_watch moves.now) (list_of watches.old l) }
{
    let mut code = 0;
    while code < 2 * vars {
        let lit = Lit::from_code(code);
        let mut list = watches.take(lit);
        move_list(&mut list, moves);
        watches.put(lit, list);
        code += 1;
    }
}

/// Puts the new place into each reason of a trail at level zero.
pub(crate) fn move_reasons(trail: &mut Trail, moves: &Moves)
    requires ground { All (λ a. a.level ≡ 0) trail.old.assigned }
    requires moved { All (HasMovedReason moves.now) trail.old.assigned }
    ensures { trail.new ≡ record trail.old { assigned = map (moved_assigned moves.now) trail.old.assigned } }
{
    let mut index = 0;
    while index < trail.lits().len() {
        let var = trail.lits()[index].var();
        if let Some(place) = trail.reason(var) {
            trail.set_reason(var, moves.to(place));
        }
        index += 1;
    }
}

/// Puts the new place in the place of each of these.
pub(crate) fn move_places(places: &mut Vec<Place>, moves: &Moves)
    requires { All (λ p. IsSome (finite.get moves.now p.0)) places.old.items }
    ensures { places.new.items ≡ map (moved_place moves.now) places.old.items }
{
    let mut index = 0;
    while index < places.len() {
        let place = places[index];
        places[index] = moves.to(place);
        index += 1;
    }
}

/// Puts the new place under each id.
pub(crate) fn move_index(places: &mut IdMap, ids: &[u64], moves: &Moves)
    requires keys { AreKeysOf places.old ids.now }
    requires moved { (id : ℕ) (p : Place) → finite.get places.old id ≡ Some p → IsSome (finite.get moves.now p.0) }
    ensures { (id : ℕ) → finite.get places.new id ≡ option_map (moved_place moves.now) (finite.get places.old id) }
{
    let mut index = 0;
    while index < ids.len() {
        let id = ids[index];
        if let Some(place) = places.get(id) {
            places.replace(id, moves.to(place));
        }
        index += 1;
    }
}
