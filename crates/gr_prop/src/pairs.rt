// The binary clauses of the literals that became false.
ghost use Rattle.std.specs.Prelude.{◌≡◌, IfSome, IfNone, IsSome};
ghost use Rattle.std.specs.FinMap as finite;
ghost use Rattle.gr_prop.specs.Bases.{clauses_in};
ghost use Rattle.gr_prop.specs.BaseChanges.{IsGrown};
ghost use Rattle.gr_prop.specs.Watching.{lits_at, AllFalse, IsSound};
ghost use Rattle.gr_prop.specs.Pairing.{IsPassing, ArePassing, ArePassed, AreMet};

use gr_arena::Arena;
use gr_logic::{Lit, Place};
use gr_trail::Trail;
use gr_watch::Watches;

/// Makes true what the binary clauses of a literal that became false force, up to a clause whose
/// literals are both false. The other literal stands beside the watch, so no clause is visited: the
/// arena is there for the contract alone.
fn pass_list(arena: &Arena, trail: &mut Trail, pairs: &Watches, gone: Lit) -> Option<Place>
    requires { IsPassing arena.now.clauses trail.old pairs.now gone }
    ensures passing { IsPassing arena.now.clauses trail.new pairs.now gone }
    ensures grown { IsGrown trail.old trail.new }
    ensures met { IfNone result (AreMet trail.new pairs.now gone) }
    ensures there { IfSome result (λ place. IsSome (finite.get arena.now.clauses place.0)) }
    ensures falsified { IfSome result (λ place.
        AllFalse trail.new.assigned (lits_at arena.now.clauses place.0)) }
{
    let _ = arena;
    let list = pairs.list(gone);
    let mut index = 0;
    while index < list.len() {
        let watch = list[index];
        match trail.value(watch.blocker) {
            Some(true) => {}
            Some(false) => return Some(watch.place),
            None => trail.assign(watch.blocker, watch.place),
        }
        index += 1;
    }
    None
}

/// Takes the literals of the trail from an index on through the lists of their binary clauses, up to
/// a clause whose literals are both false.
pub(crate) fn pass(arena: &Arena, trail: &mut Trail, pairs: &Watches, ahead: usize) -> Option<Place>
    requires { ArePassing arena.now.clauses trail.old pairs.now ahead }
    ensures sound { IsSound (clauses_in arena.now.clauses) trail.new }
    ensures grown { IsGrown trail.old trail.new }
    ensures passed { IfNone result
        (ArePassed arena.now.clauses trail.new.assigned trail.new.assigned) }
    ensures there { IfSome result (λ place. IsSome (finite.get arena.now.clauses place.0)) }
    ensures falsified { IfSome result (λ place.
        AllFalse trail.new.assigned (lits_at arena.now.clauses place.0)) }
{
    let mut index = ahead;
    while index < trail.lits().len() {
        let gone = trail.lits()[index].negate();
        let found = pass_list(arena, trail, pairs, gone);
        if found.is_some() {
            return found;
        }
        index += 1;
    }
    None
}
