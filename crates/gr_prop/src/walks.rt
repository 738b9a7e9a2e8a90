// The walk over the watches of a literal that became false.
ghost use Rattle.std.specs.Prelude.{◌≡◌, ◌≤◌, ◌<◌, ℕ, All, length, true, IfOk, IfSome, IfNone, IsSome, slice_index_or};
ghost use Rattle.std.specs.FinMap as finite;
ghost use Rattle.gr_trail.specs.Trails.{true_in};
ghost use Rattle.gr_watch.specs.declared.lists.Watch.{Watch};
ghost use Rattle.gr_prop.specs.Watching.{lits_at, AllFalse};
ghost use Rattle.gr_prop.specs.Walking.{IsWalking, IsProgress, AreVisited};

use crate::visits::{Ending, holds, visit};
use gr_arena::Arena;
use gr_logic::{Lit, OutOfMemory, Place};
use gr_trail::Trail;
use gr_watch::{Watch, Watches};

/// The first index from this one on whose watch has a blocker that is not true: the length where
/// there is none. Nothing is written, so the list's and the trail's pointers stay in registers.
fn next_open(list: &[Watch], trail: &Trail, from: usize) -> usize
    requires within { from ≤ length list.now }
    requires known { All (λ w. w.blocker.index < trail.now.vars) list.now }
    ensures low { from ≤ result }
    ensures high { result ≤ length list.now }
    ensures blocked { (i : ℕ) (d : Watch) → from ≤ i → i < result
        → true_in trail.now.assigned (slice_index_or list.now i d).blocker ≡ true }
{
    let mut index = from;
    while index < list.len() && holds(trail, list[index].blocker) {
        index += 1;
    }
    index
}

/// Walks the list of a literal that became false, up to a clause whose literals are all false.
pub(crate) fn walk(
    arena: &mut Arena,
    trail: &mut Trail,
    watches: &mut Watches,
    list: &mut Vec<Watch>,
    gone: Lit,
) -> Result<Option<Place>, OutOfMemory>
    requires { IsWalking arena.old.clauses trail.old watches.old list.old.items gone }
    ensures walking { IsWalking arena.new.clauses trail.new watches.new list.new.items gone }
    ensures progress { IsProgress arena.old.clauses arena.new.clauses trail.old trail.new }
    ensures visited { IfOk result (λ found. IfNone found
        (AreVisited arena.new.clauses trail.new.assigned list.new.items (length list.new.items))) }
    ensures there { IfOk result (λ found. IfSome found (λ place. IsSome (finite.get arena.new.clauses place.0))) }
    ensures falsified { IfOk result (λ found. IfSome found (λ place.
        AllFalse trail.new.assigned (lits_at arena.new.clauses place.0))) }
{
    let mut index = next_open(list.as_slice(), trail, 0);
    while index < list.len() {
        let place = list[index].place;
        match visit(arena, trail, watches, place, gone)? {
            Ending::Stays(blocker) => {
                list[index] = Watch { place, blocker };
                index += 1;
            }
            Ending::Moves => {
                list.swap_remove(index);
            }
            Ending::Fails => return Ok(Some(place)),
        }
        index = next_open(list.as_slice(), trail, index);
    }
    Ok(None)
}
