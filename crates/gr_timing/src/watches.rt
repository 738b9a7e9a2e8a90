// Taking each watch list out, walking over it, and putting it back.
ghost use Rattle.std.specs.Prelude.{◌≡◌, ◌<◌, ◌%◌, ◌^◌, IfOk};
ghost use Rattle.gr_watch.specs.WatchLists.{list_of};
ghost use Rattle.gr_timing.specs.Sums.{places_and_blockers};

use crate::mixing::{literal, next};
use gr_logic::{Lit, OutOfMemory, Place};
use gr_watch::{Watch, Watches};
use std::alloc::Global;

/// How many variables the lists are of.
const VARS: u32 = 20_000;

/// Walks over all lists, this many times.
pub fn walks(alloc: Global, rounds: u32) -> Result<u64, OutOfMemory> {
    let mut watches = fill(alloc)?;
    let mut sum = 0u64;
    for _round in 0..rounds {
        sum = sum.wrapping_mul(31).wrapping_add(walk_all(&mut watches));
    }
    Ok(sum)
}

/// Twenty watches for each variable, each in the list of a literal that is drawn from all of them.
fn fill(alloc: Global) -> Result<Watches, OutOfMemory>
    ensures { IfOk result (λ watches. watches.vars ≡ 20_000) }
{
    let mut watches = Watches::new(alloc, VARS)?;
    let mut state = 1;
    for place in 0..20 * VARS {
        state = next(state);
        let lit = literal(state, VARS);
        state = next(state);
        let blocker = literal(state, VARS);
        let watch = Watch {
            place: Place(place as usize),
            blocker,
        };
        watches.attach(lit, watch)?;
    }
    Ok(watches)
}

/// Takes each list out, adds up its places and its blockers, and puts it back.
fn walk_all(watches: &mut Watches) -> u64
    requires { watches.old.vars ≡ 20_000 }
    ensures { watches.new ≡ watches.old }
{
    let mut sum = 0u64;
    for index in 0..VARS {
        let lit = Lit::of_var(index + 1, true);
        sum = sum
            .wrapping_add(walk_one(watches, lit))
            .wrapping_add(walk_one(watches, lit.negate()));
    }
    sum
}

/// Takes a list out, adds up its places and its blockers, and puts it back.
fn walk_one(watches: &mut Watches, lit: Lit) -> u64
    requires { lit.index < watches.old.vars }
    ensures sum { result ≡ places_and_blockers (list_of watches.old lit) % 2 ^ 64 }
    ensures watches { watches.new ≡ watches.old }
{
    let list = watches.take(lit);
    let sum = walk(list.as_slice());
    watches.put(lit, list);
    sum
}

/// The sum of the places and of the blockers' codes, without what does not fit in 64 bits.
fn walk(list: &[Watch]) -> u64
    ensures { result ≡ places_and_blockers list.now % 2 ^ 64 }
{
    let mut sum = 0u64;
    for watch in list {
        sum = sum.wrapping_add((watch.place.0 as u64).wrapping_add(watch.blocker.code() as u64));
    }
    sum
}
