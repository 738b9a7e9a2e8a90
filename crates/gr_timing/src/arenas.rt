// Reading every clause of an arena.
ghost use Rattle.std.specs.Prelude.{◌≡◌, ◌%◌, ◌^◌, All, IfOk};
ghost use Rattle.gr_arena.specs.Arenas.{Has};
ghost use Rattle.gr_timing.specs.Sums.{codes_of, codes_of_clauses};

use crate::mixing::{below, literal, next};
use gr_arena::Arena;
use gr_logic::{Lit, OutOfMemory, Place};
use std::alloc::Global;

/// How many clauses the arena has.
const CLAUSES: u32 = 200_000;

/// An arena, and the places of its clauses in the order in which they were added.
#[derive(Drop)]
struct Filled {
    arena: Arena,
    places: Vec<Place>,
}

/// Reads all literals of the arena's clauses, this many times.
pub fn scans(alloc: Global, rounds: u32) -> Result<u64, OutOfMemory> {
    let filled = fill(alloc)?;
    let mut sum = 0u64;
    for _round in 0..rounds {
        sum = sum
            .wrapping_mul(31)
            .wrapping_add(scan(&filled.arena, filled.places.as_slice()));
    }
    Ok(sum)
}

/// Clauses of 3 to 10 literals over a million variables.
fn fill(alloc: Global) -> Result<Filled, OutOfMemory>
    ensures { IfOk result (λ filled. All (Has filled.arena) filled.places.items) }
{
    let mut arena = Arena::new(alloc);
    let mut places = Vec::new(alloc);
    let mut lits = Vec::with_capacity(alloc, 10)?;
    let mut state = 1;
    for id in 0..CLAUSES {
        lits.clear();
        state = next(state);
        for _literal in 0..3 + below(state, 8) {
            state = next(state);
            lits.push(literal(state, 1_000_000))?;
        }
        let place = arena.add(id as u64, 2, lits.as_slice())?;
        places.push(place)?;
    }
    Ok(Filled { arena, places })
}

/// The sum of all literals' codes, without what does not fit in 64 bits.
fn scan(arena: &Arena, places: &[Place]) -> u64
    requires { All (Has arena.now) places.now }
    ensures { result ≡ codes_of_clauses arena.now places.now % 2 ^ 64 }
{
    let mut sum = 0u64;
    for place in places {
        sum = sum.wrapping_add(codes(arena.lits(*place)));
    }
    sum
}

/// The sum of the literals' codes, without what does not fit in 64 bits.
pub(crate) fn codes(lits: &[Lit]) -> u64
    ensures { result ≡ codes_of lits.now % 2 ^ 64 }
{
    let mut sum = 0u64;
    for lit in lits {
        sum = sum.wrapping_add(lit.code() as u64);
    }
    sum
}
