// Assigning all variables of a trail, and taking all back.
ghost use Rattle.std.specs.Prelude.{◌≡◌, ◌<◌, ◌++◌, ◌∷◌, [], All, IfOk, is_some, if◌then◌else◌};
ghost use Rattle.gr_trail.specs.Trails.{value_in};
ghost use Rattle.gr_timing.specs.Turns.{turn_of};

use crate::mixing::{literal, next};
use gr_logic::{Lit, OutOfMemory, Place};
use gr_trail::Trail;
use std::alloc::Global;

/// How many variables the trail has.
const VARS: u32 = 100_000;

/// Assigns all variables and takes them back, this many times.
pub fn rounds(alloc: Global, rounds: u32) -> Result<u64, OutOfMemory> {
    let mut trail = Trail::new(alloc, VARS)?;
    let lits = literals(alloc)?;
    let mut sum = 0u64;
    for _round in 0..rounds {
        assign_all(&mut trail, lits.as_slice());
        sum = sum
            .wrapping_mul(31)
            .wrapping_add(trail.lits().len() as u64 + trail.depth() as u64);
        trail.backtrack(0);
    }
    Ok(sum)
}

/// Twice as many literals as there are variables, drawn from all of them.
fn literals(alloc: Global) -> Result<Vec<Lit>, OutOfMemory>
    ensures { IfOk result (λ lits. All (λ lit. lit.index < 100_000) lits.items) }
{
    let mut lits = Vec::new(alloc);
    let mut state = 1;
    for _literal in 0..2 * VARS {
        state = next(state);
        lits.push(literal(state, VARS))?;
    }
    Ok(lits)
}

/// Makes each literal true whose variable has no value yet; each 16th place opens a level.
fn assign_all(trail: &mut Trail, lits: &[Lit])
    requires vars { trail.old.vars ≡ 100_000 }
    requires known { All (λ lit. lit.index < 100_000) lits.now }
    ensures { trail.new.vars ≡ 100_000 }
{
    let mut count = 0usize;
    for lit in lits {
        assign_one(trail, *lit, count);
        count += 1;
    }
}

/// Makes a literal true where its variable has no value yet.
fn assign_one(trail: &mut Trail, lit: Lit, count: usize)
    requires { lit.index < trail.old.vars }
    ensures vars { trail.new.vars ≡ trail.old.vars }
    ensures assigned { trail.new.assigned
        ≡ (if is_some (value_in trail.old.assigned lit) then trail.old.assigned
        else trail.old.assigned ++ turn_of trail.old.depth lit count ∷ []) }
{
    if trail.value(lit).is_some() {
        return;
    }
    if count % 16 == 0 {
        trail.decide(lit);
    } else {
        trail.assign(lit, Place(count));
    }
}
