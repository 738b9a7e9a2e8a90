// Decisions, bumps and backtracking over an order of variables.
ghost use Rattle.std.specs.Prelude.{◌≡◌, ◌≤◌, All};

use crate::mixing::{below, next};
use gr_heur::Order;
use gr_logic::OutOfMemory;
use std::alloc::Global;

/// How many variables the order has.
const VARS: u32 = 100_000;

/// In each round 40 picks, 50 bumps of variables that are drawn near to each other, up to 80 of the picked ones put
/// back, the latest first, and 400 more, of which most are in.
pub fn rounds(alloc: Global, rounds: u32) -> Result<u64, OutOfMemory> {
    let mut order = Order::new(alloc, VARS)?;
    let mut decided = Vec::new(alloc);
    let mut state = 1;
    let mut sum = 0u64;
    for round in 0..rounds {
        for _pick in 0..40u32 {
            sum = decide(&mut order, &mut decided, sum)?;
        }
        for _bump in 0..50u32 {
            state = next(state);
            order.bump(1 + (round / 8 + below(state, 1000)) % VARS);
        }
        state = next(state);
        for _back in 0..below(state, 81) {
            take_back(&mut order, &mut decided);
        }
        for turn in 0..400u32 {
            order.put_back(1 + (round / 2 + turn * 37) % VARS);
        }
    }
    Ok(sum)
}

/// Picks a variable, and takes it into the sum.
fn decide(order: &mut Order, decided: &mut Vec<u32>, sum: u64) -> Result<u64, OutOfMemory>
    requires vars { order.old.vars ≡ 100_000 }
    requires known { All (λ var. 1 ≤ var) decided.old.items }
    requires small { All (λ var. var ≤ 100_000) decided.old.items }
    ensures vars { order.new.vars ≡ 100_000 }
    ensures known { All (λ var. 1 ≤ var) decided.new.items }
    ensures small { All (λ var. var ≤ 100_000) decided.new.items }
{
    let Some(var) = order.pick() else {
        return Ok(sum);
    };
    decided.push(var)?;
    Ok(sum.wrapping_mul(31).wrapping_add(var as u64))
}

/// Puts the variable back that was picked last.
fn take_back(order: &mut Order, decided: &mut Vec<u32>)
    requires vars { order.old.vars ≡ 100_000 }
    requires known { All (λ var. 1 ≤ var) decided.old.items }
    requires small { All (λ var. var ≤ 100_000) decided.old.items }
    ensures vars { order.new.vars ≡ 100_000 }
    ensures known { All (λ var. 1 ≤ var) decided.new.items }
    ensures small { All (λ var. var ≤ 100_000) decided.new.items }
{
    if let Some(var) = decided.pop() {
        order.put_back(var);
    }
}
