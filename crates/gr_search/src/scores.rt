// By which scores the variables of a conflict are bumped.
ghost use Rattle.std.specs.Prelude.{◌≡◌};

use gr_heur::Order;
use gr_logic::OutOfMemory;
use std::alloc::Global;

/// By how much a score may grow with each conflict.
const UNIT: u64 = 65_536;

/// Which part of the way to the greatest score a bumped variable goes.
const SHARE: u64 = 16;

/// A key is a score in units of this number, and a variable.
const SCALE: u64 = 16_777_216;

/// No score in a key is greater than this.
const TOP: u64 = 549_755_813_888;

/// How much a variable was met in the latest conflicts: a score that nears 65,536 times the number of conflicts.
/// It orders the bumps of one conflict, and nothing else.
///
/// Buffers are kept from one conflict to the next.
#[derive(Drop)]
pub(crate) struct Scores {
    /// The score of each variable, by index.
    scores: Vec<u64>,
    /// The variables to be bumped, each behind its score.
    keys: Vec<u64>,
}

impl Scores {
    /// All scores are 0, for the variables 1 to `vars`.
    pub(crate) fn new(alloc: Global, vars: u32) -> Result<Scores, OutOfMemory> {
        let n = vars as usize;
        Ok(Scores {
            scores: Vec::from_elem(alloc, 0, n)?,
            keys: Vec::with_capacity(alloc, n)?,
        })
    }

    /// Notes a variable of the conflict with this number.
    pub(crate) fn note(&mut self, var: u32, conflict: u64) -> Result<(), OutOfMemory> {
        let score = match self.scores.get_mut(var.saturating_sub(1) as usize) {
            None => 0,
            Some(score) => {
                *score = raised(*score, conflict.saturating_mul(UNIT));
                *score
            }
        };
        self.push(score, var)
    }

    /// Notes a number with this score.
    pub(crate) fn push(&mut self, score: u64, number: u32) -> Result<(), OutOfMemory> {
        let key = score.min(TOP) * SCALE + (number as u64).min(SCALE - 1);
        self.keys.push(key)?;
        Ok(())
    }

    /// Bumps the variables that were noted, that of the least score first, and of one score the least variable.
    pub(crate) fn bump_noted(&mut self, order: &mut Order)
        ensures present { order.new.present ≡ order.old.present }
        ensures vars { order.new.vars ≡ order.old.vars }
    {
        self.keys.sort_unstable();
        for key in &self.keys {
            bump(order, (*key % SCALE) as u32);
        }
        self.keys.clear();
    }

    /// The same, where the numbers that were noted count from the last variable down.
    pub(crate) fn bump_from_last(&mut self, order: &mut Order)
        ensures present { order.new.present ≡ order.old.present }
        ensures vars { order.new.vars ≡ order.old.vars }
    {
        self.keys.sort_unstable();
        for key in &self.keys {
            let last = order.vars();
            bump(order, last.saturating_sub((*key % SCALE) as u32));
        }
        self.keys.clear();
    }
}

/// A sixteenth of the way from a score to a greater one.
fn raised(score: u64, goal: u64) -> u64 {
    score.saturating_add(goal.saturating_sub(score) / SHARE)
}

/// Bumps a variable of the order.
fn bump(order: &mut Order, var: u32)
    ensures present { order.new.present ≡ order.old.present }
    ensures vars { order.new.vars ≡ order.old.vars }
{
    if 0 < var && var <= order.vars() {
        order.bump(var);
    }
}
