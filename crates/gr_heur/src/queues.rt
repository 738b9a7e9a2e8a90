// Variables by activity, the most active one last.
ghost use Rattle.std.specs.Prelude.{◌≡◌, ◌≢◌, ◌<◌, ◌≤◌, ◌+◌, ℕ, length, slice_index, slice_index_or, replicate};
ghost use Rattle.std.specs.Prelude.{IfOk, MatchOption, true, false};
ghost use Rattle.gr_heur.specs.Queues.{IsQueue, IsReady, IsRanked, IsRankedBut, IsGreatest, KeepsOrder, Raises};
ghost use Rattle.gr_heur.specs.Queues.{IsLastIn, NoneIn};

use gr_logic::OutOfMemory;
use std::alloc::Global;

/// Variables by index, in slots. A variable stands in the last slot that it was given; its earlier ones are dead, and
/// are dropped when there are too many.
#[derive(Drop)]
pub(crate) struct Queue {
    /// The variables, in the first `len` slots.
    pub(crate) slots: Vec<u32>,
    /// The slot of each variable.
    pub(crate) places: Vec<u32>,
    pub(crate) len: usize,
    /// The first of the slots that were given since no slot was dead.
    base: usize,
    /// How many variables moved to a slot at or behind `base`.
    fresh: usize,
}

impl Queue {
    /// So many variables, all live, the least one last.
    pub(crate) fn new(alloc: Global, vars: usize) -> Result<Queue, OutOfMemory>
        requires { vars ≤ 1_000_000 }
        ensures ready { IfOk result (λ queue. IsReady queue) }
        ensures many { IfOk result (λ queue. length queue.places.items ≡ vars) }
        ensures last { IfOk result (λ queue. queue.len ≡ vars) }
        ensures ranked { IfOk result (λ queue. IsRanked (replicate vars 0) queue.places.items) }
    {
        let mut slots = Vec::from_elem(alloc, 0, 2 * vars + 64)?;
        let mut places = Vec::from_elem(alloc, 0, vars)?;
        for index in 0..vars {
            slots[vars - 1 - index] = index as u32;
            places[index] = (vars - 1 - index) as u32;
        }
        Ok(Queue {
            slots,
            places,
            len: vars,
            base: vars,
            fresh: 0,
        })
    }

    /// The last slot below the bound whose variable stands there and is in.
    pub(crate) fn last_in(&self, present: &[bool], bound: usize) -> Option<usize>
        requires queue { IsQueue self.now.slots.items self.now.places.items self.now.len }
        requires many { length present.now ≡ length self.now.places.items }
        requires bound { bound ≤ self.now.len }
        ensures { MatchOption result (NoneIn self.now.places.items present.now bound)
            (λ at. IsLastIn self.now.slots.items self.now.places.items present.now bound at) }
    {
        let mut at = bound;
        while at > 0 {
            at -= 1;
            let index = self.slots[at] as usize;
            if present[index] && self.places[index] as usize == at {
                return Some(at);
            }
        }
        None
    }

    /// Moves a variable behind all others.
    pub(crate) fn raise(&mut self, index: usize)
        requires ready { IsReady self.old }
        requires known { index < length self.old.places.items }
        ensures ready { IsReady self.new }
        ensures raises { Raises index self.old.places.items self.new.places.items }
    {
        self.make_room();
        self.fresh += usize::from((self.places[index] as usize) < self.base);
        self.slots[self.len] = index as u32;
        self.places[index] = self.len as u32;
        self.len += 1;
    }

    /// Moves the last variable, which is as active as any, before those that are as active and of lesser number.
    #[cold]
    pub(crate) fn settle(&mut self, index: usize, activities: &[u64])
        requires ready { IsReady self.old }
        requires known { index < length self.old.places.items }
        requires many { length activities.now ≡ length self.old.places.items }
        requires last { (w : ℕ) → w < length self.old.places.items → w ≢ index
            → slice_index self.old.places.items w < slice_index self.old.places.items index }
        requires greatest { IsGreatest activities.now index }
        requires others { IsRankedBut index activities.now self.old.places.items }
        ensures ready { IsReady self.new }
        ensures many { length self.new.places.items ≡ length self.old.places.items }
        ensures ranked { IsRanked activities.now self.new.places.items }
    {
        let mut at = self.places[index] as usize;
        while at > 0 {
            let below = self.slots[at - 1] as usize;
            if self.places[below] as usize == at - 1 {
                if activities[below] < activities[index] || index < below {
                    return;
                }
                self.places[below] = at as u32;
            }
            self.slots[at] = below as u32;
            at -= 1;
            self.slots[at] = index as u32;
            self.places[index] = at as u32;
        }
    }

    /// Makes room for a slot. Where dead slots are more than a third of the latest ones, these are looked through;
    /// where no slot is left, all are.
    fn make_room(&mut self)
        requires { IsReady self.old }
        ensures ready { IsReady self.new }
        ensures room { self.new.len < length self.new.slots.items }
        ensures order { KeepsOrder self.old.places.items self.new.places.items }
    {
        if self.len == self.slots.len() {
            self.drop_dead(0);
            self.base = self.len;
            self.fresh = 0;
        } else if self.len - self.base > self.fresh + self.fresh / 2 + 64 {
            self.drop_dead(self.base);
            self.fresh = self.len - self.base;
        }
    }

    /// Drops the dead slots at and behind a place.
    fn drop_dead(&mut self, from: usize)
        requires queue { IsQueue self.old.slots.items self.old.places.items self.old.len }
        requires within { from ≤ self.old.len }
        ensures queue { IsQueue self.new.slots.items self.new.places.items self.new.len }
        ensures slots { length self.new.slots.items ≡ length self.old.slots.items }
        ensures order { KeepsOrder self.old.places.items self.new.places.items }
        ensures from { from ≤ self.new.len }
        ensures shorter { self.new.len ≤ self.old.len }
        ensures live { from ≡ 0 → self.new.len ≤ length self.new.places.items }
        ensures base { self.new.base ≡ self.old.base }
    {
        let mut kept = from;
        for at in from..self.len {
            let index = self.slots[at] as usize;
            if self.places[index] as usize == at {
                self.slots[kept] = index as u32;
                self.places[index] = kept as u32;
                kept += 1;
            }
        }
        self.len = kept;
    }
}
