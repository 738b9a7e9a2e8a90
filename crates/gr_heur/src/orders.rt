// The order in which variables are decided.
ghost use Rattle.std.specs.Prelude.{◌≡◌, ◌≤◌, ◌<◌, ◌+◌, ◌↔◌, ℕ, None, IfOk, IfSome};
ghost use Rattle.gr_heur.specs.Orders.{OrderState, IsOrder, IsIn, IsPicked, first_order, bumped, put_in, without};

use crate::queues::Queue;
use gr_logic::OutOfMemory;
use std::alloc::Global;
use std::marker::Model;

/// The variables that may be decided, by activity: the number of a variable's last bump. A contract sees how many
/// variables and how many bumps there are, and of each variable its activity and whether it is in.
///
/// Variables are counted from 1. Only `new` takes memory.
#[derive(Drop)]
pub struct Order {
    /// How many bumps there were.
    bumps: u64,
    /// The number of the last bump of each variable, by index.
    activities: Vec<u64>,
    /// Whether each variable is in, by index.
    present: Vec<bool>,
    queue: Queue,
    /// Each variable that is in stands before this place of the queue.
    bound: usize,
}

impl Model for Order {
    ghost use Rattle.std.specs.Prelude.{length};
    ghost use Rattle.gr_heur.specs.Orders.{OrderState};
    ghost use Rattle.gr_heur.specs.Stored.{IsStored};

    ghost Value = { OrderState };

    ghost view = { λ order. record {
      vars = length order.activities.items;
      bumps = order.bumps;
      activities = order.activities.items;
      present = order.present.items;
    } };

    ghost invariant = { λ order.
        IsStored order.bumps order.activities.items order.present.items order.queue order.bound };
}

impl Order {
    /// The variables 1 to `vars`, all in, with activity 0.
    pub fn new(alloc: Global, vars: u32) -> Result<Order, OutOfMemory>
        requires { vars ≤ 1_000_000 }
        ensures { IfOk result (λ order. order ≡ first_order vars) }
    {
        let n = vars as usize;
        let activities = Vec::from_elem(alloc, 0, n)?;
        let present = Vec::from_elem(alloc, true, n)?;
        let queue = Queue::new(alloc, n)?;
        Ok(Order {
            bumps: 0,
            activities,
            present,
            queue,
            bound: n,
        })
    }

    /// How many variables there are.
    pub fn vars(&self) -> u32
        ensures vars { result ≡ self.now.vars }
        ensures order { IsOrder self.now }
    {
        self.activities.len() as u32
    }

    /// Makes a variable the most active one, whether it is in or not.
    pub fn bump(&mut self, var: u32)
        requires low { 1 ≤ var }
        requires high { var ≤ self.old.vars }
        ensures { self.new ≡ bumped self.old var }
    {
        if self.bumps == u64::MAX {
            self.bump_last(var);
            return;
        }
        let index = (var - 1) as usize;
        self.bumps += 1;
        self.activities[index] = self.bumps;
        self.queue.raise(index);
        self.bound = if self.present[index] {
            self.queue.len
        } else {
            // What is out may stand behind the bound.
            self.bound.min(self.queue.len)
        };
    }

    /// A bump where the count of bumps is at its end: the variable is as active as others may be.
    #[cold]
    fn bump_last(&mut self, var: u32)
        requires low { 1 ≤ var }
        requires high { var ≤ self.old.vars }
        requires last { self.old.bumps ≡ u64.MAX }
        ensures { self.new ≡ bumped self.old var }
    {
        let index = (var - 1) as usize;
        self.activities[index] = self.bumps;
        self.queue.raise(index);
        self.queue.settle(index, self.activities.as_slice());
        self.bound = self.queue.len;
    }

    /// Takes out the most active variable, the least one of several: `None` exactly where none is in.
    pub fn pick(&mut self) -> Option<u32>
        ensures none { (result ≡ None) ↔ ((var : ℕ) → ¬ IsIn self.old var) }
        ensures picked { IfSome result (λ var. IsPicked self.old var) }
        ensures out { self.new ≡ without self.old result }
    {
        let Some(place) = self.queue.last_in(self.present.as_slice(), self.bound) else {
            self.bound = 0;
            return None;
        };
        let index = self.queue.slots[place];
        self.present[index as usize] = false;
        self.bound = place;
        Some(index + 1)
    }

    /// Puts a variable in. Where it is in already, nothing changes.
    pub fn put_back(&mut self, var: u32)
        requires low { 1 ≤ var }
        requires high { var ≤ self.old.vars }
        ensures { self.new ≡ put_in self.old var }
    {
        let index = (var - 1) as usize;
        if self.present[index] {
            return;
        }
        self.present[index] = true;
        let place = self.queue.places[index] as usize;
        if self.bound <= place {
            self.bound = place + 1;
        }
    }
}
