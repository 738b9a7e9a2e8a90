// When to restart.
ghost use Rattle.std.specs.Prelude.{◌≡◌, ◌<◌, ◌≤◌, IfOk, List, fold};
ghost use Rattle.gr_logic.specs.Restarts.{RestartState, RestartMove, push, clear, no_pushes, after_move, wants_restart, is_restart_due};

use circular_buffer::HeapCircularBuffer;
use gr_logic::OutOfMemory;
use std::alloc::Global;
use std::marker::Model;

/// How many LBDs the window holds.
const WINDOW: usize = 50;

/// The LBDs of the latest learnt clauses against those of all (Audemard and Simon, CP 2012, in whole numbers). A
/// contract sees the number of all LBDs pushed, their sum, and the window, oldest first.
///
/// Only `new` takes memory.
#[derive(Drop)]
pub struct Restart {
    window: HeapCircularBuffer<u32>,
    window_sum: u64,
    pushes: u64,
    total: u64,
}

impl Model for Restart {
    ghost use Rattle.gr_logic.specs.Restarts.{RestartState, restart_state};
    ghost use Rattle.gr_heur.specs.Windows.{IsWindow};

    ghost Value = { RestartState };

    ghost view = { λ r. restart_state r.pushes r.total r.window.items };

    ghost invariant = { λ r. IsWindow r.window r.window_sum r.pushes r.total };
}

impl Restart {
    /// Nothing was pushed.
    pub fn new(alloc: Global) -> Result<Restart, OutOfMemory>
        ensures { IfOk result (λ restart. restart ≡ no_pushes) }
    {
        Ok(Restart {
            window: HeapCircularBuffer::with_capacity(alloc, WINDOW)?,
            window_sum: 0,
            pushes: 0,
            total: 0,
        })
    }

    /// Takes in the LBD of a learnt clause.
    pub fn push(&mut self, lbd: u32)
        requires few { self.old.pushes < 4_000_000 }
        requires small { lbd ≤ 1_000_000 }
        ensures { self.new ≡ after_move self.old (push lbd) }
    {
        let oldest = self.window.push_back(lbd).unwrap_or(0);
        self.window_sum = self.window_sum + lbd as u64 - oldest as u64;
        self.pushes += 1;
        self.total += lbd as u64;
    }

    /// Whether a restart is due: the window is full and its mean above 5/4 of the mean of all, or it is not empty at a
    /// thousandth push.
    pub fn due(&self) -> bool
        ensures rule { result ≡ wants_restart self.now }
        ensures fold { (moves : List RestartMove) → self.now ≡ fold after_move no_pushes moves
            → result ≡ is_restart_due moves }
    {
        let held = self.window.len();
        (held == WINDOW && self.window_sum * 8 * self.pushes > self.total * 500)
            || (held > 0 && self.pushes % 1000 == 0)
    }

    /// Empties the window, as after a restart.
    pub fn clear(&mut self)
        ensures { self.new ≡ after_move self.old clear }
    {
        self.window.clear();
        self.window_sum = 0;
    }
}
