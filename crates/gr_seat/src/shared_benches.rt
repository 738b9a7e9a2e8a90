// The shared exchange: opening it, making seats and taking them back, and ending it.
ghost use Rattle.std.specs.Prelude.{◌≡◌, ◌+◌, ◌<◌, [], IfOk};
ghost use mathlib.Core.List.{IsPrefix};
ghost use Rattle.gr_diary.specs.Histories.{entries_of};
ghost use Rattle.gr_turn.specs.Views.{longer};
ghost use Rattle.gr_seat.specs.Handles.{IsOf, HasSameExchange, HasSeenLegal};
ghost use Rattle.gr_seat.specs.Turns.{IsSameSeat, HasSeenThat};

use crate::calling::Bell;
use crate::seats::{ReducerSeat, SolverSeat};
use crate::shelves::Shelf;
use crossbeam_utils::sync::Parker;
use gr_bench::Bench;
use gr_logic::OutOfMemory;
use gr_turn::{Opened, Turn};
use std::alloc::Global;
use std::marker::Model;

/// An exchange that threads share. Contracts see which one it is.
#[derive(Drop)]
pub struct SharedBench {
    pub(crate) turn: Turn<Shelf>,
    /// What calls the reducers that wait for work.
    pub(crate) bell: Bell,
}

impl Model for SharedBench {
    ghost use Rattle.gr_turn.specs.Seats.{TableId};

    ghost Value = { TableId };

    ghost view = { λ shared. shared.turn };
}

/// A new shared exchange, and the searching thread's seat.
pub struct Shared {
    pub bench: SharedBench,
    pub solver: SolverSeat,
}

impl SharedBench {
    /// Shares an exchange that has no entries, and makes a parker for each of its reducers.
    pub fn open(alloc: Global, bench: Bench) -> Result<Shared, OutOfMemory>
        requires { bench.diary.entries ≡ [] }
        ensures lock { IfOk result (λ shared. shared.solver.lock ≡ shared.bench) }
        ensures fixed { IfOk result (λ shared. IsOf bench shared.solver) }
        ensures seen { IfOk result (λ shared.
            (shared.solver.actor ≡ 0) × (shared.solver.seen ≡ []) × (shared.solver.turns ≡ 0)) }
        ensures counts { IfOk result (λ shared.
            (shared.solver.splits ≡ 0) × (shared.solver.out ≡ 0)) }
    {
        let reducers = bench.reducers();
        let mut parkers = Vec::new(alloc);
        let mut unparkers = Vec::new(alloc);
        for _ in 0..reducers {
            let parker = Parker::new(alloc)?;
            unparkers.push(parker.unparker().clone()?)?;
            parkers.push(parker)?;
        }
        let Opened { turn, seat } = Turn::open(alloc, Shelf { bench })?;
        Ok(Shared {
            bench: SharedBench {
                turn,
                bell: Bell::new(unparkers),
            },
            solver: SolverSeat {
                seat,
                seated: 0,
                parkers,
            },
        })
    }

    /// The next reducer's seat, which has seen what the searching thread's has, and has made nothing. Takes no turn
    /// and no memory.
    pub fn reducer_seat(&self, solver: &mut SolverSeat) -> ReducerSeat
        requires lock { solver.old.lock ≡ self.now }
        requires few { solver.old.splits < solver.old.reducers }
        ensures same { IsSameSeat solver.old solver.new × HasSeenThat solver.old solver.new }
        ensures counts { (solver.new.splits ≡ solver.old.splits + 1) × (solver.new.out ≡ solver.old.out + 1) }
        ensures given { HasSameExchange solver.old result × (result.seen ≡ solver.old.seen) }
        ensures actor { result.actor ≡ solver.new.splits }
        ensures made { (entries_of result.seen result.actor ≡ []) × (result.turns ≡ 0) }
    {
        let seat = self.turn.split(&mut solver.seat);
        let parker = solver.parkers.pop().unwrap();
        solver.seated += 1;
        ReducerSeat {
            seat,
            actor: solver.seated,
            parker,
        }
    }

    /// Takes a reducer's seat back: the searching thread's has then seen the longer of both histories. Takes no turn
    /// and no memory.
    pub fn join_reducer(&self, solver: &mut SolverSeat, reducer: ReducerSeat)
        requires lock { (solver.old.lock ≡ self.now) × (reducer.lock ≡ self.now) }
        requires same { HasSameExchange solver.old reducer }
        ensures same { IsSameSeat solver.old solver.new × (solver.new.turns ≡ solver.old.turns) }
        ensures longer { solver.new.seen ≡ longer solver.old.seen reducer.seen }
        ensures seen { IsPrefix solver.old.seen solver.new.seen × IsPrefix reducer.seen solver.new.seen }
        ensures own { entries_of solver.new.seen solver.new.actor ≡ entries_of solver.old.seen solver.old.actor }
        ensures legal { HasSeenLegal solver.new }
        ensures counts { (solver.new.splits ≡ solver.old.splits) × (solver.new.out + 1 ≡ solver.old.out) }
    {
        let ReducerSeat {
            seat,
            actor: _,
            parker: _,
        } = reducer;
        self.turn.join(&mut solver.seat, seat);
    }

    /// The exchange, once every reducer's seat was taken back. Takes no turn and no memory.
    pub fn finish(self, solver: SolverSeat) -> Bench
        requires lock { solver.lock ≡ self }
        requires alone { solver.out ≡ 0 }
        ensures seen { IsPrefix solver.seen result.diary.entries }
        ensures fixed { IsOf result solver }
    {
        let SharedBench { turn, bell: _ } = self;
        let SolverSeat {
            seat,
            seated: _,
            parkers: _,
        } = solver;
        let Shelf { bench } = turn.close(seat);
        bench
    }

    /// Calls each reducer that waits for work, where there may be some, or none will come any more.
    pub(crate) fn wake_if(&self, wakes: bool) {
        if wakes {
            self.bell.ring();
        }
    }
}
