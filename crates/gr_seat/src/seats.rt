// The seats.
ghost use Rattle.std.specs.Prelude.{◌≡◌, ◌<◌, ◌≤◌};
ghost use Rattle.gr_seat.specs.Handles.{HasSeenLegal};

use crate::shelves::Shelf;
use crossbeam_utils::sync::Parker;
use gr_turn::Seat;
use std::marker::Model;

/// The searching thread's seat, which is actor 0's. It keeps the parkers of the reducers that have no seat yet.
#[derive(Drop)]
pub struct SolverSeat {
    pub(crate) seat: Seat<Shelf>,
    /// How many reducers have a seat.
    pub(crate) seated: u32,
    pub(crate) parkers: Vec<Parker>,
}

impl Model for SolverSeat {
    ghost use Rattle.gr_seat.specs.Handles.{Handle, handle_of, IsSeated, fixed_or_none};
    ghost use Rattle.std.specs.Prelude.{◌≡◌, ◌+◌, ◌≤◌, vec_len};

    ghost Value = { Handle };

    ghost view = { λ s. handle_of s.seat };

    ghost invariant = { λ s.
        IsSeated s.seat × (s.seat.number ≡ 0) × (s.seated ≡ s.seat.splits)
        × (s.seated + vec_len s.parkers ≡ (fixed_or_none s.seat.fixed).reducers)
        × ((fixed_or_none s.seat.fixed).reducers ≤ 8) };
}

impl SolverSeat {
    /// The searching thread's number, 0. Takes no turn and no memory.
    pub fn actor(&self) -> u32
        ensures actor { result ≡ self.now.actor }
        ensures first { result ≡ 0 }
        ensures legal { HasSeenLegal self.now }
    {
        // The use of a field says what the type keeps.
        let _seat = &self.seat;
        0
    }
}

/// A reducer's seat, with the parker on which it waits for work.
#[derive(Drop)]
pub struct ReducerSeat {
    pub(crate) seat: Seat<Shelf>,
    pub(crate) actor: u32,
    pub(crate) parker: Parker,
}

impl Model for ReducerSeat {
    ghost use Rattle.gr_seat.specs.Handles.{Handle, handle_of, IsSeated, fixed_or_none};
    ghost use Rattle.std.specs.Prelude.{◌≡◌, ◌<◌, ◌≤◌};

    ghost Value = { Handle };

    ghost view = { λ s. handle_of s.seat };

    ghost invariant = { λ s.
        IsSeated s.seat × (s.actor ≡ s.seat.number) × (0 < s.actor)
        × (s.actor ≤ (fixed_or_none s.seat.fixed).reducers) };
}

impl ReducerSeat {
    /// The reducer's number, from 1 on. Takes no turn and no memory.
    pub fn actor(&self) -> u32
        ensures actor { result ≡ self.now.actor }
        ensures in_range { (0 < result) × (result ≤ self.now.reducers) }
        ensures legal { HasSeenLegal self.now }
    {
        self.actor
    }
}
