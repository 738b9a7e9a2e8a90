// The calls on a lock.
ghost use Rattle.std.specs.Prelude.{◌≡◌, ◌≢◌, ◌+◌, ◌<◌, [], true, false, Some, IfOk};
ghost use mathlib.Core.List.{IsPrefix};
ghost use Rattle.gr_turn.specs.Views.{by};
ghost use Rattle.gr_turn.specs.Seats.{first_seat, split_seat, IsAway, IsInTurn, IsJoined};
ghost use Rattle.gr_turn.specs.Turns.{Grows, Gains, after_turn};

use crate::halves::{SERVING, TICKET};
use crate::keeps::Keeps;
use crate::locks::{Held, Opened, Seat, Turn};
use crate::step_kinds::{Cut, Draw, Glance, Glue, PassOn};
use crate::waits::WaitingArray;
use atomic_table::Table;
use gr_logic::OutOfMemory;
use std::alloc::Global;
use std::snapshot::Snapshot;
use std::sync::Wait;

impl<T: Keeps> Turn<T> {
    /// A lock round a value with an empty history, and its first seat.
    pub fn open(alloc: Global, value: T) -> Result<Opened<T>, OutOfMemory>
        requires { T.history value ≡ [] }
        ensures { IfOk result (λ opened. opened.seat ≡ first_seat opened.turn (T.fixed value)) }
    {
        let about = Snapshot::of(&value);
        let mut slots = Vec::new(alloc);
        slots.push(Some(value))?;
        let Ok((table, place)) = Table::new(alloc, &[0, 0, 0], slots, &about) else {
            return Err(OutOfMemory);
        };
        let waiting = WaitingArray::new();
        Ok(Opened {
            turn: Turn { table, waiting },
            seat: Seat { place },
        })
    }

    /// Splits a new seat off the first one. It has seen what the first one has, and made no entry;
    /// its number is how many splits there were. Takes no memory.
    pub fn split(&self, seat: &mut Seat<T>) -> Seat<T>
        requires away { IsAway self.now seat.old }
        requires first { seat.old.number ≡ 0 }
        requires few { seat.old.splits < 1_000_000 }
        ensures seat { seat.new
            ≡ record seat.old { splits = seat.old.splits + 1; out = seat.old.out + 1 } }
        ensures given { result ≡ split_seat seat.new }
        ensures all { by T.number result.seen result.number ≡ result.own }
    {
        let shared = &self.table.shared;
        let mut place = shared.split_seat::<Cut>(&mut seat.place);
        shared.load::<Glance>(&mut place, TICKET);
        Seat { place }
    }

    /// Takes another seat into the first one, which has then seen the longer of both histories.
    /// Takes no memory.
    pub fn join(&self, seat: &mut Seat<T>, other: Seat<T>)
        requires away { IsAway self.now seat.old }
        requires first { seat.old.number ≡ 0 }
        requires other { IsAway self.now other × (other.number ≢ 0) }
        ensures seat { IsJoined seat.old other seat.new }
        ensures all { by T.number seat.new.seen seat.new.number ≡ seat.new.own }
    {
        let shared = &self.table.shared;
        let Seat { place } = other;
        shared.join_seat::<Glue>(&mut seat.place, place);
        shared.load::<Glance>(&mut seat.place, TICKET);
    }

    /// Waits for the seat's turn, and takes the value. Its history begins with what the seat has
    /// seen, and the entries in it that name the seat are just those that the seat made.
    pub fn enter<R: Wait>(&self, rt: &R, seat: &mut Seat<T>) -> Held<T>
        requires { IsAway self.now seat.old }
        ensures seat { seat.new
            ≡ record seat.old { in_turn = true; found = T.history result.value } }
        ensures seen { IsPrefix seat.old.seen (T.history result.value) }
        ensures own { by T.number (T.history result.value) seat.old.number ≡ seat.old.own }
        ensures fixed { Some (T.fixed result.value) ≡ seat.old.fixed }
        ensures all { by T.number seat.old.seen seat.old.number ≡ seat.old.own }
    {
        let shared = &self.table.shared;
        let ticket = shared.fetch_add::<Draw>(&mut seat.place, TICKET, 1);
        self.look_until_served(rt, &mut seat.place, ticket);
        let value = shared.exchange(&mut seat.place, 0, None).unwrap();
        Held { value }
    }

    /// Gives the value back, and passes the turn on. `grown` says whether the turn made an entry.
    /// Takes no memory, and does not wait.
    pub fn leave(&self, seat: &mut Seat<T>, held: Held<T>, grown: bool)
        requires turn { IsInTurn self.now seat.old }
        requires fixed { Some (T.fixed held.value) ≡ seat.old.fixed }
        requires history { Grows grown T.number seat.old.number seat.old.found
            (T.history held.value) }
        ensures seat { seat.new ≡ after_turn seat.old (T.history held.value) seat.new.own }
        ensures own { Gains grown seat.old.found (T.history held.value) seat.old.own seat.new.own }
        ensures seen { IsPrefix seat.old.seen seat.new.seen
            × (by T.number seat.new.seen seat.new.number ≡ seat.new.own) }
    {
        let Held { value } = held;
        self.put_back(&mut seat.place, value, grown);
        let shared = &self.table.shared;
        let ticket = shared.fetch_add::<PassOn>(&mut seat.place, SERVING, 1);
        self.waiting.wake(ticket.wrapping_add(1));
    }

    /// The value, where no other seat is out. Takes no memory.
    pub fn close(self, seat: Seat<T>) -> T
        requires away { IsAway self seat }
        requires first { seat.number ≡ 0 }
        requires alone { seat.out ≡ 0 }
        ensures seen { IsPrefix seat.seen (T.history result) }
        ensures own { by T.number (T.history result) seat.number ≡ seat.own }
        ensures fixed { Some (T.fixed result) ≡ seat.fixed }
    {
        let Turn { table, waiting: _ } = self;
        let Seat { place } = seat;
        let mut closed = table.close_with(place);
        let value = closed.take(0).unwrap();
        closed.free();
        value
    }
}
