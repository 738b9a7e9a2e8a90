// The lock, its seats, and the value that a turn lends.
ghost use Rattle.std.specs.Prelude.{◌≡◌};
ghost use Rattle.std.specs.Borrow.{sem};
ghost use Rattle.gr_turn.specs.Lending.{LendsValue};

use crate::keeps::Keeps;
use crate::views::{Queue, View};
use crate::waits::WaitingArray;
use atomic_table::Table;
use std::alloc::Global;
use std::marker::Model;
use std::snapshot::Snapshot;

/// What a seat knows, and the slot where it has it.
pub(crate) type Place<T> = atomic_table::Seat<
    Option<T>,
    View<<T as Keeps>::Entry, <T as Keeps>::Fixed>,
>;

/// A ticket lock round a value, for threads to share. Contracts see which lock it is.
#[derive(Drop)]
pub struct Turn<T: Keeps> {
    pub(crate) table: Table<Option<T>, View<T::Entry, T::Fixed>, Snapshot<T>, Queue<T>, Global>,
    pub(crate) waiting: WaitingArray,
}

impl<T: Keeps> Model for Turn<T> {
    ghost use Rattle.std.specs.Prelude.{◌≡◌};
    ghost use Rattle.gr_turn.specs.Seats.{TableId};

    ghost Value = { TableId };

    ghost view = { λ t. t.table.shared.table_id };

    ghost invariant = { λ t.
        (t.table.shared.table_id.words ≡ 3) × (t.table.shared.table_id.slots ≡ 1) };
}

/// A seat at a lock, for one thread at a time. It takes no bytes.
#[derive(Drop)]
pub struct Seat<T: Keeps> {
    pub(crate) place: Place<T>,
}

impl<T: Keeps> Model for Seat<T> {
    ghost use Rattle.gr_turn.specs.Seats.{Sitting, sitting_of, IsFit};

    ghost Value = { Sitting T.Entry T.Fixed };

    ghost view = { λ s. sitting_of s.place.table_id s.place.me.0 };

    ghost invariant = { λ s. IsFit T.number s.place.me };
}

/// A new lock and its first seat, whose number is 0.
pub struct Opened<T: Keeps> {
    pub turn: Turn<T>,
    pub seat: Seat<T>,
}

/// The value, for the length of a turn. It has no `Drop`: only `leave` takes it, and ends the turn.
pub struct Held<T: Keeps> {
    pub(crate) value: T,
}

impl<T: Keeps> Held<T> {
    /// The value. Takes no memory.
    pub fn value(&self) -> &T
        ensures { result.now ≡ self.now.value }
    {
        &self.value
    }

    /// The value; what is written through the reference is kept. Takes no memory.
    pub fn value_mut(&mut self) -> &mut T
        ensures* writes_back { sem 𝓛 (LendsValue T.row T.Entry.row T.Fixed.row self.entry result) }
        ensures value { result.now ≡ self.old.value }
    {
        &mut self.value
    }
}
