// What a seat knows, and the rule of the lock's table. No value of these types is made.
use crate::keeps::Keeps;
use atomic_table::TableRule;
use std::collections::LinkedList;
use std::marker::PhantomData;
use std::snapshot::Snapshot;

/// Where a seat stands.
pub enum Stage<E> {
    Away,
    /// It has this ticket.
    Waits(u64),
    /// It has this ticket and the value, whose history this is.
    Holds(u64, LinkedList<E>),
}

/// What a seat knows.
pub struct View<E, F> {
    /// It was not joined into another.
    pub live: bool,
    pub number: u64,
    pub fixed: Option<F>,
    pub seen: LinkedList<E>,
    pub own: LinkedList<E>,
    pub turns: u64,
    pub splits: u64,
    pub out: u64,
    /// How many seats were joined into it.
    pub joined: u64,
    pub stage: Stage<E>,
    /// The two histories that the last join put together.
    pub left: LinkedList<E>,
    pub right: LinkedList<E>,
}

/// The rule of the lock's table.
pub struct Queue<T> {
    of: PhantomData<T>,
}

impl<T: Keeps> TableRule<Option<T>, View<T::Entry, T::Fixed>, Snapshot<T>> for Queue<T> {
    ghost use Rattle.gr_turn.specs.Queues.{Kept, newcomer};

    ghost holds = { λ key. Kept T.history T.number T.fixed };

    ghost first = { λ key. newcomer (T.fixed key.value) };
}
