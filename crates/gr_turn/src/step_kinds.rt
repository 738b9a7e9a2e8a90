// The six kinds of step: what each tells its seat.
ghost use Rattle.gr_turn.specs.Told.{glanced, drew, looked, counted, passed, parted, newborn, joined, spent};

use crate::keeps::Keeps;
use crate::views::View;
use atomic_table::{Join, Play, Split};

/// A look with no ticket.
pub(crate) struct Glance;

impl<T: Keeps> Play<Option<T>, View<T::Entry, T::Fixed>> for Glance {
    ghost then = { glanced T.number };
}

/// A seat draws a ticket.
pub(crate) struct Draw;

impl<T: Keeps> Play<Option<T>, View<T::Entry, T::Fixed>> for Draw {
    ghost then = { drew };
}

/// A seat looks whether its ticket is served, and takes the slot where it is.
pub(crate) struct Look;

impl<T: Keeps> Play<Option<T>, View<T::Entry, T::Fixed>> for Look {
    ghost then = { looked T.history T.number T.fixed };
}

/// A seat enters the entry of its turn.
pub(crate) struct Count;

impl<T: Keeps> Play<Option<T>, View<T::Entry, T::Fixed>> for Count {
    ghost then = { counted T.history T.number };
}

/// A seat gives the slot back, and the next ticket is served.
pub(crate) struct PassOn;

impl<T: Keeps> Play<Option<T>, View<T::Entry, T::Fixed>> for PassOn {
    ghost then = { passed T.number };
}

/// A seat is split off the first one.
pub(crate) struct Cut;

impl<E, F> Split<View<E, F>> for Cut {
    ghost left = { parted };

    ghost right = { newborn };
}

/// The first seat takes another one in.
pub(crate) struct Glue;

impl<E, F> Join<View<E, F>> for Glue {
    ghost both = { joined };

    ghost spent = { spent };
}
