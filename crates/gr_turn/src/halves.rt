// The two halves of a turn: up to the value in the seat's hand, and from there to the pass.
ghost use Rattle.std.specs.Prelude.{◌≡◌};
ghost use Rattle.gr_turn.specs.Views.{noted};
ghost use Rattle.gr_turn.specs.Turns.{Grows};
ghost use Rattle.gr_turn.specs.Midway.{HasTicket, IsServed, IsHolding, IsReady};

use crate::keeps::Keeps;
use crate::locks::{Place, Turn};
use crate::step_kinds::{Count, Look};
use crate::waits::YIELDS;
use std::sync::Wait;
use std::thread;

/// The table's words: the ticket that is drawn next, the one that is served, and the length of the
/// history. The first two wrap.
pub(crate) const TICKET: usize = 0;

pub(crate) const SERVING: usize = 1;

const COUNT: usize = 2;

impl<T: Keeps> Turn<T> {
    /// Looks until the ticket is served. The look that finds it served takes the value's slot.
    pub(crate) fn look_until_served<R: Wait>(&self, rt: &R, place: &mut Place<T>, ticket: u64)
        requires lock { place.old.table_id ≡ self.now }
        requires ticket { HasTicket ticket place.old.me }
        ensures lock { place.new.table_id ≡ place.old.table_id }
        ensures served { IsServed T.history T.number T.fixed place.old.me place.new.me }
    {
        let mut looks = 0u32;
        for _ in rt.forever() {
            if self.table.shared.load::<Look>(place, SERVING) == ticket {
                return;
            }
            self.pause(rt, ticket, looks);
            looks = looks.saturating_add(1);
        }
        unreachable!()
    }

    /// Yields, and after so many looks sleeps instead. It touches no seat: a contract sees nothing.
    fn pause<R: Wait>(&self, rt: &R, ticket: u64, looks: u32) {
        if looks < YIELDS {
            thread::yield_now();
            return;
        }
        let bed = self.waiting.bed(ticket);
        let calls = bed.lie_down();
        // Whoever passed the turn on before this look may have seen no one asleep.
        if self.table.shared.peek(SERVING) != ticket {
            bed.sleep(rt, calls);
        }
        bed.rise();
    }

    /// Puts the value back into the slot and, where the turn made an entry, counts it.
    pub(crate) fn put_back(&self, place: &mut Place<T>, value: T, grown: bool)
        requires lock { place.old.table_id ≡ self.now }
        requires holding { IsHolding place.old.me }
        requires history { Grows grown T.number place.old.me.0.number (noted place.old.me.0.stage)
            (T.history value) }
        ensures lock { place.new.table_id ≡ place.old.table_id }
        ensures ready { IsReady T.history grown value place.old.me place.new.me }
    {
        let shared = &self.table.shared;
        // The history is no longer than a word can tell.
        let _count = value.count();
        shared.exchange(place, 0, Some(value));
        if grown {
            shared.fetch_add::<Count>(place, COUNT, 1);
        }
    }
}
