// The turns of one guest.
ghost use Rattle.std.specs.Prelude.{◌≡◌, ◌∷◌, ◌++◌, [], MatchBool};
ghost use Rattle.gr_turn.specs.Seats.{IsAway};
ghost use Rattle.gr_timing_lock.specs.Crowds.{IsAt, IsFresh};

use crate::guests::Guest;
use crate::tallies::Tally;
use gr_turn::{Seat, Turn};
use std::sync::Wait;

/// So many turns, with so many steps of arithmetic behind each. The steps go on from turn to turn, and what they
/// come to goes back with the guest: else the compiler leaves them out.
pub fn take_turns<R: Wait>(rt: &R, turn: &Turn<Tally>, guest: Guest, turns: u32, work: u32) -> Guest
    requires { IsFresh turn.now guest }
    ensures { IsAt turn.now result }
{
    let Guest {
        mut seat,
        who,
        mut made,
        mut state,
    } = guest;
    for _ in 0..turns {
        if take_turn(rt, turn, &mut seat, who) {
            made += 1;
        }
        state = steps(state, work);
    }
    Guest::new(seat, who, made, state)
}

/// One turn, and whether it made an entry.
fn take_turn<R: Wait>(rt: &R, turn: &Turn<Tally>, seat: &mut Seat<Tally>, who: u32) -> bool
    requires away { IsAway turn.now seat.old }
    requires named { seat.old.number ≡ who }
    ensures away { IsAway turn.now seat.new }
    ensures named { seat.new.number ≡ who }
    ensures own { MatchBool result
        (seat.new.own ≡ seat.old.own ++ who ∷ [])
        (seat.new.own ≡ seat.old.own) }
{
    let mut held = turn.enter(rt, seat);
    let grown = held.value_mut().add(who);
    turn.leave(seat, held, grown);
    grown
}

/// Steps of arithmetic, each on what the one before gave (xorshift: Marsaglia 2003).
fn steps(from: u64, work: u32) -> u64 {
    let mut state = from;
    for _step in 0..work {
        state ^= state << 13;
        state ^= state >> 7;
        state ^= state << 17;
    }
    state
}
