// A seat with its number.
ghost use Rattle.std.specs.Prelude.{◌≡◌, ◌<◌, false, length};

use crate::tallies::Tally;
use gr_turn::Seat;

/// A seat that was split off, for a thread of its own.
#[derive(Drop)]
pub struct Guest {
    pub seat: Seat<Tally>,
    pub who: u32,
    /// How many of its turns made an entry.
    pub made: u64,
    /// What its arithmetic between turns came to.
    pub state: u64,
    ghost named: { seat.number ≡ who },
    ghost beside: { 0 < who },
    ghost away: { seat.in_turn ≡ false },
    ghost owns: { length seat.own ≡ made },
}

impl Guest {
    /// A guest of this seat.
    pub fn new(seat: Seat<Tally>, who: u32, made: u64, state: u64) -> Guest
        requires named { (seat.number ≡ who) × (0 < who) }
        requires away { seat.in_turn ≡ false }
        requires owns { length seat.own ≡ made }
        ensures { (result.seat ≡ seat) × (result.who ≡ who) × (result.made ≡ made) × (result.state ≡ state) }
    {
        Guest {
            seat,
            who,
            made,
            state,
        }
    }
}
