// How a reducer ends.
ghost use Rattle.std.specs.Prelude.{◌≡◌};
ghost use Rattle.gr_reducer.specs.Endings.{ended_by};

use gr_bench::BenchError;
use gr_logic::OutOfMemory;
use gr_seat::ReducerSeat;

/// Why a reducer ended.
#[derive(Clone, Copy, Debug, PartialEq, Eq)]
pub enum Ended {
    /// The exchange was closed.
    Closed,
    OutOfMemory,
}

impl From<OutOfMemory> for Ended {
    ghost use Rattle.gr_reducer.specs.declared.endings.Ended.TheVariants.{OutOfMemory as WasOutOfMemory};
    ghost use Rattle.std.specs.Prelude.{◌≡◌};

    ghost from_gives = { λ _ ended. ended ≡ WasOutOfMemory };

    fn from(_failed: OutOfMemory) -> Ended {
        Ended::OutOfMemory
    }
}

/// The seat of a reducer that ended.
#[derive(Drop)]
pub struct Finished {
    pub seat: ReducerSeat,
    pub ended: Ended,
}

/// A call at the exchange was refused.
pub(crate) fn end_by(why: BenchError) -> Ended
    ensures { result ≡ ended_by why }
{
    match why {
        BenchError::Closed => Ended::Closed,
        BenchError::OutOfMemory => Ended::OutOfMemory,
    }
}
