// The exchange as the lock keeps it.
use gr_bench::Bench;
use gr_diary::Entry;
use gr_logic::Formula;
use gr_turn::Keeps;

/// An exchange that seats take turns at.
#[derive(Drop)]
pub struct Shelf {
    pub(crate) bench: Bench,
}

/// What no turn at an exchange changes. No value of this type is made.
pub struct Fixed {
    pub formula: Formula,
    pub reducers: u32,
    pub capacity: usize,
}

impl Keeps for Shelf {
    ghost use Rattle.gr_diary.specs.Entries.{actor_of};
    ghost use Rattle.gr_seat.specs.Handles.{fixed_of};

    type Entry = Entry;

    type Fixed = Fixed;

    ghost history = { λ shelf. shelf.bench.diary.entries };

    ghost number = { actor_of };

    ghost fixed = { λ shelf. fixed_of shelf.bench };

    fn count(&self) -> u64 {
        self.bench.diary().len()
    }
}
