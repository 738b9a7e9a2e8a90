// The value that is shared.
ghost use Rattle.std.specs.Prelude.{◌≡◌, ◌∷◌, ◌++◌, [], MatchBool};

use gr_turn::Keeps;

/// Who took a turn, in order. Each entry is the number of the seat.
#[derive(Drop)]
pub struct Tally {
    pub entries: Vec<u32>,
}

impl Keeps for Tally {
    type Entry = u32;

    type Fixed = ();

    ghost history = { λ tally. tally.entries.items };

    ghost number = { λ entry. entry };

    ghost fixed = { λ _. tt };

    fn count(&self) -> u64 {
        self.entries.len() as u64
    }
}

impl Tally {
    /// Makes an entry, unless memory is wanting.
    pub fn add(&mut self, who: u32) -> bool
        ensures { MatchBool result
            (self.new.entries.items ≡ self.old.entries.items ++ who ∷ [])
            (self.new.entries.items ≡ self.old.entries.items) }
    {
        self.entries.push(who).is_ok()
    }
}
