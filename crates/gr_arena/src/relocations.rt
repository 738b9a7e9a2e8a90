// Where clauses were moved.
ghost use Rattle.std.specs.Prelude.{◌≡◌, Some, IsSome};
ghost use Rattle.std.specs.FinMap as map;
ghost use Rattle.gr_arena.specs.Blocks.{Laid, moves_in};

use crate::blocks::bits;
use gr_logic::{Place, Word};
use std::marker::Model;

/// Where the clauses of an arena were moved. A contract sees a finite map from old to new places.
#[derive(Drop)]
pub struct Moves {
    /// The old words, with a clause's new place where its id was.
    words: Vec<Word>,
}

impl Model for Moves {
    ghost use Rattle.std.specs.Prelude.{ℕ};
    ghost use Rattle.std.specs.Ordering.{nat_cmp};
    ghost use Rattle.std.specs.Coded.{coded_ℕ};
    ghost use Rattle.std.specs.FinMap as map;
    ghost use Rattle.gr_arena.specs.Blocks.{moves_in, Laid};

    ghost Value = { map.FinMap nat_cmp ℕ };

    ghost coded = { map.code coded_ℕ coded_ℕ };

    ghost view = { λ moves. moves_in moves.words.items };

    ghost invariant = { λ moves. Laid moves.words.items };
}

impl Moves {
    /// The moves that the old words tell.
    pub(crate) fn new(words: Vec<Word>) -> Moves
        requires { Laid words.items }
        ensures { result ≡ moves_in words.items }
    {
        Moves { words }
    }

    /// The new place of the clause that was at the old one.
    pub fn to(&self, old: Place) -> Place
        requires { IsSome (map.get self.now old.0) }
        ensures { map.get self.now old.0 ≡ Some result.0 }
    {
        let words = self.words.as_slice();
        Place(bits(words, old.0, 1) as usize * 4_294_967_296 + bits(words, old.0, 0) as usize)
    }
}
