// The arena.
ghost use Rattle.std.specs.Prelude.{◌≡◌, ◌≤◌, ◌<◌, ◌+◌, None, length, OnOk, OnErr, IfOk};
ghost use Rattle.std.specs.FinMap as map;
ghost use Rattle.std.specs.List.{swap};
ghost use Rattle.gr_arena.specs.Arenas.{Stored, ArenaState, Has, at, with_clause, without_clause, size, IsCompaction};

use crate::blocks::{append, bits, body, mark, swap_in};
use crate::compaction::{live_words, relocate};
use crate::relocations::Moves;
use gr_logic::{Lit, OutOfMemory, Place, Word};
use std::alloc::Global;
use std::marker::Model;
use std::mem;

/// Clauses with ids and LBDs, by their places. A contract sees a finite map from the places, and
/// how many words the vector has.
///
/// A clause takes four words, for the id, the LBD and the number of literals, and one for each
/// literal. A removed clause keeps its words until the next `compact`.
#[derive(Drop)]
pub struct Arena {
    words: Vec<Word>,
}

impl Model for Arena {
    ghost use Rattle.gr_arena.specs.Arenas.{ArenaState};
    ghost use Rattle.gr_arena.specs.ArenaCodes.{arena_code};
    ghost use Rattle.gr_arena.specs.Blocks.{arena_in, Laid};

    ghost Value = { ArenaState };

    ghost coded = { arena_code };

    ghost view = { λ arena. arena_in arena.words.items };

    ghost invariant = { λ arena. Laid arena.words.items };
}

impl Arena {
    /// No clauses. Takes no memory.
    pub fn new(alloc: Global) -> Arena
        ensures { result ≡ record { clauses = map.empty; words = 0 } }
    {
        Arena {
            words: Vec::new(alloc),
        }
    }

    /// How many words the vector has.
    pub fn words(&self) -> usize
        ensures { result ≡ self.now.words }
    {
        self.words.len()
    }

    /// The id of the clause at a place.
    pub fn id(&self, place: Place) -> u64
        requires { Has self.now place }
        ensures { result ≡ (at self.now place).id }
    {
        let words = self.words.as_slice();
        bits(words, place.0, 1) as u64 * 4_294_967_296 + bits(words, place.0, 0) as u64
    }

    /// The LBD of the clause at a place.
    pub fn lbd(&self, place: Place) -> u32
        requires { Has self.now place }
        ensures { result ≡ (at self.now place).lbd }
    {
        bits(self.words.as_slice(), place.0, 2)
    }

    /// The literals of the clause at a place, lent from the vector.
    pub fn lits(&self, place: Place) -> &[Lit]
        requires { Has self.now place }
        ensures { result.now ≡ (at self.now place).lits }
    {
        body(self.words.as_slice(), place.0)
    }

    /// Adds a clause at a new place. Where memory is wanting nothing changes; a clause of 2^31
    /// literals or more is one for which it is.
    pub fn add(&mut self, id: u64, lbd: u32, lits: &[Lit]) -> Result<Place, OutOfMemory>
        requires { length lits.now < 4_294_967_296 }
        ensures fresh { IfOk result (λ place. map.get self.old.clauses place.0 ≡ None) }
        ensures clauses { IfOk result (λ place. self.new.clauses
            ≡ map.insert self.old.clauses place.0 (record { id = id; lbd = lbd; lits = lits.now })) }
        ensures words { OnOk result (self.new.words ≡ self.old.words + (4 + length lits.now)) }
        ensures err { OnErr result (self.new ≡ self.old) }
    {
        if lits.len() >= 2_147_483_648 {
            return Err(OutOfMemory);
        }
        let place = self.words.len();
        append(&mut self.words, id, lbd, lits)?;
        Ok(Place(place))
    }

    /// Exchanges two literals of the clause at a place.
    pub fn swap(&mut self, place: Place, i: usize, j: usize)
        requires there { Has self.old place }
        requires first { i < length (at self.old place).lits }
        requires second { j < length (at self.old place).lits }
        ensures { self.new
            ≡ with_clause self.old place
            (record (at self.old place) { lits = swap (at self.old place).lits i j }) }
    {
        swap_in(self.words.as_mut_slice(), place.0, i, j);
    }

    /// Removes the clause at a place.
    pub fn remove(&mut self, place: Place)
        requires { Has self.old place }
        ensures { self.new ≡ without_clause self.old place }
    {
        mark(self.words.as_mut_slice(), place.0);
    }

    /// Moves the clauses together, to new places, so that no words of removed clauses are left. Where
    /// memory is wanting nothing changes: it is taken first.
    pub fn compact(&mut self) -> Result<Moves, OutOfMemory>
        ensures ok { IfOk result (λ moves. IsCompaction self.old self.new moves) }
        ensures err { OnErr result (self.new ≡ self.old) }
    {
        let room = live_words(self.words.as_slice());
        let mut kept = Vec::with_capacity(*self.words.allocator(), room)?;
        relocate(self.words.as_mut_slice(), &mut kept);
        Ok(Moves::new(mem::replace(&mut self.words, kept)))
    }
}
