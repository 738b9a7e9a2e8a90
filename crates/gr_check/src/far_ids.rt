// Ids in ascending order, found by halving.
ghost use Rattle.std.specs.Prelude.{◌≡◌, ◌<◌, ◌↔◌, ◌++◌, ◌∷◌, true, [], length, All, OnOk, OnErr};
ghost use Rattle.gr_check.specs.Places.{IsFound};

use gr_logic::OutOfMemory;
use std::alloc::Global;
use std::marker::Model;

/// Ids that were put in one by one, each greater than those before it.
#[derive(Drop)]
pub(crate) struct FarIds {
    ids: Vec<u64>,
}

impl Model for FarIds {
    ghost use Rattle.std.specs.Prelude.{ℕ, List};
    ghost use Rattle.gr_check.specs.Places.{AreAscending};

    ghost Value = { List ℕ };

    ghost view = { λ far. far.ids.items };

    ghost invariant = { λ far. AreAscending far.ids.items };
}

impl FarIds {
    /// No ids.
    pub(crate) fn new(alloc: Global) -> FarIds
        ensures { result ≡ [] }
    {
        FarIds {
            ids: Vec::new(alloc),
        }
    }

    /// How many ids there are.
    pub(crate) fn len(&self) -> usize
        ensures { result ≡ length self.now }
    {
        self.ids.len()
    }

    /// The id's place.
    pub(crate) fn find(&self, id: u64) -> Option<usize>
        ensures { IsFound self.now id result }
    {
        match self.ids.binary_search(&id) {
            Ok(place) => Some(place),
            Err(_) => None,
        }
    }

    /// Whether all are less than this id.
    pub(crate) fn are_below(&self, id: u64) -> bool
        ensures { (result ≡ true) ↔ All (λ other. other < id) self.now }
    {
        match self.ids.last() {
            None => true,
            Some(last) => *last < id,
        }
    }

    /// Makes room for one more. A full vector grows by an eighth.
    pub(crate) fn make_room(&mut self) -> Result<(), OutOfMemory>
        ensures { self.new ≡ self.old }
    {
        if self.ids.len() == self.ids.capacity() {
            self.ids.reserve_exact((self.ids.len() / 8).max(1))?;
        }
        Ok(())
    }

    /// Puts a greater id behind them.
    pub(crate) fn push(&mut self, id: u64) -> Result<(), OutOfMemory>
        requires { All (λ other. other < id) self.old }
        ensures ok { OnOk result (self.new ≡ self.old ++ id ∷ []) }
        ensures err { OnErr result (self.new ≡ self.old) }
    {
        self.ids.push(id)?;
        Ok(())
    }
}
