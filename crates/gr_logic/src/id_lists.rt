// A list of clause ids.
ghost use Rattle.std.specs.Prelude.{◌≡◌, ◌++◌, ◌∷◌, [], OnOk, OnErr};

use crate::memory::OutOfMemory;
use std::alloc::Global;
use std::marker::Model;

/// Ids of clauses in a proof log, in order: a contract sees a list of numbers.
#[derive(Debug, Drop)]
pub struct Ids {
    ids: Vec<u64>,
}

impl Model for Ids {
    ghost use Rattle.std.specs.Prelude.{List, ℕ};

    ghost Value = { List ℕ };

    ghost view = { λ list. list.ids.items };
}

impl Ids {
    /// No ids. Takes no memory.
    pub fn new(alloc: Global) -> Ids
        ensures { result ≡ [] }
    {
        Ids {
            ids: Vec::new(alloc),
        }
    }

    /// These ids, in order. Takes no memory.
    pub fn from_vec(ids: Vec<u64>) -> Ids
        ensures { result ≡ ids.items }
    {
        Ids { ids }
    }

    /// The ids, in order.
    pub fn all(&self) -> &[u64]
        ensures { result.now ≡ self.now }
    {
        self.ids.as_slice()
    }

    /// Appends an id.
    pub fn push(&mut self, id: u64) -> Result<(), OutOfMemory>
        ensures ok { OnOk result (self.new ≡ self.old ++ id ∷ []) }
        ensures err { OnErr result (self.new ≡ self.old) }
    {
        self.ids.push(id)?;
        Ok(())
    }
}
