// Where the clause of an id is.
ghost use Rattle.std.specs.Prelude.{◌≡◌, None, Some, IsSome, IfOk, OnOk, OnErr};
ghost use Rattle.std.specs.FinMap as finite;
ghost use Rattle.gr_prop.specs.Ascending.{AreKeysOf};

use gr_logic::{Ids, OutOfMemory, Place};
use std::alloc::Global;
use std::collections::HashMap;
use std::marker::Model;

/// Places of clauses by the clauses' ids: a contract sees the finite map.
#[derive(Drop)]
pub(crate) struct IdMap {
    alloc: Global,
    places: HashMap<u64, Place>,
}

impl Model for IdMap {
    ghost use Rattle.std.specs.Ordering.{nat_cmp};
    ghost use Rattle.std.specs.Coded.{coded_ℕ};
    ghost use Rattle.std.specs.FinMap as finite;
    ghost use Rattle.gr_logic.specs.declared.places.Place.{Place};
    ghost use Rattle.gr_prop.specs.BaseCodes.{place_code};

    ghost Value = { finite.FinMap nat_cmp Place };

    ghost coded = { finite.code coded_ℕ place_code };

    ghost view = { λ ids. finite.from_entries ids.places.entries };
}

impl IdMap {
    /// No ids.
    pub(crate) fn new(alloc: Global) -> IdMap
        ensures { result ≡ finite.empty }
    {
        IdMap {
            alloc,
            places: HashMap::new(alloc),
        }
    }

    /// The place of the id's clause.
    pub(crate) fn get(&self, id: u64) -> Option<Place>
        ensures { result ≡ finite.get self.now id }
    {
        self.places.get(&id).copied()
    }

    /// Puts a place under the id.
    pub(crate) fn insert(&mut self, id: u64, place: Place) -> Result<(), OutOfMemory>
        ensures ok { OnOk result (self.new ≡ finite.insert self.old id place) }
        ensures err { OnErr result (self.new ≡ self.old) }
    {
        self.places.insert(id, place)?;
        Ok(())
    }

    /// Puts another place under an id that is there. Takes no memory.
    pub(crate) fn replace(&mut self, id: u64, place: Place)
        requires { IsSome (finite.get self.old id) }
        ensures { self.new ≡ finite.insert self.old id place }
    {
        match self.places.insert(id, place) {
            Ok(_) => {}
            Err(_) => unreachable!(),
        }
    }

    /// Takes the id out.
    pub(crate) fn remove(&mut self, id: u64)
        ensures { self.new ≡ finite.remove self.old id }
    {
        self.places.remove(&id);
    }

    /// The ids, ascending.
    pub(crate) fn ids(&self) -> Result<Ids, OutOfMemory>
        ensures { IfOk result (λ ids. AreKeysOf self.now ids) }
    {
        let mut keys = Vec::with_capacity(self.alloc, self.places.len())?;
        for id in self.places.keys() {
            keys.push(*id)?;
        }
        keys.sort()?;
        copied(self.alloc, keys.as_slice())
    }
}

/// A list of these ids.
fn copied(alloc: Global, ids: &[u64]) -> Result<Ids, OutOfMemory>
    ensures { IfOk result (λ list. list ≡ ids.now) }
{
    let mut list = Ids::new(alloc);
    for id in ids {
        list.push(*id)?;
    }
    Ok(list)
}
