// The work set.
ghost use Rattle.std.specs.Prelude.{◌≡◌, ◌≤◌, [], false, length, nat_eq, slice_get, if◌then◌else◌, Some, None, IfOk};
ghost use Rattle.std.specs.Prelude.{OnOk, OnErr};
ghost use Rattle.gr_logic.specs.WorkLists.{best, enter};
ghost use Rattle.gr_work.specs.WorkSets.{WorkList, HasDifferentIds, IsBounded, is_in, without};

use crate::indexes::Indexes;
use gr_logic::{Item, OutOfMemory};
use std::alloc::Global;
use std::marker::Model;

/// The clauses on offer to the reducers. A contract sees how many there is room for, and the list of them in order of
/// arrival.
#[derive(Drop)]
pub struct WorkSet {
    capacity: usize,
    indexes: Indexes,
}

impl Model for WorkSet {
    ghost use Rattle.std.specs.BTreeMap.{values};
    ghost use Rattle.gr_work.specs.WorkSets.{WorkList};
    ghost use Rattle.gr_work.specs.Sound.{IsSound};

    ghost Value = { WorkList };

    ghost view = { λ work. record { capacity = work.capacity; items = values work.indexes.arrivals } };

    ghost invariant = { λ work. IsSound work.capacity work.indexes.arrivals work.indexes.ranking };
}

impl WorkSet {
    /// No items, and room for so many.
    pub fn new(alloc: Global, capacity: usize) -> Result<WorkSet, OutOfMemory>
        requires some { 1 ≤ capacity }
        requires few { capacity ≤ 100_000 }
        ensures { IfOk result (λ work. work ≡ record { capacity = capacity; items = [] }) }
    {
        Ok(WorkSet {
            capacity,
            indexes: Indexes::new(alloc),
        })
    }

    /// Puts an item in as the latest. Where there is no room, the earliest one leaves and is given back. A set that was
    /// not empty for 2^64 arrivals in a row has no number for the next, and answers `OutOfMemory` too.
    pub fn enter(&mut self, item: Item) -> Result<Option<Item>, OutOfMemory>
        requires { is_in item.id self.old.items ≡ false }
        ensures ok { OnOk result (self.new ≡ record self.old { items = enter self.old.items self.old.capacity item }) }
        ensures left { IfOk result (λ left. left
            ≡ (if nat_eq (length self.old.items) self.old.capacity then slice_get self.old.items 0 else None)) }
        ensures err { OnErr result (self.new ≡ self.old) }
    {
        let Some(arrival) = self.indexes.next_arrival() else {
            return Err(OutOfMemory);
        };
        // For a moment there is one item too many, so that nothing has left where memory is wanting.
        self.indexes.add(arrival, item)?;
        if self.indexes.arrivals.len() > self.capacity {
            Ok(self.indexes.take_first())
        } else {
            Ok(None)
        }
    }

    /// The item of least LBD, then of fewest literals, then of latest arrival. Takes no memory.
    pub fn best(&self) -> Option<Item>
        ensures { result ≡ best self.now.items }
    {
        self.indexes.best()
    }

    /// The earliest arrival. Takes no memory.
    pub fn first(&self) -> Option<Item>
        ensures { result ≡ slice_get self.now.items 0 }
    {
        self.indexes.first()
    }

    /// Takes the best item out; the others stay in order. Takes no memory.
    pub fn take_best(&mut self) -> Option<Item>
        ensures best { result ≡ best self.old.items }
        ensures rest { self.new ≡ record self.old { items = without result self.old.items } }
    {
        self.indexes.take_best()
    }

    /// How many items there are. Takes no memory.
    pub fn len(&self) -> usize
        ensures len { result ≡ length self.now.items }
        ensures room { length self.now.items ≤ self.now.capacity }
        ensures capacity { IsBounded self.now.capacity }
        ensures ids { HasDifferentIds self.now.items }
    {
        self.indexes.arrivals.len()
    }
}
