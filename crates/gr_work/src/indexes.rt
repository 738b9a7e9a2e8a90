// The items on offer, by arrival and by rank.
ghost use Rattle.std.specs.Prelude.{◌≡◌, ◌++◌, ◌∷◌, [], ◌<◌, All, slice_get, IfOk, OnOk, OnErr, IfSome};
ghost use Rattle.std.specs.BTreeMap.{keys, values};
ghost use Rattle.gr_logic.specs.WorkLists.{best, without_first};
ghost use Rattle.gr_work.specs.Ranks.{IsRanking};
ghost use Rattle.gr_work.specs.WorkSets.{HasDifferentIds, without};

use crate::ranks::Rank;
use gr_logic::{Item, OutOfMemory};
use std::alloc::Global;
use std::collections::BTreeMap;

/// The items on offer, in two orders.
#[derive(Drop)]
pub(crate) struct Indexes {
    /// By the numbers of their arrivals.
    pub(crate) arrivals: BTreeMap<u64, Item>,
    /// The same items by rank, the best first.
    pub(crate) ranking: BTreeMap<Rank, Item>,
}

impl Indexes {
    /// No items.
    pub(crate) fn new(alloc: Global) -> Indexes
        ensures items { values result.arrivals ≡ [] }
        ensures ranked { IsRanking result.arrivals result.ranking }
    {
        Indexes {
            arrivals: BTreeMap::new(alloc),
            ranking: BTreeMap::new(alloc),
        }
    }

    /// A number for the next arrival, above those of all items. None where there is no greater number.
    pub(crate) fn next_arrival(&self) -> Option<u64>
        ensures { IfSome result (λ arrival. All (λ earlier. earlier < arrival) (keys self.now.arrivals)) }
    {
        match self.arrivals.last_key_value() {
            Some((latest, _)) => latest.checked_add(1),
            None => Some(0),
        }
    }

    /// Puts an item in as the latest.
    pub(crate) fn add(&mut self, arrival: u64, item: Item) -> Result<(), OutOfMemory>
        requires latest { All (λ earlier. earlier < arrival) (keys self.old.arrivals) }
        requires ranked { IsRanking self.old.arrivals self.old.ranking }
        ensures ok { OnOk result (values self.new.arrivals ≡ values self.old.arrivals ++ item ∷ []) }
        ensures err { OnErr result (values self.new.arrivals ≡ values self.old.arrivals) }
        ensures ranked { IsRanking self.new.arrivals self.new.ranking }
    {
        self.arrivals.insert(arrival, item)?;
        match self.ranking.insert(Rank::new(arrival, item), item) {
            Ok(_) => Ok(()),
            Err(_) => {
                self.arrivals.remove(&arrival);
                Err(OutOfMemory)
            }
        }
    }

    /// Takes the earliest item out.
    pub(crate) fn take_first(&mut self) -> Option<Item>
        requires { IsRanking self.old.arrivals self.old.ranking }
        ensures first { result ≡ slice_get (values self.old.arrivals) 0 }
        ensures rest { values self.new.arrivals ≡ without_first (values self.old.arrivals) }
        ensures ranked { IsRanking self.new.arrivals self.new.ranking }
    {
        match self.arrivals.pop_first() {
            Some((arrival, item)) => {
                self.ranking.remove(&Rank::new(arrival, item));
                Some(item)
            }
            None => None,
        }
    }

    /// Takes the best item out.
    pub(crate) fn take_best(&mut self) -> Option<Item>
        requires ranked { IsRanking self.old.arrivals self.old.ranking }
        requires different { HasDifferentIds (values self.old.arrivals) }
        ensures best { result ≡ best (values self.old.arrivals) }
        ensures rest { values self.new.arrivals ≡ without result (values self.old.arrivals) }
        ensures ranked { IsRanking self.new.arrivals self.new.ranking }
    {
        match self.ranking.pop_first() {
            Some((rank, item)) => {
                self.arrivals.remove(&rank.arrival);
                Some(item)
            }
            None => None,
        }
    }

    /// The best item.
    pub(crate) fn best(&self) -> Option<Item>
        requires { IsRanking self.now.arrivals self.now.ranking }
        ensures { result ≡ best (values self.now.arrivals) }
    {
        match self.ranking.first_key_value() {
            Some((_, item)) => Some(*item),
            None => None,
        }
    }

    /// The earliest item.
    pub(crate) fn first(&self) -> Option<Item>
        ensures { result ≡ slice_get (values self.now.arrivals) 0 }
    {
        match self.arrivals.first_key_value() {
            Some((_, item)) => Some(*item),
            None => None,
        }
    }
}
