// Where an item stands among those on offer.
ghost use Rattle.std.proofs.Common.{rules};
ghost use Rattle.std.specs.Prelude.{◌≡◌};
ghost use Rattle.std.specs.Cmp.{partial_order_from_own_ties};
ghost use Rattle.std.specs.Cmp.Rules.{comparing};
ghost use Rattle.std.specs.Ordering.{nat_cmp, on, flip_args, then_cmp, as_partial_cmp};
ghost use Rattle.gr_work.specs.Ranks.{rank_of};

use gr_logic::Item;
use std::cmp::Ordering;

/// An item's LBD and length, and the number of its arrival. The best comes first: least LBD, then fewest literals, then
/// latest arrival.
#[derive(Clone, Copy, PartialEq, Eq)]
pub(crate) struct Rank {
    pub(crate) lbd: u32,
    pub(crate) len: u32,
    pub(crate) arrival: u64,
}

impl Rank {
    /// The rank of an item that arrived with this number.
    pub(crate) fn new(arrival: u64, item: Item) -> Rank
        ensures { result ≡ rank_of arrival item }
    {
        Rank {
            lbd: item.lbd,
            len: item.len,
            arrival,
        }
    }
}

impl Ord for Rank {
    ghost cmp = { then_cmp (on (λ r. r.lbd) nat_cmp)
        (then_cmp (on (λ r. r.len) nat_cmp) (flip_args (on (λ r. r.arrival) nat_cmp))) };

    ghost total = { Prim.search (comparing, rules) };

    ghost matches_partial_cmp = { Prim.search (comparing, rules) };

    ghost matches_eq = { Prim.search (comparing, rules) };

    fn cmp(&self, other: &Rank) -> Ordering {
        self.lbd.cmp(&other.lbd).then(
            self.len
                .cmp(&other.len)
                .then(other.arrival.cmp(&self.arrival)),
        )
    }
}

impl PartialOrd for Rank {
    ghost partial_cmp = { as_partial_cmp (then_cmp (on (λ r. r.lbd) nat_cmp)
        (then_cmp (on (λ r. r.len) nat_cmp) (flip_args (on (λ r. r.arrival) nat_cmp)))) };

    ghost laws = { partial_order_from_own_ties (Prim.search (comparing, rules)) (Prim.search (comparing, rules)) };

    fn partial_cmp(&self, other: &Rank) -> Option<Ordering> {
        Some(self.cmp(other))
    }
}
