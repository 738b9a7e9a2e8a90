// The clauses on offer, in the books.
ghost use Rattle.std.specs.Prelude.{◌≡◌, ◌≤◌, ◌<◌, ◌+◌, ◌^◌, false, true, ℕ, Some, nat_eq, IfOk, IsSome, OnOk, OnErr, option_to_list};
ghost use Rattle.std.specs.HashMap.{get, spare, Updates};
ghost use Rattle.std.specs.FinSet as set;
ghost use Rattle.gr_logic.specs.WorkLists.{best};
ghost use Rattle.gr_work.specs.WorkSets.{is_in, without};
ghost use Rattle.gr_bench.specs.Tables.{table_of, offered, crowded_out, item_ids, taken_off, HoldsWork, given_to};

use crate::books::Books;
use crate::holdings::{drop_both, give_both};
use crate::offers::Offer;
use gr_hold::Holder;
use gr_logic::{Clause, Item, OutOfMemory};
use gr_work::WorkSet;
use std::collections::HashMap;

impl Books {
    /// The earliest item's id, where a new item takes its place.
    pub(crate) fn replaced(&self, capacity: usize) -> Option<u64>
        requires { self.now.work.capacity ≡ capacity }
        ensures { option_to_list result ≡ crowded_out self.now.work }
    {
        if self.work.len() != capacity {
            return None;
        }
        match self.work.first() {
            Some(item) => Some(item.id),
            None => None,
        }
    }

    /// A clause of the searching thread comes in, on offer. Where there is no room for it, the earliest item leaves.
    pub(crate) fn offer(&mut self, offer: Offer) -> Result<(), OutOfMemory>
        requires room { self.old.next + 1 < 2 ^ 64 }
        requires id { offer.item.id ≡ self.old.next }
        requires held { set.contains self.old.holders (self.old.next, Holder.Actor 0) ≡ false }
        requires apart { set.contains self.old.holders (self.old.next, Holder.Work) ≡ false }
        requires new { is_in self.old.next self.old.work.items ≡ false }
        requires work { (id : ℕ) → set.contains self.old.holders (id, Holder.Work) ≡ is_in id self.old.work.items }
        ensures ok { OnOk result (table_of self.new ≡ offered offer.item offer.clause (table_of self.old)) }
        ensures err { OnErr result (table_of self.new ≡ table_of self.old) }
    {
        self.offers.reserve(1)?;
        give_both(&mut self.holders, self.next, 0, Holder::Work)?;
        let first = match self.work.enter(offer.item) {
            Ok(first) => first,
            Err(failed) => {
                drop_both(&mut self.holders, self.next, 0, Holder::Work);
                return Err(failed);
            }
        };
        put_reserved(&mut self.offers, self.next, offer.clause);
        self.next += 1;
        self.take_off(first);
        Ok(())
    }

    /// The item that left the work list is not on offer any more.
    fn take_off(&mut self, item: Option<Item>)
        requires { HoldsWork self.old.holders (item_ids item) }
        ensures { table_of self.new ≡ taken_off (item_ids item) (table_of self.old) }
    {
        if let Some(item) = item {
            self.offers.remove(&item.id);
            self.holders.drop_hold(item.id, Holder::Work);
        }
    }

    /// An item goes to the reducer. Gives its clause.
    pub(crate) fn take(&mut self, actor: u32, item: Item) -> Result<Clause, OutOfMemory>
        requires actor { actor ≤ 8 }
        requires best { best self.old.work.items ≡ Some item }
        requires apart { set.contains self.old.holders (item.id, Holder.Actor actor) ≡ false }
        requires work { set.contains self.old.holders (item.id, Holder.Work) ≡ true }
        requires clause { IsSome (get nat_eq self.old.offers item.id) }
        ensures ok { OnOk result (table_of self.new ≡ given_to actor item.id (table_of self.old)) }
        ensures clause { IfOk result (λ clause. get nat_eq self.old.offers item.id ≡ Some clause) }
        ensures err { OnErr result (table_of self.new ≡ table_of self.old) }
    {
        self.holders.give(item.id, Holder::Actor(actor))?;
        self.holders.drop_hold(item.id, Holder::Work);
        take_out(&mut self.work, item);
        let clause = self.offers.remove(&item.id).unwrap();
        self.note_taken(actor, Some(item.id));
        Ok(clause)
    }
}

/// The best item leaves the work list.
fn take_out(work: &mut WorkSet, item: Item)
    requires { best work.old.items ≡ Some item }
    ensures rest { work.new ≡ record work.old { items = without (Some item) work.old.items } }
{
    work.take_best();
}

/// Puts the clause under an id into the room that there is.
fn put_reserved(offers: &mut HashMap<u64, Clause>, id: u64, clause: Clause)
    requires { 1 ≤ spare offers.old }
    ensures { Updates nat_eq offers.old offers.new id (Some clause) }
{
    match offers.insert(id, clause) {
        Ok(_) => {}
        Err(_) => prove!(false),
    }
}
