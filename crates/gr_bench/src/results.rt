// The results, in the books.
ghost use Rattle.std.specs.Prelude.{◌≡◌, ◌≤◌, ◌<◌, ◌+◌, ◌^◌, ◌++◌, ◌∷◌, [], false, IfOk, OnOk, OnErr, option_to_list};
ghost use Rattle.std.specs.VecDeque.{deque_len, deque_capacity};
ghost use Rattle.std.specs.FinSet as set;
ghost use Rattle.gr_bench.specs.Tables.{table_of, shared_by, taken_over, held_old_of, FirstIsApart};

use crate::books::Books;
use crate::holdings::give_both;
use crate::offers::Pending;
use gr_hold::Holder;
use gr_logic::OutOfMemory;
use std::collections::VecDeque;

impl Books {
    /// A clause of a reducer comes in, as a result.
    pub(crate) fn share(&mut self, actor: u32, pending: Pending) -> Result<(), OutOfMemory>
        requires room { self.old.next + 1 < 2 ^ 64 }
        requires actor { actor ≤ 8 }
        requires held { set.contains self.old.holders (self.old.next, Holder.Actor actor) ≡ false }
        requires apart { set.contains self.old.holders (self.old.next, Holder.Result) ≡ false }
        ensures ok { OnOk result (table_of self.new ≡ shared_by actor pending (table_of self.old)) }
        ensures err { OnErr result (table_of self.new ≡ table_of self.old) }
    {
        self.results.reserve(1)?;
        give_both(&mut self.holders, self.next, actor, Holder::Result)?;
        push_reserved(&mut self.results, pending);
        self.next += 1;
        Ok(())
    }

    /// The id that the first result stands for, where the searching thread holds it.
    pub(crate) fn held_old(&self) -> Option<u64>
        ensures { option_to_list result ≡ held_old_of self.now.results.items self.now.holders }
    {
        let first = self.results.front()?;
        let old = first.old?;
        if self.holders.holds(old, Holder::Actor(0)) {
            Some(old)
        } else {
            None
        }
    }

    /// The searching thread takes the first result over.
    pub(crate) fn take_over(&mut self) -> Result<Pending, OutOfMemory>
        requires apart { FirstIsApart self.old.results.items self.old.holders }
        ensures first { IfOk result (λ first. self.old.results.items ≡ first ∷ self.new.results.items) }
        ensures ok { IfOk result (λ first. table_of self.new ≡ taken_over first.id (table_of self.old)) }
        ensures err { OnErr result (table_of self.new ≡ table_of self.old) }
    {
        let id = self.results.front().unwrap().id;
        self.holders.give(id, Holder::Actor(0))?;
        self.holders.drop_hold(id, Holder::Result);
        let first = self.results.pop_front().unwrap();
        Ok(first)
    }
}

/// Appends the result in the room that there is.
fn push_reserved(results: &mut VecDeque<Pending>, pending: Pending)
    requires { deque_len results.old + 1 ≤ deque_capacity results.old }
    ensures { results.new.items ≡ results.old.items ++ pending ∷ [] }
{
    match results.push_back(pending) {
        Ok(()) => {}
        Err(_) => prove!(false),
    }
}
