// Clauses on offer go to reducers.
ghost use Rattle.std.specs.Prelude.{◌≡◌, ◌↔◌, IfOk, OnOk, OnErr};
ghost use Rattle.gr_diary.specs.declared.entries.Entry.TheVariants.{Take};
ghost use Rattle.gr_bench.specs.Exchanges.{IsEnabledAt, IsClosedAt, IsOpenAt, IsIdle, IsGrown, IsUnchanged, BestIs, state_at};
ghost use Rattle.gr_bench.specs.Answers.{IsBestOffer};

use crate::answers::{TakeError, Taken};
use crate::benches::Bench;
use gr_diary::Entry;
use gr_logic::{Ids, Item, OutOfMemory};

impl Bench {
    /// The best clause on offer goes to a reducer.
    pub fn take(&mut self, actor: u32) -> Result<Taken, TakeError>
        requires { IsEnabledAt self.old (Take actor) }
        ensures ok { OnOk result (IsGrown self.old self.new (Take actor)) }
        ensures best { IfOk result (λ taken. IsBestOffer (state_at self.old) taken.id taken.clause) }
        ensures closed { (result ≡ Err TakeError.Closed) ↔ IsClosedAt self.old }
        ensures idle { (result ≡ Err TakeError.Idle) ↔ IsIdle self.old }
        ensures err { OnErr result (IsUnchanged self.old self.new) }
    {
        if self.is_closed() {
            return Err(TakeError::Closed);
        }
        let Some(item) = self.books.work.best() else {
            return Err(TakeError::Idle);
        };
        let taken = self.take_item(actor, item)?;
        Ok(taken)
    }

    /// The best item goes to the reducer.
    fn take_item(&mut self, actor: u32, item: Item) -> Result<Taken, OutOfMemory>
        requires best { BestIs self.old item }
        requires still { IsOpenAt self.old }
        requires able { IsEnabledAt self.old (Take actor) }
        ensures ok { OnOk result (IsGrown self.old self.new (Take actor)) }
        ensures best { IfOk result (λ taken. IsBestOffer (state_at self.old) taken.id taken.clause) }
        ensures err { OnErr result (IsUnchanged self.old self.new) }
    {
        let left = Ids::new(self.alloc);
        let entry = Entry::Take { actor };
        self.diary.reserve(&entry, &left)?;
        let clause = self.books.take(actor, item)?;
        self.diary.push(entry, left);
        Ok(Taken {
            id: item.id,
            clause,
        })
    }
}
