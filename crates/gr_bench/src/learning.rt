// The searching thread's learnt clauses come in.
ghost use Rattle.std.specs.Prelude.{◌≡◌, ◌↔◌, true, false, IfOk, OnOk, OnErr};
ghost use Rattle.gr_logic.specs.Log.{is_empty};
ghost use Rattle.gr_diary.specs.declared.entries.Entry.TheVariants.{Learn};
ghost use Rattle.gr_bench.specs.Exchanges.{IsEnabledAt, IsClosedAt, IsOpenAt, IsGrown, IsUnchanged, state_at};

use crate::answers::BenchError;
use crate::benches::Bench;
use crate::lone_ids::lone_of;
use crate::offers::Offer;
use gr_diary::Entry;
use gr_logic::{Clause, Ids, Item, OutOfMemory};

impl Bench {
    /// The searching thread's learnt clause comes in, on offer or not. Answers its id.
    pub fn learn(
        &mut self,
        clause: Clause,
        hints: Ids,
        lbd: u32,
        offered: bool,
    ) -> Result<u64, BenchError>
        requires { IsEnabledAt self.old (Learn clause hints lbd offered) }
        ensures ok { OnOk result (IsGrown self.old self.new (Learn clause hints lbd offered)) }
        ensures id { IfOk result (λ id. id ≡ (state_at self.old).next) }
        ensures closed { (result ≡ Err BenchError.Closed) ↔ IsClosedAt self.old }
        ensures err { OnErr result (IsUnchanged self.old self.new) }
    {
        if self.is_closed() {
            return Err(BenchError::Closed);
        }
        let learnt = if offered {
            self.learn_offered(clause, hints, lbd)?
        } else {
            self.learn_kept(clause, hints, lbd)?
        };
        Ok(learnt)
    }

    /// A learnt clause that is not on offer.
    fn learn_kept(&mut self, clause: Clause, hints: Ids, lbd: u32) -> Result<u64, OutOfMemory>
        requires still { IsOpenAt self.old }
        requires able { IsEnabledAt self.old (Learn clause hints lbd false) }
        ensures ok { OnOk result (IsGrown self.old self.new (Learn clause hints lbd false)) }
        ensures id { IfOk result (λ id. id ≡ (state_at self.old).next) }
        ensures err { OnErr result (IsUnchanged self.old self.new) }
    {
        let id = self.books.next_id()?;
        let ends = is_empty(&clause);
        let entry = Entry::Learn {
            clause,
            hints,
            lbd,
            offered: false,
        };
        let left = Ids::new(self.alloc);
        self.diary.reserve(&entry, &left)?;
        self.books.keep(0)?;
        self.books.end_if(ends);
        self.diary.push(entry, left);
        Ok(id)
    }

    /// A learnt clause on offer. It has two literals or more.
    fn learn_offered(&mut self, clause: Clause, hints: Ids, lbd: u32) -> Result<u64, OutOfMemory>
        requires still { IsOpenAt self.old }
        requires able { IsEnabledAt self.old (Learn clause hints lbd true) }
        ensures ok { OnOk result (IsGrown self.old self.new (Learn clause hints lbd true)) }
        ensures id { IfOk result (λ id. id ≡ (state_at self.old).next) }
        ensures err { OnErr result (IsUnchanged self.old self.new) }
    {
        let id = self.books.next_id()?;
        let replaced = self.books.replaced(self.capacity);
        let left = lone_of(self.alloc, &self.books.holders, replaced)?;
        let item = Item {
            id,
            lbd,
            len: clause.lits().len() as u32,
        };
        let copy = clause.copy()?;
        let entry = Entry::Learn {
            clause,
            hints,
            lbd,
            offered: true,
        };
        self.diary.reserve(&entry, &left)?;
        self.books.offer(Offer { item, clause: copy })?;
        self.diary.push(entry, left);
        Ok(id)
    }
}

/// Whether the clause has no literal.
pub(crate) fn is_empty(clause: &Clause) -> bool
    ensures { result ≡ is_empty clause.now }
{
    clause.lits().is_empty()
}
