// Unit clauses come in. Those of a reducer are results for the searching thread.
ghost use Rattle.std.specs.Prelude.{◌≡◌, ◌<◌, ◌↔◌, IfOk, OnOk, OnErr};
ghost use Rattle.gr_diary.specs.declared.entries.Entry.TheVariants as entry;
ghost use Rattle.gr_bench.specs.Exchanges.{IsEnabledAt, IsClosedAt, IsOpenAt, IsGrown, IsUnchanged, state_at};

use crate::answers::BenchError;
use crate::benches::Bench;
use crate::offers::Pending;
use gr_diary::Entry;
use gr_logic::{Clause, Ids, Lit, OutOfMemory};

impl Bench {
    /// An actor's unit clause comes in. Answers its id.
    pub fn unit(&mut self, actor: u32, lit: Lit, hints: Ids) -> Result<u64, BenchError>
        requires { IsEnabledAt self.old (entry.Unit actor lit hints) }
        ensures ok { OnOk result (IsGrown self.old self.new (entry.Unit actor lit hints)) }
        ensures id { IfOk result (λ id. id ≡ (state_at self.old).next) }
        ensures closed { (result ≡ Err BenchError.Closed) ↔ IsClosedAt self.old }
        ensures err { OnErr result (IsUnchanged self.old self.new) }
    {
        if self.is_closed() {
            return Err(BenchError::Closed);
        }
        let added = if actor == 0 {
            self.keep_unit(lit, hints)?
        } else {
            self.share_unit(actor, lit, hints)?
        };
        Ok(added)
    }

    /// A unit clause of the searching thread.
    fn keep_unit(&mut self, lit: Lit, hints: Ids) -> Result<u64, OutOfMemory>
        requires still { IsOpenAt self.old }
        requires able { IsEnabledAt self.old (entry.Unit 0 lit hints) }
        ensures ok { OnOk result (IsGrown self.old self.new (entry.Unit 0 lit hints)) }
        ensures id { IfOk result (λ id. id ≡ (state_at self.old).next) }
        ensures err { OnErr result (IsUnchanged self.old self.new) }
    {
        let id = self.books.next_id()?;
        let entry = Entry::Unit {
            actor: 0,
            lit,
            hints,
        };
        let left = Ids::new(self.alloc);
        self.diary.reserve(&entry, &left)?;
        self.books.keep(0)?;
        self.diary.push(entry, left);
        Ok(id)
    }

    /// A unit clause of a reducer, which is a result.
    fn share_unit(&mut self, actor: u32, lit: Lit, hints: Ids) -> Result<u64, OutOfMemory>
        requires reducer { 0 < actor }
        requires still { IsOpenAt self.old }
        requires able { IsEnabledAt self.old (entry.Unit actor lit hints) }
        ensures ok { OnOk result (IsGrown self.old self.new (entry.Unit actor lit hints)) }
        ensures id { IfOk result (λ id. id ≡ (state_at self.old).next) }
        ensures err { OnErr result (IsUnchanged self.old self.new) }
    {
        let id = self.books.next_id()?;
        let clause = Clause::from_lits(self.alloc, &[lit])?;
        let entry = Entry::Unit { actor, lit, hints };
        let left = Ids::new(self.alloc);
        self.diary.reserve(&entry, &left)?;
        self.books.share(
            actor,
            Pending {
                old: None,
                id,
                clause,
            },
        )?;
        self.diary.push(entry, left);
        Ok(id)
    }
}
