// The searching thread takes results over.
ghost use Rattle.std.specs.Prelude.{◌≡◌, ◌↔◌, [], IfOk, OnErr};
ghost use Rattle.gr_bench.specs.Exchanges.{IsClosedAt, IsOpenAt, IsUnchanged, HasResult, state_at};
ghost use Rattle.gr_bench.specs.Answers.{IsImport};

use crate::answers::{BenchError, Imported};
use crate::benches::Bench;
use crate::lone_ids::lone_of;
use gr_diary::Entry;
use gr_logic::{Ids, OutOfMemory};

impl Bench {
    /// The searching thread takes the earliest result over. That there is none is noted, too.
    pub fn import(&mut self) -> Result<Imported, BenchError>
        ensures ok { IfOk result (λ imported. IsImport self.old self.new imported) }
        ensures closed { (result ≡ Err BenchError.Closed) ↔ IsClosedAt self.old }
        ensures err { OnErr result (IsUnchanged self.old self.new) }
    {
        if self.is_closed() {
            return Err(BenchError::Closed);
        }
        let imported = if self.books.results.is_empty() {
            self.note_drained()?
        } else {
            self.import_first()?
        };
        Ok(imported)
    }

    /// The earliest result is taken over, and the id that it stands for is let go.
    fn import_first(&mut self) -> Result<Imported, OutOfMemory>
        requires some { HasResult self.old }
        requires still { IsOpenAt self.old }
        ensures ok { IfOk result (λ imported. IsImport self.old self.new imported) }
        ensures err { OnErr result (IsUnchanged self.old self.new) }
    {
        let old = self.books.held_old();
        let left = lone_of(self.alloc, &self.books.holders, old)?;
        self.diary.reserve(&Entry::Import, &left)?;
        let first = self.books.take_over()?;
        self.books.let_go(0, old);
        self.diary.push(Entry::Import, left);
        Ok(Imported::Import {
            old: first.old,
            new: first.id,
            clause: first.clause,
        })
    }

    /// That there is no result is noted.
    fn note_drained(&mut self) -> Result<Imported, OutOfMemory>
        requires none { (state_at self.old).results ≡ [] }
        requires still { IsOpenAt self.old }
        ensures ok { IfOk result (λ imported. IsImport self.old self.new imported) }
        ensures err { OnErr result (IsUnchanged self.old self.new) }
    {
        let left = Ids::new(self.alloc);
        self.diary.reserve(&Entry::Drained, &left)?;
        self.diary.push(Entry::Drained, left);
        Ok(Imported::Drained)
    }
}
