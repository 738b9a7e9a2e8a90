// The exchange: what it has, how it begins, and how it ends.
ghost use Rattle.std.specs.Prelude.{◌≡◌, ◌≤◌, ◌<◌, ◌^◌, ◌↔◌, [], true, false, length, IfOk, IsTrue};
ghost use Rattle.gr_diary.specs.declared.entries.Entry.TheVariants.{Close};
ghost use Rattle.gr_bench.specs.Exchanges.{IsClosedAt, IsOpenAt, IsGrown, IsUnchanged, IsLogged, Tells};

use crate::answers::Closing;
use crate::books::Books;
use crate::formula_views::FormulaView;
use gr_diary::Diary;
use gr_logic::{Formula, OutOfMemory};
use std::alloc::Global;
use std::marker::Model;

/// The clause exchange of a searching thread, actor 0, and up to eight reducers, actors 1 to 8. A contract sees the
/// formula, the number of reducers, how many clauses may be on offer at once, and the history. No call changes the
/// first three, and each call that succeeds makes just one entry.
#[derive(Drop)]
pub struct Bench {
    pub(crate) alloc: Global,
    /// What a contract sees of the formula. It takes no memory, since no call reads it.
    pub(crate) formula: FormulaView,
    pub(crate) reducers: u32,
    pub(crate) capacity: usize,
    pub(crate) books: Books,
    pub(crate) diary: Diary,
}

impl Model for Bench {
    ghost use Rattle.gr_bench.specs.Exchanges.{Exchange};
    ghost use Rattle.gr_bench.specs.Kept.{IsInStep};
    ghost use Rattle.gr_bench.specs.Tables.{table_of};

    ghost Value = { Exchange };

    ghost view = { λ b. record {
      formula = b.formula;
      reducers = b.reducers;
      capacity = b.capacity;
      diary = b.diary;
    } };

    ghost invariant = { λ b. IsInStep b.formula b.reducers b.capacity b.diary (table_of b.books) };
}

impl Bench {
    /// An exchange over the formula, with no entries. The capacity is how many clauses may be on offer at once.
    pub fn open(
        alloc: Global,
        formula: &Formula,
        reducers: u32,
        capacity: usize,
    ) -> Result<Bench, OutOfMemory>
        requires reducers { reducers ≤ 8 }
        requires low { 1 ≤ capacity }
        requires high { capacity ≤ 100_000 }
        ensures formula { IfOk result (λ bench. bench.formula ≡ formula.now) }
        ensures reducers { IfOk result (λ bench. bench.reducers ≡ reducers) }
        ensures capacity { IfOk result (λ bench. bench.capacity ≡ capacity) }
        ensures entries { IfOk result (λ bench. bench.diary.entries ≡ []) }
    {
        // The number of variables says that they are few.
        let _vars = formula.vars();
        let first_id = formula.clauses().len() as u64 + 1;
        let books = Books::new(alloc, first_id, capacity)?;
        let diary = Diary::new(alloc, first_id)?;
        Ok(Bench {
            alloc,
            formula: FormulaView::of(formula),
            reducers,
            capacity,
            books,
            diary,
        })
    }

    /// The number of reducers. Takes no memory.
    pub fn reducers(&self) -> u32
        ensures reducers { result ≡ self.now.reducers }
        ensures few { result ≤ 8 }
    {
        self.reducers
    }

    /// The history so far: it is legal, and where the empty clause was added, it refutes the formula. Takes no memory.
    pub fn diary(&self) -> &Diary
        ensures diary { result.now ≡ self.now.diary }
        ensures tells { Tells self.now.formula self.now.reducers self.now.capacity self.now.diary }
        ensures logged { IsLogged self.now }
        ensures few { length self.now.diary.entries < 2 ^ 62 }
    {
        // The number of entries says that there are few.
        let _len = self.diary.len();
        &self.diary
    }

    /// The history, with the same facts. Takes no memory.
    pub fn into_diary(self) -> Diary
        ensures diary { result ≡ self.diary }
        ensures tells { Tells self.formula self.reducers self.capacity self.diary }
        ensures logged { IsLogged self }
        ensures few { length self.diary.entries < 2 ^ 62 }
    {
        // The number of entries says that there are few.
        let _len = self.diary.len();
        self.diary
    }

    /// The searching thread ends the history. The room for this entry is kept from the opening on, so it takes no
    /// memory.
    pub fn close(&mut self) -> Closing
        ensures done { result ≡ Closing.Done → IsGrown self.old self.new Close }
        ensures already { result ≡ Closing.Already → IsUnchanged self.old self.new }
        ensures closed { (result ≡ Closing.Already) ↔ IsClosedAt self.old }
        ensures ended { IsClosedAt self.new }
    {
        if self.is_closed() {
            return Closing::Already;
        }
        self.diary.push_close();
        self.books.end_if(true);
        Closing::Done
    }

    /// Whether nothing may follow.
    pub(crate) fn is_closed(&self) -> bool
        ensures told { IsTrue result ↔ IsClosedAt self.now }
        ensures still { result ≡ false → IsOpenAt self.now }
    {
        self.books.closed
    }
}
