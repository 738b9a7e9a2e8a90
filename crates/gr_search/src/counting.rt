// What a search counts.
ghost use Rattle.std.specs.Prelude.{◌≡◌, ◌≤◌, ◌<◌, ◌+◌, ◌*◌, ◌↔◌, IfOk, IsTrue};
ghost use Rattle.gr_diary.specs.Tallies.{no_tally, with_learn, with_drain, with_forget};
ghost use Rattle.gr_search.specs.Counting.{CountState};

use gr_heur::Restart;
use gr_logic::OutOfMemory;
use std::alloc::Global;
use std::marker::Model;

/// How many clauses must be learnt before the first time that clauses are forgotten, and how many more before each
/// later time.
const GAP: u64 = 2_000;

/// What a search counts, against how many clauses it may learn. Only `new` takes memory.
#[derive(Drop)]
pub(crate) struct Counts {
    limit: u64,
    learns: u64,
    forgets: u64,
    learns_since: u64,
    restart: Restart,
    waits: bool,
}

impl Model for Counts {
    ghost use Rattle.gr_search.specs.Counting.{CountState, count_code, IsCounted};

    ghost Value = { CountState };

    ghost coded = { count_code };

    ghost view = { λ counts. record {
      limit = counts.limit;
      tally = record {
        learns = counts.learns;
        forgets = counts.forgets;
        learns_since = counts.learns_since;
        restart = counts.restart;
        waits = counts.waits;
      };
    } };

    ghost invariant = { λ counts.
        IsCounted counts.limit counts.learns counts.forgets counts.learns_since counts.restart };
}

impl Counts {
    /// Nothing was learnt, and so many clauses may be.
    pub(crate) fn new(alloc: Global, limit: u64) -> Result<Counts, OutOfMemory>
        requires { limit ≤ 4_000_000 }
        ensures { IfOk result (λ counts. counts ≡ record { limit = limit; tally = no_tally }) }
    {
        Ok(Counts {
            limit,
            learns: 0,
            forgets: 0,
            learns_since: 0,
            restart: Restart::new(alloc)?,
            waits: false,
        })
    }

    /// A clause of this LBD was learnt. Where a restart is due its window is emptied, and the restart waits.
    pub(crate) fn learn(&mut self, lbd: u32)
        requires few { self.old.tally.learns < self.old.limit }
        requires small { lbd ≤ 1_000_000 }
        ensures { self.new ≡ record self.old { tally = with_learn self.old.tally lbd } }
    {
        self.learns += 1;
        self.learns_since += 1;
        self.restart.push(lbd);
        self.waits = self.restart.due();
        if self.waits {
            self.restart.clear();
        }
    }

    /// No result is left to be taken over.
    pub(crate) fn drain(&mut self)
        ensures { self.new ≡ record self.old { tally = with_drain self.old.tally } }
    {
        self.waits = false;
    }

    /// Clauses were forgotten.
    pub(crate) fn forget(&mut self)
        requires { 0 < self.old.tally.learns_since }
        ensures { self.new ≡ record self.old { tally = with_forget self.old.tally } }
    {
        self.forgets += 1;
        self.learns_since = 0;
    }

    /// How many clauses were learnt.
    pub(crate) fn learns(&self) -> u64
        ensures learns { result ≡ self.now.tally.learns }
        ensures few { result ≤ 4_000_000 }
    {
        self.learns
    }

    /// Whether no more clauses may be learnt.
    pub(crate) fn is_spent(&self) -> bool
        ensures { IsTrue result ↔ (self.now.tally.learns ≡ self.now.limit) }
    {
        self.learns == self.limit
    }

    /// Whether a restart waits until no result is left.
    pub(crate) fn waits(&self) -> bool
        ensures { result ≡ self.now.tally.waits }
    {
        self.waits
    }

    /// Whether enough clauses were learnt since clauses were forgotten last.
    pub(crate) fn may_forget(&self) -> bool
        ensures { IsTrue result ↔ (2_000 * (self.now.tally.forgets + 1) ≤ self.now.tally.learns_since) }
    {
        GAP * (self.forgets + 1) <= self.learns_since
    }
}
