// The strengthener.
ghost use Rattle.std.specs.Prelude.{◌≡◌, ◌<◌, None, length, IfOk, OnOk};
ghost use Rattle.std.specs.FinMap as finite;
ghost use Rattle.std.specs.FinSet as set;
ghost use Rattle.gr_logic.specs.Formulas.{VarsUpTo};
ghost use Rattle.gr_logic.specs.NormalForms.{IsNormal};
ghost use Rattle.gr_strengthen.specs.Families.{cited_family};
ghost use Rattle.gr_strengthen.specs.LettingGo.{AreLetGo};
ghost use Rattle.gr_strengthen.specs.Outcomes.{IsNextUnit, IsStrengthened};

use crate::letting_go::{compact_dead, count_free, let_go};
use crate::loading::{enter, load};
use crate::shortening::{Notes, conclude};
use crate::units::{Derived, derive, first_unsettled};
use crate::walking::walk;
use gr_bench::Taken;
use gr_logic::{Clause, Formula, Ids, OutOfMemory, Strengthened};
use gr_prop::{Base, Propagated};
use std::alloc::Global;
use std::marker::Model;

/// Greedy strengthening (after Wieringa and Heljanko, SAT 2013) over a formula and the clauses that are
/// kept beside it. A contract sees the formula, and a map from the kept clauses' ids to the sets of
/// their literals.
///
/// After `OutOfMemory` a strengthener may only be dropped: each later call answers `OutOfMemory`, too.
#[derive(Drop)]
pub struct Strengthener<'a> {
    alloc: Global,
    formula: &'a Formula,
    /// The formula's clauses but for tautologies, and the kept ones, at level zero.
    base: Base,
    notes: Notes,
    /// How many literals at the front of the trail have their unit clauses as reasons.
    settled: usize,
    /// How many words of the arena are of clauses that were let go.
    dead: usize,
    /// Whether no call wanted memory.
    whole: bool,
}

impl<'a> Model for Strengthener<'a> {
    ghost use Rattle.std.specs.Prelude.{◌≡◌, true, length};
    ghost use Rattle.gr_strengthen.specs.Families.{clauses_above};
    ghost use Rattle.gr_strengthen.specs.Strengtheners.{StrengthenerState, strengthener_code};
    ghost use Rattle.gr_strengthen.specs.Holding.{IsHolding};

    ghost Value = { StrengthenerState };

    ghost coded = { strengthener_code };

    ghost view = { λ s. record {
      formula = s.formula.now;
      kept = clauses_above (length s.formula.now.clauses) s.base.clauses;
    } };

    ghost invariant = { λ s. s.whole ≡ true → IsHolding s.formula.now s.base.clauses s.base.trail s.settled
        s.notes.reached.forced.vars s.notes.reached.decided.vars };
}

impl Strengthener<'_> {
    /// A strengthener over the formula, which keeps no clause beside it.
    pub fn new(alloc: Global, formula: &Formula) -> Result<Strengthener<'_>, OutOfMemory>
        ensures { IfOk result (λ s. s ≡ record { formula = formula.now; kept = finite.empty }) }
    {
        let base = load(alloc, formula)?;
        let notes = Notes::new(alloc, formula.vars())?;
        Ok(Strengthener {
            alloc,
            formula,
            base,
            notes,
            settled: 0,
            dead: 0,
            whole: true,
        })
    }

    /// Keeps a clause of different variables under an id of its own.
    pub fn keep(&mut self, id: u64, clause: &Clause) -> Result<(), OutOfMemory>
        requires above { length self.old.formula.clauses < id }
        requires unused { finite.get self.old.kept id ≡ None }
        requires normal { IsNormal clause.now }
        requires known { VarsUpTo self.old.formula.vars clause.now }
        ensures { OnOk result (self.new
            ≡ record self.old { kept = finite.insert self.old.kept id (set.from_list clause.now) }) }
    {
        if !self.whole {
            return Err(OutOfMemory);
        }
        self.whole = false;
        enter(&mut self.base, id, clause)?;
        self.whole = true;
        Ok(())
    }

    /// Strengthens a taken clause of different variables: its literals are assumed to be false one by one,
    /// in order, a false one is left out, and a true one or a conflict ends the walk. The shorter clause has
    /// those of the kept literals that its hints need. Nothing of the taken clause is kept.
    pub fn run(&mut self, taken: &Taken) -> Result<Strengthened, OutOfMemory>
        requires above { length self.old.formula.clauses < taken.now.id }
        requires unused { finite.get self.old.kept taken.now.id ≡ None }
        requires normal { IsNormal taken.now.clause }
        requires known { VarsUpTo self.old.formula.vars taken.now.clause }
        ensures same { OnOk result (self.new ≡ self.old) }
        ensures outcome { IfOk result (IsStrengthened (cited_family self.old.formula self.old.kept)
            self.old.formula.vars taken.now.id taken.now.clause) }
    {
        if !self.whole {
            return Err(OutOfMemory);
        }
        self.whole = false;
        let lits = taken.clause.lits();
        let stop = walk(&mut self.base, &mut self.notes.kept, lits)?;
        let outcome = conclude(
            self.alloc,
            &mut self.notes,
            &self.base,
            taken.id,
            lits,
            stop,
        )?;
        self.base.backtrack(0);
        self.whole = true;
        Ok(outcome)
    }

    /// A literal that the clauses imply by unit propagation and that is none of their unit clauses, if
    /// there is one and they are in no conflict by themselves.
    pub fn next_unit(&mut self) -> Result<Option<Derived>, OutOfMemory>
        ensures same { OnOk result (self.new ≡ self.old) }
        ensures unit { IfOk result (IsNextUnit (cited_family self.old.formula self.old.kept) self.old.formula.vars) }
    {
        if !self.whole {
            return Err(OutOfMemory);
        }
        self.whole = false;
        match self.base.propagate()? {
            Propagated::Conflict { place: _ } => {
                self.whole = true;
                return Ok(None);
            }
            Propagated::Quiet => {}
        }
        self.settled = first_unsettled(&self.base, self.settled);
        if self.settled == self.base.trail().lits().len() {
            self.whole = true;
            return Ok(None);
        }
        let unit = derive(
            self.alloc,
            &mut self.notes.reached,
            &self.base,
            self.settled,
        )?;
        self.whole = true;
        Ok(Some(unit))
    }

    /// Lets go the earliest half, rounded down, of the kept clauses that have at least two literals and
    /// are no literal's reason: their ids, ascending.
    pub fn let_go_half(&mut self) -> Result<Ids, OutOfMemory>
        ensures formula { OnOk result (self.new.formula ≡ self.old.formula) }
        ensures kept { IfOk result (AreLetGo self.old.kept self.new.kept) }
    {
        if !self.whole {
            return Err(OutOfMemory);
        }
        self.whole = false;
        let last = self.formula.clauses().len() as u64;
        let ids = self.base.ids()?;
        let half = count_free(&self.base, last, ids.all()) / 2;
        let gone = let_go(
            self.alloc,
            &mut self.base,
            &mut self.dead,
            last,
            ids.all(),
            half,
        )?;
        compact_dead(&mut self.base, &mut self.dead)?;
        self.whole = true;
        Ok(gone)
    }
}
