// What a search asks at level zero, before anything is decided.
ghost use Rattle.std.specs.Prelude.{◌≡◌, ◌<◌, false, length, IfOk, IfSome, IfNone, OnOk};
ghost use Rattle.gr_search.specs.Settling.{AreSettled};
ghost use Rattle.gr_search.specs.Solvers.{IsSteady, IsGrounded, IsWaiting, IsUnsettled};
ghost use Rattle.gr_search.specs.SolverTurns.{HasSearched, HasPrepared};

use crate::asks::Ask;
use crate::settling::{first_unsettled, hints_of};
use crate::solving::{Request, Solver};
use gr_import::weakest;
use gr_logic::{Lit, OutOfMemory};
use gr_prop::Propagated;

impl Solver {
    /// What is to be asked at level zero, before anything is decided.
    pub(crate) fn ask_on_ground(&mut self) -> Result<Option<Ask>, OutOfMemory>
        requires steady { IsSteady self.old }
        requires ground { self.old.base.trail.depth ≡ 0 }
        requires more { self.old.counts.tally.learns < self.old.counts.limit }
        ensures some { IfOk result (λ ask. IfSome ask (λ ask. HasSearched self.old ask self.new)) }
        ensures waiting { IfOk result (λ ask. IfSome ask (λ _. IsWaiting self.new)) }
        ensures none { IfOk result (λ ask. IfNone ask (HasPrepared self.old self.new)) }
    {
        if let Propagated::Conflict { place } = self.base.propagate()? {
            // A clause is learnt only once no result is left.
            if !self.counts.waits() {
                return Ok(Some(self.learn(place)?));
            }
        }
        self.ask_propagated()
    }

    /// What is to be asked at level zero, once what follows there was looked for.
    fn ask_propagated(&mut self) -> Result<Option<Ask>, OutOfMemory>
        requires steady { IsSteady self.old }
        requires ground { self.old.base.trail.depth ≡ 0 }
        requires more { self.old.counts.tally.learns < self.old.counts.limit }
        ensures some { IfOk result (λ ask. IfSome ask (λ ask. HasSearched self.old ask self.new)) }
        ensures waiting { IfOk result (λ ask. IfSome ask (λ _. IsWaiting self.new)) }
        ensures none { IfOk result (λ ask. IfNone ask (HasPrepared self.old self.new)) }
    {
        match first_unsettled(&self.base, self.settled) {
            Some((position, lit)) => {
                self.settled = position;
                Ok(Some(self.derive(lit)?))
            }
            None => self.ask_settled(),
        }
    }

    /// What is to be asked at level zero, once each literal there has its unit clause.
    fn ask_settled(&mut self) -> Result<Option<Ask>, OutOfMemory>
        requires steady { IsSteady self.old }
        requires ground { self.old.base.trail.depth ≡ 0 }
        requires more { self.old.counts.tally.learns < self.old.counts.limit }
        requires all { AreSettled self.old.base.clauses self.old.base.trail.assigned
            (length self.old.base.trail.assigned) }
        ensures some { IfOk result (λ ask. IfSome ask (λ ask. HasSearched self.old ask self.new)) }
        ensures waiting { IfOk result (λ ask. IfSome ask (λ _. IsWaiting self.new)) }
        ensures none { IfOk result (λ ask. IfNone ask (HasPrepared self.old self.new)) }
    {
        self.settled = self.base.trail().lits().len();
        if self.counts.waits() {
            self.request = Request::Importing;
            return Ok(Some(Ask::Import));
        }
        self.ask_to_forget()
    }

    /// Asks to forget the weakest clauses, where it is time and there are any.
    fn ask_to_forget(&mut self) -> Result<Option<Ask>, OutOfMemory>
        requires steady { IsSteady self.old }
        requires grounded { IsGrounded self.old }
        requires more { self.old.counts.tally.learns < self.old.counts.limit }
        requires waits { self.old.counts.tally.waits ≡ false }
        ensures some { IfOk result (λ ask. IfSome ask (λ ask. HasSearched self.old ask self.new)) }
        ensures waiting { IfOk result (λ ask. IfSome ask (λ _. IsWaiting self.new)) }
        ensures none { IfOk result (λ ask. IfNone ask (self.new ≡ self.old)) }
    {
        if self.keep_all || !self.counts.may_forget() {
            return Ok(None);
        }
        let ids = weakest(self.alloc, &self.base, self.first_learnt)?;
        if ids.all().is_empty() {
            return Ok(None);
        }
        self.request = Request::Forgetting {
            ids: Vec::from_slice(self.alloc, ids.all())?,
        };
        Ok(Some(Ask::Forget { ids }))
    }

    /// Asks for the unit clause of a literal of level zero.
    fn derive(&mut self, lit: Lit) -> Result<Ask, OutOfMemory>
        requires steady { IsSteady self.old }
        requires first { IsUnsettled self.old lit }
        requires more { self.old.counts.tally.learns < self.old.counts.limit }
        ensures waiting { OnOk result (IsWaiting self.new) }
        ensures searched { IfOk result (λ ask. HasSearched self.old ask self.new) }
    {
        let hints = hints_of(self.alloc, &self.base, self.settled, lit)?;
        self.request = Request::Deriving { lit };
        Ok(Ask::Unit { lit, hints })
    }
}
