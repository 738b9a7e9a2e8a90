// What a search takes over once it is told.
ghost use Rattle.std.specs.Prelude.{◌≡◌, ◌≢◌, [], ◌∷◌, false, true, All, IfOk, IfSome, IfNone, OnOk};
ghost use Rattle.gr_prop.specs.Bases.{LacksId};
ghost use Rattle.gr_import.specs.Imports.{IsNoReason};
ghost use Rattle.gr_search.specs.Solvers.{IsSteady, IsWaiting, MayBeTold, AsksForClause, AsksToForget, IsReadyToLearn};
ghost use Rattle.gr_search.specs.TakingOver.{Stays, ended_by, ended_by_id, HasTakenOver, AreLeft, IsWith};

use crate::asks::{Found, Told};
use crate::solving::{Request, Solver};
use gr_import::import;
use gr_logic::OutOfMemory;
use gr_prop::Base;

impl Solver {
    /// Takes over what is told: how the search ends, where it does.
    pub(crate) fn take_over(&mut self, told: Told) -> Result<Option<Found>, OutOfMemory>
        requires waiting { IsWaiting self.old }
        requires told { MayBeTold self.old told }
        ensures ends { IfOk result (λ found. found ≡ ended_by self.old told) }
        ensures steady { OnOk result (IsSteady self.new) }
        ensures stays { OnOk result (Stays self.old self.new) }
        ensures some { IfOk result (λ found. IfSome found (λ _. self.new.base.clauses ≡ self.old.base.clauses)) }
        ensures none { IfOk result (λ found. IfNone found (HasTakenOver self.old told self.new)) }
    {
        match told {
            Told::Start => Ok(None),
            Told::Closed => Ok(Some(Found::Refuted)),
            Told::Id(id) => self.take_id(id),
            Told::Imported { old, new, clause } => {
                import(&mut self.base, old, new, &clause)?;
                Ok(None)
            }
            Told::Drained => {
                self.counts.drain();
                Ok(None)
            }
            Told::Forgotten => {
                self.forget()?;
                Ok(None)
            }
        }
    }

    /// Takes over the clause that was asked for, under its id.
    fn take_id(&mut self, id: u64) -> Result<Option<Found>, OutOfMemory>
        requires waiting { IsWaiting self.old }
        requires asked { AsksForClause self.old.request }
        requires unused { LacksId self.old.base.clauses id }
        ensures ends { IfOk result (λ found. found ≡ ended_by_id self.old self.old.request) }
        ensures steady { OnOk result (IsSteady self.new) }
        ensures stays { OnOk result (Stays self.old self.new) }
        ensures some { IfOk result (λ found. IfSome found (λ _. self.new.base.clauses ≡ self.old.base.clauses)) }
        ensures none { IfOk result (λ found. IfNone found (HasTakenOver self.old (Told.Id id) self.new)) }
    {
        match &self.request {
            Request::Learning { lbd } => {
                let lbd = *lbd;
                self.take_learnt(id, lbd)
            }
            Request::Deriving { lit } => {
                let lit = *lit;
                // That each variable stands once on the trail is what this call promises.
                let _trail = self.base.trail();
                self.base.settle(lit, id)?;
                self.settled += 1;
                Ok(None)
            }
            _ => Ok(None),
        }
    }

    /// Takes over the learnt clause. Where a restart is due, this begins it.
    fn take_learnt(&mut self, id: u64, lbd: u32) -> Result<Option<Found>, OutOfMemory>
        requires waiting { IsWaiting self.old }
        requires asked { self.old.request ≡ Request.Learning lbd }
        requires unused { LacksId self.old.base.clauses id }
        ensures ends { IfOk result (λ found. found ≡ ended_by_id self.old self.old.request) }
        ensures steady { OnOk result (IsSteady self.new) }
        ensures stays { OnOk result (Stays self.old self.new) }
        ensures some { IfOk result (λ found. IfSome found (λ _. self.new.base.clauses ≡ self.old.base.clauses)) }
        ensures none { IfOk result (λ found. IfNone found (HasTakenOver self.old (Told.Id id) self.new)) }
    {
        if self.learnt.lits().is_empty() {
            return Ok(Some(Found::Refuted));
        }
        self.counts.learn(lbd);
        if self.counts.is_spent() {
            return Ok(Some(Found::Spent));
        }
        self.add_learnt(id, lbd)?;
        Ok(None)
    }

    /// Adds the learnt clause, at level zero where a restart waits.
    fn add_learnt(&mut self, id: u64, lbd: u32) -> Result<(), OutOfMemory>
        requires steady { IsSteady self.old }
        requires ready { IsReadyToLearn self.old lbd }
        requires some { self.old.learnt ≢ [] }
        requires unused { LacksId self.old.base.clauses id }
        ensures steady { OnOk result (IsSteady self.new) }
        ensures clauses { OnOk result (IsWith self.old.base.clauses self.new.base.clauses id lbd self.old.learnt) }
        ensures same { OnOk result (self.new
            ≡ record self.old { base = self.new.base; chooser = self.new.chooser }) }
        ensures ground { OnOk result (self.old.counts.tally.waits ≡ true → self.new.base.trail.depth ≡ 0) }
    {
        self.restart();
        self.base.add(id, lbd, &self.learnt)?;
        Ok(())
    }

    /// Goes back to level zero where a restart waits.
    fn restart(&mut self)
        requires steady { IsSteady self.old }
        ensures steady { IsSteady self.new }
        ensures clauses { self.new.base.clauses ≡ self.old.base.clauses }
        ensures same { self.new ≡ record self.old { base = self.new.base; chooser = self.new.chooser } }
        ensures ground { self.old.counts.tally.waits ≡ true → self.new.base.trail.depth ≡ 0 }
        ensures stays { self.old.counts.tally.waits ≡ false → self.new.base ≡ self.old.base }
    {
        if self.counts.waits() {
            self.go_back(0);
        }
    }

    /// Removes the clauses that were let go.
    fn forget(&mut self) -> Result<(), OutOfMemory>
        requires waiting { IsWaiting self.old }
        requires asked { AsksToForget self.old.request }
        ensures steady { OnOk result (IsSteady self.new) }
        ensures over { OnOk result (HasTakenOver self.old Told.Forgotten self.new) }
    {
        self.counts.forget();
        match &self.request {
            Request::Forgetting { ids } => {
                // That no two clauses have one id is what this call promises.
                let _trail = self.base.trail();
                remove_all(&mut self.base, ids);
                self.base.compact()?;
                Ok(())
            }
            _ => Ok(()),
        }
    }
}

/// Removes the clauses with these ids.
fn remove_all(base: &mut Base, ids: &[u64])
    requires unneeded { All (IsNoReason base.old) ids.now }
    ensures clauses { AreLeft base.old.clauses base.new.clauses ids.now }
    ensures trail { base.new.trail ≡ base.old.trail }
{
    for id in ids {
        remove(base, *id);
    }
}

/// Removes the clause with this id.
fn remove(base: &mut Base, id: u64)
    requires unneeded { IsNoReason base.old id }
    ensures clauses { AreLeft base.old.clauses base.new.clauses (id ∷ []) }
    ensures trail { base.new.trail ≡ base.old.trail }
{
    let _trail = base.trail();
    if let Some(place) = base.find(id) {
        base.remove(place);
    }
}
