// Deciding and propagating, up to a conflict and its learnt clause or to a satisfying assignment.
ghost use Rattle.std.specs.Prelude.{◌≡◌, ◌≤◌, ◌<◌, false, true, length, Some, IfOk, OnOk};
ghost use Rattle.gr_search.specs.Deciding.{HasAllValues};
ghost use Rattle.gr_search.specs.Keeping.{MakesTrue};
ghost use Rattle.gr_search.specs.Solvers.{IsSteady, IsWaiting};
ghost use Rattle.gr_search.specs.SolverTurns.{HasSearched};

use crate::asks::{Ask, Found};
use crate::solving::{Request, Solver};
use gr_logic::{Assignment, Clause, Lit, OutOfMemory, Place};
use gr_prop::Propagated;
use gr_trail::Trail;
use std::alloc::Global;

impl Solver {
    /// Decides and propagates, up to a conflict or a satisfying assignment.
    pub(crate) fn descend(&mut self) -> Result<Ask, OutOfMemory>
        requires steady { IsSteady self.old }
        requires more { self.old.counts.tally.learns < self.old.counts.limit }
        requires waits { self.old.counts.tally.waits ≡ false }
        ensures waiting { OnOk result (IsWaiting self.new) }
        ensures searched { IfOk result (λ ask. HasSearched self.old ask self.new) }
    {
        loop {
            if let Propagated::Conflict { place } = self.base.propagate()? {
                return self.learn(place);
            }
            if !self.decide() {
                return self.end_with_model();
            }
        }
    }

    /// Decides a variable. `false` where each one has a value.
    fn decide(&mut self) -> bool
        requires steady { IsSteady self.old }
        requires quiet { self.old.base.quiet ≡ true }
        ensures steady { IsSteady self.new }
        ensures clauses { self.new.base.clauses ≡ self.old.base.clauses }
        ensures same { self.new ≡ record self.old { base = self.new.base; chooser = self.new.chooser } }
        ensures longer { result ≡ true
            → length self.old.base.trail.assigned < length self.new.base.trail.assigned }
        ensures room { length self.new.base.trail.assigned ≤ self.old.vars }
        ensures stays { result ≡ false → self.new.base ≡ self.old.base }
        ensures all { result ≡ false → HasAllValues self.old.vars self.old.base.trail.assigned }
    {
        match self.chooser.next(self.base.trail()) {
            Some(lit) => {
                self.base.decide(lit);
                // That no more literals are there than variables is what this call promises.
                let _trail = self.base.trail();
                true
            }
            None => false,
        }
    }

    /// Ends with the assignment of the trail, where each variable has a value.
    fn end_with_model(&mut self) -> Result<Ask, OutOfMemory>
        requires steady { IsSteady self.old }
        requires quiet { self.old.base.quiet ≡ true }
        requires all { HasAllValues self.old.vars self.old.base.trail.assigned }
        ensures waiting { OnOk result (IsWaiting self.new) }
        ensures searched { IfOk result (λ ask. HasSearched self.old ask self.new) }
    {
        let model = model_of(self.alloc, self.vars, self.base.trail())?;
        Ok(self.end(Found::Model(model)))
    }

    /// Analyses a conflict, goes back to where its clause forces a literal, and asks to learn it.
    pub(crate) fn learn(&mut self, place: Place) -> Result<Ask, OutOfMemory>
        requires steady { IsSteady self.old }
        requires conflict { self.old.base.conflict ≡ Some place }
        requires more { self.old.counts.tally.learns < self.old.counts.limit }
        requires waits { self.old.counts.tally.waits ≡ false }
        ensures waiting { OnOk result (IsWaiting self.new) }
        ensures searched { IfOk result (λ ask. HasSearched self.old ask self.new) }
    {
        // That each variable stands once on the trail is what this call promises.
        let _trail = self.base.trail();
        let learnt = self.analyzer.first_uip(&self.base, place)?;
        self.chooser.bump(
            &self.base,
            self.analyzer.touched(),
            learnt.clause.lits(),
            self.counts.learns() + 1,
        )?;
        self.go_back(learnt.back_to);
        copy_into(&mut self.learnt, learnt.clause.lits())?;
        self.request = Request::Learning { lbd: learnt.lbd };
        Ok(Ask::Learn {
            clause: learnt.clause,
            hints: learnt.hints,
            lbd: learnt.lbd,
            offered: false,
        })
    }
}

/// Makes the clause one of these literals, in its own room.
fn copy_into(clause: &mut Clause, lits: &[Lit]) -> Result<(), OutOfMemory>
    ensures { OnOk result (clause.new ≡ lits.now) }
{
    clause.clear();
    for lit in lits {
        clause.push(*lit)?;
    }
    Ok(())
}

/// The assignment that makes the trail's literals true.
fn model_of(alloc: Global, vars: u32, trail: &Trail) -> Result<Assignment, OutOfMemory>
    requires vars { vars ≡ trail.now.vars }
    requires few { vars ≤ 1_000_000 }
    ensures length { IfOk result (λ model. length model ≡ vars) }
    ensures true_ { IfOk result (λ model. MakesTrue model trail.now.assigned) }
{
    let mut model = Assignment::new(alloc, vars)?;
    for lit in trail.lits() {
        model.set(lit.var(), lit.is_positive());
    }
    Ok(model)
}
