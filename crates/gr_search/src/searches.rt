// The search.
ghost use Rattle.std.specs.Prelude.{◌≡◌, ◌≤◌, IfOk, OnOk};
ghost use Rattle.gr_search.specs.Filters.{OffersLow};
ghost use Rattle.gr_search.specs.Offers.{HasShortClause};
ghost use Rattle.gr_search.specs.Searches.{IsBegun};
ghost use Rattle.gr_search.specs.Tellings.{Answers};
ghost use Rattle.gr_search.specs.Turns.{IsTurn, IsOfferedBy};

use crate::asks::{Ask, Told};
use crate::filters::OfferFilter;
use crate::solving::{Request, Solver};
use gr_logic::{Formula, OutOfMemory};
use std::alloc::Global;
use std::marker::Model;

/// What a search knows.
#[derive(Drop)]
pub struct SearchState<'a> {
    formula: &'a Formula,
    solver: Solver,
}

impl<'a> Model for SearchState<'a> {
    ghost use Rattle.gr_search.specs.Searches.{SearchView};
    ghost use Rattle.gr_search.specs.SearchCodes.{search_code};
    ghost use Rattle.gr_search.specs.SolverViews.{view_of, IsSearchingUnlessDone};

    ghost Value = { SearchView };

    ghost coded = { search_code };

    ghost view = { λ s. view_of s.formula.now s.solver };

    ghost invariant = { λ s. IsSearchingUnlessDone s.formula.now s.solver };
}

impl SearchState<'_> {
    /// What a search knows at first.
    fn new(
        alloc: Global,
        formula: &Formula,
        conflicts: u64,
        keep_all: bool,
    ) -> Result<SearchState, OutOfMemory>
        requires low { 1 ≤ conflicts }
        requires high { conflicts ≤ 4_000_000 }
        ensures { IfOk result (λ state. IsBegun formula.now conflicts keep_all state) }
    {
        let solver = Solver::new(alloc, formula, conflicts, keep_all)?;
        Ok(SearchState { formula, solver })
    }

    /// Takes over what is told, and asks. A clause that is to be learnt is not offered. After an error nothing more is
    /// asked.
    fn turn(&mut self, told: Told) -> Result<Ask, OutOfMemory>
        requires answers { Answers self.old told }
        ensures turn { IfOk result (λ ask. IsTurn self.old told ask self.new) }
        ensures short { IfOk result (λ ask. HasShortClause ask) }
    {
        // What is known of the formula, and of the clauses before the turn and after it, is what these calls promise.
        let _clauses = self.formula.clauses();
        let _before = self.solver.base.trail();
        match self.solver.turn(told) {
            Ok(ask) => {
                let _after = self.solver.base.trail();
                Ok(ask)
            }
            Err(error) => {
                self.solver.request = Request::Done;
                Err(error)
            }
        }
    }
}

/// A search over a formula: it is told what came of its last ask, and asks again.
#[derive(Drop)]
pub struct Search<'a, F> {
    pub filter: OfferFilter<F>,
    pub state: SearchState<'a>,
}

impl<F: Fn(u32, u32) -> bool + Drop> Search<'_, F> {
    /// A search that may learn so many clauses, and forgets none where it is to keep all.
    pub fn new(
        alloc: Global,
        formula: &Formula,
        conflicts: u64,
        keep_all: bool,
        filter: OfferFilter<F>,
    ) -> Result<Search<F>, OutOfMemory>
        requires low { 1 ≤ conflicts }
        requires high { conflicts ≤ 4_000_000 }
        ensures filter { IfOk result (λ search. search.filter ≡ filter) }
        ensures begun { IfOk result (λ search. IsBegun formula.now conflicts keep_all search.state) }
    {
        let state = SearchState::new(alloc, formula, conflicts, keep_all)?;
        Ok(Search { filter, state })
    }

    /// Takes over what is told, and asks.
    pub fn turn(&mut self, told: Told) -> Result<Ask, OutOfMemory>
        requires callable { F.IsAlwaysCallable self.old.filter.f }
        requires low { OffersLow (F.post self.old.filter.f) }
        requires answers { Answers self.old.state told }
        ensures filter { self.new.filter ≡ self.old.filter }
        ensures turn { IfOk result (λ ask. IsTurn self.old.state told ask self.new.state) }
        ensures offered { IfOk result (λ ask. IsOfferedBy (F.post self.old.filter.f) ask) }
    {
        let ask = self.state.turn(told)?;
        Ok(self.filter.offer(ask))
    }
}
