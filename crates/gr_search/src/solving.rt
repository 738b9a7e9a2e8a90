// The search over one clause database: conflict-driven clause learning, from ask to ask.
ghost use Rattle.std.specs.Prelude.{◌≡◌, ◌≤◌, ◌<◌, false, true, length, None, IfOk, OnOk};
ghost use Rattle.gr_prop.specs.BaseChanges.{back_to};
ghost use Rattle.gr_search.specs.HeldClauses.{Knows, HasOwnIds};
ghost use Rattle.gr_search.specs.Solvers.{IsSteady, IsWaiting, MayBeTold};
ghost use Rattle.gr_search.specs.TakingOver.{ended_by};
ghost use Rattle.gr_search.specs.SolverTurns.{HasSearched, HasTurned};
ghost use Rattle.gr_search.specs.SolverViews.{IsBegunWith};

use crate::asks::{Ask, Found, Told};
use crate::choosing::Chooser;
use crate::counting::Counts;
use gr_analyze::Analyzer;
use gr_logic::{Clause, Formula, Lit, Normal, OutOfMemory, normal};
use gr_prop::Base;
use std::alloc::Global;

/// What was asked for and not told yet.
#[derive(Debug, Drop)]
pub(crate) enum Request {
    Nothing,
    /// To learn the clause that is kept beside.
    Learning { lbd: u32 },
    /// To add the unit clause of a literal.
    Deriving { lit: Lit },
    Importing,
    /// To let these ids go.
    Forgetting { ids: Vec<u64> },
    /// Nothing more.
    Done,
}

/// A search over one clause database.
#[derive(Drop)]
pub(crate) struct Solver {
    pub(crate) alloc: Global,
    pub(crate) vars: u32,
    /// The first id that is none of the formula's.
    pub(crate) first_learnt: u64,
    pub(crate) keep_all: bool,
    pub(crate) base: Base,
    pub(crate) analyzer: Analyzer,
    pub(crate) chooser: Chooser,
    pub(crate) counts: Counts,
    /// So many literals of the trail have unit clauses of their own as their reasons.
    pub(crate) settled: usize,
    pub(crate) request: Request,
    /// The clause that is to be learnt.
    pub(crate) learnt: Clause,
}

impl Solver {
    /// A search that begins.
    pub(crate) fn new(
        alloc: Global,
        formula: &Formula,
        limit: u64,
        keep_all: bool,
    ) -> Result<Solver, OutOfMemory>
        requires low { 1 ≤ limit }
        requires high { limit ≤ 4_000_000 }
        ensures { IfOk result (λ solver. IsBegunWith formula.now limit keep_all solver) }
    {
        let vars = formula.vars();
        Ok(Solver {
            alloc,
            vars,
            first_learnt: formula.clauses().len() as u64 + 1,
            keep_all,
            base: base_of(alloc, formula)?,
            analyzer: Analyzer::new(alloc, vars)?,
            chooser: Chooser::new(alloc, formula)?,
            counts: Counts::new(alloc, limit)?,
            settled: 0,
            request: Request::Nothing,
            learnt: Clause::new(alloc),
        })
    }

    /// Takes over what is told, and asks. A clause that is to be learnt is not offered.
    pub(crate) fn turn(&mut self, told: Told) -> Result<Ask, OutOfMemory>
        requires waiting { IsWaiting self.old }
        requires told { MayBeTold self.old told }
        ensures waiting { OnOk result (IsWaiting self.new) }
        ensures turned { IfOk result (λ ask. HasTurned self.old told (ended_by self.old told) ask self.new) }
    {
        match self.take_over(told)? {
            Some(found) => Ok(self.end(found)),
            None => self.search(),
        }
    }

    /// Searches up to the next ask.
    fn search(&mut self) -> Result<Ask, OutOfMemory>
        requires steady { IsSteady self.old }
        requires more { self.old.counts.tally.learns < self.old.counts.limit }
        requires waits { self.old.counts.tally.waits ≡ true → self.old.base.trail.depth ≡ 0 }
        ensures waiting { OnOk result (IsWaiting self.new) }
        ensures searched { IfOk result (λ ask. HasSearched self.old ask self.new) }
    {
        if self.base.trail().depth() > 0 {
            return self.descend();
        }
        match self.ask_on_ground()? {
            Some(ask) => Ok(ask),
            None => self.descend(),
        }
    }

    /// Nothing more is asked.
    pub(crate) fn end(&mut self, found: Found) -> Ask
        ensures ask { result ≡ Ask.Done found }
        ensures request { self.new ≡ record self.old { request = Request.Done } }
    {
        self.request = Request::Done;
        Ask::Done(found)
    }

    /// Takes back what was assigned above the level.
    pub(crate) fn go_back(&mut self, level: u32)
        requires steady { IsSteady self.old }
        requires level { level ≤ self.old.base.trail.depth }
        ensures steady { IsSteady self.new }
        ensures base { self.new.base
            ≡ record self.old.base { trail = back_to self.old.base.trail level; quiet = false; conflict = None } }
        ensures same { self.new ≡ record self.old { base = self.new.base; chooser = self.new.chooser } }
    {
        self.chooser.go_back(self.base.trail(), level);
        self.base.backtrack(level);
    }
}

/// The formula's clauses under their ids, without repeated literals; tautologies stay out.
fn base_of(alloc: Global, formula: &Formula) -> Result<Base, OutOfMemory>
    ensures knows { IfOk result (λ base. Knows formula.now base.clauses) }
    ensures own { IfOk result (λ base. HasOwnIds (length formula.now.clauses) base.clauses) }
    ensures vars { IfOk result (λ base. base.trail.vars ≡ formula.now.vars) }
    ensures ground { IfOk result (λ base. base.trail.depth ≡ 0) }
{
    let mut base = Base::new(alloc, formula.vars())?;
    let mut id = 0;
    for clause in formula.clauses() {
        id += 1;
        if let Normal::Clause(firsts) = normal(alloc, clause)? {
            base.add(id, 1, &firsts)?;
        }
    }
    Ok(base)
}
