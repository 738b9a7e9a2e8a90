// The checker of a proof log, seen as what the log has done so far.
ghost use Rattle.std.specs.Prelude.{◌≡◌, ◌≤◌, ◌↔◌, true, None, length, IfOk, OnOk, OnErr, IfErr};
ghost use Rattle.std.specs.FinMap as map;
ghost use Rattle.gr_logic.specs.Log.{opening, with_clauses, is_var_above, line_cause, after_line, addition_cause, missing, without};
ghost use Rattle.gr_logic.specs.declared.lines.Line.TheVariants.{Add};
ghost use Rattle.gr_check.specs.Refusals.{IsCauseOf};

use crate::deletions::{find_missing, release, remove_all};
use crate::marks::Marks;
use crate::pool::Pool;
use crate::refusals::{Finish, Refused};
use crate::runs::Run;
use crate::unit_steps::unit_steps;
use gr_logic::{Clause, Formula, Line, Lit, OutOfMemory};
use std::alloc::Global;
use std::collections::HashSet;
use std::marker::Model;

/// A proof log so far: a contract sees the clauses that may be cited, and whether the empty clause
/// was added.
#[derive(Drop)]
pub struct Checker {
    /// The greatest id so far.
    last: u64,
    pool: Pool,
    /// Whether the empty clause was added.
    refuted: bool,
    vars: u32,
    /// Literals that are true in the line being checked; none between lines.
    marks: Marks,
    /// Where the clauses are that the line's hints name.
    places: Vec<Option<Run>>,
    /// Their first literals.
    firsts: Vec<Option<Lit>>,
    /// Ids of the deletion being checked; none between lines.
    leaving: HashSet<u64>,
}

impl Model for Checker {
    ghost use Rattle.gr_logic.specs.Log.{LogState};
    ghost use Rattle.gr_check.specs.Codes.{log_state_code};
    ghost use Rattle.gr_check.specs.Checks.{IsResting};

    ghost Value = { LogState };

    ghost coded = { log_state_code };

    ghost view = { λ a. record { vars = a.vars; last = a.last; live = a.pool; refuted = a.refuted } };

    ghost invariant = { λ a. IsResting a.vars a.pool a.marks a.leaving.keys };
}

impl Checker {
    /// A checker of logs for the formula: its clauses may be cited, under the ids from 1 on.
    pub fn new(alloc: Global, formula: &Formula) -> Result<Checker, OutOfMemory>
        ensures { IfOk result (λ checker. checker ≡ opening formula.now) }
    {
        let pool = numbered(alloc, formula.clauses())?;
        let marks = Marks::new(alloc, formula.vars())?;
        Ok(Checker {
            last: formula.clauses().len() as u64,
            pool,
            refuted: false,
            vars: formula.vars(),
            marks,
            places: Vec::new(alloc),
            firsts: Vec::new(alloc),
            leaving: HashSet::new(alloc),
        })
    }

    /// Takes the next line, or says why it is refused. A refused line, and one for which memory is
    /// wanting, changes nothing.
    pub fn line(&mut self, line: &Line) -> Result<(), Refused>
        ensures ok { OnOk result (line_cause self.old line.now ≡ None) }
        ensures after { OnOk result (self.new ≡ after_line self.old line.now) }
        ensures refused { IfErr result (λ why. IsCauseOf why (line_cause self.old line.now)) }
        ensures err { OnErr result (self.new ≡ self.old) }
    {
        match line {
            Line::Add { id, clause, hints } => self.add(*id, clause.lits(), hints.all()),
            Line::Delete { id: _, ids } => self.delete(ids.all()),
        }
    }

    /// What the lines so far say of the formula: after `Verified` no assignment satisfies it, by the
    /// law `reached_states_refute`, also where lines were refused between. Takes no memory.
    pub fn finish(&self) -> Finish
        ensures { (result ≡ Finish.Verified) ↔ (self.now.refuted ≡ true) }
    {
        if self.refuted {
            Finish::Verified
        } else {
            Finish::NoEmptyClause
        }
    }

    /// Takes an addition.
    fn add(&mut self, id: u64, lemma: &[Lit], hints: &[u64]) -> Result<(), Refused>
        ensures ok { OnOk result (addition_cause self.old id lemma.now hints.now ≡ None) }
        ensures after { OnOk result (self.new ≡ after_line self.old (Add id lemma.now hints.now)) }
        ensures refused { IfErr result (λ why. IsCauseOf why (addition_cause self.old id lemma.now hints.now)) }
        ensures err { OnErr result (self.new ≡ self.old) }
    {
        if id <= self.last {
            return Err(Refused::IdNotGreater { id });
        }
        if has_var_above(self.vars, lemma) {
            return Err(Refused::VarAbove { id });
        }
        let outcome = unit_steps(
            &self.pool,
            &mut self.places,
            &mut self.firsts,
            &mut self.marks,
            id,
            lemma,
            hints,
        );
        self.marks.clear();
        outcome?;
        self.pool.insert(id, lemma)?;
        self.last = id;
        self.refuted = self.refuted || lemma.is_empty();
        Ok(())
    }

    /// Takes a deletion.
    fn delete(&mut self, ids: &[u64]) -> Result<(), Refused>
        ensures ok { OnOk result (missing self.old.live ids.now ≡ None) }
        ensures after { OnOk result (self.new ≡ record self.old { live = without self.old.live ids.now }) }
        ensures refused { IfErr result (λ why. IsCauseOf why (missing self.old.live ids.now)) }
        ensures err { OnErr result (self.new ≡ self.old) }
    {
        let missing_id = find_missing(&self.pool, &mut self.leaving, ids);
        release(&mut self.leaving, ids);
        if let Some(id) = missing_id? {
            return Err(Refused::NotLive { id });
        }
        remove_all(&mut self.pool, ids);
        Ok(())
    }
}

/// The clauses under 1 and the next ids.
fn numbered(alloc: Global, clauses: &[Clause]) -> Result<Pool, OutOfMemory>
    requires { length clauses.now ≤ 5_000_000 }
    ensures { IfOk result (λ pool. pool ≡ with_clauses map.empty 1 clauses.now) }
{
    let mut pool = Pool::with_room(alloc, clauses.len())?;
    for (i, clause) in clauses.iter().enumerate() {
        pool.insert(i as u64 + 1, clause.lits())?;
    }
    Ok(pool)
}

/// Whether a variable of the lemma is above the number.
fn has_var_above(vars: u32, lemma: &[Lit]) -> bool
    ensures { result ≡ is_var_above vars lemma.now }
{
    lemma.iter().any(|lit| lit.var() > vars)
}
