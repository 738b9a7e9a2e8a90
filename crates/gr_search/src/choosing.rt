// Which variable is decided next, and with which sign.
ghost use Rattle.std.specs.Prelude.{◌≡◌, ◌≢◌, ◌<◌, ◌≤◌, true, All, length, replicate, IsSome, IfOk, IfSome, IfNone};
ghost use Rattle.gr_logic.specs.Literals.{var_of};
ghost use Rattle.gr_trail.specs.Trails.{assigned_to, up_to};
ghost use Rattle.gr_search.specs.Deciding.{HoldsOpen, IsNext, HasAllValues};

use crate::scores::Scores;
use gr_heur::{Order, Phases};
use gr_hints::Marks;
use gr_logic::{Formula, Lit, OutOfMemory};
use gr_prop::Base;
use gr_trail::Trail;
use std::alloc::Global;
use std::marker::Model;

/// The variables that may be decided, each with the sign that it had last. A contract sees of each variable whether it
/// may be decided.
#[derive(Drop)]
pub(crate) struct Chooser {
    order: Order,
    phases: Phases,
    scores: Scores,
    /// The variables that were noted for a bump.
    noted: Marks,
}

impl Model for Chooser {
    ghost use Rattle.std.specs.Prelude.{List, Bool};
    ghost use Rattle.gr_search.specs.Deciding.{IsChooser};

    ghost Value = { List Bool };

    ghost view = { λ chooser. chooser.order.present };

    ghost invariant = { λ chooser.
        IsChooser chooser.order.vars chooser.order.present chooser.phases chooser.noted };
}

impl Chooser {
    /// All variables may be decided, those that occur most in the formula first.
    pub(crate) fn new(alloc: Global, formula: &Formula) -> Result<Chooser, OutOfMemory>
        ensures { IfOk result (λ chooser. chooser ≡ replicate formula.now.vars true) }
    {
        let vars = formula.vars();
        let mut order = Order::new(alloc, vars)?;
        bump_by_occurrences(alloc, &mut order, formula)?;
        Ok(Chooser {
            order,
            phases: Phases::new(alloc, vars)?,
            scores: Scores::new(alloc, vars)?,
            noted: Marks::new(alloc, vars)?,
        })
    }

    /// Takes out variables until one has no value: its literal. `None` where each variable has one.
    pub(crate) fn next(&mut self, trail: &Trail) -> Option<Lit>
        requires vars { trail.now.vars ≡ length self.old }
        requires undecided { HoldsOpen self.old trail.now.assigned }
        ensures some { IfSome result (λ lit. IsNext self.new trail.now.assigned lit) }
        ensures none { IfNone result (HasAllValues trail.now.vars trail.now.assigned) }
        ensures length { length self.new ≡ length self.old }
    {
        while let Some(var) = self.order.pick() {
            let lit = self.phases.get(var);
            if trail.value(lit).is_none() {
                return Some(lit);
            }
        }
        None
    }

    /// Puts the variables back that got their values above the level, and saves their literals.
    pub(crate) fn go_back(&mut self, trail: &Trail, level: u32)
        requires vars { trail.now.vars ≡ length self.old }
        requires undecided { HoldsOpen self.old trail.now.assigned }
        ensures undecided { HoldsOpen self.new (up_to level trail.now.assigned) }
        ensures length { length self.new ≡ length self.old }
    {
        let lits = trail.lits();
        let mut index = lits.len();
        while index > 0 {
            index -= 1;
            let lit = lits[index];
            if trail.level(lit.var()) <= level {
                return;
            }
            self.order.put_back(lit.var());
            self.phases.save(lit);
        }
    }

    /// Bumps the variables that an analysis met, and the others in the reasons of the clause's literals.
    pub(crate) fn bump(
        &mut self,
        base: &Base,
        touched: &[u32],
        lits: &[Lit],
        conflict: u64,
    ) -> Result<(), OutOfMemory>
        requires vars { base.now.trail.vars ≡ length self.old }
        requires touched { All (λ var. IsSome (assigned_to base.now.trail.assigned var)) touched.now }
        requires assigned { All (λ l. IsSome (assigned_to base.now.trail.assigned (var_of l))) lits.now }
        ensures { self.new ≡ self.old }
    {
        for var in touched {
            self.note(*var, conflict)?;
        }
        for lit in lits {
            self.note_reason(base, *lit, conflict)?;
        }
        self.noted.clear();
        self.scores.bump_noted(&mut self.order);
        Ok(())
    }

    /// Notes the variables of a literal's reason that have their values since a level above zero.
    fn note_reason(&mut self, base: &Base, lit: Lit, conflict: u64) -> Result<(), OutOfMemory>
        requires vars { base.now.trail.vars ≡ length self.old }
        requires assigned { IsSome (assigned_to base.now.trail.assigned (var_of lit)) }
        ensures { self.new ≡ self.old }
    {
        let trail = base.trail();
        let Some(place) = trail.reason(lit.var()) else {
            return Ok(());
        };
        for other in base.arena().lits(place) {
            if trail.value(*other).is_some() && trail.level(other.var()) > 0 {
                self.note(other.var(), conflict)?;
            }
        }
        Ok(())
    }

    /// Notes a variable, where it was not noted.
    fn note(&mut self, var: u32, conflict: u64) -> Result<(), OutOfMemory>
        ensures { self.new ≡ self.old }
    {
        if var == 0 || var > self.order.vars() || self.noted.has(var) {
            return Ok(());
        }
        self.noted.set(var);
        self.scores.note(var, conflict)
    }
}

/// Bumps each variable once, that of the fewest occurrences in the formula first, and of as many occurrences the
/// greatest variable.
fn bump_by_occurrences(
    alloc: Global,
    order: &mut Order,
    formula: &Formula,
) -> Result<(), OutOfMemory>
    ensures present { order.new.present ≡ order.old.present }
    ensures vars { order.new.vars ≡ order.old.vars }
{
    let mut counts = Vec::from_elem(alloc, 0u64, formula.vars() as usize)?;
    for clause in formula.clauses() {
        count_all(&mut counts, clause.lits());
    }
    let mut scores = Scores::new(alloc, 0)?;
    let mut var = formula.vars();
    // Of as many occurrences the greatest variable comes first, since its key is the least.
    while var > 0 {
        let index = (var - 1) as usize;
        scores.push(
            counts.get(index).copied().unwrap_or(0),
            formula.vars() - var,
        )?;
        var -= 1;
    }
    scores.bump_from_last(order);
    Ok(())
}

/// Counts the variables of the literals.
fn count_all(counts: &mut Vec<u64>, lits: &[Lit]) {
    for lit in lits {
        if let Some(count) = counts.get_mut(lit.index()) {
            *count = count.saturating_add(1);
        }
    }
}
