// What a walk leaves of a clause.
ghost use Rattle.std.specs.Prelude.{◌≡◌, ◌≤◌, ◌<◌, ◌++◌, ◌∷◌, [], ℕ, None, Some, IfOk, OnOk};
ghost use Rattle.gr_logic.specs.Closure.{ClauseFamily};
ghost use Rattle.gr_logic.specs.Formulas.{VarsUpTo};
ghost use Rattle.gr_logic.specs.Greedy.{GreedyKeeps};
ghost use Rattle.gr_logic.specs.NormalForms.{IsNormal};
ghost use Rattle.gr_logic.specs.Rup.{members};
ghost use Rattle.gr_strengthen.specs.Outcomes.{IsStrengthened, with_taken};
ghost use Rattle.gr_strengthen.specs.Reaching.{chosen_from};
ghost use Rattle.gr_strengthen.specs.Reached.{AreSized};
ghost use Rattle.gr_strengthen.specs.Walking.{AreKeptDecisions, HasWalked, IsSpentBy, IsSublist, Represents};

use crate::lending::trail_of;
use crate::reaching::{Reached, cite, is_true, reach};
use gr_hints::Marks;
use gr_logic::{Clause, Lit, OutOfMemory, Place, Strengthened};
use gr_prop::Base;
use gr_trail::Trail;
use std::alloc::Global;

/// What a strengthening notes. The buffers are kept from one to the next.
#[derive(Drop)]
pub(crate) struct Notes {
    pub(crate) reached: Reached,
    /// The literals that the walk kept.
    pub(crate) kept: Clause,
    /// Those of them that a conflict rests on.
    pub(crate) chosen: Clause,
}

impl Notes {
    /// Nothing is noted of the variables from 1 to `vars`.
    pub(crate) fn new(alloc: Global, vars: u32) -> Result<Notes, OutOfMemory>
        requires { vars ≤ 1_000_000 }
        ensures { IfOk result (λ notes. AreSized notes.reached vars) }
    {
        let reached = Reached::new(alloc, vars)?;
        Ok(Notes {
            reached,
            kept: Clause::new(alloc),
            chosen: Clause::new(alloc),
        })
    }
}

/// What the walk through a clause, which was taken under an id, says of it.
pub(crate) fn conclude(
    alloc: Global,
    notes: &mut Notes,
    base: &Base,
    id: u64,
    clause: &[Lit],
    stop: Option<Place>,
) -> Result<Strengthened, OutOfMemory>
    requires sized { AreSized notes.old.reached base.now.trail.vars }
    requires normal { IsNormal clause.now }
    requires known { VarsUpTo base.now.trail.vars clause.now }
    requires walked { HasWalked base.now notes.old.kept clause.now stop }
    ensures sized { AreSized notes.new.reached base.now.trail.vars }
    ensures outcome { IfOk result (λ outcome. (k : ClauseFamily) → Represents k base.now.clauses
        → k id ≡ None → IsStrengthened k base.now.trail.vars id clause.now outcome) }
{
    match stop {
        Some(place) => {
            let arena = base.arena();
            shorten(
                alloc,
                notes,
                base,
                clause,
                arena.lits(place),
                arena.id(place),
            )
        }
        None => {
            if notes.kept.lits().len() == clause.len() {
                return Ok(Strengthened::Same);
            }
            shorten(alloc, notes, base, clause, clause, id)
        }
    }
}

/// The kept literals that a spent clause rests on: they are the shorter clause, where some literal of
/// the clause is not among them.
fn shorten(
    alloc: Global,
    notes: &mut Notes,
    base: &Base,
    clause: &[Lit],
    source: &[Lit],
    last: u64,
) -> Result<Strengthened, OutOfMemory>
    requires sized { AreSized notes.old.reached base.now.trail.vars }
    requires normal { IsNormal clause.now }
    requires known { VarsUpTo base.now.trail.vars clause.now }
    requires part { IsSublist notes.old.kept clause.now }
    requires decided { AreKeptDecisions base.now.trail.assigned notes.old.kept }
    requires spent { IsSpentBy base.now.trail.assigned notes.old.kept (members source.now) }
    requires source { VarsUpTo base.now.trail.vars source.now }
    ensures sized { AreSized notes.new.reached base.now.trail.vars }
    ensures outcome { IfOk result (λ outcome. (k : ClauseFamily) (id : ℕ) → Represents k base.now.clauses
        → k id ≡ None → with_taken k id clause.now last ≡ Some (members source.now)
        → GreedyKeeps k clause.now notes.old.kept
        → IsStrengthened k base.now.trail.vars id clause.now outcome) }
{
    let arena = base.arena();
    let trail = trail_of(base);
    reach(&mut notes.reached, arena, trail, source);
    choose(
        &mut notes.chosen,
        trail,
        &notes.reached.decided,
        notes.kept.lits(),
    )?;
    if notes.chosen.lits().len() == clause.len() {
        return Ok(Strengthened::Same);
    }
    let hints = cite(alloc, &notes.reached, arena, trail, source, last)?;
    let clause = Clause::from_lits(alloc, notes.chosen.lits())?;
    Ok(Strengthened::Shorter { clause, hints })
}

/// Leaves those of the kept literals that are true, or whose variables were reached as decided.
fn choose(
    chosen: &mut Clause,
    trail: &Trail,
    decided: &Marks,
    kept: &[Lit],
) -> Result<(), OutOfMemory>
    requires vars { decided.now.vars ≡ trail.now.vars }
    requires known { VarsUpTo trail.now.vars kept.now }
    ensures { OnOk result (chosen.new ≡ chosen_from trail.now.assigned decided.now.marked kept.now) }
{
    chosen.clear();
    let mut rest = kept;
    'lits: while let [lit, others @ ..] = rest {
        choose_one(chosen, trail, decided, *lit)?;
        rest = others;
    }
    Ok(())
}

/// Appends the literal, where it is true or its variable was reached as decided.
fn choose_one(
    chosen: &mut Clause,
    trail: &Trail,
    decided: &Marks,
    lit: Lit,
) -> Result<(), OutOfMemory>
    requires vars { decided.now.vars ≡ trail.now.vars }
    requires known { lit.index < trail.now.vars }
    ensures { OnOk result (chosen.new
        ≡ chosen.old ++ chosen_from trail.now.assigned decided.now.marked (lit ∷ [])) }
{
    if is_true(trail, lit) || decided.has(lit.var()) {
        chosen.push(lit)?;
    }
    Ok(())
}
