// From the literals of a clause back to what they rest on.
ghost use Rattle.std.specs.Prelude.{◌≡◌, ◌≤◌, ◌<◌, ◌+◌, ◌++◌, ◌∷◌, [], All, IsSome, length, IfOk};
ghost use Rattle.gr_logic.specs.Literals.{var_of};
ghost use Rattle.gr_trail.specs.Trails.{assigned_to, true_in};
ghost use Rattle.gr_hints.specs.Gathering.{Lead, reason_ids};
ghost use Rattle.gr_hints.specs.Graphs.{IsGraph};
ghost use Rattle.gr_strengthen.specs.Reaching.{AreFollowed, IsMore, IsReached, with_clause_of, with_literal_of};
ghost use Rattle.gr_strengthen.specs.Reached.{AreSized, nothing_reached, reach_in};

use gr_arena::Arena;
use gr_hints::{Marks, gather};
use gr_logic::{Ids, Lit, OutOfMemory};
use gr_trail::Trail;
use std::alloc::Global;

/// The variables that a clause rests on, by whether their literals were forced or decided.
#[derive(Drop)]
pub(crate) struct Reached {
    pub(crate) forced: Marks,
    pub(crate) decided: Marks,
}

impl Reached {
    /// Nothing was reached of the variables from 1 to `vars`.
    pub(crate) fn new(alloc: Global, vars: u32) -> Result<Reached, OutOfMemory>
        requires { vars ≤ 1_000_000 }
        ensures { IfOk result (λ reached. AreSized reached vars) }
    {
        let forced = Marks::new(alloc, vars)?;
        let decided = Marks::new(alloc, vars)?;
        Ok(Reached { forced, decided })
    }

    /// Nothing was reached any more.
    fn clear(&mut self)
        ensures reach { reach_in self.new ≡ nothing_reached }
        ensures forced { self.new.forced.vars ≡ self.old.forced.vars }
        ensures decided { self.new.decided.vars ≡ self.old.decided.vars }
    {
        self.forced.clear();
        self.decided.clear();
    }
}

/// Reaches all that the false literals of a clause rest on.
pub(crate) fn reach(reached: &mut Reached, arena: &Arena, trail: &Trail, source: &[Lit])
    requires graph { IsGraph arena.now trail.now }
    requires sized { AreSized reached.old trail.now.vars }
    requires known { All (λ l. l.index < trail.now.vars) source.now }
    requires valued { All (λ l. IsSome (assigned_to trail.now.assigned (var_of l))) source.now }
    ensures sized { AreSized reached.new trail.now.vars }
    ensures reached { IsReached arena.now trail.now.assigned source.now (reach_in reached.new) }
{
    reached.clear();
    meet(reached, trail, source);
    let mut index = 0;
    'forced: while index < reached.forced.all().len() {
        follow(reached, arena, trail, index);
        index += 1;
    }
}

/// Reaches what the forced variable at an index rests on.
fn follow(reached: &mut Reached, arena: &Arena, trail: &Trail, index: usize)
    requires graph { IsGraph arena.now trail.now }
    requires sized { AreSized reached.old trail.now.vars }
    requires followed { AreFollowed arena.now trail.now.assigned (reach_in reached.old) index }
    requires within { index < length reached.old.forced.marked }
    ensures sized { AreSized reached.new trail.now.vars }
    ensures followed { AreFollowed arena.now trail.now.assigned (reach_in reached.new) (index + 1) }
    ensures more { IsMore (reach_in reached.old) (reach_in reached.new) }
{
    let var = reached.forced.all()[index];
    let reason = trail.reason(var).unwrap();
    meet(reached, trail, arena.lits(reason));
}

/// Reaches the variables of a clause's literals, but of one that is true.
fn meet(reached: &mut Reached, trail: &Trail, clause: &[Lit])
    requires sized { AreSized reached.old trail.now.vars }
    requires known { All (λ l. l.index < trail.now.vars) clause.now }
    requires valued { All (λ l. IsSome (assigned_to trail.now.assigned (var_of l))) clause.now }
    ensures sized { AreSized reached.new trail.now.vars }
    ensures met { reach_in reached.new ≡ with_clause_of trail.now.assigned (reach_in reached.old) clause.now }
{
    let mut rest = clause;
    'lits: while let [lit, others @ ..] = rest {
        meet_one(reached, trail, *lit);
        rest = others;
    }
}

/// Reaches the variable of a literal that is not true.
fn meet_one(reached: &mut Reached, trail: &Trail, lit: Lit)
    requires sized { AreSized reached.old trail.now.vars }
    requires known { lit.index < trail.now.vars }
    requires valued { IsSome (assigned_to trail.now.assigned (var_of lit)) }
    ensures sized { AreSized reached.new trail.now.vars }
    ensures met { reach_in reached.new ≡ with_literal_of trail.now.assigned (reach_in reached.old) lit }
{
    if is_true(trail, lit) {
        return;
    }
    let var = lit.var();
    match trail.reason(var) {
        Some(_) => reached.forced.set(var),
        None => reached.decided.set(var),
    }
}

/// Whether the literal is true.
pub(crate) fn is_true(trail: &Trail, lit: Lit) -> bool
    requires { lit.index < trail.now.vars }
    ensures { result ≡ true_in trail.now.assigned lit }
{
    match trail.value(lit) {
        Some(value) => value,
        None => false,
    }
}

/// The ids of the reasons of the forced variables, in the order of the trail, and behind them the last one.
pub(crate) fn cite(
    alloc: Global,
    reached: &Reached,
    arena: &Arena,
    trail: &Trail,
    source: &[Lit],
    last: u64,
) -> Result<Ids, OutOfMemory>
    requires graph { IsGraph arena.now trail.now }
    requires sized { AreSized reached.now trail.now.vars }
    requires reached { IsReached arena.now trail.now.assigned source.now (reach_in reached.now) }
    ensures ids { IfOk result (λ ids. ids
        ≡ reason_ids arena.now reached.now.forced.marked trail.now.assigned ++ last ∷ []) }
    ensures lead { IfOk result (λ ids. Lead arena.now reached.now.forced.marked trail.now.assigned
        (reason_ids arena.now reached.now.forced.marked trail.now.assigned)) }
{
    let _ = source;
    let mut hints = gather(alloc, arena, trail, &reached.forced)?;
    hints.push(last)?;
    Ok(hints)
}
