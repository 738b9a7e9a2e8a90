// How a clause comes in for another one.
ghost use Rattle.std.specs.Prelude.{◌≡◌, ◌<◌, All, Some, length, OnOk};
ghost use Rattle.gr_logic.specs.NormalForms.{IsNormal};
ghost use Rattle.gr_prop.specs.Bases.{LacksId};
ghost use Rattle.gr_import.specs.Imports.{MayGo, IsNoReason, Leaves, IsImported};

use gr_logic::{Clause, OutOfMemory, as_words};
use gr_prop::Base;

/// Takes a clause over at level zero, for the clause with the old id, if there is one and the base has
/// it. The LBD of the new clause is its number of literals, or that of the old one where it is less.
///
/// After `OutOfMemory` the base may only be dropped.
pub fn import(
    base: &mut Base,
    old: Option<u64>,
    new: u64,
    clause: &Clause,
) -> Result<(), OutOfMemory>
    requires ground { base.old.trail.depth ≡ 0 }
    requires normal { IsNormal clause.now }
    requires known { All (λ l. l.index < base.old.trail.vars) clause.now }
    requires unused { LacksId base.old.clauses new }
    requires unneeded { MayGo base.old old }
    ensures { OnOk result (IsImported base.old base.new old new clause.now) }
{
    let len = length_of(clause);
    let lbd = let_go(base, old, len);
    base.add(new, lbd, clause)?;
    Ok(())
}

/// The number of literals of a normal clause: it has each of at most 1,000,000 variables once.
fn length_of(clause: &Clause) -> u32
    requires { IsNormal clause.now }
    ensures { result ≡ length clause.now }
{
    as_words(clause.lits()).len() as u32
}

/// Removes the clause with this id, if there is one. Answers the LBD of a clause of this length that
/// comes in for it.
fn let_go(base: &mut Base, old: Option<u64>, len: u32) -> u32
    requires unneeded { MayGo base.old old }
    ensures leaves { Leaves base.old.clauses old len base.new.clauses result }
    ensures trail { base.new.trail ≡ base.old.trail }
{
    match old {
        Some(id) => let_go_id(base, id, len),
        None => len,
    }
}

/// Removes the clause with this id, where the base has it.
fn let_go_id(base: &mut Base, id: u64, len: u32) -> u32
    requires unneeded { IsNoReason base.old id }
    ensures leaves { Leaves base.old.clauses (Some id) len base.new.clauses result }
    ensures trail { base.new.trail ≡ base.old.trail }
{
    match base.find(id) {
        None => len,
        Some(place) => {
            let lbd = base.arena().lbd(place);
            base.remove(place);
            len.min(lbd)
        }
    }
}
