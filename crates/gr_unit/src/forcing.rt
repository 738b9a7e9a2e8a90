// Which literal a clause forces.
ghost use Rattle.std.specs.Prelude.{◌≡◌, ◌≤◌, ◌<◌, List, ℕ, true, false, length, slice_index_or, IfSome, IfNone, All};
ghost use Rattle.gr_logic.specs.Literals.{Literal, negation, same_literal};
ghost use Rattle.gr_logic.specs.Rup.{members};
ghost use Rattle.gr_logic.specs.Closure.{Forces};
ghost use Rattle.gr_unit.specs.Forcing.{others_false, AreAllFalse, HasForced, IsForcedAt};

use crate::derivations::Derived;
use gr_logic::{Clause, Lit};

/// A literal that a clause forces, and the clause's place.
#[derive(Clone, Copy)]
pub(crate) struct Forced {
    pub place: usize,
    pub lit: Lit,
}

/// Whether two literals are one.
fn is_same(one: Lit, other: Lit) -> bool
    ensures { result ≡ same_literal one other }
{
    one == other
}

/// Whether all literals of the clause but this one are false.
fn are_others_false(lits: &[Lit], lit: Lit, derived: &Derived) -> bool
    ensures { result ≡ others_false (members derived.now) lits.now lit }
{
    lits.iter().all(|other| is_same(*other, lit) || derived.has(other.negate()))
}

/// The first literal of the clause that is not false.
fn first_open(lits: &[Lit], derived: &Derived) -> Option<Lit>
    ensures has { IfSome result (λ l. members lits.now l ≡ true) }
    ensures is_open { IfSome result (λ l. members derived.now (negation l) ≡ false) }
    ensures none { IfNone result (AreAllFalse (members derived.now) lits.now) }
{
    for lit in lits {
        if !derived.has(lit.negate()) {
            return Some(*lit);
        }
    }
    None
}

/// The first literal of the clause that is not true.
fn first_new(lits: &[Lit], derived: &Derived) -> Option<Lit>
    ensures has { IfSome result (λ l. members lits.now l ≡ true) }
    ensures new { IfSome result (λ l. members derived.now l ≡ false) }
    ensures none { IfNone result ((l : Literal) → members lits.now l ≡ true → members derived.now l ≡ true) }
{
    for lit in lits {
        if !derived.has(*lit) {
            return Some(*lit);
        }
    }
    None
}

/// A literal that the clause forces and that is not true yet. A falsified clause forces each of its
/// literals.
fn forced_in(lits: &[Lit], derived: &Derived) -> Option<Lit>
    ensures forced { IfSome result (λ l. Forces (members derived.now) (members lits.now) l) }
    ensures new { IfSome result (λ l. members derived.now l ≡ false) }
    ensures none { IfNone result (HasForced (members derived.now) lits.now) }
{
    let Some(lit) = first_open(lits, derived) else {
        return first_new(lits, derived);
    };
    if derived.has(lit) {
        return None;
    }
    if are_others_false(lits, lit, derived) {
        return Some(lit);
    }
    None
}

/// The first clause from a place on that forces a literal which is not true yet.
fn forced_from(clauses: &[Clause], from: usize, derived: &Derived) -> Option<Forced>
    ensures forced { IfSome result (λ found. IsForcedAt clauses.now (members derived.now) found.place found.lit) }
    ensures new { IfSome result (λ found. members derived.now found.lit ≡ false) }
    ensures none { IfNone result ((k : ℕ) (d : List Literal) → from ≤ k → k < length clauses.now
        → HasForced (members derived.now) (slice_index_or clauses.now k d)) }
{
    for place in from..clauses.len() {
        if let Some(lit) = forced_in(clauses[place].lits(), derived) {
            return Some(Forced { place, lit });
        }
    }
    None
}

/// A literal that some clause forces and that is not true yet. The clauses from a place on are
/// looked at first, so that a search over all does not begin anew after each literal.
pub(crate) fn next_forced(clauses: &[Clause], from: usize, derived: &Derived) -> Option<Forced>
    ensures forced { IfSome result (λ found. IsForcedAt clauses.now (members derived.now) found.place found.lit) }
    ensures new { IfSome result (λ found. members derived.now found.lit ≡ false) }
    ensures none { IfNone result (All (HasForced (members derived.now)) clauses.now) }
{
    if let Some(found) = forced_from(clauses, from, derived) {
        return Some(found);
    }
    forced_from(clauses, 0, derived)
}
