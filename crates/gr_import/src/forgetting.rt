// The learnt clauses that are forgotten first.
ghost use Rattle.std.specs.Prelude.{◌≡◌, ◌≢◌, map, IfOk, IfSome, IfNone};
ghost use Rattle.gr_import.specs.Forgetting.{Ranked, IsCandidate, AreAllRanks, AreWeakest, ranked_of};

use crate::ranks::Rank;
use gr_logic::{Ids, OutOfMemory};
use gr_prop::Base;
use std::alloc::Global;
use std::cmp::Reverse;

/// The ids of half of the learnt clauses whose LBD is at least 3, rounded down, ascending: those of
/// greatest LBD, then of most literals, then of least id. `first_learnt` is the first id that is
/// none of the formula's.
pub fn weakest(alloc: Global, base: &Base, first_learnt: u64) -> Result<Ids, OutOfMemory>
    ensures { IfOk result (AreWeakest base.now.clauses first_learnt) }
{
    let mut ranks = candidates(alloc, base, first_learnt)?;
    ranks.sort_unstable();
    let half = ranks.len() / 2;
    let mut ids = ids_of(alloc, &ranks.as_slice()[..half])?;
    ids.sort_unstable();
    Ok(Ids::from_vec(ids))
}

/// The learnt clauses whose LBD is at least 3, by their ids.
fn candidates(alloc: Global, base: &Base, first_learnt: u64) -> Result<Vec<Rank>, OutOfMemory>
    ensures { IfOk result (λ ranks. AreAllRanks base.now.clauses first_learnt ranks.items) }
{
    let ids = base.ids()?;
    let mut ranks = Vec::new(alloc);
    for id in ids.all() {
        if let Some(rank) = rank_of(base, *id, first_learnt) {
            ranks.push(rank)?;
        }
    }
    Ok(ranks)
}

/// How the clause with the id ranks, if it may be forgotten.
fn rank_of(base: &Base, id: u64, first_learnt: u64) -> Option<Rank>
    ensures some { IfSome result (λ rank. IsCandidate base.now.clauses first_learnt (ranked_of rank)) }
    ensures id { IfSome result (λ rank. rank.id ≡ id) }
    ensures one { IfSome result (λ rank. (r : Ranked) → IsCandidate base.now.clauses first_learnt r
        → r.id ≡ id → r ≡ ranked_of rank) }
    ensures none { IfNone result ((r : Ranked) → IsCandidate base.now.clauses first_learnt r → r.id ≢ id) }
{
    if id < first_learnt {
        return None;
    }
    let place = base.find(id)?;
    let arena = base.arena();
    let lbd = arena.lbd(place);
    if lbd < 3 {
        return None;
    }
    Some(Rank {
        lbd: Reverse(lbd),
        len: Reverse(arena.lits(place).len()),
        id,
    })
}

/// The ids of these clauses.
fn ids_of(alloc: Global, ranks: &[Rank]) -> Result<Vec<u64>, OutOfMemory>
    ensures { IfOk result (λ ids. ids.items ≡ map (λ rank. rank.id) ranks.now) }
{
    let mut ids = Vec::with_capacity(alloc, ranks.len())?;
    for rank in ranks {
        ids.push(rank.id)?;
    }
    Ok(ids)
}
