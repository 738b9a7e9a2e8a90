// The deletion of clauses, all of a line or none.
ghost use Rattle.std.specs.Prelude.{◌≡◌, ℕ, false, IfOk, nat_eq};
ghost use Rattle.std.specs.HashSet as set;
ghost use Rattle.gr_logic.specs.Log.{missing, without};
ghost use Rattle.gr_check.specs.Deletions.{missing_cause, AreAmong};

use crate::pool::Pool;
use gr_logic::OutOfMemory;
use std::collections::HashSet;

/// The first id that no clause has, or that the line named before. The ids up to it are left in
/// `leaving`.
pub(crate) fn find_missing(
    pool: &Pool,
    leaving: &mut HashSet<u64>,
    ids: &[u64],
) -> Result<Option<u64>, OutOfMemory>
    requires { (q : ℕ) → set.contains nat_eq leaving.old q ≡ false }
    ensures missing { IfOk result (λ id. missing pool.now ids.now ≡ missing_cause id) }
    ensures leaving { AreAmong (set.keys leaving.new) ids.now }
{
    for id in ids {
        if !pool.contains(*id) {
            return Ok(Some(*id));
        }
        if !leaving.insert(*id)? {
            return Ok(Some(*id));
        }
    }
    Ok(None)
}

/// Takes the ids out of `leaving`, which has no others.
pub(crate) fn release(leaving: &mut HashSet<u64>, ids: &[u64])
    requires { AreAmong (set.keys leaving.old) ids.now }
    ensures { (q : ℕ) → set.contains nat_eq leaving.new q ≡ false }
{
    for id in ids {
        leaving.remove(id);
    }
}

/// Removes the clauses of these ids.
pub(crate) fn remove_all(pool: &mut Pool, ids: &[u64])
    ensures { pool.new ≡ without pool.old ids.now }
{
    for id in ids {
        pool.remove(*id);
    }
}
