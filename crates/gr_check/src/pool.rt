// The clauses that may be cited, their literals in one vector.
ghost use Rattle.std.specs.Prelude.{◌≡◌, ◌≤◌, ◌+◌, ◌*◌, ◌++◌, length, None, Some, IfOk, OnOk, OnErr, slice_get};
ghost use Rattle.std.specs.FinMap as map;
ghost use Rattle.gr_check.specs.Runs.{lits_of, AreLocated, IsRunWithin, lits_in};

use crate::compaction::{end_in_order, slide};
use crate::runs::{Run, RunMap};
use gr_logic::{Lit, OutOfMemory};
use std::alloc::Global;
use std::marker::Model;

/// How many slots of ids a literal of a removed clause pays for, where a compaction walks over them.
const SLOTS_PER_LITERAL: usize = 16;

/// Clauses by their ids: a contract sees the finite map.
#[derive(Drop)]
pub(crate) struct Pool {
    /// The literals of every clause, and between them those of clauses that were removed.
    lits: Vec<Lit>,
    runs: RunMap,
    /// How many of `lits` belong to no clause any more: what compacting gives back.
    dead: usize,
}

impl Model for Pool {
    ghost use Rattle.std.specs.Prelude.{length};
    ghost use Rattle.gr_logic.specs.Log.{Clauses};
    ghost use Rattle.gr_check.specs.Codes.{clauses_code};

    ghost Value = { Clauses };

    ghost coded = { clauses_code };

    ghost use Rattle.gr_check.specs.Runs.{clauses_of, RunsWithin};
    ghost use Rattle.gr_check.specs.Entries.{entries_of};

    ghost view = { λ pool. clauses_of pool.lits.items (entries_of pool.runs) };

    ghost invariant = { λ pool. RunsWithin (length pool.lits.items) (entries_of pool.runs) };
}

impl Pool {
    /// No clauses, with room for so many ids from 1 on.
    pub(crate) fn with_room(alloc: Global, ids: usize) -> Result<Pool, OutOfMemory>
        ensures { IfOk result (λ pool. pool ≡ map.empty) }
    {
        let runs = RunMap::with_room(alloc, ids)?;
        Ok(Pool {
            lits: Vec::new(alloc),
            runs,
            dead: 0,
        })
    }

    /// Where the clauses of these ids are among the literals, which are lent, and the first literal of each. None of
    /// these reads waits for another, so the memory is fetched side by side, before a clause is read on. The vectors
    /// may be longer than the list of ids.
    pub(crate) fn locate(
        &self,
        ids: &[u64],
        places: &mut Vec<Option<Run>>,
        firsts: &mut Vec<Option<Lit>>,
    ) -> Result<&[Lit], OutOfMemory>
        ensures { IfOk result (λ lits. AreLocated self.now lits.now ids.now places.new.items firsts.new.items) }
    {
        if places.len() < ids.len() {
            places.resize(ids.len(), None)?;
        }
        if firsts.len() < ids.len() {
            firsts.resize(ids.len(), None)?;
        }
        for (i, id) in ids.iter().enumerate() {
            places[i] = self.runs.get(*id);
        }
        for k in 0..ids.len() {
            firsts[k] = first_at(&self.lits, places[k]);
        }
        Ok(self.lits.as_slice())
    }

    /// Whether a clause has the id.
    pub(crate) fn contains(&self, id: u64) -> bool
        ensures { result ≡ map.contains_key self.now id }
    {
        self.runs.get(id).is_some()
    }

    /// Puts a clause under the id.
    pub(crate) fn insert(&mut self, id: u64, lits: &[Lit]) -> Result<(), OutOfMemory>
        ensures ok { OnOk result (self.new ≡ map.insert self.old id lits.now) }
        ensures err { OnErr result (self.new ≡ self.old) }
    {
        self.make_room(lits.len())?;
        let end = self.lits.len();
        let run = append(&mut self.lits, lits)?;
        match self.runs.insert(id, run) {
            Ok(()) => Ok(()),
            Err(_) => {
                self.lits.truncate(end);
                Err(OutOfMemory)
            }
        }
    }

    /// Takes the clause of the id out.
    pub(crate) fn remove(&mut self, id: u64)
        ensures { self.new ≡ map.remove self.old id }
    {
        if let Some(run) = self.runs.remove(id) {
            self.dead = self.dead.saturating_add(run.len as usize);
        }
    }

    /// Makes room for so many literals more. Only where the vector is full does it work, so its cost is spread over
    /// the literals that fill it.
    fn make_room(&mut self, count: usize) -> Result<(), OutOfMemory>
        ensures { self.new ≡ self.old }
    {
        if self.lacks_room(count) && self.is_sparse() {
            self.compact();
        }
        if self.lacks_room(count) {
            self.lits.reserve_exact(growth(self.lits.len(), count))?;
        }
        Ok(())
    }

    /// Whether the vector has no room for so many literals more.
    fn lacks_room(&self, count: usize) -> bool {
        self.lits.capacity() - self.lits.len() < count
    }

    /// Whether the literals of removed clauses are worth a compaction: more than a fifth of all, so that each of them
    /// pays for at most four that move, and enough to pay for the walk over the ids' slots.
    fn is_sparse(&self) -> bool {
        let slots = self.runs.near.len().saturating_add(self.runs.far.len());
        self.dead > self.lits.len() / 5 && self.dead >= slots / SLOTS_PER_LITERAL
    }

    /// Takes the literals of removed clauses out. The others are moved within their vector, in the order of their ids,
    /// and no memory is taken.
    fn compact(&mut self)
        ensures { self.new ≡ self.old }
    {
        let count = self.lits.len();
        let Some(start) = end_in_order(&self.runs.near, 0, count) else {
            return;
        };
        if end_in_order(&self.runs.far, start, count).is_none() {
            return;
        }
        let middle = slide(&mut self.lits, &mut self.runs.near, 0);
        let end = slide(&mut self.lits, &mut self.runs.far, middle);
        self.lits.truncate(end);
        self.dead = 0;
    }
}

/// How many literals more a full vector of so many gets room for, where so many are to be appended.
///
/// Let L be the literals of live clauses, with those to be appended. A vector that grows is not sparse, so it has at
/// most 5/4 L, and the old one and the new one have room for 5/4 (1 + 4/3) L at most, which is less than 3 L. A full
/// one has room for 5/3 L, where L is the most that there were at once, as it never shrinks, and a compaction takes
/// nothing more. Where the ids are many and L is small, a sixteenth of the slots may be dead literals besides: old and
/// new have 7/48 of a literal for each slot more, a twentieth of what the slots take.
fn growth(len: usize, count: usize) -> usize
    ensures enough { count ≤ result }
    ensures bounded { 3 * result ≤ len + 3 * count }
{
    (len / 3).max(count)
}

/// Appends a clause, and says where it is. Where it is has 32 bits, so memory ends at 2^32 literals.
fn append(lits: &mut Vec<Lit>, clause: &[Lit]) -> Result<Run, OutOfMemory>
    ensures lits { OnOk result (lits.new.items ≡ lits.old.items ++ clause.now) }
    ensures run { IfOk result (λ run. (run.from ≡ length lits.old.items) × (run.len ≡ length clause.now)) }
    ensures err { OnErr result (lits.new.items ≡ lits.old.items) }
{
    let Ok(from) = u32::try_from(lits.len()) else {
        return Err(OutOfMemory);
    };
    let Ok(len) = u32::try_from(clause.len()) else {
        return Err(OutOfMemory);
    };
    lits.extend_from_slice(clause)?;
    Ok(Run { from, len })
}

/// The literals of a run.
pub(crate) fn lits_at(lits: &[Lit], run: Run) -> &[Lit]
    requires { run.from + run.len ≤ length lits.now }
    ensures { result.now ≡ lits_of lits.now run }
{
    let from = run.from as usize;
    &lits[from..from + run.len as usize]
}

/// The first literal of a run, if there are both.
fn first_at(lits: &[Lit], place: Option<Run>) -> Option<Lit>
    requires { IsRunWithin (length lits.now) place }
    ensures { result ≡ slice_get (lits_in lits.now place) 0 }
{
    match place {
        None => None,
        Some(run) => lits_at(lits, run).first().copied(),
    }
}
