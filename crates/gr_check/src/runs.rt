// Runs of literals, by the ids of their clauses.
ghost use Rattle.std.specs.Prelude.{◌≡◌, ◌≤◌, ◌<◌, ℕ, true, false, vec_len, [], All, None, Some, nat_eq, slice_index_or, IfOk, OnOk, OnErr};
ghost use Rattle.std.specs.Map.{lookup};
ghost use Rattle.gr_check.specs.Entries.{entries_of, far_entries, Updated, IsWritten};

use crate::far_ids::FarIds;
use gr_logic::OutOfMemory;
use std::alloc::Global;

/// How many ids a run that is put in makes room for: a log may leave three of four ids out, and its runs still stand in
/// one vector.
const IDS_PER_RUN: usize = 4;

/// Ids up to this one are never far.
const FIRST_IDS: usize = 1_024;

/// Where a clause's literals are.
#[derive(Clone, Copy)]
pub(crate) struct Run {
    pub(crate) from: u32,
    pub(crate) len: u32,
}

/// Runs by ids. A log counts its ids up, so they index a vector. An id that is far beyond the number of runs that were
/// put in costs no room for those below it: it is searched for, and so are all greater ones that come after it. So the
/// runs of both vectors, the first one first, are in the order in which they were put in.
#[derive(Drop)]
pub(crate) struct RunMap {
    /// The runs by their ids, up to some id.
    pub(crate) near: Vec<Option<Run>>,
    /// The ids from the first one on that was far beyond when it was put in.
    pub(crate) far_ids: FarIds,
    /// The runs of these ids, place by place.
    pub(crate) far: Vec<Option<Run>>,
    /// How many runs were put in.
    pub(crate) added: usize,
}

impl RunMap {
    /// No runs, with room for so many ids from 1 on.
    pub(crate) fn with_room(alloc: Global, ids: usize) -> Result<RunMap, OutOfMemory>
        ensures { IfOk result (λ runs. entries_of runs ≡ []) }
    {
        let near = Vec::with_capacity(alloc, ids.saturating_add(1))?;
        Ok(RunMap {
            near,
            far_ids: FarIds::new(alloc),
            far: Vec::new(alloc),
            added: 0,
        })
    }

    /// The run of the id.
    pub(crate) fn get(&self, id: u64) -> Option<Run>
        ensures { result ≡ lookup (nat_eq id) (entries_of self.now) }
    {
        match self.near_run(id) {
            Some(run) => Some(run),
            None => self.far_run(id),
        }
    }

    /// The run of the id among those that it indexes.
    fn near_run(&self, id: u64) -> Option<Run>
        ensures { result ≡ slice_index_or self.now.near.items id None }
    {
        if id < self.near.len() as u64 {
            self.near[id as usize]
        } else {
            None
        }
    }

    /// The run of the id among those whose ids are searched.
    fn far_run(&self, id: u64) -> Option<Run>
        ensures { result ≡ lookup (nat_eq id) (far_entries 0 self.now.far_ids self.now.far.items) }
    {
        match self.far_ids.find(id) {
            None => None,
            Some(place) => slot_at(&self.far, place),
        }
    }

    /// Puts a run under the id.
    pub(crate) fn insert(&mut self, id: u64, run: Run) -> Result<(), OutOfMemory>
        ensures ok { OnOk result (Updated (entries_of self.old) (entries_of self.new) id (Some run)) }
        ensures err { OnErr result (entries_of self.new ≡ entries_of self.old) }
    {
        self.added = self.added.saturating_add(1);
        if self.is_far(id) {
            push_far(&mut self.far_ids, &mut self.far, id, run)?;
            return Ok(());
        }
        put_slot(&mut self.near, id as usize, run)?;
        Ok(())
    }

    /// Takes the run of the id out.
    pub(crate) fn remove(&mut self, id: u64) -> Option<Run>
        ensures found { result ≡ lookup (nat_eq id) (entries_of self.old) }
        ensures left { Updated (entries_of self.old) (entries_of self.new) id None }
    {
        let found = self.get(id);
        clear_slot(&mut self.near, id as usize);
        clear_far(&self.far_ids, &mut self.far, id);
        found
    }

    /// Whether the id is to be searched for: no slot is there for it, it is far beyond or comes after one that was, and
    /// it is greater than all such ids. The ids of a log ascend, so each one that comes after a far one is far.
    fn is_far(&self, id: u64) -> bool
        ensures beyond { result ≡ true → vec_len self.now.near ≤ id }
        ensures below { result ≡ true → All (λ other. other < id) self.now.far_ids }
    {
        if id < self.near.len() as u64 {
            return false;
        }
        let limit = self
            .added
            .saturating_mul(IDS_PER_RUN)
            .saturating_add(FIRST_IDS);
        if id < limit as u64 && self.far_ids.len() == 0 {
            return false;
        }
        self.far_ids.are_below(id)
    }
}

/// The run in the slot, if there are both.
fn slot_at(slots: &[Option<Run>], index: usize) -> Option<Run>
    ensures { result ≡ slice_index_or slots.now index None }
{
    if index < slots.len() {
        slots[index]
    } else {
        None
    }
}

/// Puts a run behind the others, under an id that is greater than theirs.
fn push_far(
    far_ids: &mut FarIds,
    far: &mut Vec<Option<Run>>,
    id: u64,
    run: Run,
) -> Result<(), OutOfMemory>
    requires { All (λ other. other < id) far_ids.old }
    ensures ok { OnOk result (Updated (far_entries 0 far_ids.old far.old.items)
        (far_entries 0 far_ids.new far.new.items) id (Some run)) }
    ensures err { OnErr result (far_entries 0 far_ids.new far.new.items ≡ far_entries 0 far_ids.old far.old.items) }
{
    far_ids.make_room()?;
    put_slot(far, far_ids.len(), run)?;
    far_ids.push(id)?;
    Ok(())
}

/// Takes the run of the id out, if there is one.
fn clear_far(far_ids: &FarIds, far: &mut Vec<Option<Run>>, id: u64)
    ensures { Updated (far_entries 0 far_ids.now far.old.items) (far_entries 0 far_ids.now far.new.items) id None }
{
    if let Some(place) = far_ids.find(id) {
        clear_slot(far, place);
    }
}

/// Puts a run into the slot, which is made where there is none.
fn put_slot(slots: &mut Vec<Option<Run>>, index: usize, run: Run) -> Result<(), OutOfMemory>
    ensures ok { OnOk result (IsWritten slots.old.items slots.new.items index (Some run)) }
    ensures err { OnErr result (slots.new.items ≡ slots.old.items) }
{
    reach_slot(slots, index)?;
    slots[index] = Some(run);
    Ok(())
}

/// Makes the vector reach beyond the index.
fn reach_slot(slots: &mut Vec<Option<Run>>, index: usize) -> Result<(), OutOfMemory>
    ensures ok { OnOk result (index < vec_len slots.new) }
    ensures same { OnOk result ((q : ℕ) →
        slice_index_or slots.new.items q None ≡ slice_index_or slots.old.items q None) }
    ensures err { OnErr result (slots.new.items ≡ slots.old.items) }
{
    if index < slots.len() {
        return Ok(());
    }
    let Some(count) = index.checked_add(1) else {
        return Err(OutOfMemory);
    };
    reserve_slots(slots, count)?;
    slots.resize(count, None)?;
    Ok(())
}

/// Makes room for so many slots. A full vector grows by an eighth, so it never has room for more than an eighth beyond
/// those that it has, and a slot is copied eight times at most, over many that are added.
fn reserve_slots(slots: &mut Vec<Option<Run>>, count: usize) -> Result<(), OutOfMemory>
    ensures { slots.new.items ≡ slots.old.items }
{
    if count <= slots.capacity() {
        return Ok(());
    }
    slots.reserve_exact((slots.len() / 8).max(count - slots.len()))?;
    Ok(())
}

/// Takes the run out of the slot, if there is one.
fn clear_slot(slots: &mut Vec<Option<Run>>, index: usize)
    ensures { IsWritten slots.old.items slots.new.items index None }
{
    if index < slots.len() {
        slots[index] = None;
    }
}
