// Clauses moved together within their vector of literals.
ghost use Rattle.std.specs.Prelude.{◌≡◌, ◌≤◌, ◌+◌, ◌++◌, true, All, length, take, drop};
ghost use Rattle.gr_check.specs.Runs.{AreSlid, IsRunWithin, are_in_order, end_in_order, begins_from, lits_in, moved_to, run_length};

use crate::runs::Run;
use gr_logic::Lit;

/// Where the runs end if they are moved together from this place on, one by one: nothing where one of them begins
/// before its new place, or ends beyond so many literals. Runs that were appended as their ids came are in order,
/// whichever of them were taken out since.
pub(crate) fn end_in_order(slots: &[Option<Run>], start: usize, count: usize) -> Option<usize>
    ensures order { result ≡ end_in_order count start slots.now }
{
    let mut end = start;
    for slot in slots {
        if let Some(run) = slot {
            let from = run.from as usize;
            let len = run.len as usize;
            if from < end {
                return None;
            }
            if count < from + len {
                return None;
            }
            end += len;
        }
    }
    Some(end)
}

/// Moves the literals of all runs together, from this place on, and says where they end. The literals before that place
/// stay, and so do those behind the end, until more are moved. No memory is taken.
pub(crate) fn slide(lits: &mut Vec<Lit>, slots: &mut Vec<Option<Run>>, start: usize) -> usize
    requires start { start ≤ length lits.old.items }
    requires order { are_in_order start slots.old.items ≡ true }
    requires within { All (IsRunWithin (length lits.old.items)) slots.old.items }
    ensures slid { AreSlid lits.old.items slots.old.items start lits.new.items slots.new.items result }
{
    let mut end = start;
    for i in 0..slots.len() {
        let slot = slots[i];
        slots[i] = slide_slot(lits, slot, end);
        end += slot_len(slot);
    }
    end
}

/// Moves the literals of a run, if there is one, to this place, and says where they are then.
fn slide_slot(lits: &mut Vec<Lit>, slot: Option<Run>, end: usize) -> Option<Run>
    requires within { IsRunWithin (length lits.old.items) slot }
    requires order { begins_from end slot ≡ true }
    ensures run { result ≡ moved_to end slot }
    ensures count { length lits.new.items ≡ length lits.old.items }
    ensures moved { take (end + run_length slot) lits.new.items
        ≡ take end lits.old.items ++ lits_in lits.old.items slot }
    ensures rest { drop (end + run_length slot) lits.new.items ≡ drop (end + run_length slot) lits.old.items }
{
    let run = slot?;
    let from = run.from as usize;
    lits.copy_within(from..from + run.len as usize, end);
    Some(Run {
        from: end as u32,
        len: run.len,
    })
}

/// How many literals a run has, if there is one.
fn slot_len(slot: Option<Run>) -> usize
    ensures { result ≡ run_length slot }
{
    match slot {
        None => 0,
        Some(run) => run.len as usize,
    }
}
