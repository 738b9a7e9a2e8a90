// Where marked variables are on the trail, in its order.
ghost use Rattle.std.specs.Prelude.{◌≡◌, ◌≤◌, All, length, IsSome, IfOk};
ghost use Rattle.std.specs.List.Sorted.{IsPermutation, IsNonDecreasing};
ghost use Rattle.gr_trail.specs.Trails.{IsTrail, assigned_to};
ghost use Rattle.gr_hints.specs.Positions.{ArePlaced, AreOrdered};

use gr_logic::OutOfMemory;
use gr_trail::Trail;
use std::alloc::Global;

/// Where on the trail these variables are, in ascending order, with room for one more.
pub(crate) fn positions_of(
    alloc: Global,
    trail: &Trail,
    vars: &[u32],
) -> Result<Vec<u64>, OutOfMemory>
    requires { All (λ var. IsSome (assigned_to trail.now.assigned var)) vars.now }
    ensures { IfOk result (λ positions. AreOrdered trail.now.assigned vars.now positions.items) }
{
    let mut positions = Vec::with_capacity(alloc, vars.len() + 1)?;
    positions.resize(vars.len(), 0)?;
    let below = place(trail, trail.depth(), vars, &mut positions);
    order(&mut positions, below);
    Ok(positions)
}

/// Writes where on the trail the variables are: those of the level from the end on, the others from the
/// beginning on: how many others there are. Conflict analysis marks the variables of the present level from
/// the trail's end on, so that these are in order then.
fn place(trail: &Trail, level: u32, vars: &[u32], positions: &mut Vec<u64>) -> usize
    requires valued { All (λ var. IsSome (assigned_to trail.now.assigned var)) vars.now }
    requires room { length positions.old.items ≡ length vars.now }
    ensures within { result ≤ length positions.new.items }
    ensures placed { ArePlaced trail.now.assigned vars.now positions.new.items }
{
    let mut below = 0;
    let mut from = positions.len();
    for var in vars {
        let position = trail.position(*var) as u64;
        if trail.level(*var) == level {
            from -= 1;
            positions[from] = position;
        } else {
            positions[below] = position;
            below += 1;
        }
    }
    below
}

/// Sorts numbers of which those from the index on are mostly in order, and not below the others.
fn order(positions: &mut Vec<u64>, below: usize)
    requires { below ≤ length positions.old.items }
    ensures permuted { IsPermutation positions.old.items positions.new.items }
    ensures sorted { IsNonDecreasing positions.new.items }
{
    sort_front(positions.as_mut_slice(), below);
    if !positions.as_slice().is_sorted() {
        positions.sort_unstable();
    }
}

/// Sorts the numbers before the index.
fn sort_front(positions: &mut [u64], below: usize)
    requires { below ≤ length positions.old }
    ensures { IsPermutation positions.old positions.new }
{
    positions[..below].sort_unstable();
}
