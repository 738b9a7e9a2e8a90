// The trail.
ghost use Rattle.std.specs.Prelude.{◌≡◌, ◌≤◌, ◌<◌, ◌+◌, ◌*◌, All, ◌++◌, ◌∷◌, [], Some, None, IsSome, IfOk, slice_get, option_map, slice_set, length};
ghost use Rattle.gr_trail.specs.Trails.{Assigned, TrailState, IsTrail, value_in, lits_of, assigned_to, up_to, with_reason};
ghost use Rattle.gr_trail.specs.Columns.{made_true, cleared};

use crate::values::Value;
use gr_logic::{Lit, OutOfMemory, Place};
use std::alloc::Global;
use std::marker::Model;

/// The literals that are true, in the order of their assignment. A contract sees the number of
/// variables, the present decision level, and a list of the literals with their levels and reasons.
///
/// Variables are counted from 1. Only `new` takes memory.
#[derive(Drop)]
pub struct Trail {
    /// The value of each literal, by its code.
    values: Vec<Value>,
    /// The assignment of each variable that has a value, by the variable's index.
    entries: Vec<Entry>,
    /// The literals in order, in the first `len` places.
    lits: Vec<Lit>,
    /// How long the trail was when each level above zero was opened, in the first `depth` places.
    starts: Vec<u32>,
    len: usize,
    depth: u32,
}

/// The assignment of a variable.
#[derive(Clone, Copy, Default)]
pub(crate) struct Entry {
    level: u32,
    position: u32,
    reason: Option<Place>,
}

impl Model for Trail {
    ghost use Rattle.gr_trail.specs.Trails.{TrailState};
    ghost use Rattle.gr_trail.specs.Columns.{IsStored, trail_in};

    ghost Value = { TrailState };

    ghost view = { λ trail. trail_in trail.entries.items trail.lits.items trail.len trail.depth };

    ghost invariant = { λ trail.
        IsStored trail.values.items trail.entries.items trail.lits.items trail.len
        trail.starts.items trail.depth };
}

impl Trail {
    /// No literal is true, over the variables 1 to `vars`, at level zero.
    pub fn new(alloc: Global, vars: u32) -> Result<Trail, OutOfMemory>
        requires { vars ≤ 1_000_000 }
        ensures { IfOk result (λ trail. trail ≡ record { vars = vars; depth = 0; assigned = [] }) }
    {
        let n = vars as usize;
        let values = Vec::from_elem(alloc, Value::Open, 2 * n)?;
        let entries = Vec::from_elem(alloc, Entry::default(), n)?;
        let lits = Vec::from_elem(alloc, Lit::from_code(0), n)?;
        let starts = Vec::from_elem(alloc, 0, n)?;
        Ok(Trail {
            values,
            entries,
            lits,
            starts,
            len: 0,
            depth: 0,
        })
    }

    /// Whether the literal is true or false: `None` where its variable has no value.
    pub fn value(&self, lit: Lit) -> Option<bool>
        requires { lit.index < self.now.vars }
        ensures { result ≡ value_in self.now.assigned lit }
    {
        self.values[lit.code()].truth()
    }

    /// The decision level at which the variable got its value.
    pub fn level(&self, var: u32) -> u32
        requires { IsSome (assigned_to self.now.assigned var) }
        ensures { option_map (λ entry. entry.level) (assigned_to self.now.assigned var) ≡ Some result }
    {
        self.entries[(var - 1) as usize].level
    }

    /// How many literals were assigned before the variable's.
    pub fn position(&self, var: u32) -> usize
        requires { IsSome (assigned_to self.now.assigned var) }
        ensures { slice_get self.now.assigned result ≡ assigned_to self.now.assigned var }
    {
        self.entries[(var - 1) as usize].position as usize
    }

    /// The place of the clause that forced the variable's value: `None` exactly for decisions.
    pub fn reason(&self, var: u32) -> Option<Place>
        requires { IsSome (assigned_to self.now.assigned var) }
        ensures { option_map (λ entry. entry.reason) (assigned_to self.now.assigned var) ≡ Some result }
    {
        self.entries[(var - 1) as usize].reason
    }

    /// The literals, in the order of their assignment.
    pub fn lits(&self) -> &[Lit]
        ensures lits { result.now ≡ lits_of self.now.assigned }
        ensures trail { IsTrail self.now }
    {
        &self.lits.as_slice()[..self.len]
    }

    /// The present decision level: how many decisions there are.
    pub fn depth(&self) -> u32
        ensures depth { result ≡ self.now.depth }
        ensures trail { IsTrail self.now }
    {
        self.depth
    }

    /// Makes a literal true at the present level, forced by the clause at this place.
    pub fn assign(&mut self, lit: Lit, reason: Place)
        requires within { lit.index < self.old.vars }
        requires unassigned { value_in self.old.assigned lit ≡ None }
        ensures { self.new ≡ record self.old {
          assigned = self.old.assigned
              ++ record { lit = lit; level = self.old.depth; reason = Some reason } ∷ [];
        } }
    {
        let entry = Entry {
            level: self.depth,
            position: self.len as u32,
            reason: Some(reason),
        };
        write(
            &mut self.values,
            &mut self.entries,
            &mut self.lits,
            lit,
            entry,
        );
        self.len += 1;
    }

    /// Opens a new level, and makes a literal true there.
    pub fn decide(&mut self, lit: Lit)
        requires within { lit.index < self.old.vars }
        requires unassigned { value_in self.old.assigned lit ≡ None }
        ensures { self.new ≡ record self.old {
          depth = self.old.depth + 1;
          assigned = self.old.assigned
              ++ record { lit = lit; level = self.old.depth + 1; reason = None } ∷ [];
        } }
    {
        self.starts[self.depth as usize] = self.len as u32;
        self.depth += 1;
        let entry = Entry {
            level: self.depth,
            position: self.len as u32,
            reason: None,
        };
        write(
            &mut self.values,
            &mut self.entries,
            &mut self.lits,
            lit,
            entry,
        );
        self.len += 1;
    }

    /// Takes back what was assigned above the level, which becomes the present one.
    pub fn backtrack(&mut self, level: u32)
        requires { level ≤ self.old.depth }
        ensures { self.new ≡ record self.old { depth = level; assigned = up_to level self.old.assigned } }
    {
        if level == self.depth {
            return;
        }
        let kept = self.starts[level as usize] as usize;
        clear(&mut self.values, &self.lits.as_slice()[kept..self.len]);
        self.len = kept;
        self.depth = level;
    }

    /// Gives a variable that has its value at level zero another reason.
    pub fn set_reason(&mut self, var: u32, place: Place)
        requires { option_map (λ entry. entry.level) (assigned_to self.old.assigned var) ≡ Some 0 }
        ensures { self.new ≡ record self.old { assigned = with_reason self.old.assigned var place } }
    {
        self.entries[(var - 1) as usize].reason = Some(place);
    }
}

/// Makes a literal true in each column but that of levels.
fn write(
    values: &mut Vec<Value>,
    entries: &mut Vec<Entry>,
    lits: &mut Vec<Lit>,
    lit: Lit,
    entry: Entry,
)
    requires value { 2 * lit.index + 1 < length values.old.items }
    requires entry { lit.index < length entries.old.items }
    requires lit { entry.position < length lits.old.items }
    ensures values { values.new.items ≡ made_true values.old.items lit }
    ensures entries { entries.new.items ≡ slice_set entries.old.items lit.index entry }
    ensures lits { lits.new.items ≡ slice_set lits.old.items entry.position lit }
{
    values[lit.code()] = Value::True;
    values[lit.negate().code()] = Value::False;
    entries[lit.index()] = entry;
    lits[entry.position as usize] = lit;
}

/// Takes the values of these literals back.
fn clear(values: &mut Vec<Value>, lits: &[Lit])
    requires { All (λ l. 2 * l.index + 1 < length values.old.items) lits.now }
    ensures { values.new.items ≡ cleared values.old.items lits.now }
{
    for lit in lits {
        values[lit.code()] = Value::Open;
        values[lit.negate().code()] = Value::Open;
    }
}
