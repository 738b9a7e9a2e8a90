// The levels that an analysis met.
ghost use Rattle.std.specs.Prelude.{◌≡◌, ◌≤◌, ◌<◌, ◌+◌, [], length, IfOk};
ghost use Rattle.gr_hints.specs.Marking.{is_marked, with_mark};

use gr_hints::Marks;
use gr_logic::OutOfMemory;
use std::alloc::Global;
use std::marker::Model;

/// What was met of a level.
#[derive(Clone, Copy)]
struct Seen {
    /// Where its first literal is on the trail, of those that were met.
    first: usize,
    /// Whether there is more than one.
    several: bool,
}

/// The levels of the literals that an analysis met. A contract sees marks on the numbers from 1 to that of the
/// variables. What was met of a level tells minimisation where a search is in vain; no contract speaks of it.
#[derive(Drop)]
pub(crate) struct Levels {
    marks: Marks,
    /// By level. Of a level that is not marked it says nothing.
    seen: Vec<Seen>,
}

impl Model for Levels {
    ghost use Rattle.std.specs.Prelude.{◌≡◌, ◌+◌, length};
    ghost use Rattle.gr_hints.specs.Marking.{MarkState, mark_code};

    ghost Value = { MarkState };

    ghost coded = { mark_code };

    ghost view = { λ levels. levels.marks };

    ghost invariant = { λ levels. length levels.seen.items ≡ levels.marks.vars + 1 };
}

impl Levels {
    /// No level was met, of those from 1 to `vars`.
    pub(crate) fn new(alloc: Global, vars: u32) -> Result<Levels, OutOfMemory>
        requires { vars ≤ 1_000_000 }
        ensures { IfOk result (λ levels. levels ≡ record { vars = vars; marked = [] }) }
    {
        let marks = Marks::new(alloc, vars)?;
        let none = Seen {
            first: 0,
            several: false,
        };
        let seen = Vec::from_elem(alloc, none, vars as usize + 1)?;
        Ok(Levels { marks, seen })
    }

    /// A literal of the level was met, which is at this place on the trail.
    pub(crate) fn meet(&mut self, level: u32, position: usize)
        requires low { 0 < level }
        requires high { level ≤ self.old.vars }
        ensures { self.new ≡ record self.old { marked = with_mark self.old.marked level } }
    {
        let index = level as usize;
        let several = self.marks.has(level);
        let first = self.seen[index].first;
        self.seen[index] = Seen {
            first: if several && first < position {
                first
            } else {
                position
            },
            several,
        };
        self.marks.set(level);
    }

    /// Whether a literal of the level was met before this place on the trail: only then can one that is there follow
    /// from those that were met.
    pub(crate) fn has_before(&self, level: u32, position: usize) -> bool
        requires low { 0 < level }
        requires high { level ≤ self.now.vars }
    {
        self.marks.has(level) && self.seen[level as usize].first < position
    }

    /// Whether that is so, and another literal of the level was met: only then can one of the clause
    /// follow from others.
    pub(crate) fn has_other_before(&self, level: u32, position: usize) -> bool
        requires { level ≤ self.now.vars }
    {
        let seen = self.seen[level as usize];
        seen.several && seen.first < position
    }

    /// Marks a level.
    pub(crate) fn set(&mut self, level: u32)
        requires low { 0 < level }
        requires high { level ≤ self.old.vars }
        ensures { self.new ≡ record self.old { marked = with_mark self.old.marked level } }
    {
        self.marks.set(level);
    }

    /// How many levels are marked.
    pub(crate) fn count(&self) -> u32
        ensures { result ≡ length self.now.marked }
    {
        self.marks.all().len() as u32
    }

    /// Takes all marks away.
    pub(crate) fn clear(&mut self)
        ensures { self.new ≡ record self.old { marked = [] } }
    {
        self.marks.clear();
    }
}
