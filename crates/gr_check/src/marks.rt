// Which literals are taken as true.
ghost use Rattle.std.specs.Prelude.{◌≡◌, ◌≤◌, ◌<◌, [], IfOk, OnOk, OnErr};
ghost use Rattle.gr_logic.specs.Rup.{members, with_literal};

use gr_logic::{Lit, OutOfMemory};
use std::alloc::Global;
use std::marker::Model;

/// A set of literals: a contract sees the list of its members, and the number of variables. Both
/// literals of a variable may be in it, so each has a flag of its own.
#[derive(Drop)]
pub(crate) struct Marks {
    vars: u32,
    /// Whether a literal is in the set, by its code.
    flags: Vec<bool>,
    /// The members: what is undone, so that no clearing goes over all variables.
    marked: Vec<Lit>,
}

impl Model for Marks {
    ghost use Rattle.gr_check.specs.Marks.{Marked, IsMarked};

    ghost Value = { Marked };

    ghost view = { λ marks. record { vars = marks.vars; list = marks.marked.items } };

    ghost invariant = { λ marks. IsMarked marks.vars marks.flags.items marks.marked.items };
}

impl Marks {
    /// No literals, over so many variables.
    pub(crate) fn new(alloc: Global, vars: u32) -> Result<Marks, OutOfMemory>
        requires { vars ≤ 1_000_000 }
        ensures { IfOk result (λ marks. marks ≡ record { vars = vars; list = [] }) }
    {
        let flags = Vec::from_elem(alloc, false, 2 * (vars as usize))?;
        Ok(Marks {
            vars,
            flags,
            marked: Vec::new(alloc),
        })
    }

    /// Whether the literal is in the set.
    pub(crate) fn has(&self, lit: Lit) -> bool
        requires { lit.index < self.now.vars }
        ensures { result ≡ members self.now.list lit }
    {
        self.flags[lit.code()]
    }

    /// Puts the literal into the set.
    pub(crate) fn add(&mut self, lit: Lit) -> Result<(), OutOfMemory>
        requires { lit.index < self.old.vars }
        ensures ok { OnOk result (members self.new.list ≡ with_literal (members self.old.list) lit) }
        ensures vars { self.new.vars ≡ self.old.vars }
        ensures err { OnErr result (self.new ≡ self.old) }
    {
        if self.flags[lit.code()] {
            return Ok(());
        }
        self.marked.push(lit)?;
        self.flags[lit.code()] = true;
        Ok(())
    }

    /// Takes out all literals, in time linear in how many there are.
    pub(crate) fn clear(&mut self)
        ensures { self.new ≡ record self.old { list = [] } }
    {
        while let Some(lit) = self.marked.pop() {
            self.flags[lit.code()] = false;
        }
    }
}
