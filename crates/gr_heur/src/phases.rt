// The sign that each variable is to get.
ghost use Rattle.std.specs.Prelude.{◌≡◌, ◌≤◌, ◌<◌, ◌-◌, false, length, replicate, slice_index_or, slice_set, IfOk};

use gr_logic::{Lit, OutOfMemory};
use std::alloc::Global;
use std::marker::Model;

/// The literal of each variable that was saved last, at first the negative one (phase saving: Pipatsrisawat and
/// Darwiche, SAT 2007). A contract sees whether each literal is positive, in the order of the variables.
///
/// Only `new` takes memory.
#[derive(Drop)]
pub struct Phases {
    /// Whether the literal is positive, by the variable's index: one byte each.
    positive: Vec<bool>,
}

const _: () = prove!(size_of::<bool>() == 1);

impl Model for Phases {
    ghost use Rattle.std.specs.Prelude.{List, Bool, length, ◌≤◌};

    ghost Value = { List Bool };

    ghost view = { λ phases. phases.positive.items };

    ghost invariant = { λ phases. length phases.positive.items ≤ 1000000 };
}

impl Phases {
    /// The negative literals of the variables 1 to `vars`.
    pub fn new(alloc: Global, vars: u32) -> Result<Phases, OutOfMemory>
        requires { vars ≤ 1_000_000 }
        ensures { IfOk result (λ phases. phases ≡ replicate vars false) }
    {
        Ok(Phases {
            positive: Vec::from_elem(alloc, false, vars as usize)?,
        })
    }

    /// Saves a literal as that of its variable.
    pub fn save(&mut self, lit: Lit)
        requires { lit.index < length self.old }
        ensures { self.new ≡ slice_set self.old lit.index lit.positive }
    {
        self.positive[lit.index()] = lit.is_positive();
    }

    /// The literal of a variable, counted from 1, that was saved last.
    pub fn get(&self, var: u32) -> Lit
        requires low { 1 ≤ var }
        requires high { var ≤ length self.now }
        ensures { result ≡ record { index = var - 1; positive = slice_index_or self.now (var - 1) false } }
    {
        Lit::of_var(var, self.positive[(var - 1) as usize])
    }
}
