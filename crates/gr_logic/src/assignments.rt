// An assignment.
ghost use Rattle.std.specs.Prelude.{◌≡◌, ◌≤◌, ◌<◌, ◌-◌, [], false, length, replicate, slice_set, IfOk};
ghost use Rattle.gr_logic.specs.Truth.{value_of, literal_true};

use crate::literals::Lit;
use crate::memory::OutOfMemory;
use std::alloc::Global;
use std::marker::Model;

/// A truth value for each of the variables 1 to `len`: a contract sees the list of the values.
#[derive(Debug, Drop)]
pub struct Assignment {
    values: Vec<bool>,
}

impl Model for Assignment {
    ghost use Rattle.std.specs.Prelude.{List, Bool, length, ◌≤◌};

    ghost Value = { List Bool };

    ghost view = { λ assignment. assignment.values.items };

    ghost invariant = { λ assignment. length assignment.values.items ≤ 1_000_000 };
}

impl Assignment {
    /// All of the variables 1 to `vars` false.
    pub fn new(alloc: Global, vars: u32) -> Result<Assignment, OutOfMemory>
        requires { vars ≤ 1_000_000 }
        ensures { IfOk result (λ assignment. assignment ≡ replicate vars false) }
    {
        let values = Vec::from_elem(alloc, false, vars as usize)?;
        Ok(Assignment { values })
    }

    /// No variable. Takes no memory.
    pub fn empty(alloc: Global) -> Assignment
        ensures { result ≡ [] }
    {
        Assignment {
            values: Vec::new(alloc),
        }
    }

    /// How many variables have a value.
    pub fn len(&self) -> u32
        ensures length { result ≡ length self.now }
        ensures small { result ≤ 1_000_000 }
    {
        self.values.len() as u32
    }

    /// The values, from variable 1 on.
    pub fn values(&self) -> &[bool]
        ensures values { result.now ≡ self.now }
        ensures small { length result.now ≤ 1_000_000 }
    {
        self.values.as_slice()
    }

    /// The value of a variable.
    pub fn value(&self, var: u32) -> bool
        requires low { 0 < var }
        requires high { var ≤ length self.now }
        ensures { result ≡ value_of self.now (var - 1) }
    {
        self.values[(var - 1) as usize]
    }

    /// Whether the literal is true.
    pub fn makes_true(&self, lit: Lit) -> bool
        requires { lit.index < length self.now }
        ensures { result ≡ literal_true self.now lit }
    {
        let value = self.values[lit.index()];
        if lit.is_positive() { value } else { !value }
    }

    /// Gives a variable a value.
    pub fn set(&mut self, var: u32, value: bool)
        requires low { 0 < var }
        requires high { var ≤ length self.old }
        ensures { self.new ≡ slice_set self.old (var - 1) value }
    {
        self.values[(var - 1) as usize] = value;
    }
}
