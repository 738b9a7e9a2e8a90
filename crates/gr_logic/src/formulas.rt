// A formula.
ghost use Rattle.std.specs.Prelude.{◌≡◌, ◌≤◌, ◌<◌, ◌↔◌, ◌++◌, ◌∷◌, [], length, All, IsTrue, OnOk, OnErr};
ghost use Rattle.gr_logic.specs.Formulas.{Cnf, VarsUpTo};
ghost use Rattle.gr_logic.specs.Truth.{MeetsAll, clause_true};

use crate::assignments::Assignment;
use crate::clauses::Clause;
use crate::literals::Lit;
use crate::memory::OutOfMemory;
use std::alloc::Global;
use std::marker::Model;

/// A formula in conjunctive normal form over the variables 1 to V: a contract sees V and the clauses.
#[derive(Debug, Drop)]
pub struct Formula {
    vars: u32,
    clauses: Vec<Clause>,
}

impl Model for Formula {
    ghost use Rattle.gr_logic.specs.Formulas.{Cnf, IsBounded};

    ghost Value = { Cnf };

    ghost view = { λ formula. record { vars = formula.vars; clauses = formula.clauses.items } };

    ghost invariant = { λ formula. IsBounded (record { vars = formula.vars; clauses = formula.clauses.items }) };
}

impl Formula {
    /// No clauses, over the variables 1 to `vars`. Takes no memory.
    pub fn new(alloc: Global, vars: u32) -> Formula
        requires { vars ≤ 1_000_000 }
        ensures { result ≡ record { vars = vars; clauses = [] } }
    {
        Formula {
            vars,
            clauses: Vec::new(alloc),
        }
    }

    /// The number of variables.
    pub fn vars(&self) -> u32
        ensures vars { result ≡ self.now.vars }
        ensures small { result ≤ 1_000_000 }
    {
        self.vars
    }

    /// The clauses, in order.
    pub fn clauses(&self) -> &[Clause]
        ensures clauses { result.now ≡ self.now.clauses }
        ensures within { All (VarsUpTo self.now.vars) self.now.clauses }
        ensures few { length self.now.clauses ≤ 5_000_000 }
    {
        self.clauses.as_slice()
    }

    /// Whether the assignment satisfies every clause.
    pub fn met_by(&self, model: &Assignment) -> bool
        requires { length model.now ≡ self.now.vars }
        ensures { IsTrue result ↔ MeetsAll model.now self.now.clauses }
    {
        self.clauses()
            .iter()
            .all(|clause| is_clause_met(clause.lits(), model))
    }

    /// Appends a clause. Where memory is wanting, the clause is dropped and the formula stays.
    pub fn push(&mut self, clause: Clause) -> Result<(), OutOfMemory>
        requires vars { VarsUpTo self.old.vars clause }
        requires room { length self.old.clauses < 5_000_000 }
        ensures ok { OnOk result (self.new ≡ record self.old { clauses = self.old.clauses ++ clause ∷ [] }) }
        ensures err { OnErr result (self.new ≡ self.old) }
    {
        self.clauses.push(clause)?;
        Ok(())
    }
}

/// Whether some literal of the clause is true.
fn is_clause_met(lits: &[Lit], model: &Assignment) -> bool
    requires { VarsUpTo (length model.now) lits.now }
    ensures { result ≡ clause_true model.now lits.now }
{
    lits.iter().any(|lit| model.makes_true(*lit))
}
