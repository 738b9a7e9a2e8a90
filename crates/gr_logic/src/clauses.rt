// A clause.
ghost use Rattle.std.specs.Prelude.{◌≡◌, ◌++◌, ◌∷◌, [], IfOk, OnOk, OnErr};

use crate::literals::Lit;
use crate::memory::OutOfMemory;
use std::alloc::Global;
use std::marker::Model;

/// A disjunction of literals: a contract sees the list of them. A literal may stand in it more than once.
#[derive(Debug, Drop)]
pub struct Clause {
    lits: Vec<Lit>,
}

impl Model for Clause {
    ghost use Rattle.std.specs.Prelude.{List};
    ghost use Rattle.gr_logic.specs.Literals.{Literal};

    ghost Value = { List Literal };

    ghost view = { λ clause. clause.lits.items };
}

impl Clause {
    /// The empty clause, which nothing satisfies. Takes no memory.
    pub fn new(alloc: Global) -> Clause
        ensures { result ≡ [] }
    {
        Clause {
            lits: Vec::new(alloc),
        }
    }

    /// A clause of these literals, in one allocation of just their length.
    pub fn from_lits(alloc: Global, lits: &[Lit]) -> Result<Clause, OutOfMemory>
        ensures { IfOk result (λ clause. clause ≡ lits.now) }
    {
        let lits = Vec::from_slice(alloc, lits)?;
        Ok(Clause { lits })
    }

    /// A clause of the same literals.
    pub fn copy(&self) -> Result<Clause, OutOfMemory>
        ensures { IfOk result (λ clause. clause ≡ self.now) }
    {
        Clause::from_lits(*self.lits.allocator(), self.lits.as_slice())
    }

    /// The literals, in order.
    pub fn lits(&self) -> &[Lit]
        ensures { result.now ≡ self.now }
    {
        self.lits.as_slice()
    }

    /// Appends a literal.
    pub fn push(&mut self, lit: Lit) -> Result<(), OutOfMemory>
        ensures ok { OnOk result (self.new ≡ self.old ++ lit ∷ []) }
        ensures err { OnErr result (self.new ≡ self.old) }
    {
        self.lits.push(lit)?;
        Ok(())
    }

    /// Takes out all literals, and keeps their room.
    pub fn clear(&mut self)
        ensures { self.new ≡ [] }
    {
        self.lits.clear();
    }
}
