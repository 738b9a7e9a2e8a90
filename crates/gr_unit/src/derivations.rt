// The literals that unit propagation has derived.
ghost use Rattle.std.specs.Prelude.{◌≡◌, ◌++◌, ◌∷◌, [], IfOk};
ghost use Rattle.std.specs.FinSet as set;
ghost use Rattle.gr_logic.specs.Rup.{members};

use gr_logic::{Lit, LitSet, OutOfMemory};
use std::alloc::Global;
use std::marker::Model;

/// Literals that are taken as true: a contract sees the list of them, in the order in which they came.
#[derive(Drop)]
pub(crate) struct Derived {
    lits: Vec<Lit>,
    /// The same literals, for look-ups.
    looked_up: LitSet,
}

impl Model for Derived {
    ghost use Rattle.std.specs.Prelude.{◌≡◌, List};
    ghost use Rattle.std.specs.FinSet as set;
    ghost use Rattle.gr_logic.specs.Literals.{Literal};
    ghost use Rattle.gr_logic.specs.Rup.{members};

    ghost Value = { List Literal };

    ghost view = { λ derived. derived.lits.items };

    ghost invariant = { λ derived. set.contains derived.looked_up ≡ members derived.lits.items };
}

impl Derived {
    /// No literals.
    pub(crate) fn new(alloc: Global) -> Derived
        ensures { result ≡ [] }
    {
        Derived {
            lits: Vec::new(alloc),
            looked_up: LitSet::new(alloc),
        }
    }

    /// These literals, and one more.
    pub(crate) fn with(self, lit: Lit) -> Result<Derived, OutOfMemory>
        ensures { IfOk result (λ derived. derived ≡ self ++ lit ∷ []) }
    {
        let Derived {
            mut lits,
            mut looked_up,
        } = self;
        lits.push(lit)?;
        looked_up.add(lit)?;
        Ok(Derived { lits, looked_up })
    }

    /// The literals, in order.
    pub(crate) fn lits(&self) -> &[Lit]
        ensures { result.now ≡ self.now }
    {
        self.lits.as_slice()
    }

    /// Whether the literal is one of them.
    pub(crate) fn has(&self, lit: Lit) -> bool
        ensures { result ≡ members self.now lit }
    {
        self.looked_up.has(lit)
    }

    /// The literals as a set.
    pub(crate) fn into_set(self) -> LitSet
        ensures { set.contains result ≡ members self }
    {
        let Derived { lits: _, looked_up } = self;
        looked_up
    }
}
