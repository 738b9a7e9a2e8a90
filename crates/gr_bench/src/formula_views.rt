// What contracts see of a formula.
ghost use Rattle.std.specs.Prelude.{◌≡◌};
ghost use Rattle.std.specs.Borrow.{ftrue};
ghost use Rattle.gr_logic.specs.Formulas.{Cnf};

use gr_logic::Formula;
use std::marker::Model;

/// What a contract sees of a formula. It takes no memory, and nothing of it is there when the program runs: contracts
/// alone tell what it shows.
#[derive(Drop)]
pub(crate) struct FormulaView {
    ghost cnf: { Cnf },
}

impl Model for FormulaView {
    ghost Value = { Cnf };

    ghost view = { λ f. f.cnf };

    ghost also_owns = { λ _. ftrue };
}

// It owns nothing.
unsafe impl Send for FormulaView {}

impl FormulaView {
    /// What a contract sees of this formula.
    pub(crate) fn of(_formula: &Formula) -> FormulaView
        ensures { result ≡ _formula.now }
    {
        FormulaView {}
    }
}
