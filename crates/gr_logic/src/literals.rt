// A literal.
ghost use Rattle.std.specs.Prelude.{◌≡◌, ◌≤◌, ◌<◌, ◌-◌, ◌↔◌, ℕ, ℤ, IsSome, IfSome};
ghost use Rattle.gr_logic.specs.Literals.{Literal, negation, number_of, var_of, IsLiteralNumber};
ghost use Rattle.gr_logic.specs.Codes.{code_of};

use std::marker::Model;

/// A variable or its negation. A contract sees the variable's index, counted from 0, and the sign.
#[derive(Clone, Copy, Debug, PartialEq, Eq, PartialOrd, Ord, Hash)]
#[repr(transparent)]
pub struct Lit {
    /// Twice the index, and one more for the negation: arrays by literal are indexed so.
    code: u32,
}

impl Model for Lit {
    ghost use Rattle.std.specs.Prelude.{◌<◌};
    ghost use Rattle.gr_logic.specs.Literals.{Literal};
    ghost use Rattle.gr_logic.specs.Codes.{literal_of, code_of, code_of-literal_of};

    ghost Value = { Literal };

    ghost view = { λ lit. literal_of lit.code };

    ghost invariant = { λ lit. lit.code < 2_000_000 };

    ghost inverse = { λ literal. record { code = code_of literal } };

    ghost inverse_ok = { λ lit _ i. record { code = code_of-literal_of lit.code i } };
}

impl Lit {
    /// The literal of a DIMACS number: `None` for 0 and for numbers beyond 1,000,000 either way.
    pub fn new(n: i32) -> Option<Lit>
        ensures some { IsSome result ↔ IsLiteralNumber n }
        ensures number { IfSome result (λ lit. number_of lit ≡ n) }
    {
        if n == 0 || n < -1_000_000 || n > 1_000_000 {
            return None;
        }
        let code = if n > 0 {
            2 * (n as u32) - 2
        } else {
            2 * ((-n) as u32) - 1
        };
        Some(Lit { code })
    }

    /// The literal of a variable, counted from 1, and a sign.
    pub fn of_var(var: u32, positive: bool) -> Lit
        requires low { 0 < var }
        requires high { var ≤ 1_000_000 }
        ensures { result ≡ record { index = var - 1; positive = positive } }
    {
        Lit {
            code: if positive { 2 * var - 2 } else { 2 * var - 1 },
        }
    }

    /// The literal of a code: twice the variable's index, and one more for the negation.
    pub fn from_code(code: u32) -> Lit
        requires { code < 2_000_000 }
        ensures { code_of result ≡ code }
    {
        Lit { code }
    }

    /// Twice the variable's index, and one more for the negation: an index for arrays by literal.
    pub fn code(self) -> usize
        ensures code { result ≡ code_of self }
        ensures small { result < 2_000_000 }
    {
        self.code as usize
    }

    /// The DIMACS number: the variable, negative for its negation.
    pub fn number(self) -> i32
        ensures { result ≡ number_of self }
    {
        let n = (self.code / 2) as i32 + 1;
        if self.is_positive() { n } else { -n }
    }

    /// The variable, counted from 1.
    pub fn var(self) -> u32
        ensures number { result ≡ var_of self }
        ensures small { result ≤ 1_000_000 }
    {
        self.code / 2 + 1
    }

    /// The variable, counted from 0: an index for arrays by variable.
    pub fn index(self) -> usize
        ensures index { result ≡ self.index }
        ensures small { result < 1_000_000 }
    {
        (self.code / 2) as usize
    }

    /// Whether the literal stands for its variable, and not for the negation.
    pub fn is_positive(self) -> bool
        ensures { result ≡ self.positive }
    {
        self.code % 2 == 0
    }

    /// The literal of the same variable and the other sign.
    pub fn negate(self) -> Lit
        ensures { result ≡ negation self }
    {
        Lit {
            code: self.code ^ 1,
        }
    }
}
