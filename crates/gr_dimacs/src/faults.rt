// Why a text is no formula.
use thiserror::Error;

/// The first place at which a text departs from the grammar.
#[derive(Clone, Copy, Debug, PartialEq, Eq)]
pub struct GrammarFault {
    pub kind: FaultKind,
    /// The line of the token at fault, or that of the text's end, counted from 1.
    pub line: u64,
}

/// What is wrong there. At one token the kinds are tried in the order of the grammar's table in the README.
#[derive(Clone, Copy, Debug, PartialEq, Eq)]
pub enum FaultKind {
    /// The first token is not `p`, or there is none.
    NoHeader,
    /// The second token is not `cnf`, the third or fourth is no count, or there are fewer than four.
    BadHeader,
    /// A token after the header is no number, or begins with `%` inside a clause.
    BadToken,
    /// A literal's variable is above the header's number of variables.
    VarAbove,
    /// A number comes after as many clauses as the header gives.
    TooMany,
    /// The formula ends with fewer clauses than the header gives.
    TooFew,
    /// The text ends inside a clause.
    Unended,
    /// A count of the header, or the number of literals, is above its limit.
    TooLarge,
    /// As many bytes were taken as may be looked at, and they decide nothing.
    TooLong,
}

/// Why no formula was read.
#[derive(Clone, Copy, Debug, Error, PartialEq, Eq)]
pub enum ReadError {
    /// The text is at fault.
    #[error("the text is no formula in DIMACS CNF")]
    Grammar(GrammarFault),
    /// A read of the source failed before the text was decided.
    #[error("the source failed")]
    ReadFault,
    /// Memory was wanting.
    #[error("no memory is left")]
    OutOfMemory,
}
