// What a reader takes at most.

/// How much a formula, and the text that spells it, may have. No limit may be above that of `PROGRAM_LIMITS`.
#[derive(Clone, Copy, Debug, PartialEq, Eq)]
pub struct Limits {
    /// The number of variables that the header may give.
    pub vars: u32,
    /// The number of clauses that the header may give.
    pub clauses: u64,
    /// The number of literals in all clauses.
    pub literals: u64,
    /// The number of bytes that are looked at. A text of so many bytes is too long unless it ends before with `%`.
    pub bytes: u64,
}

/// The limits of the program.
pub const PROGRAM_LIMITS: Limits = Limits {
    vars: 1_000_000,
    clauses: 5_000_000,
    literals: 20_000_000,
    bytes: 4_294_967_296,
};
