// What the words call for.
ghost use Rattle.std.specs.Prelude.{◌≡◌, ◌≢◌};
ghost use Rattle.clap.specs.Words.{kind_of};

use clap::Error;
use clap::error::ErrorKind;

/// Why the words call for nothing.
#[derive(Clone, Copy, Debug, PartialEq, Eq)]
pub enum WordsError {
    /// They are no lawful command line.
    Usage,
    OutOfMemory,
}

/// To decide the formula in a file, and to write its proof log to another, with these options.
#[derive(Debug, Drop)]
pub struct SolveWords<'a> {
    pub cnf: &'a str,
    pub log: &'a str,
    pub reducers: u32,
    pub conflicts: u32,
    pub capacity: u32,
    pub offer: u32,
    pub keep_all: bool,
}

/// To check the proof log in a file against the formula in another.
#[derive(Debug, Drop)]
pub struct CheckWords<'a> {
    pub cnf: &'a str,
    pub log: &'a str,
}

/// A kind of formula that can be made of any size.
#[derive(Clone, Copy, Debug, PartialEq, Eq)]
pub enum Kind {
    OddRing,
    Pigeons,
}

/// To make a formula of this kind and size, and to decide it.
#[derive(Clone, Copy, Debug, PartialEq, Eq)]
pub struct LargeWords {
    pub kind: Kind,
    pub n: u32,
}

/// What a lawful command line calls for.
#[derive(Debug, Drop)]
pub enum Call<'a> {
    Solve(SolveWords<'a>),
    Check(CheckWords<'a>),
    Large(LargeWords),
}

/// Why clap takes no words.
pub(crate) fn refusal(error: Error) -> WordsError
    ensures { result ≡ WordsError.Usage → kind_of error ≢ ErrorKind.OutOfMemory }
{
    match error.kind() {
        ErrorKind::OutOfMemory => WordsError::OutOfMemory,
        _ => WordsError::Usage,
    }
}
