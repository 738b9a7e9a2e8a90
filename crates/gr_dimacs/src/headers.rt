// The header of a formula: `p cnf V C`.
ghost use Rattle.std.specs.Prelude.{◌≡◌, ◌≤◌, ◌∷◌, []};
ghost use Rattle.gr_text.specs.Places.{known, limit_of};
ghost use Rattle.gr_dimacs.specs.Faults.{same_word};
ghost use Rattle.gr_dimacs.specs.Heads.{CountToken, HeadToken, WordToken};
ghost use Rattle.gr_dimacs.specs.Reads.{IsLawful, IsSettled, IsTooLong};
ghost use Rattle.gr_text.specs.Stands.{Goes, stand};
ghost use Rattle.gr_dimacs.specs.Texts.{Header};

use crate::builders::Builder;
use crate::faults::{FaultKind, GrammarFault, ReadError};
use crate::limits::Limits;
use crate::tokens::{Found, next_token};
use gr_io::Source;
use gr_text::{ScanError, Scanner, count};
use std::alloc::Global;

/// Reads the header, and makes a builder for the clauses that follow it.
pub fn read_header<S: Source>(
    alloc: Global,
    scanner: &mut Scanner<'_, S>,
    limits: &Limits,
) -> Result<Builder, ReadError>
    requires within { known scanner.old.held ≤ limit_of scanner.old.held }
    requires limits { IsLawful limits.now }
    ensures same { scanner.new.source.ghost_name ≡ scanner.old.source.ghost_name }
    ensures goes { Goes
        (stand S.left S.taken S.faults scanner.old.held scanner.old.source.now)
        (stand S.left S.taken S.faults scanner.new.held scanner.new.source.now) }
    ensures answer { Header limits.now result
        (stand S.left S.taken S.faults scanner.old.held scanner.old.source.now)
        (stand S.left S.taken S.faults scanner.new.held scanner.new.source.now) }
    ensures calm { IsSettled result →
        S.faults scanner.new.source.now ≡ S.faults scanner.old.source.now }
    ensures full { IsTooLong result → scanner.new.held.spare ≡ 0 }
{
    match header_word(scanner, b"p", FaultKind::NoHeader) {
        Ok(()) => {}
        Err(failed) => return Err(failed),
    }
    match header_word(scanner, b"cnf", FaultKind::BadHeader) {
        Ok(()) => {}
        Err(failed) => return Err(failed),
    }
    let vars = match header_count(scanner, limits.vars as u64) {
        Ok(vars) => vars,
        Err(failed) => return Err(failed),
    };
    let count = match header_count(scanner, limits.clauses) {
        Ok(count) => count,
        Err(failed) => return Err(failed),
    };
    Ok(Builder::new(alloc, vars as u32, count, limits.literals))
}

/// A word that has to stand here. Where it does not, the given fault.
fn header_word<S: Source>(
    scanner: &mut Scanner<'_, S>,
    word: &[u8],
    wrong: FaultKind,
) -> Result<(), ReadError>
    requires { wrong ≡ FaultKind.TooLong → ⊥ }
    ensures same { scanner.new.source.ghost_name ≡ scanner.old.source.ghost_name }
    ensures goes { Goes
        (stand S.left S.taken S.faults scanner.old.held scanner.old.source.now)
        (stand S.left S.taken S.faults scanner.new.held scanner.new.source.now) }
    ensures answer { WordToken word.now wrong result
        (stand S.left S.taken S.faults scanner.old.held scanner.old.source.now)
        (stand S.left S.taken S.faults scanner.new.held scanner.new.source.now) }
    ensures calm { IsSettled result →
        S.faults scanner.new.source.now ≡ S.faults scanner.old.source.now }
    ensures full { IsTooLong result → scanner.new.held.spare ≡ 0 }
{
    let line = match header_token(scanner, wrong) {
        Ok(line) => line,
        Err(failed) => return Err(failed),
    };
    if is_word(scanner.token(), word) {
        return Ok(());
    }
    Err(ReadError::Grammar(GrammarFault { kind: wrong, line }))
}

/// A count up to the limit.
fn header_count<S: Source>(scanner: &mut Scanner<'_, S>, limit: u64) -> Result<u64, ReadError>
    requires { limit ≤ 5_000_000 }
    ensures same { scanner.new.source.ghost_name ≡ scanner.old.source.ghost_name }
    ensures goes { Goes
        (stand S.left S.taken S.faults scanner.old.held scanner.old.source.now)
        (stand S.left S.taken S.faults scanner.new.held scanner.new.source.now) }
    ensures answer { CountToken limit result
        (stand S.left S.taken S.faults scanner.old.held scanner.old.source.now)
        (stand S.left S.taken S.faults scanner.new.held scanner.new.source.now) }
    ensures calm { IsSettled result →
        S.faults scanner.new.source.now ≡ S.faults scanner.old.source.now }
    ensures full { IsTooLong result → scanner.new.held.spare ≡ 0 }
{
    let line = match header_token(scanner, FaultKind::BadHeader) {
        Ok(line) => line,
        Err(failed) => return Err(failed),
    };
    match count(scanner.token()) {
        None => Err(ReadError::Grammar(GrammarFault {
            kind: FaultKind::BadHeader,
            line,
        })),
        Some(n) => {
            if n <= limit {
                return Ok(n);
            }
            Err(ReadError::Grammar(GrammarFault {
                kind: FaultKind::TooLarge,
                line,
            }))
        }
    }
}

/// The next token, by its line. Where the text ends before it, the given fault.
fn header_token<S: Source>(
    scanner: &mut Scanner<'_, S>,
    at_end: FaultKind,
) -> Result<u64, ReadError>
    requires { at_end ≡ FaultKind.TooLong → ⊥ }
    ensures same { scanner.new.source.ghost_name ≡ scanner.old.source.ghost_name }
    ensures goes { Goes
        (stand S.left S.taken S.faults scanner.old.held scanner.old.source.now)
        (stand S.left S.taken S.faults scanner.new.held scanner.new.source.now) }
    ensures answer { HeadToken at_end result
        (stand S.left S.taken S.faults scanner.old.held scanner.old.source.now)
        (stand S.left S.taken S.faults scanner.new.held scanner.new.source.now) }
    ensures calm { IsSettled result →
        S.faults scanner.new.source.now ≡ S.faults scanner.old.source.now }
    ensures full { IsTooLong result → scanner.new.held.spare ≡ 0 }
{
    match next_token(scanner) {
        Ok(Found::Token { line }) => Ok(line),
        Ok(Found::End { line }) => Err(ReadError::Grammar(GrammarFault { kind: at_end, line })),
        Err(ScanError::TooLong { line }) => Err(ReadError::Grammar(GrammarFault {
            kind: FaultKind::TooLong,
            line,
        })),
        Err(ScanError::ReadFault) => Err(ReadError::ReadFault),
        Err(ScanError::OutOfMemory) => Err(ReadError::OutOfMemory),
    }
}

/// Whether two words are one.
fn is_word(token: &[u8], word: &[u8]) -> bool
    ensures { result ≡ same_word token.now word.now }
{
    token == word
}
