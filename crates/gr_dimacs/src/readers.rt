// A formula read from a source.
ghost use Rattle.std.specs.Prelude.{◌≡◌, ◌≤◌, IfErr};
ghost use Rattle.gr_io.specs.Pieces.{Rose};
ghost use Rattle.gr_text.specs.Places.{at_start, known, limit_of};
ghost use Rattle.gr_dimacs.specs.Answers.{Answers};
ghost use Rattle.gr_dimacs.specs.Reads.{CountsBytes, IsLawful, IsSettled, IsTooLong, Reads};
ghost use Rattle.gr_text.specs.Stands.{Goes, stand};
ghost use Rattle.gr_dimacs.specs.Texts.{Decides};

use crate::builders::{Builder, TakeError};
use crate::faults::{FaultKind, GrammarFault, ReadError};
use crate::headers::read_header;
use crate::limits::Limits;
use crate::tokens::{Found, next_token};
use gr_io::Source;
use gr_logic::Formula;
use gr_text::{Held, ScanError, Scanner};
use std::alloc::Global;

/// Reads the formula that what the source has left spells, up to its end or the `%` that ends it.
///
/// A token counts when the blank after it, or the text's end, was read. The first token that is at fault
/// decides, and nothing behind it is asked for. No more bytes are taken than may be looked at, and just as many
/// where the text is too long. A read that fails ends the reading.
pub fn read<S: Source>(alloc: Global, source: &mut S, limits: &Limits) -> Result<Formula, ReadError>
    requires { IsLawful limits.now }
    ensures answer { Reads limits.now result (S.left source.old) (S.left source.new) }
    ensures counts { CountsBytes limits.now.bytes result (S.taken source.old) (S.taken source.new) }
    ensures fault { IfErr result (λ e. e ≡ ReadError.ReadFault →
        Rose (S.faults source.old) (S.faults source.new)) }
    ensures calm { IsSettled result → S.faults source.new ≡ S.faults source.old }
    ensures grows { S.faults source.old ≤ S.faults source.new }
{
    let held = Held::new(alloc, limits.bytes);
    let mut scanner = Scanner::over(source, held);
    read_scanned(alloc, &mut scanner, limits)
}

/// Reads a formula from its start.
fn read_scanned<S: Source>(
    alloc: Global,
    scanner: &mut Scanner<'_, S>,
    limits: &Limits,
) -> Result<Formula, ReadError>
    requires start { scanner.old.held ≡ at_start limits.now.bytes }
    requires limits { IsLawful limits.now }
    ensures same { scanner.new.source.ghost_name ≡ scanner.old.source.ghost_name }
    ensures goes { Goes
        (stand S.left S.taken S.faults scanner.old.held scanner.old.source.now)
        (stand S.left S.taken S.faults scanner.new.held scanner.new.source.now) }
    ensures answer { Decides result limits.now
        (stand S.left S.taken S.faults scanner.old.held scanner.old.source.now)
        (stand S.left S.taken S.faults scanner.new.held scanner.new.source.now) }
    ensures calm { IsSettled result →
        S.faults scanner.new.source.now ≡ S.faults scanner.old.source.now }
    ensures full { IsTooLong result → scanner.new.held.spare ≡ 0 }
{
    let builder = match read_header(alloc, scanner, limits) {
        Ok(builder) => builder,
        Err(failed) => return Err(failed),
    };
    read_body(scanner, builder)
}

/// Reads the clauses, which the builder takes, up to the end of the formula.
// Apart from its caller, so that registers are given out for this loop alone.
#[inline(never)]
fn read_body<S: Source>(
    scanner: &mut Scanner<'_, S>,
    mut builder: Builder,
) -> Result<Formula, ReadError>
    requires { known scanner.old.held ≤ limit_of scanner.old.held }
    ensures same { scanner.new.source.ghost_name ≡ scanner.old.source.ghost_name }
    ensures goes { Goes
        (stand S.left S.taken S.faults scanner.old.held scanner.old.source.now)
        (stand S.left S.taken S.faults scanner.new.held scanner.new.source.now) }
    ensures answer { Answers result builder
        (stand S.left S.taken S.faults scanner.old.held scanner.old.source.now)
        (stand S.left S.taken S.faults scanner.new.held scanner.new.source.now) }
    ensures calm { IsSettled result →
        S.faults scanner.new.source.now ≡ S.faults scanner.old.source.now }
    ensures full { IsTooLong result → scanner.new.held.spare ≡ 0 }
{
    'tokens: loop {
        let line = match next_token(scanner) {
            Ok(Found::Token { line }) => line,
            Ok(Found::End { line }) => return builder.finish(line),
            Err(ScanError::TooLong { line }) => return Err(grammar(FaultKind::TooLong, line)),
            Err(ScanError::ReadFault) => return Err(ReadError::ReadFault),
            Err(ScanError::OutOfMemory) => return Err(ReadError::OutOfMemory),
        };
        if builder.closes(scanner.token()) {
            return builder.finish(line);
        }
        match builder.take(scanner.token()) {
            Ok(()) => {}
            Err(TakeError::Bad(kind)) => return Err(grammar(kind, line)),
            Err(TakeError::OutOfMemory) => return Err(ReadError::OutOfMemory),
        }
    }
}

fn grammar(kind: FaultKind, line: u64) -> ReadError
    ensures { result ≡ ReadError.Grammar (record { kind = kind; line = line }) }
{
    ReadError::Grammar(GrammarFault { kind, line })
}
