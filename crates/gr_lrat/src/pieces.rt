// What comes next in a line of a log.
ghost use Rattle.std.specs.Prelude.{◌≡◌, ◌≤◌, ◌<◌, ℕ, List, IfOk, IfErr};
ghost use Rattle.gr_text.specs.Stands.{stand};
ghost use Rattle.gr_lrat.specs.Lines.{Spelling};
ghost use Rattle.gr_lrat.specs.Stages.{Comes, FailsInLine, GoesFor, Passes, PassesPiece, Tells};

use gr_io::Source;
use gr_text::{ScanError, Scanned, Scanner};

/// Where a line ended, and whether the text ended with it.
#[derive(Clone, Copy, Debug, PartialEq, Eq)]
pub struct Ending {
    pub line: u64,
    pub last: bool,
}

/// A token of the line, or its end.
#[derive(Clone, Copy, Debug, PartialEq, Eq)]
pub enum Piece {
    Token,
    End(Ending),
}

/// The next token of the line, or its end.
pub fn next_piece<S: Source>(scanner: &mut Scanner<'_, S>) -> Result<Piece, ScanError>
    ensures same { scanner.new.source.ghost_name ≡ scanner.old.source.ghost_name }
    ensures ok { IfOk result (λ piece. (said : List (List ℕ) → Spelling) → Comes said piece
        scanner.old.held (S.left scanner.old.source.now)
        scanner.new.held (S.left scanner.new.source.now)) }
    ensures onward { IfOk result (λ piece. PassesPiece piece scanner.old.held scanner.new.held) }
    ensures err { IfErr result (λ e. (said : List (List ℕ) → Spelling) → FailsInLine said e
        scanner.old.held (S.left scanner.old.source.now)
        scanner.new.held (S.left scanner.new.source.now)) }
    ensures goes { GoesFor result (stand S.left S.taken S.faults scanner.old.held scanner.old.source.now)
        (stand S.left S.taken S.faults scanner.new.held scanner.new.source.now) }
{
    match scanner.next() {
        Ok(Scanned::Token { .. }) => Ok(Piece::Token),
        Ok(Scanned::LineEnd { line }) => Ok(Piece::End(Ending { line, last: false })),
        Ok(Scanned::End { line }) => Ok(Piece::End(Ending { line, last: true })),
        Err(failed) => Err(failed),
    }
}

/// Passes what is left of the line.
pub fn skip_rest<S: Source>(scanner: &mut Scanner<'_, S>) -> Result<Ending, ScanError>
    ensures same { scanner.new.source.ghost_name ≡ scanner.old.source.ghost_name }
    ensures tells { (spelt : Spelling) → Tells (λ ws. spelt) (λ end. spelt) (λ end. end) result
        scanner.old.held (S.left scanner.old.source.now)
        scanner.new.held (S.left scanner.new.source.now) }
    ensures onward { IfOk result (λ end. Passes end scanner.old.held scanner.new.held) }
    ensures goes { GoesFor result (stand S.left S.taken S.faults scanner.old.held scanner.old.source.now)
        (stand S.left S.taken S.faults scanner.new.held scanner.new.source.now) }
{
    match scanner.skip_line() {
        Ok(()) => {}
        Err(failed) => return Err(failed),
    }
    'pieces: loop {
        match next_piece(scanner) {
            Ok(Piece::Token) => {}
            Ok(Piece::End(end)) => return Ok(end),
            Err(failed) => return Err(failed),
        }
    }
}
