// The next token outside comments.
ghost use Rattle.std.specs.Prelude.{◌≡◌};
ghost use Rattle.gr_dimacs.specs.Finds.{NextToken};
ghost use Rattle.gr_dimacs.specs.Numbers.{begins};
ghost use Rattle.gr_text.specs.Scans.{IsAnswer};
ghost use Rattle.gr_text.specs.Stands.{Goes, stand};

use gr_io::Source;
use gr_text::{ScanError, Scanned, Scanner};

/// A token outside comments, or the text's end, with its line.
#[derive(Clone, Copy, Debug, PartialEq, Eq)]
pub enum Found {
    Token { line: u64 },
    End { line: u64 },
}

/// The next token outside comments. The scanner then holds its bytes.
pub fn next_token<S: Source>(scanner: &mut Scanner<'_, S>) -> Result<Found, ScanError>
    ensures same { scanner.new.source.ghost_name ≡ scanner.old.source.ghost_name }
    ensures goes { Goes
        (stand S.left S.taken S.faults scanner.old.held scanner.old.source.now)
        (stand S.left S.taken S.faults scanner.new.held scanner.new.source.now) }
    ensures answer { NextToken result
        (stand S.left S.taken S.faults scanner.old.held scanner.old.source.now)
        (stand S.left S.taken S.faults scanner.new.held scanner.new.source.now) }
    ensures calm { IsAnswer result →
        S.faults scanner.new.source.now ≡ S.faults scanner.old.source.now }
{
    'found: loop {
        match scanner.next() {
            Ok(Scanned::Token { line, first }) => {
                if !first || !begins_comment(scanner.token()) {
                    return Ok(Found::Token { line });
                }
                match scanner.skip_line() {
                    Ok(()) => {}
                    Err(failed) => return Err(failed),
                }
            }
            Ok(Scanned::LineEnd { .. }) => {}
            Ok(Scanned::End { line }) => return Ok(Found::End { line }),
            Err(failed) => return Err(failed),
        }
    }
}

/// Whether a line whose first token this is is a comment.
fn begins_comment(token: &[u8]) -> bool
    ensures { result ≡ begins 99 token.now }
{
    match token {
        [byte, ..] => *byte == b'c',
        [] => false,
    }
}
