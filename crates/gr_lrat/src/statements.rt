// A line of a log, read to its end.
ghost use Rattle.std.specs.Prelude.{◌≡◌, ◌≤◌, ◌<◌, ℕ, [], ◌∷◌, false, if◌then◌else◌, List, IfOk};
ghost use Rattle.gr_text.specs.Stands.{stand};
ghost use Rattle.gr_lrat.specs.Lines.{Misspelt, deletion_with, ids_from, statement_of, spelling};
ghost use Rattle.gr_lrat.specs.Stages.{GoesFor, Passes, PassesBytes};
ghost use Rattle.gr_lrat.specs.Statements.{TellsStatement, list_of, spelling_of};

use crate::additions::read_addition;
use crate::lists::{ReadList, read_list};
use crate::numerals;
use crate::pieces::{Ending, Piece, next_piece, skip_rest};
use gr_io::Source;
use gr_logic::Line;
use gr_text::{ScanError, Scanner, count};
use std::alloc::Global;

/// What a line spells: nothing, where it is blank or a comment; a line of the log; or it is misspelt,
/// or well spelt but for a negative hint.
#[derive(Debug, Drop)]
pub enum Spelt {
    Nothing,
    Spelled(Line),
    Misspelt,
    HasNegativeHint,
}

/// What a line spells, and where it ended.
#[derive(Debug, Drop)]
pub struct Statement {
    pub spelt: Spelt,
    pub end: Ending,
}

/// Reads the next line.
pub fn read_statement<S: Source>(
    alloc: Global,
    scanner: &mut Scanner<'_, S>,
) -> Result<Statement, ScanError>
    ensures same { scanner.new.source.ghost_name ≡ scanner.old.source.ghost_name }
    ensures tells { TellsStatement spelling result
        scanner.old.held (S.left scanner.old.source.now)
        scanner.new.held (S.left scanner.new.source.now) }
    ensures passes { IfOk result (λ statement. PassesBytes (spelling_of statement.spelt)
        scanner.old.held scanner.new.held) }
    ensures onward { IfOk result (λ statement. Passes statement.end scanner.old.held
        scanner.new.held) }
    ensures goes { GoesFor result (stand S.left S.taken S.faults scanner.old.held scanner.old.source.now)
        (stand S.left S.taken S.faults scanner.new.held scanner.new.source.now) }
{
    match next_piece(scanner) {
        Ok(Piece::Token) => {}
        Ok(Piece::End(end)) => return Ok(Statement {
            spelt: Spelt::Nothing,
            end,
        }),
        Err(failed) => return Err(failed),
    }
    if numerals::begins_comment(scanner.token()) {
        return pass_as(scanner, Spelt::Nothing);
    }
    read_tokens(alloc, scanner)
}

/// Passes the rest of a line that spells this, whatever its tokens are.
pub fn pass_as<S: Source>(
    scanner: &mut Scanner<'_, S>,
    spelt: Spelt,
) -> Result<Statement, ScanError>
    ensures same { scanner.new.source.ghost_name ≡ scanner.old.source.ghost_name }
    ensures tells { TellsStatement (λ ws. spelling_of spelt) result
        scanner.old.held (S.left scanner.old.source.now)
        scanner.new.held (S.left scanner.new.source.now) }
    ensures onward { IfOk result (λ statement. Passes statement.end scanner.old.held
        scanner.new.held) }
    ensures goes { GoesFor result (stand S.left S.taken S.faults scanner.old.held scanner.old.source.now)
        (stand S.left S.taken S.faults scanner.new.held scanner.new.source.now) }
{
    match skip_rest(scanner) {
        Ok(end) => Ok(Statement { spelt, end }),
        Err(failed) => Err(failed),
    }
}

/// Reads on behind the first token of a line that is no comment.
fn read_tokens<S: Source>(
    alloc: Global,
    scanner: &mut Scanner<'_, S>,
) -> Result<Statement, ScanError>
    ensures same { scanner.new.source.ghost_name ≡ scanner.old.source.ghost_name }
    ensures tells { TellsStatement (statement_of scanner.old.held.token) result
        scanner.old.held (S.left scanner.old.source.now)
        scanner.new.held (S.left scanner.new.source.now) }
    ensures onward { IfOk result (λ statement. Passes statement.end scanner.old.held
        scanner.new.held) }
    ensures goes { GoesFor result (stand S.left S.taken S.faults scanner.old.held scanner.old.source.now)
        (stand S.left S.taken S.faults scanner.new.held scanner.new.source.now) }
{
    let first = count(scanner.token());
    match next_piece(scanner) {
        Ok(Piece::Token) => {}
        Ok(Piece::End(end)) => return Ok(Statement {
            spelt: Spelt::Misspelt,
            end,
        }),
        Err(failed) => return Err(failed),
    }
    if numerals::is_byte(scanner.token(), b'd') {
        read_deletion(alloc, scanner, first.is_some())
    } else {
        read_addition(alloc, scanner, numerals::id_of_count(first))
    }
}

/// Reads on behind the letter of a deletion, where the token before it was a number or was not.
fn read_deletion<S: Source>(
    alloc: Global,
    scanner: &mut Scanner<'_, S>,
    numbered: bool,
) -> Result<Statement, ScanError>
    ensures same { scanner.new.source.ghost_name ≡ scanner.old.source.ghost_name }
    ensures tells { TellsStatement
        (λ ws. if numbered then deletion_with (ids_from false [] ws) else Misspelt) result
        scanner.old.held (S.left scanner.old.source.now)
        scanner.new.held (S.left scanner.new.source.now) }
    ensures onward { IfOk result (λ statement. Passes statement.end scanner.old.held
        scanner.new.held) }
    ensures goes { GoesFor result (stand S.left S.taken S.faults scanner.old.held scanner.old.source.now)
        (stand S.left S.taken S.faults scanner.new.held scanner.new.source.now) }
{
    if !numbered {
        return pass_as(scanner, Spelt::Misspelt);
    }
    match read_list(alloc, scanner) {
        Ok(listed) => Ok(Statement {
            spelt: deletion(listed.list),
            end: listed.end,
        }),
        Err(failed) => Err(failed),
    }
}

/// A deletion of this list: its own id is not kept.
fn deletion(list: ReadList) -> Spelt
    ensures { spelling_of result ≡ deletion_with (list_of list) }
{
    match list {
        ReadList::AllIds(ids) => Spelt::Spelled(Line::Delete { id: 0, ids }),
        ReadList::SomeNegative => Spelt::Misspelt,
        ReadList::NoList => Spelt::Misspelt,
    }
}
