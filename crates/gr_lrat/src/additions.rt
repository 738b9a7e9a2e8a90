// A line of a log that adds a clause, read to its end.
ghost use Rattle.std.specs.Prelude.{◌≡◌, ◌≤◌, ◌<◌, ℕ, [], ◌∷◌, false, List, IfOk};
ghost use Rattle.std.specs.Option.{option_map_or};
ghost use Rattle.gr_text.specs.Places.{known, limit_of};
ghost use Rattle.gr_text.specs.Stands.{stand};
ghost use Rattle.gr_lrat.specs.Lines.{Misspelt, addition_with, addition_from, ids_from};
ghost use Rattle.gr_lrat.specs.Stages.{GoesFor, Passes};
ghost use Rattle.gr_lrat.specs.Statements.{TellsStatement, list_of, spelling_of};

use crate::lists::{ReadList, read_list};
use crate::numerals;
use crate::pieces::{Piece, next_piece};
use crate::statements::{Spelt, Statement, pass_as};
use gr_io::Source;
use gr_logic::{Clause, Line};
use gr_text::{ScanError, Scanner};
use std::alloc::Global;

/// Reads on from the second token of an addition, where the first one was an id or was not.
pub fn read_addition<S: Source>(
    alloc: Global,
    scanner: &mut Scanner<'_, S>,
    id: Option<u64>,
) -> Result<Statement, ScanError>
    requires { known scanner.old.held ≤ limit_of scanner.old.held }
    ensures same { scanner.new.source.ghost_name ≡ scanner.old.source.ghost_name }
    ensures tells { TellsStatement
        (λ ws. option_map_or (λ i. addition_from i [] (scanner.old.held.token ∷ ws)) id Misspelt) result
        scanner.old.held (S.left scanner.old.source.now)
        scanner.new.held (S.left scanner.new.source.now) }
    ensures onward { IfOk result (λ statement. Passes statement.end scanner.old.held
        scanner.new.held) }
    ensures goes { GoesFor result (stand S.left S.taken S.faults scanner.old.held scanner.old.source.now)
        (stand S.left S.taken S.faults scanner.new.held scanner.new.source.now) }
{
    match id {
        Some(id) => read_literals(alloc, scanner, id),
        None => pass_as(scanner, Spelt::Misspelt),
    }
}

/// Reads an addition on from its second token.
fn read_literals<S: Source>(
    alloc: Global,
    scanner: &mut Scanner<'_, S>,
    id: u64,
) -> Result<Statement, ScanError>
    requires { known scanner.old.held ≤ limit_of scanner.old.held }
    ensures same { scanner.new.source.ghost_name ≡ scanner.old.source.ghost_name }
    ensures tells { TellsStatement (λ ws. addition_from id [] (scanner.old.held.token ∷ ws)) result
        scanner.old.held (S.left scanner.old.source.now)
        scanner.new.held (S.left scanner.new.source.now) }
    ensures onward { IfOk result (λ statement. Passes statement.end scanner.old.held
        scanner.new.held) }
    ensures goes { GoesFor result (stand S.left S.taken S.faults scanner.old.held scanner.old.source.now)
        (stand S.left S.taken S.faults scanner.new.held scanner.new.source.now) }
{
    let mut clause = Clause::new(alloc);
    'tokens: loop {
        if numerals::is_byte(scanner.token(), b'0') {
            return read_hints(alloc, scanner, id, clause);
        }
        match numerals::literal_said(scanner.token()) {
            Some(lit) => {
                if clause.push(lit).is_err() {
                    return Err(ScanError::OutOfMemory);
                }
            }
            None => return pass_as(scanner, Spelt::Misspelt),
        }
        match next_piece(scanner) {
            Ok(Piece::Token) => {}
            Ok(Piece::End(end)) => return Ok(Statement {
                spelt: Spelt::Misspelt,
                end,
            }),
            Err(failed) => return Err(failed),
        }
    }
}

/// Reads an addition on behind its literals.
fn read_hints<S: Source>(
    alloc: Global,
    scanner: &mut Scanner<'_, S>,
    id: u64,
    clause: Clause,
) -> Result<Statement, ScanError>
    ensures same { scanner.new.source.ghost_name ≡ scanner.old.source.ghost_name }
    ensures tells { TellsStatement (λ ws. addition_with id clause (ids_from false [] ws)) result
        scanner.old.held (S.left scanner.old.source.now)
        scanner.new.held (S.left scanner.new.source.now) }
    ensures onward { IfOk result (λ statement. Passes statement.end scanner.old.held
        scanner.new.held) }
    ensures goes { GoesFor result (stand S.left S.taken S.faults scanner.old.held scanner.old.source.now)
        (stand S.left S.taken S.faults scanner.new.held scanner.new.source.now) }
{
    match read_list(alloc, scanner) {
        Ok(listed) => Ok(Statement {
            spelt: addition(id, clause, listed.list),
            end: listed.end,
        }),
        Err(failed) => Err(failed),
    }
}

/// An addition with this list of hints.
fn addition(id: u64, clause: Clause, list: ReadList) -> Spelt
    ensures { spelling_of result ≡ addition_with id clause (list_of list) }
{
    match list {
        ReadList::AllIds(hints) => Spelt::Spelled(Line::Add { id, clause, hints }),
        ReadList::SomeNegative => Spelt::HasNegativeHint,
        ReadList::NoList => Spelt::Misspelt,
    }
}
