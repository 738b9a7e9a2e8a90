// Lists of ids in a line of a log.
ghost use Rattle.std.specs.Prelude.{◌≡◌, ◌≤◌, ◌<◌, ℕ, [], false, List, IfOk};
ghost use Rattle.gr_text.specs.Stands.{stand};
ghost use Rattle.gr_lrat.specs.Lines.{Spelling, IdList, NoList, closed_list, ids_from};
ghost use Rattle.gr_lrat.specs.Stages.{GoesFor, Passes};
ghost use Rattle.gr_lrat.specs.Statements.{TellsList, list_of};

use crate::numerals::{self, ListToken};
use crate::pieces::{Ending, Piece, next_piece, skip_rest};
use gr_io::Source;
use gr_logic::Ids;
use gr_text::{ScanError, Scanner};
use std::alloc::Global;

/// What the tokens up to the line's end are as a list of ids that a `0` closes.
#[derive(Debug, Drop)]
pub enum ReadList {
    AllIds(Ids),
    SomeNegative,
    NoList,
}

/// A list, and where its line ended.
#[derive(Debug, Drop)]
pub struct Listed {
    pub list: ReadList,
    pub end: Ending,
}

/// Reads a list of ids up to the end of its line.
pub fn read_list<S: Source>(
    alloc: Global,
    scanner: &mut Scanner<'_, S>,
) -> Result<Listed, ScanError>
    ensures same { scanner.new.source.ghost_name ≡ scanner.old.source.ghost_name }
    ensures tells { (made : IdList → Spelling) → TellsList made (λ ws. ids_from false [] ws) result
        scanner.old.held (S.left scanner.old.source.now)
        scanner.new.held (S.left scanner.new.source.now) }
    ensures onward { IfOk result (λ list. Passes list.end scanner.old.held scanner.new.held) }
    ensures goes { GoesFor result (stand S.left S.taken S.faults scanner.old.held scanner.old.source.now)
        (stand S.left S.taken S.faults scanner.new.held scanner.new.source.now) }
{
    let mut ids = Ids::new(alloc);
    let mut negative = false;
    'tokens: loop {
        match next_piece(scanner) {
            Ok(Piece::Token) => {}
            Ok(Piece::End(end)) => return Ok(Listed {
                list: ReadList::NoList,
                end,
            }),
            Err(failed) => return Err(failed),
        }
        if numerals::is_byte(scanner.token(), b'0') {
            return close_list(scanner, ids, negative);
        }
        match numerals::list_token(scanner.token()) {
            ListToken::Id(id) => {
                if ids.push(id).is_err() {
                    return Err(ScanError::OutOfMemory);
                }
            }
            ListToken::Negative => negative = true,
            ListToken::Other => return no_list(scanner),
        }
    }
}

/// Reads on behind the `0` that closes a list: no token may follow.
fn close_list<S: Source>(
    scanner: &mut Scanner<'_, S>,
    ids: Ids,
    negative: bool,
) -> Result<Listed, ScanError>
    ensures same { scanner.new.source.ghost_name ≡ scanner.old.source.ghost_name }
    ensures tells { (made : IdList → Spelling) → TellsList made (λ ws. closed_list negative ids ws) result
        scanner.old.held (S.left scanner.old.source.now)
        scanner.new.held (S.left scanner.new.source.now) }
    ensures onward { IfOk result (λ list. Passes list.end scanner.old.held scanner.new.held) }
    ensures goes { GoesFor result (stand S.left S.taken S.faults scanner.old.held scanner.old.source.now)
        (stand S.left S.taken S.faults scanner.new.held scanner.new.source.now) }
{
    match next_piece(scanner) {
        Ok(Piece::Token) => no_list(scanner),
        Ok(Piece::End(end)) => Ok(Listed {
            list: closed(ids, negative),
            end,
        }),
        Err(failed) => Err(failed),
    }
}

/// The list of these ids, or that a negative number was among them.
fn closed(ids: Ids, negative: bool) -> ReadList
    ensures { list_of result ≡ closed_list negative ids [] }
{
    if negative {
        ReadList::SomeNegative
    } else {
        ReadList::AllIds(ids)
    }
}

/// Passes the rest of a line that has no list.
fn no_list<S: Source>(scanner: &mut Scanner<'_, S>) -> Result<Listed, ScanError>
    ensures same { scanner.new.source.ghost_name ≡ scanner.old.source.ghost_name }
    ensures tells { (made : IdList → Spelling) → TellsList made (λ ws. NoList) result
        scanner.old.held (S.left scanner.old.source.now)
        scanner.new.held (S.left scanner.new.source.now) }
    ensures onward { IfOk result (λ list. Passes list.end scanner.old.held scanner.new.held) }
    ensures goes { GoesFor result (stand S.left S.taken S.faults scanner.old.held scanner.old.source.now)
        (stand S.left S.taken S.faults scanner.new.held scanner.new.source.now) }
{
    match skip_rest(scanner) {
        Ok(end) => Ok(Listed {
            list: ReadList::NoList,
            end,
        }),
        Err(failed) => Err(failed),
    }
}
