// A formula as it is read.
ghost use Rattle.std.specs.Prelude.{◌≡◌, ◌<◌, ◌≤◌, ◌-◌, [], ◌&&◌, length, nat_le, Err, IfErr, OnOk};
ghost use Rattle.gr_dimacs.specs.Answers.{Concludes};
ghost use Rattle.gr_dimacs.specs.Building.{IsSized, RefusesNumber, TakesNumber, building, is_nil};
ghost use Rattle.gr_dimacs.specs.Numbers.{Zero, begins, number};
ghost use Rattle.gr_dimacs.specs.Reads.{IsTooLong};

use crate::faults::{FaultKind, GrammarFault, ReadError};
use crate::numerals::{Numeral, read_numeral};
use gr_logic::{Clause, Formula, Lit};
use std::alloc::Global;
use std::marker::Model;

/// Why a token was not taken.
#[derive(Clone, Copy, Debug, PartialEq, Eq)]
pub enum TakeError {
    /// The token is at fault.
    Bad(FaultKind),
    /// Memory was wanting.
    OutOfMemory,
}

/// The formula so far. Its counts are kept beside it, so that a token asks no list for its length.
#[derive(Drop)]
pub struct Builder {
    /// The header's counts.
    vars: u32,
    count: u64,
    /// How many literals there may be, and how many there are.
    room: u64,
    read: u64,
    /// How many clauses are whole.
    done: u64,
    /// Whether no clause was begun.
    empty: bool,
    formula: Formula,
    /// The clause that was begun. Its room is used again for the next one.
    clause: Clause,
}

impl Model for Builder {
    ghost use Rattle.std.specs.Prelude.{◌≡◌, length};
    ghost use Rattle.gr_dimacs.specs.Building.{Building, building, is_nil, IsSound};

    ghost Value = { Building };

    ghost view = { λ b. building b.vars b.count b.room b.read b.formula.clauses b.clause };

    ghost invariant = { λ b. (b.formula.vars ≡ b.vars)
        × (b.done ≡ length b.formula.clauses)
        × (b.empty ≡ is_nil b.clause)
        × IsSound (building b.vars b.count b.room b.read b.formula.clauses b.clause) };
}

impl Builder {
    /// A builder behind a header of these counts. Takes no memory.
    pub fn new(alloc: Global, vars: u32, count: u64, room: u64) -> Builder
        requires vars { vars ≤ 1_000_000 }
        requires count { count ≤ 5_000_000 }
        requires room { room ≤ 20_000_000 }
        ensures { result ≡ building vars count room 0 [] [] }
    {
        Builder {
            vars,
            count,
            room,
            read: 0,
            done: 0,
            empty: true,
            formula: Formula::new(alloc, vars),
            clause: Clause::new(alloc),
        }
    }

    /// Whether a number here would begin a clause behind the last one.
    fn is_past_last(&self) -> bool
        ensures { result ≡ (is_nil self.now.clause && nat_le self.now.count (length self.now.clauses)) }
    {
        self.empty && self.count <= self.done
    }

    /// Ends the present clause.
    fn end_clause(&mut self) -> Result<(), TakeError>
        ensures ok { OnOk result (TakesNumber Zero self.old self.new) }
        ensures err { IfErr result (λ e. RefusesNumber Zero e self.old) }
        ensures other { result ≡ Err (TakeError.Bad FaultKind.TooLong) → ⊥ }
    {
        if self.is_past_last() {
            return Err(TakeError::Bad(FaultKind::TooMany));
        }
        let clause = match self.clause.copy() {
            Ok(clause) => clause,
            Err(_) => return Err(TakeError::OutOfMemory),
        };
        self.clause.clear();
        self.empty = true;
        if self.formula.push(clause).is_err() {
            return Err(TakeError::OutOfMemory);
        }
        self.done += 1;
        Ok(())
    }

    /// Takes a literal of this size into the present clause.
    fn push(&mut self, size: u64, positive: bool, word: &[u8]) -> Result<(), TakeError>
        requires { IsSized size positive (number word.now) }
        ensures ok { OnOk result (TakesNumber (number word.now) self.old self.new) }
        ensures err { IfErr result (λ e. RefusesNumber (number word.now) e self.old) }
        ensures other { result ≡ Err (TakeError.Bad FaultKind.TooLong) → ⊥ }
    {
        let _ = word;
        if self.is_past_last() {
            return Err(TakeError::Bad(FaultKind::TooMany));
        }
        if size > u64::from(self.vars) {
            return Err(TakeError::Bad(FaultKind::VarAbove));
        }
        if self.read >= self.room {
            return Err(TakeError::Bad(FaultKind::TooLarge));
        }
        let lit = signed(size as u32, positive);
        if self.clause.push(lit).is_err() {
            return Err(TakeError::OutOfMemory);
        }
        self.empty = false;
        self.read += 1;
        Ok(())
    }

    /// Whether the token ends the formula.
    pub fn closes(&self, word: &[u8]) -> bool
        ensures { result ≡ (begins 37 word.now && is_nil self.now.clause) }
    {
        match word {
            [byte, ..] => *byte == b'%' && self.empty,
            [] => false,
        }
    }

    /// The formula, where it may end here.
    pub fn finish(self, line: u64) -> Result<Formula, ReadError>
        ensures concludes { Concludes result line self }
        ensures other { IsTooLong result → ⊥ }
    {
        if !self.empty {
            return Err(ReadError::Grammar(GrammarFault {
                kind: FaultKind::Unended,
                line,
            }));
        }
        if self.done < self.count {
            return Err(ReadError::Grammar(GrammarFault {
                kind: FaultKind::TooFew,
                line,
            }));
        }
        Ok(self.formula)
    }

    /// Takes a token behind the header that does not end the formula.
    pub fn take(&mut self, word: &[u8]) -> Result<(), TakeError>
        ensures ok { OnOk result (TakesNumber (number word.now) self.old self.new) }
        ensures err { IfErr result (λ e. RefusesNumber (number word.now) e self.old) }
        ensures other { result ≡ Err (TakeError.Bad FaultKind.TooLong) → ⊥ }
    {
        match read_numeral(word) {
            Numeral::Other => Err(TakeError::Bad(FaultKind::BadToken)),
            Numeral::Zero => self.end_clause(),
            Numeral::Literal { size, positive } => self.push(size, positive, word),
        }
    }
}

/// The literal of a variable and a sign.
fn signed(var: u32, positive: bool) -> Lit
    requires some { 0 < var }
    requires small { var ≤ 1_000_000 }
    ensures { result ≡ record { index = var - 1; positive = positive } }
{
    Lit::from_code(if positive { 2 * var - 2 } else { 2 * var - 1 })
}
