// Formulas for tests, and calls of the exchange as rows of a table.
ghost use Rattle.std.specs.Prelude.{◌≡◌, ◌≤◌, ◌∷◌, [], IfOk, OnOk, map};
ghost use Rattle.gr_logic.specs.Formulas.{VarsUpTo};
ghost use Rattle.gr_bench.specs.Exchanges.{IsEnabledAt, IsGrown};
ghost use Rattle.gr_bench.specs.Runs.{literal_of};

use crate::{Bench, Closing, Imported};
use gr_logic::{Clause, Formula, Ids, Lit, OutOfMemory, Strengthened};
use std::alloc::Global;
use std::marker::Model;
use std::test::Fail;

/// A call, by the entry that it makes. The reducer is actor 1, and literals are written as in
/// DIMACS CNF.
#[derive(Clone, Copy)]
pub(crate) enum Call {
    /// A learnt clause on offer.
    Offer {
        lits: &'static [i32],
        hints: &'static [u64],
        lbd: u32,
    },
    Unit {
        actor: u32,
        lit: i32,
        hints: &'static [u64],
    },
    Take,
    Same,
    Shorter {
        lits: &'static [i32],
        hints: &'static [u64],
    },
    Import,
    Drained,
    Forget {
        actor: u32,
        ids: &'static [u64],
    },
    Close,
}

/// A call, and what it answers: an id, a clause as its variables, and the old id of an import, if
/// any, else 0. A contract sees the entry.
#[derive(Drop)]
pub(crate) struct Row {
    pub(crate) call: Call,
    pub(crate) told: &'static [u64],
}

impl Model for Row {
    ghost use Rattle.std.specs.Prelude.{map, true};
    ghost use Rattle.gr_logic.specs.declared.items.Strengthened.TheVariants as given;
    ghost use Rattle.gr_diary.specs.declared.entries.Entry.{Entry};
    ghost use Rattle.gr_diary.specs.declared.entries.Entry.TheVariants as entry;
    ghost use Rattle.gr_bench.specs.Runs.{literal_of};
    ghost use Rattle.gr_bench.specs.declared.calls.Call.TheVariants.{Offer, Unit as Share};
    ghost use Rattle.gr_bench.specs.declared.calls.Call.TheVariants.{Take as Draw, Same as Keep};
    ghost use Rattle.gr_bench.specs.declared.calls.Call.TheVariants.{Shorter as Shorten};
    ghost use Rattle.gr_bench.specs.declared.calls.Call.TheVariants.{Import as TakeOver};
    ghost use Rattle.gr_bench.specs.declared.calls.Call.TheVariants.{Drained as FindNone};
    ghost use Rattle.gr_bench.specs.declared.calls.Call.TheVariants.{Forget as LetGo, Close as End};

    ghost Value = { Entry };

    ghost view = { λ row. elim row.call as (λ _. Entry) [
      | Offer lits hints lbd ↦ entry.Learn (map literal_of lits.now) hints.now lbd true
      | Share actor lit hints ↦ entry.Unit actor (literal_of lit) hints.now
      | Draw ↦ entry.Take 1
      | Keep ↦ entry.Return 1 given.Same
      | Shorten lits hints ↦ entry.Return 1 (given.Shorter (map literal_of lits.now) hints.now)
      | TakeOver ↦ entry.Import
      | FindNone ↦ entry.Drained
      | LetGo actor ids ↦ entry.Forget actor ids.now
      | End ↦ entry.Close
    ] };
}

pub(crate) fn lit_of(number: i32) -> Result<Lit, Fail>
    ensures { IfOk result (λ lit. lit ≡ literal_of number) }
{
    match Lit::new(number) {
        Some(lit) => Ok(lit),
        None => Err(Fail::from("no literal")),
    }
}

pub(crate) fn clause_of(alloc: Global, numbers: &[i32]) -> Result<Clause, Fail>
    ensures { IfOk result (λ clause. clause ≡ map literal_of numbers.now) }
{
    let mut clause = Clause::new(alloc);
    let mut rest = numbers;
    'numbers: while let [number, later @ ..] = rest {
        clause.push(lit_of(*number)?)?;
        rest = later;
    }
    Ok(clause)
}

pub(crate) fn ids_of(alloc: Global, numbers: &[u64]) -> Result<Ids, OutOfMemory>
    ensures { IfOk result (λ ids. ids ≡ numbers.now) }
{
    let mut ids = Ids::new(alloc);
    let mut rest = numbers;
    'numbers: while let [number, later @ ..] = rest {
        ids.push(*number)?;
        rest = later;
    }
    Ok(ids)
}

/// Makes the entry by the call of its kind. Gives what it answers.
pub(crate) fn make(alloc: Global, bench: &mut Bench, row: &Row) -> Result<Vec<u64>, Fail>
    requires { IsEnabledAt bench.old row.now }
    ensures { OnOk result (IsGrown bench.old bench.new row.now) }
{
    match row.call {
        Call::Offer { lits, hints, lbd } => {
            let (clause, hints) = (clause_of(alloc, lits)?, ids_of(alloc, hints)?);
            let id = bench.learn(clause, hints, lbd, true)?;
            told_of(alloc, Some(id), None)
        }
        Call::Unit { actor, lit, hints } => {
            let id = bench.unit(actor, lit_of(lit)?, ids_of(alloc, hints)?)?;
            told_of(alloc, Some(id), None)
        }
        Call::Take => {
            let taken = bench.take(1)?;
            told_of(alloc, Some(taken.id), Some(&taken.clause))
        }
        Call::Same => {
            let id = bench.give_back(1, Strengthened::Same)?;
            told_of(alloc, id, None)
        }
        Call::Shorter { lits, hints } => {
            let (clause, hints) = (clause_of(alloc, lits)?, ids_of(alloc, hints)?);
            let id = bench.give_back(1, Strengthened::Shorter { clause, hints })?;
            told_of(alloc, id, None)
        }
        Call::Import => match bench.import()? {
            Imported::Import { old, new, clause } => {
                let mut told = told_of(alloc, Some(new), Some(&clause))?;
                told.push(old.unwrap_or(0))?;
                Ok(told)
            }
            Imported::Drained => Err(Fail::from("no result")),
        },
        Call::Drained => match bench.import()? {
            Imported::Import { .. } => Err(Fail::from("a result")),
            Imported::Drained => told_of(alloc, None, None),
        },
        Call::Forget { actor, ids } => {
            bench.forget(actor, ids_of(alloc, ids)?)?;
            told_of(alloc, None, None)
        }
        Call::Close => match bench.close() {
            Closing::Done => told_of(alloc, None, None),
            Closing::Already => Err(Fail::from("closed before")),
        },
    }
}

/// An answer as numbers: the id, and the variables of the clause.
fn told_of(alloc: Global, id: Option<u64>, clause: Option<&Clause>) -> Result<Vec<u64>, Fail> {
    let mut told = Vec::new(alloc);
    if let Some(id) = id {
        told.push(id)?;
    }
    if let Some(clause) = clause {
        for lit in clause.lits() {
            told.push(lit.var() as u64)?;
        }
    }
    Ok(told)
}

/// A formula of two clauses.
pub(crate) fn pair_of(alloc: Global, vars: u32, a: &[i32], b: &[i32]) -> Result<Formula, Fail>
    requires small { vars ≤ 1_000_000 }
    requires first { VarsUpTo vars (map literal_of a.now) }
    requires second { VarsUpTo vars (map literal_of b.now) }
    ensures { IfOk result (λ formula. formula ≡ record {
      vars = vars;
      clauses = map literal_of a.now ∷ map literal_of b.now ∷ [];
    }) }
{
    let mut formula = Formula::new(alloc, vars);
    formula.push(clause_of(alloc, a)?)?;
    formula.push(clause_of(alloc, b)?)?;
    Ok(formula)
}

/// A formula of three clauses.
pub(crate) fn formula_of(
    alloc: Global,
    vars: u32,
    a: &[i32],
    b: &[i32],
    c: &[i32],
) -> Result<Formula, Fail>
    requires small { vars ≤ 1_000_000 }
    requires first { VarsUpTo vars (map literal_of a.now) }
    requires second { VarsUpTo vars (map literal_of b.now) }
    requires third { VarsUpTo vars (map literal_of c.now) }
    ensures { IfOk result (λ formula. formula ≡ record {
      vars = vars;
      clauses = map literal_of a.now ∷ map literal_of b.now ∷ map literal_of c.now ∷ [];
    }) }
{
    let mut formula = pair_of(alloc, vars, a, b)?;
    formula.push(clause_of(alloc, c)?)?;
    Ok(formula)
}
