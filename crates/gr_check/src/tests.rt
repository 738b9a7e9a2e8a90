// Whole logs, and what is said of them.
ghost use Rattle.std.specs.Prelude.{◌≡◌, true};
ghost use Rattle.gr_logic.specs.Truth.{IsUnsatisfiable};

use crate::{Checker, Finish, Refused, RefusedLine, check_all};
use gr_logic::{Clause, Formula, Ids, Line, Lit, LogLines};
use std::alloc::Global;
use std::test::Fail;

/// The clause of these numbers.
fn clause_of(alloc: Global, numbers: &[i32]) -> Result<Clause, Fail> {
    let mut clause = Clause::new(alloc);
    for number in numbers {
        clause.push(Lit::new(*number).ok_or("no literal")?)?;
    }
    Ok(clause)
}

fn ids_of(alloc: Global, numbers: &[u64]) -> Result<Ids, Fail> {
    let mut ids = Ids::new(alloc);
    for number in numbers {
        ids.push(*number)?;
    }
    Ok(ids)
}

fn push(formula: &mut Formula, clause: Clause) -> Result<(), Fail> {
    let vars = formula.vars();
    if !clause.lits().iter().all(|lit| lit.var() <= vars) {
        return Err(Fail::from("a variable above the formula's"));
    }
    if formula.clauses().len() >= 2_000 {
        return Err(Fail::from("more clauses than a test wants"));
    }
    formula.push(clause)?;
    Ok(())
}

/// The four clauses over two variables, which nothing satisfies.
fn square(alloc: Global) -> Result<Formula, Fail> {
    let mut formula = Formula::new(alloc, 2);
    for numbers in [[1, 2], [1, -2], [-1, 2], [-1, -2]] {
        push(&mut formula, clause_of(alloc, &numbers)?)?;
    }
    Ok(formula)
}

/// A checker of the four clauses.
fn opened(alloc: Global) -> Result<Checker, Fail> {
    let formula = square(alloc)?;
    Ok(Checker::new(alloc, &formula)?)
}

/// A line in LRAT's text: `id literals 0 hints 0` or `id d ids 0`.
fn line_of(alloc: Global, text: &str) -> Result<Line, Fail> {
    let mut words = text.split_ascii_whitespace();
    let id = words.next().ok_or("no id")?.parse::<u64>()?;
    let mut clause = Clause::new(alloc);
    let mut ids = Ids::new(alloc);
    let mut is_deletion = false;
    let mut is_behind_clause = false;
    for word in words {
        if word == "d" {
            is_deletion = true;
        } else if word == "0" {
            is_behind_clause = true;
        } else if is_deletion || is_behind_clause {
            ids.push(word.parse::<u64>()?)?;
        } else {
            clause.push(Lit::new(word.parse::<i32>()?).ok_or("no literal")?)?;
        }
    }
    if is_deletion {
        return Ok(Line::Delete { id, ids });
    }
    Ok(Line::Add {
        id,
        clause,
        hints: ids,
    })
}

/// The lines of a log, with a slash between them.
fn log_of(alloc: Global, text: &str) -> Result<LogLines, Fail> {
    let mut log = LogLines::new(alloc);
    for line in text.split('/') {
        log.push(line_of(alloc, line)?)?;
    }
    Ok(log)
}

/// Logs without a refused line, and what they show.
const ACCEPTED: [(&str, Finish); 6] = [
    ("5 1 0 1 2 0 / 6 0 5 3 4 0", Finish::Verified),
    ("5 1 -1 0 1 2 0", Finish::NoEmptyClause),
    ("5 1 0 1 2 0", Finish::NoEmptyClause),
    ("5 d 4 0", Finish::NoEmptyClause),
    ("5 1 0 1 2 0 / 6 0 5 3 4 0 / 7 2 0 6 0", Finish::Verified),
    ("9223372036854775807 1 0 1 2 0", Finish::NoEmptyClause),
];

/// Logs, their first refused line, and why it is refused.
const REFUSED: [(&str, u64, Refused); 9] = [
    (
        "5 1 0 1 2 0 / 5 d 3 0 / 6 0 5 3 4 0",
        3,
        Refused::NotLive { id: 3 },
    ),
    ("5 0 1 0", 1, Refused::HintNotUnit { id: 1 }),
    ("4 1 0 1 2 0", 1, Refused::IdNotGreater { id: 4 }),
    ("5 3 0 1 0", 1, Refused::VarAbove { id: 5 }),
    ("5 3 0 9 0", 1, Refused::VarAbove { id: 5 }),
    ("5 1 0 1 0", 1, Refused::NoConflict { id: 5 }),
    ("5 d 3 3 0", 1, Refused::NotLive { id: 3 }),
    ("5 d 9 0", 1, Refused::NotLive { id: 9 }),
    (
        "9223372036854775807 1 0 1 2 0 / 5 0 9223372036854775807 3 4 0",
        2,
        Refused::IdNotGreater { id: 5 },
    ),
];

/// Whether this is said of the log of a text.
fn is_said(
    alloc: Global,
    formula: &Formula,
    text: &str,
    said: Result<Finish, RefusedLine>,
) -> Result<bool, Fail> {
    let log = log_of(alloc, text)?;
    Ok(check_all(alloc, formula, log.all()) == said)
}

#[test]
fn says_of_each_log_what_it_shows(rt: HostRuntime) -> Result<(), Fail> {
    let formula = square(rt.alloc())?;
    for (text, finish) in ACCEPTED {
        assert!(rt; is_said(rt.alloc(), &formula, text, Ok(finish))?, "{text}");
    }
    for (text, line, why) in REFUSED {
        let said = Err(RefusedLine { line, why });
        assert!(rt; is_said(rt.alloc(), &formula, text, said)?, "{text}");
    }
    assert!(rt; check_all(rt.alloc(), &formula, &[]) == Ok(Finish::NoEmptyClause));
    Ok(())
}

/// The lines of one log, and what is said of each.
const STEPS: [(&str, Result<(), Refused>); 6] = [
    ("5 2 0 1 0", Err(Refused::NoConflict { id: 5 })),
    ("5 1 0 1 2 0", Ok(())),
    ("5 d 5 5 0", Err(Refused::NotLive { id: 5 })),
    ("5 d 2 1 0", Ok(())),
    ("6 0 5 1 0", Err(Refused::NotLive { id: 1 })),
    ("6 0 5 3 4 0", Ok(())),
];

/// Takes the line of a text: whether this is said of it.
fn takes(
    checker: &mut Checker,
    alloc: Global,
    text: &str,
    said: Result<(), Refused>,
) -> Result<bool, Fail> {
    let line = line_of(alloc, text)?;
    Ok(checker.line(&line) == said)
}

#[test]
fn goes_on_after_a_refused_line(rt: HostRuntime) -> Result<(), Fail> {
    let mut checker = opened(rt.alloc())?;
    for (text, said) in STEPS {
        assert!(rt; takes(&mut checker, rt.alloc(), text, said)?, "{text}");
    }
    assert!(rt; checker.finish() == Finish::Verified);
    Ok(())
}

/// Adds a clause under this id.
fn add(checker: &mut Checker, id: u64, clause: Clause, hints: Ids) -> Result<(), Fail> {
    checker.line(&Line::Add { id, clause, hints })?;
    Ok(())
}

/// The first clause a hundred thousand times, and the second.
fn many_hints(alloc: Global) -> Result<Ids, Fail> {
    let mut hints = Ids::new(alloc);
    for _ in 0..100_000u32 {
        hints.push(1)?;
    }
    hints.push(2)?;
    Ok(hints)
}

#[test]
fn passes_over_a_hundred_thousand_hints_that_are_true_already(rt: HostRuntime) -> Result<(), Fail> {
    let mut checker = opened(rt.alloc())?;
    let clause = clause_of(rt.alloc(), &[1])?;
    add(&mut checker, 5, clause, many_hints(rt.alloc())?)
}

/// Adds the clause of these numbers under this id.
fn add_of(
    checker: &mut Checker,
    alloc: Global,
    id: u64,
    numbers: &[i32],
    hints: &[u64],
) -> Result<(), Fail> {
    let clause = clause_of(alloc, numbers)?;
    add(checker, id, clause, ids_of(alloc, hints)?)
}

/// Adds a clause under this id, which the next line deletes.
fn come_and_go(checker: &mut Checker, alloc: Global, id: u64) -> Result<(), Fail> {
    add_of(checker, alloc, id, &[1, 2], &[1])?;
    let ids = ids_of(alloc, &[id])?;
    checker.line(&Line::Delete { id, ids })?;
    Ok(())
}

/// Adds 1, has many clauses come and go, and then derives the empty clause from 1: what the lines say.
fn refute_around(checker: &mut Checker, alloc: Global, first: u64) -> Result<Finish, Fail> {
    add_of(checker, alloc, first, &[1], &[1, 2])?;
    for step in 1..2_000u64 {
        come_and_go(checker, alloc, first.saturating_add(step))?;
    }
    add_of(
        checker,
        alloc,
        first.saturating_add(2_000),
        &[],
        &[first, 3, 4],
    )?;
    Ok(checker.finish())
}

#[test]
fn keeps_the_other_clauses_while_many_leave(rt: HostRuntime) -> Result<(), Fail> {
    // Ids that follow the formula's, and ids that are far beyond the number of clauses.
    for first in [5u64, 1 << 40] {
        let mut checker = opened(rt.alloc())?;
        let finish = refute_around(&mut checker, rt.alloc(), first)?;
        assert!(rt; finish == Finish::Verified, "from {first} on");
    }
    Ok(())
}

/// Not each of the variables below the last one, or the last one.
fn chain(alloc: Global, last: u32) -> Result<Clause, Fail> {
    let mut clause = Clause::new(alloc);
    for index in 0..300u32 {
        if index < last {
            clause.push(Lit::from_code(2 * index + 1))?;
        }
    }
    clause.push(Lit::from_code(2 * (last % 300)))?;
    Ok(clause)
}

/// A thousand chains, whose ids from 300 on refute the formula with one clause of 300 negations more.
fn chains(alloc: Global) -> Result<Formula, Fail> {
    let mut formula = Formula::new(alloc, 300);
    for id in 1..1_001u32 {
        push(&mut formula, chain(alloc, id % 300)?)?;
    }
    push(&mut formula, negations(alloc)?)?;
    Ok(formula)
}

/// Not each of three hundred variables.
fn negations(alloc: Global) -> Result<Clause, Fail> {
    let mut clause = Clause::new(alloc);
    for index in 0..300u32 {
        clause.push(Lit::from_code(2 * index + 1))?;
    }
    Ok(clause)
}

/// The ids of three hundred chains in their order, and that of the negations.
fn chain_hints(alloc: Global) -> Result<Ids, Fail> {
    let mut hints = Ids::new(alloc);
    for id in 300..600u64 {
        hints.push(id)?;
    }
    hints.push(1_001)?;
    Ok(hints)
}

/// Whether the chains are refuted by one line.
fn refutes_chains(alloc: Global) -> Result<bool, Fail> {
    let formula = chains(alloc)?;
    let mut checker = Checker::new(alloc, &formula)?;
    add(&mut checker, 1_002, Clause::new(alloc), chain_hints(alloc)?)?;
    Ok(checker.finish() == Finish::Verified)
}

#[test]
fn takes_a_thousand_clauses_of_three_hundred_sizes(rt: HostRuntime) -> Result<(), Fail> {
    assert!(rt; refutes_chains(rt.alloc())?);
    Ok(())
}

/// Whether the lines that are not refused prove that no assignment satisfies the formula.
fn refute_in_part(alloc: Global, formula: &Formula, lines: &[Line]) -> bool
    ensures { result ≡ true → IsUnsatisfiable formula.now.clauses }
{
    let Ok(mut checker) = Checker::new(alloc, formula) else {
        return false;
    };
    for line in lines {
        let _ = checker.line(line);
    }
    matches!(checker.finish(), Finish::Verified)
}

#[test]
fn a_refused_line_spoils_nothing(rt: HostRuntime) -> Result<(), Fail> {
    let formula = square(rt.alloc())?;
    let log = log_of(
        rt.alloc(),
        "5 2 0 1 0 / 5 1 0 1 2 0 / 5 d 5 5 0 / 6 0 5 3 4 0",
    )?;
    assert!(rt; refute_in_part(rt.alloc(), &formula, log.all()));
    Ok(())
}
