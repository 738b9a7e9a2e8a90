// Small histories: their logs as text, and what the checker says of them.
ghost use Rattle.std.specs.Prelude.{◌≡◌, ◌++◌, ◌∷◌, [], All, IfOk, OnOk};
ghost use Rattle.gr_logic.specs.Log.{HasIds};
ghost use Rattle.gr_history.specs.HistoryLogs.{lines_in};

use crate::{check_history, write_history};
use gr_diary::{Diary, Entry};
use gr_io::{MemSink, SinkError, TextSink};
use gr_logic::{Clause, Formula, Ids, Lit, OutOfMemory};
use std::alloc::Global;
use std::test::Fail;

fn clause_of(alloc: Global, numbers: &[i32]) -> Result<Clause, OutOfMemory> {
    let mut clause = Clause::new(alloc);
    for number in numbers {
        if let Some(lit) = Lit::new(*number) {
            clause.push(lit)?;
        }
    }
    Ok(clause)
}

fn ids_of(alloc: Global, numbers: &[u64]) -> Result<Ids, OutOfMemory>
    ensures { IfOk result (λ ids. ids ≡ numbers.now) }
{
    Ok(Ids::from_vec(Vec::from_slice(alloc, numbers)?))
}

fn add(diary: &mut Diary, entry: Entry, left: Ids) -> Result<(), OutOfMemory>
    ensures first { OnOk result (diary.new.first ≡ diary.old.first) }
    ensures entries { OnOk result (diary.new.entries ≡ diary.old.entries ++ entry ∷ []) }
    ensures left { OnOk result (diary.new.left ≡ diary.old.left ++ left ∷ []) }
{
    diary.reserve(&entry, &left)?;
    diary.push(entry, left);
    Ok(())
}

fn learn(alloc: Global, numbers: &[i32], hints: &[u64]) -> Result<Entry, OutOfMemory> {
    Ok(Entry::Learn {
        clause: clause_of(alloc, numbers)?,
        hints: ids_of(alloc, hints)?,
        lbd: 2,
        offered: false,
    })
}

/// Adds `clause` by 2 and 3, deletes it, and adds the empty clause.
fn refutation(alloc: Global, clause: Clause) -> Result<Diary, OutOfMemory>
    ensures { IfOk result (λ diary. All HasIds (lines_in diary)) }
{
    let mut diary = Diary::new(alloc, 4)?;
    let first = Entry::Learn {
        clause,
        hints: ids_of(alloc, &[2, 3])?,
        lbd: 2,
        offered: true,
    };
    add(&mut diary, first, Ids::new(alloc))?;
    let forget = Entry::Forget {
        actor: 0,
        ids: ids_of(alloc, &[4])?,
    };
    add(&mut diary, forget, ids_of(alloc, &[4])?)?;
    let last = Entry::Learn {
        clause: Clause::new(alloc),
        hints: ids_of(alloc, &[1, 2, 3])?,
        lbd: 0,
        offered: false,
    };
    add(&mut diary, last, Ids::new(alloc))?;
    Ok(diary)
}

/// The clauses `-1`, `1 4` and `-4`.
fn formula(alloc: Global) -> Result<Formula, Fail> {
    let mut formula = Formula::new(alloc, 4);
    push(&mut formula, clause_of(alloc, &[-1])?)?;
    push(&mut formula, clause_of(alloc, &[1, 4])?)?;
    push(&mut formula, clause_of(alloc, &[-4])?)?;
    Ok(formula)
}

fn push(formula: &mut Formula, clause: Clause) -> Result<(), Fail> {
    let vars = formula.vars();
    if !clause.lits().iter().all(|lit| lit.var() <= vars) {
        return Err(Fail::from("a variable above the formula's"));
    }
    if formula.clauses().len() >= 3 {
        return Err(Fail::from("more clauses than a test wants"));
    }
    formula.push(clause)?;
    Ok(())
}

/// The clause of the negations of the variables from 1000 down to 1.
fn long_clause(alloc: Global) -> Result<Clause, OutOfMemory> {
    let mut clause = Clause::new(alloc);
    for index in 0..1_000u32 {
        clause.push(Lit::of_var(1_000 - index, false))?;
    }
    Ok(clause)
}

#[test]
fn writes_additions_and_deletions(rt: HostRuntime) -> Result<(), Fail> {
    let alloc = rt.alloc();
    let diary = refutation(alloc, clause_of(alloc, &[1, 2, 3])?)?;
    let mut sink = TextSink::new(alloc);
    write_history(&diary, &mut sink)?;
    let wanted = "4 1 2 3 0 2 3 0\n4 d 4 0\n5 0 1 2 3 0\n";
    assert_eq!(rt; sink.text(), wanted.as_bytes());
    Ok(())
}

#[test]
fn leaves_a_front_part_where_a_write_fails(rt: HostRuntime) -> Result<(), Fail> {
    let alloc = rt.alloc();
    let diary = refutation(alloc, long_clause(alloc)?)?;
    let mut whole = TextSink::new(alloc);
    write_history(&diary, &mut whole)?;
    for (call, least) in [(1, 0), (2, 1_000)] {
        let mut sink = MemSink::new(alloc, Vec::from_slice(alloc, &[call])?, 7);
        let ended = write_history(&diary, &mut sink);
        assert_eq!(rt; ended, Err(SinkError::Fault), "at call {call}");
        let written = sink.text();
        assert!(rt; whole.text().starts_with(written), "at call {call}");
        assert!(rt;
            least < written.len() && written.len() < whole.text().len(),
            "at call {call}"
        );
    }
    Ok(())
}

#[test]
fn verifies_a_refutation(rt: HostRuntime) -> Result<(), Fail> {
    let alloc = rt.alloc();
    let diary = refutation(alloc, clause_of(alloc, &[1, 2, 3])?)?;
    assert!(rt; check_history(alloc, &formula(alloc)?, &diary)?);
    Ok(())
}

#[test]
fn verifies_nothing_less(rt: HostRuntime) -> Result<(), Fail> {
    let alloc = rt.alloc();
    let formula = formula(alloc)?;
    let none = Diary::empty(alloc);
    assert!(rt; !check_history(alloc, &formula, &none)?, "with no line");

    let mut open = Diary::new(alloc, 4)?;
    add(
        &mut open,
        learn(alloc, &[1, 2, 3], &[2, 3])?,
        Ids::new(alloc),
    )?;
    assert!(rt;
        !check_history(alloc, &formula, &open)?,
        "without the empty clause"
    );

    // The hint 1 is true where 1 is false, so it leads to no conflict.
    let mut refused = Diary::new(alloc, 4)?;
    add(
        &mut refused,
        learn(alloc, &[1, 2, 3], &[1])?,
        Ids::new(alloc),
    )?;
    add(
        &mut refused,
        learn(alloc, &[], &[1, 2, 3])?,
        Ids::new(alloc),
    )?;
    assert!(rt;
        !check_history(alloc, &formula, &refused)?,
        "with a refused line"
    );
    Ok(())
}
