// Reducers beside the search.
use super::{FOUR_CLAUSES, source_of, words_of};
use crate::{Report, code, run, run_check};
use gr_diary::{Diary, Entry};
use gr_dimacs::{PROGRAM_LIMITS, read, write};
use gr_gen::pigeons;
use gr_io::{Gate, Open, Point, TextSink, TextSource};
use std::alloc::Global;
use std::sync::Wait;
use std::sync::atomic::{AtomicU64, Ordering};
use std::test::Fail;
use std::thread::{Threads, yield_now};

/// Holds the search at its first `Learnt` until a reducer has arrived at `Taken`, and a reducer at
/// its first `Taken` until two clauses are learnt. Counts how often each is passed, and how often
/// it stopped looking.
#[derive(Drop)]
struct Crossing {
    learnt: AtomicU64,
    taken: AtomicU64,
    limits: AtomicU64,
}

fn wait_for(word: &AtomicU64, least: u64, limits: &AtomicU64) {
    for _ in 0..50_000_000u64 {
        if word.load(Ordering::SeqCst) >= least {
            return;
        }
        yield_now();
    }
    limits.fetch_add(1, Ordering::SeqCst);
}

impl Gate for Crossing {
    fn pass(&self, _actor: u32, point: Point) {
        match point {
            Point::Learnt => {
                if self.learnt.fetch_add(1, Ordering::SeqCst) == 0 {
                    wait_for(&self.taken, 1, &self.limits);
                }
            }
            Point::Taken => {
                if self.taken.fetch_add(1, Ordering::SeqCst) == 0 {
                    wait_for(&self.learnt, 2, &self.limits);
                }
            }
        }
    }
}

/// The report of `solve` on a text, with so many reducers.
fn solved<R: Threads + Wait + Sync, G: Gate>(
    rt: &R,
    alloc: Global,
    text: &[u8],
    reducers: &str,
    gate: &G,
) -> Result<(Report, TextSink), Fail> {
    let words = words_of(alloc, &["solve", "f.cnf", "f.lrat", "--reducers", reducers])?;
    let mut cnf = TextSource::new(Vec::from_slice(alloc, text)?);
    let mut log = TextSource::new(Vec::new(alloc));
    let mut out = TextSink::new(alloc);
    let mut proof = TextSink::new(alloc);
    let report = run(
        rt, alloc, &words, &mut cnf, &mut log, &mut out, &mut proof, gate,
    );
    Ok((report, proof))
}

/// How many clauses were learnt, and how many were taken.
fn learns_and_takes(diary: &Diary) -> Result<(u64, u64), Fail> {
    let mut learns = 0u64;
    let mut takes = 0u64;
    for at in 0..diary.len() {
        match diary.get(at)? {
            Entry::Learn { .. } => learns = learns.wrapping_add(1),
            Entry::Take { .. } => takes = takes.wrapping_add(1),
            _ => {}
        }
    }
    Ok((learns, takes))
}

/// The report of `solve` on a text, with so many reducers, of which one and the search met at the
/// gate, and passed it once for each clause that was learnt and each that was taken.
fn crossed<R: Threads + Wait + Sync>(
    rt: &R,
    alloc: Global,
    text: &[u8],
    reducers: &str,
) -> Result<Report, Fail> {
    let gate = Crossing {
        learnt: AtomicU64::new(0),
        taken: AtomicU64::new(0),
        limits: AtomicU64::new(0),
    };
    let (report, _proof) = solved(rt, alloc, text, reducers, &gate)?;
    let (learns, takes) = learns_and_takes(&report.diary)?;
    if gate.limits.load(Ordering::SeqCst) != 0 || takes == 0 {
        return Err(Fail::from("no reducer and the search met at the gate"));
    }
    if gate.learnt.load(Ordering::SeqCst) != learns || gate.taken.load(Ordering::SeqCst) != takes {
        return Err(Fail::from("the history is not what passed the gate"));
    }
    Ok(report)
}

#[test]
fn reducers_run_beside_the_search(rt: HostRuntime) -> Result<(), Fail> {
    let alloc = rt.alloc();
    let mut text = TextSink::new(alloc);
    write(&pigeons(alloc, 5)?, &mut text)?;
    for reducers in ["1", "2"] {
        let report = crossed(&rt, alloc, text.text(), reducers)?;
        assert_eq!(rt; code(&report.status), 20, "with {reducers}");
    }
    Ok(())
}

/// Four pigeons in three holes, unless the first variable is true. The search takes it for false
/// first, so that it learns clauses before it finds a model.
const PIGEONS_OR_NOT: &str = "p cnf 13 22
1 2 3 4 0 1 5 6 7 0 1 8 9 10 0 1 11 12 13 0
1 -2 -5 0 1 -2 -8 0 1 -2 -11 0 1 -5 -8 0 1 -5 -11 0 1 -8 -11 0
1 -3 -6 0 1 -3 -9 0 1 -3 -12 0 1 -6 -9 0 1 -6 -12 0 1 -9 -12 0
1 -4 -7 0 1 -4 -10 0 1 -4 -13 0 1 -7 -10 0 1 -7 -13 0 1 -10 -13 0
";

/// Whether the report's model gives each variable of a text's formula a value, and satisfies it.
fn is_met(alloc: Global, text: &str, report: &Report) -> Result<bool, Fail> {
    let formula = read(alloc, &mut source_of(alloc, text)?, &PROGRAM_LIMITS)?;
    if report.model.len() != formula.vars() {
        return Ok(false);
    }
    Ok(formula.met_by(&report.model))
}

#[test]
fn a_model_found_beside_a_reducer_satisfies_the_formula(rt: HostRuntime) -> Result<(), Fail> {
    let report = crossed(&rt, rt.alloc(), PIGEONS_OR_NOT.as_bytes(), "1")?;
    assert_eq!(rt; code(&report.status), 10);
    assert!(rt; is_met(rt.alloc(), PIGEONS_OR_NOT, &report)?);
    Ok(())
}

#[test]
fn refutes_with_each_number_of_reducers(rt: HostRuntime) -> Result<(), Fail> {
    let alloc = rt.alloc();
    for reducers in ["0", "1", "2", "8"] {
        let (report, proof) = solved(&rt, alloc, FOUR_CLAUSES.as_bytes(), reducers, &Open)?;
        assert_eq!(rt; code(&report.status), 20, "with {reducers}");
        let mut cnf = source_of(alloc, FOUR_CLAUSES)?;
        let mut log = TextSource::new(Vec::from_slice(alloc, proof.text())?);
        let mut out = TextSink::new(alloc);
        let report = run_check(alloc, &mut cnf, &mut log, &mut out);
        assert_eq!(rt; code(&report.status), 0, "with {reducers}");
    }
    Ok(())
}
