// Runs with reducers, on formulas whose answers are known.

use crate::{SolveOptions, Verdict, solve_shared};
use gr_diary::{Diary, Entry};
use gr_gen::{odd_ring, pigeons};
use gr_io::{Gate, Open, Point};
use gr_logic::{Clause, Formula, Lit, OutOfMemory};
use std::sync::atomic::{AtomicU64, Ordering};
use std::test::Fail;
use std::thread::yield_now;

/// The options that the program has where none are given.
const DEFAULTS: SolveOptions = SolveOptions {
    reducers: 1,
    conflicts: 1_000_000,
    capacity: 1_000,
    offer: 1_000_000,
    keep_all: false,
};

#[test]
fn finds_the_only_assignment_beside_a_reducer(rt: HostRuntime) -> Result<(), Fail> {
    let alloc = rt.alloc();
    let mut formula = Formula::new(alloc, 2);
    formula.push(Clause::from_lits(alloc, &[Lit::of_var(1, true)])?)?;
    formula.push(Clause::from_lits(alloc, &[Lit::of_var(1, false), Lit::of_var(2, false)])?)?;
    let ran = solve_shared(&rt, alloc, &formula, &DEFAULTS, &Open)?;
    assert_eq!(rt; ran.verdict, Verdict::Satisfiable);
    assert_eq!(rt; ran.model.values(), [true, false].as_slice());
    Ok(())
}

#[test]
fn refutes_beside_eight_reducers(rt: HostRuntime) -> Result<(), Fail> {
    let alloc = rt.alloc();
    let eight = SolveOptions {
        reducers: 8,
        ..DEFAULTS
    };
    let ran = solve_shared(&rt, alloc, &odd_ring(alloc, 5)?, &eight, &Open)?;
    assert_eq!(rt; ran.verdict, Verdict::Unsatisfiable);
    Ok(())
}

#[test]
fn refutes_pigeons_beside_two_reducers(rt: HostRuntime) -> Result<(), Fail> {
    let alloc = rt.alloc();
    let two = SolveOptions {
        reducers: 2,
        ..DEFAULTS
    };
    let ran = solve_shared(&rt, alloc, &pigeons(alloc, 5)?, &two, &Open)?;
    assert_eq!(rt; ran.verdict, Verdict::Unsatisfiable);
    Ok(())
}

/// Holds the reducer at its first clause until forty are learnt, and the search at its fortieth until twenty-five are
/// taken: before the first restart the reducer has then given twenty-four back.
#[derive(Drop)]
struct Meeting {
    learnt: AtomicU64,
    taken: AtomicU64,
}

fn wait_for(word: &AtomicU64, least: u64) {
    for _ in 0..10_000_000u64 {
        if word.load(Ordering::SeqCst) >= least {
            return;
        }
        yield_now();
    }
}

impl Gate for Meeting {
    fn pass(&self, _actor: u32, point: Point) {
        match point {
            Point::Learnt => {
                if self.learnt.fetch_add(1, Ordering::SeqCst) == 39 {
                    wait_for(&self.taken, 25);
                }
            }
            Point::Taken => {
                if self.taken.fetch_add(1, Ordering::SeqCst) == 0 {
                    wait_for(&self.learnt, 40);
                }
            }
        }
    }
}

/// Whether a result was taken over.
fn has_import(diary: &Diary) -> Result<bool, OutOfMemory> {
    for k in 0..diary.len() {
        if let Entry::Import = diary.get(k)? {
            return Ok(true);
        }
    }
    Ok(false)
}

#[test]
fn takes_over_what_a_reducer_gives_back(rt: HostRuntime) -> Result<(), Fail> {
    let alloc = rt.alloc();
    let gate = Meeting {
        learnt: AtomicU64::new(0),
        taken: AtomicU64::new(0),
    };
    let ran = solve_shared(&rt, alloc, &pigeons(alloc, 7)?, &DEFAULTS, &gate)?;
    assert_eq!(rt; ran.verdict, Verdict::Unsatisfiable);
    assert!(rt; has_import(&ran.diary)?);
    Ok(())
}

#[test]
fn learns_no_more_than_it_may_with_no_reducers(rt: HostRuntime) -> Result<(), Fail> {
    let alloc = rt.alloc();
    let one = SolveOptions {
        reducers: 0,
        conflicts: 1,
        ..DEFAULTS
    };
    let ran = solve_shared(&rt, alloc, &pigeons(alloc, 4)?, &one, &Open)?;
    assert_eq!(rt; ran.verdict, Verdict::Unknown);
    Ok(())
}
