//! Seats that take turns at a lock, to be timed from outside beside a ticket lock in C.
//!
//! Words: `THREADS TURNS WORK`. So many seats, each in a thread of its own, take so many turns.
//! Behind each turn are so many steps of arithmetic, and each turn makes an entry. It prints how many
//! entries the history then has, how many turns made one, and the sum of what the arithmetic came to.
#![tactic(auto)]

mod crowds;
mod guests;
mod spells;
mod tallies;

use crate::crowds::{Counts, crowd};
use gr_logic::OutOfMemory;
use std::alloc::Global;
use std::process::ExitCode;
use std::sync::Wait;
use std::thread::Threads;
use std::{env, io};

/// Why there is no count.
#[derive(Clone, Copy, Debug)]
enum Stop {
    Usage,
    OutOfMemory,
}

impl From<OutOfMemory> for Stop {
    fn from(_wanting: OutOfMemory) -> Stop {
        Stop::OutOfMemory
    }
}

fn main(rt: HostRuntime) -> io::Result<ExitCode> {
    let args = env::args(&rt)?.collect::<Vec<String>>(rt.alloc())?;
    match run(&rt, rt.alloc(), &args) {
        Ok(counts) => {
            println!(rt;
                "{} entries, {} turns, checksum {}",
                counts.entries, counts.turns, counts.checksum
            )?;
            Ok(ExitCode::SUCCESS)
        }
        Err(Stop::Usage) => Ok(ExitCode::from(2)),
        Err(Stop::OutOfMemory) => Ok(ExitCode::from(6)),
    }
}

/// Runs what the words say.
fn run<R: Threads + Wait + Sync>(rt: &R, alloc: Global, args: &[String]) -> Result<Counts, Stop> {
    let [_name, threads, turns, work] = args else {
        return Err(Stop::Usage);
    };
    let threads = number_of(threads)?;
    if threads > 1000 {
        return Err(Stop::Usage);
    }
    let turns = number_of(turns)?;
    let work = number_of(work)?;
    Ok(crowd(rt, alloc, threads, turns, work)?)
}

/// The number that a word spells.
fn number_of(word: &String) -> Result<u32, Stop> {
    match word.as_str().parse::<u32>() {
        Ok(number) => Ok(number),
        Err(_) => Err(Stop::Usage),
    }
}
