//! Loops over the arena, the trail, the watch lists, the decision order and the base, and of conflict analysis, to be
//! timed from outside beside the same loops in C.
//!
//! Words: `arena N`, `trail N`, `watches N`, `order N`, `propagation FILE N` or `analysis FILE N`. The loop is run N
//! times over data that are the same in each run, and its checksum is printed.
#![tactic(auto)]

mod analyses;
mod arenas;
mod bases;
mod mixing;
mod orders;
mod propagations;
mod trails;
mod watches;

use gr_dimacs::{PROGRAM_LIMITS, ReadError, read};
use gr_io::FileSource;
use gr_logic::{Formula, OutOfMemory};
use std::process::ExitCode;
use std::{env, io};

/// Why there is no checksum.
#[derive(Clone, Copy, Debug)]
enum Stop {
    /// The words name no loop.
    Usage,
    /// The file spells no formula, or could not be read.
    Unread,
    OutOfMemory,
}

impl From<OutOfMemory> for Stop {
    fn from(_wanting: OutOfMemory) -> Stop {
        Stop::OutOfMemory
    }
}

fn main(rt: HostRuntime) -> io::Result<ExitCode> {
    let args = env::args(&rt)?.collect::<Vec<String>>(rt.alloc())?;
    match run(rt, &args) {
        Ok(checksum) => {
            println!(rt; "{checksum}")?;
            Ok(ExitCode::SUCCESS)
        }
        Err(Stop::Unread) => Ok(ExitCode::from(1)),
        Err(Stop::Usage) => Ok(ExitCode::from(2)),
        Err(Stop::OutOfMemory) => Ok(ExitCode::from(6)),
    }
}

/// Runs the loop that the words name, and gives its checksum.
fn run(rt: HostRuntime, args: &[String]) -> Result<u64, Stop> {
    match args {
        [_name, kind, rounds] => run_on_own_data(rt, kind.as_str(), rounds_of(rounds)?),
        [_name, kind, file, rounds] => {
            run_on_formula(rt, kind.as_str(), file, rounds_of(rounds)?)
        }
        _ => Err(Stop::Usage),
    }
}

/// Runs the loop of this name over the formula in a file.
fn run_on_formula(rt: HostRuntime, kind: &str, file: &String, rounds: u32) -> Result<u64, Stop> {
    match kind {
        "propagation" => {
            let formula = formula_in(rt, file)?;
            Ok(propagations::rounds(rt.alloc(), &formula, rounds)?)
        }
        "analysis" => {
            let formula = formula_in(rt, file)?;
            Ok(analyses::rounds(rt.alloc(), &formula, rounds)?)
        }
        _ => Err(Stop::Usage),
    }
}

/// Runs the loop of this name over data that it makes.
fn run_on_own_data(rt: HostRuntime, kind: &str, rounds: u32) -> Result<u64, Stop> {
    match kind {
        "arena" => Ok(arenas::scans(rt.alloc(), rounds)?),
        "order" => Ok(orders::rounds(rt.alloc(), rounds)?),
        "trail" => Ok(trails::rounds(rt.alloc(), rounds)?),
        "watches" => Ok(watches::walks(rt.alloc(), rounds)?),
        _ => Err(Stop::Usage),
    }
}

/// The number that a word spells.
fn rounds_of(word: &String) -> Result<u32, Stop> {
    match word.as_str().parse::<u32>() {
        Ok(rounds) => Ok(rounds),
        Err(_) => Err(Stop::Usage),
    }
}

/// The formula that a file spells.
fn formula_in(rt: HostRuntime, file: &String) -> Result<Formula, Stop> {
    let Ok(path) = file.clone() else {
        return Err(Stop::OutOfMemory);
    };
    let mut source = FileSource::new(rt, path);
    match read(rt.alloc(), &mut source, &PROGRAM_LIMITS) {
        Ok(formula) => Ok(formula),
        Err(ReadError::OutOfMemory) => Err(Stop::OutOfMemory),
        Err(_) => Err(Stop::Unread),
    }
}
