// The call over memory: what it writes and how it ends, on inputs from outside.
mod checking;
mod failing;
mod reducing;
mod solving;

use crate::{Words, code, run};
use gr_io::{Open, Sink, Source, TextSource};
use std::alloc::Global;
use std::sync::Wait;
use std::test::Fail;
use std::thread::Threads;

const ONE_MODEL: &str = "p cnf 3 3\n1 0\n-1 -2 0\n2 3 0\n";

const FOUR_CLAUSES: &str = "p cnf 2 4\n1 2 0\n1 -2 0\n-1 2 0\n-1 -2 0\n";

fn words_of(alloc: Global, texts: &[&str]) -> Result<Words, Fail> {
    let mut words = Words::new(alloc);
    for text in texts {
        words.push(text)?;
    }
    Ok(words)
}

fn source_of(alloc: Global, text: &str) -> Result<TextSource, Fail> {
    Ok(TextSource::new(Vec::from_slice(alloc, text.as_bytes())?))
}

/// The exit status of a call over these words and streams.
fn status<R: Threads + Wait + Sync, A: Source, C: Sink, D: Sink>(
    rt: &R,
    alloc: Global,
    words: &Words,
    cnf: &mut A,
    out: &mut C,
    proof: &mut D,
) -> u8 {
    let mut log = TextSource::new(Vec::new(alloc));
    let report = run(rt, alloc, words, cnf, &mut log, out, proof, &Open);
    code(&report.status)
}
