//! The program glucored: the words and the files of the process, handed to the one call that is proved.
#![tactic(auto)]

ghost use Rattle.std.specs.Prelude.{◌≡◌, drop, map, string_bytes, IfOk};
ghost use Rattle.gr_top.specs.Checking.{output, sources};
ghost use Rattle.gr_words.specs.Cases.{IsCheck, IsSolve};
ghost use Rattle.gr_words.specs.Meanings.{Solving};
ghost use Rattle.gr_top.specs.Streams.{streams};
ghost use Rattle.glucored.specs.Runs.{Ends};

use gr_io::{FileSink, FileSource, Open, OutSink, Sink, Source};
use gr_logic::OutOfMemory;
use gr_top::{Status, Words, code, files, run};
use std::alloc::Global;
use std::env;
use std::fs::{self, File};
use std::io::ErrorKind;
use std::process::ExitCode;
use std::sync::Wait;
use std::thread::Threads;

fn main(rt: HostRuntime) -> ExitCode {
    let status = call(rt, &rt).unwrap_or(code(&Status::OutOfMemory));
    ExitCode::from(status)
}

/// Runs the program over the process's words, and answers the exit status. `threads` may start
/// threads and wait for them.
fn call<R: Threads + Wait + Sync>(rt: HostRuntime, threads: &R) -> Result<u8, OutOfMemory> {
    let words = read_words(rt)?;
    let _kept = keep_standard_numbers(rt);
    call_with(rt, threads, &words)
}

/// Files that lie unread under the numbers of the standard streams that are closed. While they are
/// kept no file that is opened later gets such a number, so what is written to standard output does
/// not land in the proof log. Where none can be opened, none is kept.
fn keep_standard_numbers(rt: HostRuntime) -> [Option<File>; 3] {
    [null_file(rt), null_file(rt), null_file(rt)]
}

/// The file that is always empty, to be read.
fn null_file(rt: HostRuntime) -> Option<File> {
    fs::open(&rt, "/dev/null").ok()
}

/// Runs the program over these words and the files that they name, and answers the exit status.
fn call_with<R: Threads + Wait + Sync>(
    rt: HostRuntime,
    threads: &R,
    words: &Words,
) -> Result<u8, OutOfMemory> {
    let names = files(rt.alloc(), words)?;
    let log_name = names.log.clone()?;
    let mut cnf = FileSource::new(rt, names.cnf);
    let mut log = FileSource::new(rt, log_name);
    let mut out = OutSink::new(rt);
    let mut proof = FileSink::new(rt, names.log);
    let status = exit_status(
        threads,
        rt.alloc(),
        words,
        &mut cnf,
        &mut log,
        &mut out,
        &mut proof,
    );
    Ok(status)
}

/// Runs the program over its words and its streams, and answers the exit status.
fn exit_status<R: Threads + Wait + Sync, A: Source, B: Source, C: Sink, D: Sink>(
    rt: &R,
    alloc: Global,
    words: &Words,
    cnf: &mut A,
    log: &mut B,
    out: &mut C,
    proof: &mut D,
) -> u8
    ensures ends { Ends words.now
        (streams (A.left cnf.old) (A.faults cnf.old)
        (C.written out.old) (C.faults out.old) (D.written proof.old) (D.faults proof.old))
        (streams (A.left cnf.new) (A.faults cnf.new)
        (C.written out.new) (C.faults out.new) (D.written proof.new) (D.faults proof.new))
        (sources (A.left cnf.old) (A.faults cnf.old) (B.left log.old) (B.faults log.old))
        (sources (A.left cnf.new) (A.faults cnf.new) (B.left log.new) (B.faults log.new))
        (output (C.written out.old) (C.faults out.old)) (output (C.written out.new) (C.faults out.new))
        result }
    ensures cnf { ((s : Solving) → IsSolve s words.now → ⊥) → (IsCheck words.now → ⊥) → cnf.new ≡ cnf.old }
    ensures log { (IsCheck words.now → ⊥) → log.new ≡ log.old }
    ensures proof { ((s : Solving) → IsSolve s words.now → ⊥) → proof.new ≡ proof.old }
{
    let report = run(rt, alloc, words, cnf, log, out, proof, &Open);
    code(&report.status)
}

/// The words after the program's name. Where one of them is not text, there are none.
fn read_words(rt: HostRuntime) -> Result<Words, OutOfMemory> {
    match env::args(&rt) {
        Ok(args) => {
            let args = args.collect::<Vec<String>>(rt.alloc())?;
            words_behind_name(rt.alloc(), &args)
        }
        Err(failed) => {
            if failed.kind() == ErrorKind::OutOfMemory {
                return Err(OutOfMemory);
            }
            Ok(Words::new(rt.alloc()))
        }
    }
}

/// The words but the first, which is the program's name.
fn words_behind_name(alloc: Global, args: &[String]) -> Result<Words, OutOfMemory>
    ensures words { IfOk result (λ words. words ≡ map string_bytes (drop 1 args.now)) }
{
    match args {
        [] => Ok(Words::new(alloc)),
        [_name, rest @ ..] => words_of(alloc, rest),
    }
}

/// These words in their order.
fn words_of(alloc: Global, texts: &[String]) -> Result<Words, OutOfMemory>
    ensures words { IfOk result (λ words. words ≡ map string_bytes texts.now) }
{
    let mut words = Words::new(alloc);
    for text in texts {
        words.push(text.as_str())?;
    }
    Ok(words)
}

#[cfg(test)]
mod tests {
    use super::*;
    use std::fs;
    use std::test::Fail;

    const CNF: &str = "glucored_test_cnf.tmp";

    const LOG: &str = "glucored_test_log.tmp";

    /// Writes the file of this name anew.
    fn write(rt: HostRuntime, name: &str, text: &[u8]) -> Result<(), Fail> {
        let mut file = FileSink::new(rt, String::from_str(rt.alloc(), name)?);
        file.write(text)?;
        Ok(())
    }

    /// The exit status of this command on the two files.
    fn status_of<R: Threads + Wait + Sync>(
        rt: HostRuntime,
        threads: &R,
        command: &str,
    ) -> Result<u8, Fail> {
        let mut words = Words::new(rt.alloc());
        words.push(command)?;
        words.push(CNF)?;
        words.push(LOG)?;
        Ok(call_with(rt, threads, &words)?)
    }

    #[test]
    fn the_named_files_are_read_and_written(rt: HostRuntime) -> Result<(), Fail> {
        let formula = b"p cnf 1 2\n1 0\n-1 0\n";
        write(rt, CNF, formula)?;
        assert_eq!(rt; status_of(rt, &rt, "solve")?, 20, "solve");
        assert_eq!(rt; status_of(rt, &rt, "check")?, 0, "check");
        let mut buf = [0u8; 32];
        let mut log = FileSource::new(rt, String::from_str(rt.alloc(), LOG)?);
        let count = log.read(&mut buf)?;
        assert!(rt; count > 0, "the proof log is empty");
        let mut cnf = FileSource::new(rt, String::from_str(rt.alloc(), CNF)?);
        let count = cnf.read(&mut buf)?;
        assert_eq!(rt; buf.get(..count), Some(formula.as_slice()));
        let rows: [(&[u8], &str, u8); 5] = [
            (b"p cnf 1 1\n1 0\n", "solve", 10),
            (b"p cnf 1 1\n1 0\n", "check", 1),
            (b"p cnf 1 1\n2 0\n", "solve", 3),
            (b"p cnf 1 1\n2 0\n", "check", 3),
            (formula, "prove", 2),
        ];
        for (text, command, want) in rows {
            write(rt, CNF, text)?;
            assert_eq!(rt; status_of(rt, &rt, command)?, want, "{command} on {text:?}");
        }
        fs::remove_file(&rt, CNF)?;
        assert_eq!(rt; status_of(rt, &rt, "solve")?, 4, "no formula");
        fs::remove_file(&rt, LOG)?;
        Ok(())
    }
}
