// Formulas that are decided or made, and words that are refused.
use super::{FOUR_CLAUSES, ONE_MODEL, source_of, status, words_of};
use crate::{code, files, run_check};
use gr_io::{TextSink, TextSource};
use std::alloc::Global;
use std::sync::Wait;
use std::test::Fail;
use std::thread::Threads;

const USAGE: &str =
    "c usage: glucored solve CNF LOG [--reducers N] [--conflicts N] [--capacity N] [--offer N] [--keep-all]
c usage: glucored check CNF LOG
c usage: glucored large KIND N
";

/// Whether `solve`, with these options, ends so on a text, and writes this to the output; and whether its proof log is
/// empty, or else verified.
fn is_solved<R: Threads + Wait + Sync>(
    rt: &R,
    alloc: Global,
    options: &[&str],
    text: &str,
    want: u8,
    on_out: &str,
) -> Result<bool, Fail> {
    let mut words = words_of(alloc, &["solve", "f.cnf", "f.lrat"])?;
    for option in options {
        words.push(option)?;
    }
    let mut cnf = source_of(alloc, text)?;
    let mut out = TextSink::new(alloc);
    let mut proof = TextSink::new(alloc);
    let ended = status(rt, alloc, &words, &mut cnf, &mut out, &mut proof);
    let answered = ended == want && out.text() == on_out.as_bytes();
    if want != 20 {
        return Ok(answered && proof.text().is_empty());
    }
    let mut log = TextSource::new(Vec::from_slice(alloc, proof.text())?);
    let mut verdict = TextSink::new(alloc);
    let report = run_check(alloc, &mut source_of(alloc, text)?, &mut log, &mut verdict);
    let verified = code(&report.status) == 0 && verdict.text() == b"s VERIFIED\n".as_slice();
    Ok(answered && verified)
}

#[test]
fn decides_formulas(rt: HostRuntime) -> Result<(), Fail> {
    let satlib = "c made by a generator\nc\np cnf 3  3 \n1 0\n-1 -2 0\n 2 3 0\n%\n0\n\n";
    let crlf = "p cnf 3 3\r\n1 0 -1\r\n-2 0\t2\r\nc note\r\n3 0\r\n";
    let repeated = "p cnf 2 3\n1 1 0\n2 -2 0\n-1 2 0\n";
    let none = [].as_slice();
    let one = ["--conflicts", "1"].as_slice();
    let all = [
        "--keep-all",
        "--offer=2",
        "--capacity",
        "1",
        "--reducers",
        "0",
    ]
    .as_slice();
    // Of four pigeons in three holes, no clause is a unit and none is empty, so that the first
    // learnt clause is neither.
    let pigeons =
        "p cnf 12 22 1 2 3 0 4 5 6 0 7 8 9 0 10 11 12 0 -1 -4 0 -1 -7 0 -1 -10 0 -4 -7 0 -4 -10 0 -7 -10 0 \
-2 -5 0 -2 -8 0 -2 -11 0 -5 -8 0 -5 -11 0 -8 -11 0 -3 -6 0 -3 -9 0 -3 -12 0 -6 -9 0 -6 -12 0 -9 -12 0";
    let cases = [
        (none, "p cnf 0 0\n", 10, "s SATISFIABLE\nv 0\n"),
        (none, "p cnf 0 1\n0\n", 20, "s UNSATISFIABLE\n"),
        (none, ONE_MODEL, 10, "s SATISFIABLE\nv 1 -2 3 0\n"),
        (none, satlib, 10, "s SATISFIABLE\nv 1 -2 3 0\n"),
        (all, crlf, 10, "s SATISFIABLE\nv 1 -2 3 0\n"),
        (none, repeated, 10, "s SATISFIABLE\nv 1 2 0\n"),
        (none, FOUR_CLAUSES, 20, "s UNSATISFIABLE\n"),
        (one, "p cnf 1 2\n1 0\n-1 -0\n", 20, "s UNSATISFIABLE\n"),
        (one, pigeons, 0, "s UNKNOWN\n"),
        (all, pigeons, 20, "s UNSATISFIABLE\n"),
    ];
    for (options, text, want, on_out) in cases {
        assert!(rt;
            is_solved(&rt, rt.alloc(), options, text, want, on_out)?,
            "with {options:?} on {text:?}"
        );
    }
    Ok(())
}

#[test]
fn writes_twenty_literals_a_line(rt: HostRuntime) -> Result<(), Fail> {
    let twenty =
        "p cnf 20 20 1 0 2 0 3 0 4 0 5 0 6 0 7 0 8 0 9 0 10 0 11 0 12 0 13 0 14 0 15 0 16 0 17 0 18 0 19 0 20 0";
    let one_more =
        "p cnf 21 21 1 0 2 0 3 0 4 0 5 0 6 0 7 0 8 0 9 0 10 0 11 0 12 0 13 0 14 0 15 0 16 0 17 0 18 0 19 0 20 0 21 0";
    let line = "s SATISFIABLE\nv 1 2 3 4 5 6 7 8 9 10 11 12 13 14 15 16 17 18 19 20 0\n";
    let lines = "s SATISFIABLE\nv 1 2 3 4 5 6 7 8 9 10 11 12 13 14 15 16 17 18 19 20\nv 21 0\n";
    assert!(rt; is_solved(&rt, rt.alloc(), &[], twenty, 10, line)?);
    assert!(rt; is_solved(&rt, rt.alloc(), &[], one_more, 10, lines)?);
    Ok(())
}

#[test]
fn names_the_first_fault_of_a_text(rt: HostRuntime) -> Result<(), Fail> {
    let cases = [
        ("", "c fault: line 1: NoHeader\n"),
        ("p dnf 1 1\n", "c fault: line 1: BadHeader\n"),
        ("p\ncnf 1 1\n1 0\n", "c fault: line 3: BadHeader\n"),
        ("p cnf 1000001 0\n", "c fault: line 1: TooLarge\n"),
        ("p cnf 1 1\n1x 0\n", "c fault: line 2: BadToken\n"),
        ("p cnf 1 1\n2 0\n", "c fault: line 2: VarAbove\n"),
        ("p cnf 2 1\n1 2", "c fault: line 2: Unended\n"),
        ("p cnf 1 2\n1 0\n", "c fault: line 3: TooFew\n"),
        ("p cnf 1 1\n1 0\n-1 0\n", "c fault: line 3: TooMany\n"),
    ];
    for (text, on_out) in cases {
        assert!(rt;
            is_solved(&rt, rt.alloc(), &[], text, 3, on_out)?,
            "on {text:?}"
        );
    }
    Ok(())
}

/// Whether these words are refused with the usage text, and name no files.
fn is_refused<R: Threads + Wait + Sync>(
    rt: &R,
    alloc: Global,
    texts: &[&str],
) -> Result<bool, Fail> {
    let words = words_of(alloc, texts)?;
    let mut cnf = source_of(alloc, "p cnf 0 0\n")?;
    let mut out = TextSink::new(alloc);
    let mut proof = TextSink::new(alloc);
    let ended = status(rt, alloc, &words, &mut cnf, &mut out, &mut proof);
    let names = files(alloc, &words)?;
    let told = ended == 2 && out.text() == USAGE.as_bytes();
    Ok(told && names.cnf.as_str() == "" && names.log.as_str() == "")
}

#[test]
fn refuses_other_words(rt: HostRuntime) -> Result<(), Fail> {
    let alloc = rt.alloc();
    let none: [&str; 0] = [];
    assert!(rt; is_refused(&rt, alloc, &none)?, "for no words");
    assert!(rt; is_refused(&rt, alloc, &["solve", "a"])?, "for solve a");
    assert!(rt;
        is_refused(&rt, alloc, &["solve", "a", "b", "--reducers", "9"])?,
        "for nine reducers"
    );
    assert!(rt;
        is_refused(&rt, alloc, &["audit", "a", "b"])?,
        "for audit a b"
    );
    assert!(rt;
        is_refused(&rt, alloc, &["large", "odd_ring", "4"])?,
        "for an even ring"
    );
    Ok(())
}

/// Whether `large` ends so, and writes this.
fn is_made<R: Threads + Wait + Sync>(
    rt: &R,
    alloc: Global,
    kind: &str,
    n: &str,
    on_out: &str,
) -> Result<bool, Fail> {
    let words = words_of(alloc, &["large", kind, n])?;
    let mut cnf = source_of(alloc, "")?;
    let mut out = TextSink::new(alloc);
    let mut proof = TextSink::new(alloc);
    let ended = status(rt, alloc, &words, &mut cnf, &mut out, &mut proof);
    let answered = ended == 20 && out.text() == on_out.as_bytes();
    Ok(answered && proof.text().is_empty())
}

#[test]
fn makes_formulas_and_refutes_them(rt: HostRuntime) -> Result<(), Fail> {
    let ring = "c odd_ring 2001\nc variables 2001 clauses 4002\ns UNSATISFIABLE\nc log VERIFIED\n";
    let pigeons = "c pigeons 4\nc variables 12 clauses 22\ns UNSATISFIABLE\nc log VERIFIED\n";
    assert!(rt; is_made(&rt, rt.alloc(), "odd_ring", "2001", ring)?);
    assert!(rt; is_made(&rt, rt.alloc(), "pigeons", "4", pigeons)?);
    Ok(())
}
