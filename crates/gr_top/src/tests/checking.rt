// Proof logs that are checked.
use super::{FOUR_CLAUSES, source_of, words_of};
use crate::{code, run, run_check};
use gr_io::{MemSink, MemSource, Open, Source, TextSink, TextSource};
use std::alloc::Global;
use std::sync::Wait;
use std::test::Fail;
use std::thread::Threads;

/// Whether `check` ends so on a formula and a log, and writes this, and nothing to the proof log.
fn is_checked<R: Threads + Wait + Sync>(
    rt: &R,
    alloc: Global,
    text: &str,
    lines: &str,
    want: u8,
    on_out: &str,
) -> Result<bool, Fail> {
    let words = words_of(alloc, &["check", "f.cnf", "f.lrat"])?;
    let mut cnf = source_of(alloc, text)?;
    let mut log = source_of(alloc, lines)?;
    let mut out = TextSink::new(alloc);
    let mut proof = TextSink::new(alloc);
    let report = run(
        rt, alloc, &words, &mut cnf, &mut log, &mut out, &mut proof, &Open,
    );
    let answered = code(&report.status) == want && out.text() == on_out.as_bytes();
    Ok(answered && proof.text().is_empty())
}

#[test]
fn verifies_proofs(rt: HostRuntime) -> Result<(), Fail> {
    let cases = [
        (FOUR_CLAUSES, "5 1 0 1 2 0\n6 0 5 3 4 0\n"),
        (
            FOUR_CLAUSES,
            "c made by hand\n\n5 1 0 1 2 0\n5 d 1 2 0\n9223372036854775807 0 5 3 4 0",
        ),
        ("p cnf 0 1\n0\n", "2 0 1 0\n"),
    ];
    for (text, lines) in cases {
        assert!(rt;
            is_checked(&rt, rt.alloc(), text, lines, 0, "s VERIFIED\n")?,
            "on {lines:?}"
        );
    }
    Ok(())
}

#[test]
fn tells_why_a_log_proves_nothing(rt: HostRuntime) -> Result<(), Fail> {
    let cases = [
        (
            "5 1 0 1 2 0\n5 d 3 0\n6 0 5 3 4 0\n",
            "c log line 3: NotLive 3\n",
        ),
        (
            "c made by hand\n\n5 1 0 1 2 0\n6 0 5 4 0",
            "c log line 4: NoConflict 6\n",
        ),
        ("5 0 1 0\nnonsense\n", "c log line 1: HintNotUnit 1\n"),
        ("4 1 0 1 2 0\n", "c log line 1: IdNotGreater 4\n"),
        ("5 3 0 1 0\n", "c log line 1: VarAbove 5\n"),
        ("5 1 0 1 0\n", "c log line 1: NoConflict 5\n"),
        ("5 1 0 1 2 0\n", "c log: NoEmptyClause\n"),
        ("5 1 -1 0 1 2 0\n", "c log: NoEmptyClause\n"),
        ("", "c log: NoEmptyClause\n"),
    ];
    for (lines, why) in cases {
        let alloc = rt.alloc();
        let told = format!(in alloc; "s NOT VERIFIED\n{why}")?;
        assert!(rt;
            is_checked(&rt, rt.alloc(), FOUR_CLAUSES, lines, 1, told.as_str())?,
            "on {lines:?}"
        );
    }
    Ok(())
}

#[test]
fn names_the_first_fault_of_a_log(rt: HostRuntime) -> Result<(), Fail> {
    let cases = [
        (FOUR_CLAUSES, "5 1 0 1 2", "c fault: log line 1: BadLine\n"),
        (
            FOUR_CLAUSES,
            "5 1 0 1 2 0\n6 0 -5 3 4 0\n",
            "c fault: log line 2: RatHint\n",
        ),
        (
            "p cnf 1 1\n2 0\n",
            "nonsense\n",
            "c fault: line 2: VarAbove\n",
        ),
    ];
    for (text, lines, on_out) in cases {
        assert!(rt;
            is_checked(&rt, rt.alloc(), text, lines, 3, on_out)?,
            "on {lines:?}"
        );
    }
    Ok(())
}

/// How a check of the four clauses ends, where the log ends behind its first `cut` bytes and comes byte by byte.
fn status_of_cut(alloc: Global, lines: &str, cut: usize) -> Result<u8, Fail> {
    let front = lines.as_bytes().get(..cut).unwrap_or_default();
    let mut cnf = source_of(alloc, FOUR_CLAUSES)?;
    let mut log = MemSource::new(Vec::from_slice(alloc, front)?, 1, Vec::new(alloc));
    let mut out = TextSink::new(alloc);
    let report = run_check(alloc, &mut cnf, &mut log, &mut out);
    Ok(code(&report.status))
}

#[test]
fn checks_a_log_that_is_cut_at_each_byte(rt: HostRuntime) -> Result<(), Fail> {
    let lines = "5 1 0 1 2 0\n6 0 5 3 4 0\n";
    for cut in 0..25usize {
        // The first line is whole from byte 11 on, and the second from byte 23 on.
        let want = match cut {
            0 | 11 | 12 => 1,
            23 | 24 => 0,
            _ => 3,
        };
        assert_eq!(rt;
            status_of_cut(rt.alloc(), lines, cut)?,
            want,
            "cut at byte {cut}"
        );
    }
    Ok(())
}

#[test]
fn reads_no_further_once_a_line_decides(rt: HostRuntime) -> Result<(), Fail> {
    let alloc = rt.alloc();
    // The log comes in pieces of 8 bytes, and the second read fails.
    let cases = [("5 0 1 0\n6 0 5 3 4 0\n", 1), ("5 0 1 b\n6 0 5 3 4 0\n", 3)];
    for (lines, want) in cases {
        let mut cnf = source_of(alloc, FOUR_CLAUSES)?;
        let second = Vec::from_slice(alloc, &[2])?;
        let mut log = MemSource::new(Vec::from_slice(alloc, lines.as_bytes())?, 8, second);
        let mut out = TextSink::new(alloc);
        let report = run_check(alloc, &mut cnf, &mut log, &mut out);
        assert_eq!(rt; code(&report.status), want, "on {lines:?}");
        let mut byte = [0u8; 1];
        assert!(rt;
            log.read(&mut byte).is_err(),
            "on {lines:?}: the failing read was made before"
        );
    }
    Ok(())
}

#[test]
fn checks_nothing_where_a_stream_fails(rt: HostRuntime) -> Result<(), Fail> {
    let alloc = rt.alloc();
    let first = [1].as_slice();
    let second = [2].as_slice();
    let third = [3].as_slice();
    let never = [].as_slice();
    let log = "5 1 0 1 2 0\n6 0 5 3 4 0\n";
    // The calls of the formula's source, the log's source and the output that fail, and the status.
    let cases = [
        (second, never, never, 4),
        (never, first, never, 4),
        (never, third, never, 4),
        (never, never, first, 5),
    ];
    for (formulas, logs, outs, want) in cases {
        let text = Vec::from_slice(alloc, FOUR_CLAUSES.as_bytes())?;
        let mut cnf = MemSource::new(text, 8, Vec::from_slice(alloc, formulas)?);
        let lines = Vec::from_slice(alloc, log.as_bytes())?;
        let mut log = MemSource::new(lines, 8, Vec::from_slice(alloc, logs)?);
        let mut out = MemSink::new(alloc, Vec::from_slice(alloc, outs)?, 0);
        let report = run_check(alloc, &mut cnf, &mut log, &mut out);
        assert_eq!(rt;
            code(&report.status),
            want,
            "with {formulas:?} {logs:?} {outs:?}"
        );
        assert_eq!(rt;
            out.text(),
            b"".as_slice(),
            "with {formulas:?} {logs:?} {outs:?}"
        );
    }
    Ok(())
}

#[test]
fn takes_a_clause_and_a_lemma_of_a_thousand_literals(rt: HostRuntime) -> Result<(), Fail> {
    let alloc = rt.alloc();
    let mut clause = Vec::new(alloc);
    for var in 1..1_001u64 {
        clause.extend_from_slice(format!(in alloc; "{var} ")?.as_bytes())?;
    }
    let mut text = Vec::from_slice(alloc, b"p cnf 1000 1\n")?;
    text.extend_from_slice(clause.as_slice())?;
    text.extend_from_slice(b"0\n")?;
    let mut lines = Vec::from_slice(alloc, b"2 ")?;
    lines.extend_from_slice(clause.as_slice())?;
    lines.extend_from_slice(b"0 1 0\n")?;
    let mut out = TextSink::new(alloc);
    let report = run_check(
        alloc,
        &mut TextSource::new(text),
        &mut TextSource::new(lines),
        &mut out,
    );
    assert_eq!(rt; code(&report.status), 1);
    assert_eq!(rt;
        out.text(),
        b"s NOT VERIFIED\nc log: NoEmptyClause\n".as_slice()
    );
    Ok(())
}
