// Texts with their answers, on values from outside, and what a reader does with its source.
ghost use Rattle.std.specs.Prelude.{◌≤◌};
ghost use Rattle.gr_dimacs.specs.Reads.{IsLawful};

use crate::{FaultKind, GrammarFault, Limits, PROGRAM_LIMITS, ReadError, read, write};
use gr_io::{MemSink, MemSource, Repeat, SinkError, Source, TextSink};
use std::alloc::Global;
use std::test::Fail;

/// The canonical text of the formula that the text spells, read one byte at a time, or the reader's error.
fn reread(alloc: Global, text: &[u8], limits: &Limits) -> Result<Result<Vec<u8>, ReadError>, Fail>
    requires { IsLawful limits.now }
{
    let mut source = MemSource::new(Vec::from_slice(alloc, text)?, 1, Vec::new(alloc));
    match read(alloc, &mut source, limits) {
        Ok(formula) => {
            let mut sink = TextSink::new(alloc);
            write(&formula, &mut sink)?;
            Ok(Ok(Vec::from_slice(alloc, sink.text())?))
        }
        Err(failed) => Ok(Err(failed)),
    }
}

/// The fault of a text, if it has one.
fn fault(alloc: Global, text: &[u8], limits: &Limits) -> Result<Option<GrammarFault>, Fail>
    requires { IsLawful limits.now }
{
    match reread(alloc, text, limits)? {
        Err(ReadError::Grammar(fault)) => Ok(Some(fault)),
        Err(_) => Err("no memory")?,
        Ok(_) => Ok(None),
    }
}

#[test]
fn any_layout_spells_the_formula(rt: HostRuntime) -> Result<(), Fail> {
    let rows: [(&[u8], &[u8]); 14] = [
        (b"p cnf 0 0", b"p cnf 0 0\n"),
        (b"p cnf 0 1\n0\n", b"p cnf 0 1\n0\n"),
        (
            b"c made by a generator\nc\np cnf 3  3\n1 0\n-1 -2 0\n 2 3 0\n%\n0\n\n",
            b"p cnf 3 3\n1 0\n-1 -2 0\n2 3 0\n",
        ),
        (
            b"p cnf 3 3\r\n1 0 -1\r\n-2 0\t2\r\nc note\r\n3 0\r\n",
            b"p cnf 3 3\n1 0\n-1 -2 0\n2 3 0\n",
        ),
        (b"p\t cnf\n2\n1\n1\n2\n0", b"p cnf 2 1\n1 2 0\n"),
        (b"p cnf 2 2 1 0 -2 0", b"p cnf 2 2\n1 0\n-2 0\n"),
        (
            b"p cnf 1 1\n1\nc 2 0 p cnf\ncnf 5 5\n-1 0\n",
            b"p cnf 1 1\n1 -1 0\n",
        ),
        (b"p cnf 0002 001\n-01 0002 -000\n", b"p cnf 2 1\n-1 2 0\n"),
        (b"p cnf 2 1\n2 2 0\n", b"p cnf 2 1\n2 2 0\n"),
        (b"p cnf 1 1 1 0 %", b"p cnf 1 1\n1 0\n"),
        (b"p cnf 1 1 1 0 %x 7 q", b"p cnf 1 1\n1 0\n"),
        (b"\n\n  p cnf 1 0\n\n", b"p cnf 1 0\n"),
        (
            b"p cnf 1000000 1\n-1000000 0\n",
            b"p cnf 1000000 1\n-1000000 0\n",
        ),
        (
            b"p cnf 3 6\n1 2 0\n-1 -2 0\n2 3 0\n-2 -3 0\n3 1 0\n-3 -1 0\n",
            b"p cnf 3 6\n1 2 0\n-1 -2 0\n2 3 0\n-2 -3 0\n3 1 0\n-3 -1 0\n",
        ),
    ];
    for (text, want) in rows {
        match reread(rt.alloc(), text, &PROGRAM_LIMITS)? {
            Ok(got) => assert!(rt; got.as_slice() == want, "{text:?}"),
            Err(failed) => assert!(rt; false, "{text:?} {failed:?}"),
        }
    }
    Ok(())
}

#[test]
fn the_first_fault_is_named(rt: HostRuntime) -> Result<(), Fail> {
    let rows: [(&[u8], FaultKind, u64); 27] = [
        (b"", FaultKind::NoHeader, 1),
        (b"\n\nc p cnf 1 1\n", FaultKind::NoHeader, 4),
        (b"cnf 1 1\n1 0\n", FaultKind::NoHeader, 2),
        (b"\r\nP cnf 1 1\n", FaultKind::NoHeader, 2),
        (b"p dnf 1 1\n", FaultKind::BadHeader, 1),
        (b"p\ncnf 1 1\n1 0\n", FaultKind::BadHeader, 3),
        (b"p cnf 1\n", FaultKind::BadHeader, 2),
        (b"p cnf -1 1\n", FaultKind::BadHeader, 1),
        (b"p cnf 1\n1x\n", FaultKind::BadHeader, 2),
        (b"p cnf 1000001 0\n", FaultKind::TooLarge, 1),
        (b"p cnf 1\n5000001\n", FaultKind::TooLarge, 2),
        (b"p cnf 99999999999999999999999 0\n", FaultKind::TooLarge, 1),
        (b"p cnf 1 1\n1x 0\n", FaultKind::BadToken, 2),
        (b"p cnf 1 1\n- 0\n", FaultKind::BadToken, 2),
        (b"p cnf 1 1\n+1 0\n", FaultKind::BadToken, 2),
        (b"p cnf 1 1\r\n1\r\n%\r\n0\r\n", FaultKind::BadToken, 3),
        (b"p cnf 1 1\n2 0\n", FaultKind::VarAbove, 2),
        (b"p cnf 1 1\n1 -2 x\n", FaultKind::VarAbove, 2),
        (
            b"p cnf 9 1\n184467440737095516170 0\n",
            FaultKind::VarAbove,
            2,
        ),
        (b"p cnf 1 1\n1 0\n-1 0\n", FaultKind::TooMany, 3),
        (b"p cnf 1 1\n1 0\n5 0\n", FaultKind::TooMany, 3),
        (b"p cnf 1 0\n\n0\n", FaultKind::TooMany, 3),
        (b"p cnf 1 2\n1 0\n", FaultKind::TooFew, 3),
        (b"p cnf 1 2\n1 0\n%\n1 0\n", FaultKind::TooFew, 3),
        (b"p cnf 2 1\n1 2", FaultKind::Unended, 2),
        (b"p cnf 2 1\n1\nc 0\n", FaultKind::Unended, 4),
        (b"p cnf 1 1\n1 0 0 %", FaultKind::TooMany, 2),
    ];
    for (text, kind, line) in rows {
        let got = fault(rt.alloc(), text, &PROGRAM_LIMITS)?;
        assert!(rt;
            got == Some(GrammarFault { kind, line }),
            "{text:?} {got:?}"
        );
    }
    Ok(())
}

/// The fault of a text under limits on its literals and bytes.
fn limited(
    alloc: Global,
    text: &[u8],
    literals: u64,
    bytes: u64,
) -> Result<Option<GrammarFault>, Fail>
    requires literals { literals ≤ 20_000_000 }
    requires bytes { bytes ≤ 4_294_967_296 }
{
    let limits = Limits {
        vars: 3,
        clauses: 3,
        literals,
        bytes,
    };
    fault(alloc, text, &limits)
}

fn at(kind: FaultKind, line: u64) -> Option<GrammarFault> {
    Some(GrammarFault { kind, line })
}

#[test]
fn each_limit_is_kept(rt: HostRuntime) -> Result<(), Fail> {
    let alloc = rt.alloc();
    let text: &[u8] = b"p cnf 3 3\n1 0\n-1 -2 0\n2 3 0\n";
    let closed: &[u8] = b"p cnf 0 0 % c";
    assert_eq!(rt; limited(alloc, text, 5, 29)?, None);
    assert_eq!(rt; limited(alloc, text, 4, 29)?, at(FaultKind::TooLarge, 4));
    assert_eq!(rt; limited(alloc, text, 5, 28)?, at(FaultKind::TooLong, 4));
    assert_eq!(rt; limited(alloc, text, 5, 11)?, at(FaultKind::TooLong, 2));
    assert_eq!(rt; limited(alloc, text, 5, 8)?, at(FaultKind::TooLong, 1));
    assert_eq!(rt; limited(alloc, text, 5, 0)?, at(FaultKind::TooLong, 1));
    assert_eq!(rt; limited(alloc, closed, 0, 12)?, None);
    assert_eq!(rt; limited(alloc, closed, 0, 11)?, at(FaultKind::TooLong, 1));
    assert_eq!(rt;
        limited(alloc, b"p cnf 4 0\n", 5, 99)?,
        at(FaultKind::TooLarge, 1)
    );
    assert_eq!(rt;
        limited(alloc, b"p cnf 3 4\n", 5, 99)?,
        at(FaultKind::TooLarge, 1)
    );
    Ok(())
}

#[test]
fn an_endless_comment_is_too_long(rt: HostRuntime) -> Result<(), Fail> {
    let alloc = rt.alloc();
    let limits = Limits {
        vars: 3,
        clauses: 3,
        literals: 5,
        bytes: 100,
    };
    let mut device = Repeat::new(Vec::from_slice(alloc, b"c x ")?);
    let got = match read(alloc, &mut device, &limits) {
        Ok(_) => None,
        Err(failed) => Some(failed),
    };
    assert!(rt;
        got == at(FaultKind::TooLong, 1).map(ReadError::Grammar),
        "{got:?}"
    );
    Ok(())
}

/// What the first bytes of `p cnf 2 2 / 1 -2 0 / 2 0 /` are at fault for.
fn prefix_fault(len: usize) -> Option<GrammarFault> {
    match len {
        0 => at(FaultKind::NoHeader, 1),
        1..=8 => at(FaultKind::BadHeader, 1),
        9 => at(FaultKind::TooFew, 1),
        10 => at(FaultKind::TooFew, 2),
        11 | 12 | 14 | 15 => at(FaultKind::Unended, 2),
        13 => at(FaultKind::BadToken, 2),
        16 => at(FaultKind::TooFew, 2),
        17 => at(FaultKind::TooFew, 3),
        18 | 19 => at(FaultKind::Unended, 3),
        _ => None,
    }
}

#[test]
fn each_prefix_has_its_fault(rt: HostRuntime) -> Result<(), Fail> {
    let text: &[u8] = b"p cnf 2 2\n1 -2 0\n2 0\n";
    for len in 0..text.len() {
        let got = fault(rt.alloc(), &text[..len], &PROGRAM_LIMITS)?;
        assert!(rt; got == prefix_fault(len), "{len} bytes: {got:?}");
    }
    Ok(())
}

/// What was read: nothing, or why not.
fn outcome(alloc: Global, source: &mut MemSource) -> Option<ReadError> {
    match read(alloc, source, &PROGRAM_LIMITS) {
        Ok(_) => None,
        Err(failed) => Some(failed),
    }
}

#[test]
fn nothing_is_read_once_the_answer_is_decided(rt: HostRuntime) -> Result<(), Fail> {
    let alloc = rt.alloc();
    let rows: [(&[u8], u64, Option<GrammarFault>); 5] = [
        (b"q  ", 2, at(FaultKind::NoHeader, 1)),
        (b"p cnf 1 1\n2 0\n", 12, at(FaultKind::VarAbove, 2)),
        (b"p cnf 1 1\n1x 0\n", 13, at(FaultKind::BadToken, 2)),
        (b"p cnf 1 1 1 0 1 0", 16, at(FaultKind::TooMany, 1)),
        (b"p cnf 1 1 1 0 % x", 16, None),
    ];
    for (text, call, want) in rows {
        // Each call gives one byte. The call that gives the blank behind the last token fails, or the one after it.
        let mut early = MemSource::new(
            Vec::from_slice(alloc, text)?,
            1,
            Vec::from_slice(alloc, &[call])?,
        );
        assert!(rt;
            outcome(alloc, &mut early) == Some(ReadError::ReadFault),
            "{text:?}"
        );
        let next = call.saturating_add(1);
        let mut late = MemSource::new(
            Vec::from_slice(alloc, text)?,
            1,
            Vec::from_slice(alloc, &[next])?,
        );
        assert!(rt;
            outcome(alloc, &mut late) == want.map(ReadError::Grammar),
            "{text:?}"
        );
        let mut byte = [0u8; 1];
        assert!(rt;
            late.read(&mut byte).is_err(),
            "{text:?}: the failing call was made before"
        );
    }
    Ok(())
}

#[test]
fn a_failed_write_fails(rt: HostRuntime) -> Result<(), Fail> {
    let alloc = rt.alloc();
    let mut source = MemSource::new(
        Vec::from_slice(alloc, b"p cnf 1 1\n1 0\n")?,
        8,
        Vec::new(alloc),
    );
    let formula = read(alloc, &mut source, &PROGRAM_LIMITS)?;
    let mut sink = MemSink::new(alloc, Vec::from_slice(alloc, &[1])?, 5);
    assert!(rt; write(&formula, &mut sink) == Err(SinkError::Fault));
    assert_eq!(rt; sink.text(), b"p cnf".as_slice());
    Ok(())
}

#[test]
fn a_thousand_clauses_of_three_hundred_sizes_are_read_and_written(
    rt: HostRuntime,
) -> Result<(), Fail> {
    let alloc = rt.alloc();
    let mut text = Vec::from_slice(alloc, b"p cnf 300 1000\n")?;
    for clause in 0..1_000u64 {
        for var in 0..clause % 300 {
            let literal = var + 1;
            text.extend_from_slice(format!(in alloc; "{literal} ")?.as_bytes())?;
        }
        text.extend_from_slice(b"0\n")?;
    }
    let again = reread(alloc, text.as_slice(), &PROGRAM_LIMITS)?;
    assert!(rt; again.is_ok_and(|written| written.as_slice() == text.as_slice()));
    Ok(())
}
