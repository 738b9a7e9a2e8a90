// Streams that fail, and texts that are cut or are none.
use super::{FOUR_CLAUSES, ONE_MODEL, status, words_of};
use gr_io::{MemSink, MemSource, TextSink};
use std::alloc::Global;
use std::sync::Wait;
use std::test::Fail;
use std::thread::Threads;

/// Whether `solve` ends so on a text that comes byte by byte, where the read of this number fails,
/// from 1; and writes this to the output, and nothing to the proof log.
fn is_read_so<R: Threads + Wait + Sync>(
    rt: &R,
    alloc: Global,
    text: &[u8],
    failing: u64,
    want: u8,
    on_out: &str,
) -> Result<bool, Fail> {
    let words = words_of(alloc, &["solve", "f.cnf", "f.lrat"])?;
    let text = Vec::from_slice(alloc, text)?;
    let mut cnf = MemSource::new(text, 1, Vec::from_slice(alloc, &[failing])?);
    let mut out = TextSink::new(alloc);
    let mut proof = TextSink::new(alloc);
    let ended = status(rt, alloc, &words, &mut cnf, &mut out, &mut proof);
    Ok(ended == want && out.text() == on_out.as_bytes() && proof.text().is_empty())
}

#[test]
fn tells_nothing_of_a_text_that_is_read_in_part(rt: HostRuntime) -> Result<(), Fail> {
    // The last of these reads asks for more behind the last byte.
    for call in 1..30u64 {
        assert!(rt;
            is_read_so(&rt, rt.alloc(), ONE_MODEL.as_bytes(), call, 4, "")?,
            "where read {call} fails"
        );
    }
    Ok(())
}

#[test]
fn a_token_counts_once_the_blank_behind_it_was_read(rt: HostRuntime) -> Result<(), Fail> {
    let alloc = rt.alloc();
    let text = b"p cnf 1 1\n2 0\n".as_slice();
    let above = "c fault: line 2: VarAbove\n";
    assert!(rt; is_read_so(&rt, alloc, text, 12, 4, "")?, "the blank");
    assert!(rt; is_read_so(&rt, alloc, text, 13, 3, above)?, "behind it");
    let packed = [31, 139, 8, 0].as_slice();
    let other = "c fault: line 1: NoHeader\n";
    assert!(rt;
        is_read_so(&rt, alloc, packed, 0, 3, other)?,
        "a packed text"
    );
    Ok(())
}

/// How `solve` ends on the front of this length of the text with one model, and what it writes.
fn told_of_front(length: usize) -> (u8, &'static str) {
    match length {
        0 => (3, "c fault: line 1: NoHeader\n"),
        1..=8 => (3, "c fault: line 1: BadHeader\n"),
        9 => (3, "c fault: line 1: TooFew\n"),
        10 | 13 => (3, "c fault: line 2: TooFew\n"),
        11 | 12 => (3, "c fault: line 2: Unended\n"),
        14 | 21 => (3, "c fault: line 3: TooFew\n"),
        15 | 18 => (3, "c fault: line 3: BadToken\n"),
        16 | 17 | 19 | 20 => (3, "c fault: line 3: Unended\n"),
        22 => (3, "c fault: line 4: TooFew\n"),
        23..=26 => (3, "c fault: line 4: Unended\n"),
        _ => (10, "s SATISFIABLE\nv 1 -2 3 0\n"),
    }
}

#[test]
fn names_what_a_cut_text_lacks(rt: HostRuntime) -> Result<(), Fail> {
    for length in 0..28usize {
        let front = ONE_MODEL.as_bytes().get(..length).unwrap_or_default();
        let (want, on_out) = told_of_front(length);
        assert!(rt;
            is_read_so(&rt, rt.alloc(), front, 0, want, on_out)?,
            "cut at byte {length}"
        );
    }
    Ok(())
}

/// Whether `solve` ends so, where these calls of the source, the output and the proof log fail, from
/// 1, and a write that fails keeps so many bytes; and leaves this on the output, and so many of the
/// first six bytes of a proof log.
fn is_left_so<R: Threads + Wait + Sync>(
    rt: &R,
    alloc: Global,
    text: &str,
    failing: (u64, u64, u64),
    keep: usize,
    want: u8,
    on_out: &str,
    logged: usize,
) -> Result<bool, Fail> {
    let words = words_of(alloc, &["solve", "f.cnf", "f.lrat"])?;
    let text = Vec::from_slice(alloc, text.as_bytes())?;
    let mut cnf = MemSource::new(text, 8, Vec::from_slice(alloc, &[failing.0])?);
    let mut out = MemSink::new(alloc, Vec::from_slice(alloc, &[failing.1])?, keep);
    let mut proof = MemSink::new(alloc, Vec::from_slice(alloc, &[failing.2])?, keep);
    let ended = status(rt, alloc, &words, &mut cnf, &mut out, &mut proof);
    let answered = ended == want && out.text() == on_out.as_bytes();
    Ok(answered && proof.text().len().min(6) == logged)
}

#[test]
fn leaves_no_verdict_where_a_stream_fails(rt: HostRuntime) -> Result<(), Fail> {
    let cases = [
        (ONE_MODEL, (2, 0, 0), 0, 4, "", 0),
        (ONE_MODEL, (0, 1, 0), 0, 5, "", 0),
        (ONE_MODEL, (0, 1, 0), 3, 5, "s S", 0),
        (FOUR_CLAUSES, (0, 0, 1), 0, 5, "", 0),
        (FOUR_CLAUSES, (0, 0, 1), 5, 5, "", 5),
        (FOUR_CLAUSES, (0, 1, 0), 0, 5, "", 6),
    ];
    for (text, failing, keep, want, on_out, logged) in cases {
        assert!(rt;
            is_left_so(&rt, rt.alloc(), text, failing, keep, want, on_out, logged)?,
            "on {text:?}, with {keep} bytes kept and {logged} of the log"
        );
    }
    Ok(())
}
