// Logs that are read and written, compared with tables made by hand.
use crate::{LineError, LineReader, Numbered, write_line};
use gr_io::{MemSource, Repeat, Sink, Source, TextSink, TextSource};
use gr_logic::{Clause, Ids, Line, Lit};
use gr_text::Printer;
use std::alloc::Global;
use std::test::Fail;

const ENDLESS: u64 = 1 << 40;

/// A list of ids, told.
fn tell_ids(alloc: Global, told: &mut Vec<u8>, ids: &Ids) -> Result<(), Fail> {
    for id in ids.all() {
        told.extend_from_slice(format!(in alloc; " {id}")?.as_bytes())?;
    }
    Ok(())
}

/// Literals, told.
fn tell_lits(alloc: Global, told: &mut Vec<u8>, lits: &[Lit]) -> Result<(), Fail> {
    for lit in lits {
        let n = lit.number();
        told.extend_from_slice(format!(in alloc; " {n}")?.as_bytes())?;
    }
    Ok(())
}

/// What a line says, told.
fn tell_line(alloc: Global, told: &mut Vec<u8>, line: &Line) -> Result<(), Fail> {
    match line {
        Line::Add { id, clause, hints } => {
            told.extend_from_slice(format!(in alloc; "adds {id}:")?.as_bytes())?;
            tell_lits(alloc, told, clause.lits())?;
            told.extend_from_slice(b" by")?;
            tell_ids(alloc, told, hints)
        }
        Line::Delete { id, ids } => {
            told.extend_from_slice(format!(in alloc; "deletes, {id}:")?.as_bytes())?;
            tell_ids(alloc, told, ids)
        }
    }
}

/// What was read, as a line of text.
fn tell(alloc: Global, told: &mut Vec<u8>, found: &Numbered) -> Result<(), Fail> {
    let number = found.number;
    told.extend_from_slice(format!(in alloc; "{number} ")?.as_bytes())?;
    tell_line(alloc, told, &found.line)?;
    told.push(b'\n')?;
    Ok(())
}

/// Why a log was not read on, but for the line.
fn cause_of(failed: LineError) -> &'static str {
    match failed {
        LineError::BadLine { .. } => "is bad\n",
        LineError::RatHint { .. } => "has a negative hint\n",
        LineError::TooLong { .. } => "is too long\n",
        LineError::ReadFault => "fault\n",
        LineError::OutOfMemory => "no memory\n",
    }
}

/// The line at which a log was not read on.
fn line_of(failed: LineError) -> Option<u64> {
    match failed {
        LineError::BadLine { line } | LineError::RatHint { line } | LineError::TooLong { line } => {
            Some(line)
        }
        LineError::ReadFault | LineError::OutOfMemory => None,
    }
}

/// Why a log was not read on, as a line of text.
fn tell_error(alloc: Global, told: &mut Vec<u8>, failed: LineError) -> Result<(), Fail> {
    if let Some(line) = line_of(failed) {
        told.extend_from_slice(format!(in alloc; "{line} ")?.as_bytes())?;
    }
    told.extend_from_slice(cause_of(failed).as_bytes())?;
    Ok(())
}

/// All that is read up to the end or an error.
fn tell_rest<S: Source>(
    alloc: Global,
    told: &mut Vec<u8>,
    reader: &mut LineReader<'_, S>,
) -> Result<(), Fail> {
    for _ in 0..2_000u64 {
        match reader.next() {
            Ok(Some(found)) => tell(alloc, told, &found)?,
            Ok(None) => {
                told.extend_from_slice(b"end\n")?;
                return Ok(());
            }
            Err(failed) => return tell_error(alloc, told, failed),
        }
    }
    Ok(())
}

fn tell_all<S: Source>(alloc: Global, source: &mut S, max_bytes: u64) -> Result<Vec<u8>, Fail> {
    let mut told = Vec::new(alloc);
    let mut reader = LineReader::new(alloc, source, max_bytes)?;
    tell_rest(alloc, &mut told, &mut reader)?;
    Ok(told)
}

/// Whether this is told of a log of at most so many bytes.
fn is_told(alloc: Global, text: &[u8], max_bytes: u64, want: &[u8]) -> Result<bool, Fail> {
    let mut source = TextSource::new(Vec::from_slice(alloc, text)?);
    let told = tell_all(alloc, &mut source, max_bytes)?;
    Ok(told.as_slice() == want)
}

/// Logs, and what is told of them.
const LINES: [(&[u8], &[u8]); 9] = [
    (b"", b"end\n"),
    (b"c x\n05 1 0 1 2 0", b"2 adds 5: 1 by 1 2\nend\n"),
    (
        b"\r\n\t \n6 -1 2 -2 0 0\r\n",
        b"3 adds 6: -1 2 -2 by\nend\n",
    ),
    (b"7 0 1 0\n8 0 0\n", b"1 adds 7: by 1\n2 adds 8: by\nend\n"),
    (
        b"9 d 3 004 0\n00 d 0\n",
        b"1 deletes, 0: 3 4\n2 deletes, 0:\nend\n",
    ),
    (
        b"9 1000000 -1000000 0 0\n",
        b"1 adds 9: 1000000 -1000000 by\nend\n",
    ),
    (
        b"9223372036854775807 0 0\n",
        b"1 adds 9223372036854775807: by\nend\n",
    ),
    (b"99999999999999999999 d 1 0\n", b"1 deletes, 0: 1\nend\n"),
    (
        b"9 d 4 0\nc 5\n\ncnf\n9 x\n8 0 0",
        b"1 deletes, 0: 4\n5 is bad\n",
    ),
];

#[test]
fn reads_lines_with_their_numbers(rt: HostRuntime) -> Result<(), Fail> {
    for (text, want) in LINES {
        assert!(rt; is_told(rt.alloc(), text, ENDLESS, want)?, "{text:?}");
    }
    Ok(())
}

/// Lines that are misspelt.
const BAD: [&[u8]; 18] = [
    b"9",
    b"9 0",
    b"9 1 0 2",
    b"9 1 00 2 0",
    b"9 1 0 2 00",
    b"9 1 0 2 0 3",
    b"9 -0 0 2 0",
    b"9 1 0 --2 0",
    b"9 1 0 - 0",
    b"9 1000001 0 0",
    b"0 1 0 0",
    b"-9 1 0 0",
    b"9223372036854775808 0 0",
    b"9 1 0 9223372036854775808 0",
    b"9 d 4",
    b"9 d -4 0",
    b"x d 4 0",
    b"9 1 0 -2 0 3",
];

/// Lines with a negative hint.
const NEGATIVE: [&[u8]; 4] = [
    b"9 1 0 -2 0",
    b"9 1 0 -0 0",
    b"9 1 0 3 -99999999999999999999 4 0",
    b"9 0 -1 -2 0",
];

#[test]
fn tells_misspelt_lines_from_negative_hints(rt: HostRuntime) -> Result<(), Fail> {
    for text in BAD {
        assert!(rt;
            is_told(rt.alloc(), text, ENDLESS, b"1 is bad\n")?,
            "{text:?}"
        );
    }
    for text in NEGATIVE {
        assert!(rt;
            is_told(rt.alloc(), text, ENDLESS, b"1 has a negative hint\n")?,
            "{text:?}"
        );
    }
    Ok(())
}

/// What is told of the first bytes of `4 1 0 2 0 / 5 d 4 0 /`.
fn told_of_cut(cut: usize) -> &'static [u8] {
    match cut {
        0 => b"end\n",
        9 | 10 => b"1 adds 4: 1 by 2\nend\n",
        11..=16 => b"1 adds 4: 1 by 2\n2 is bad\n",
        17 => b"1 adds 4: 1 by 2\n2 deletes, 0: 4\nend\n",
        _ => b"1 is bad\n",
    }
}

#[test]
fn a_cut_log_is_read_up_to_the_cut(rt: HostRuntime) -> Result<(), Fail> {
    let text = b"4 1 0 2 0\n5 d 4 0\n";
    for cut in 0..18usize {
        assert!(rt;
            is_told(rt.alloc(), &text[..cut], ENDLESS, told_of_cut(cut))?,
            "cut at {cut}"
        );
    }
    Ok(())
}

/// Logs, how many bytes of them may be taken, and what is told of them: a line counts once its end was taken.
const LIMITS: [(&[u8], u64, &[u8]); 6] = [
    (b"4 0 0\nx\n", 0, b"1 is too long\n"),
    (b"4 0 0\nx\n", 5, b"1 is too long\n"),
    (b"4 0 0\nx\n", 6, b"1 adds 4: by\n1 is too long\n"),
    (b"4 0 0\nx\n", 7, b"1 adds 4: by\n2 is too long\n"),
    (b"4 0 0\nx\n", 8, b"1 adds 4: by\n2 is bad\n"),
    (b"4 0 0\nx\n", 9, b"1 adds 4: by\n2 is bad\n"),
];

#[test]
fn keeps_the_limit_on_bytes(rt: HostRuntime) -> Result<(), Fail> {
    for (text, most, want) in LIMITS {
        assert!(rt;
            is_told(rt.alloc(), text, most, want)?,
            "{text:?}, at most {most} bytes"
        );
    }
    Ok(())
}

#[test]
fn any_number_is_a_limit(rt: HostRuntime) -> Result<(), Fail> {
    let text = b"4 1 0 2 0\n\n5 d 4 0\n";
    let want = b"1 adds 4: 1 by 2\n3 deletes, 0: 4\nend\n";
    for most in [u64::MAX, u64::MAX - 1, 1 << 63] {
        assert!(rt;
            is_told(rt.alloc(), text, most, want)?,
            "at most {most} bytes"
        );
    }
    Ok(())
}

#[test]
fn an_endless_line_is_too_long(rt: HostRuntime) -> Result<(), Fail> {
    let alloc = rt.alloc();
    let mut device = Repeat::new(Vec::from_slice(alloc, b"5 ")?);
    let told = tell_all(alloc, &mut device, 50)?;
    assert_eq!(rt; told.as_slice(), b"1 is too long\n".as_slice());
    Ok(())
}

/// Whether this is told of `4 1 0 2 0 / x /` in pieces of a size, where a call fails.
fn is_told_by_pieces(alloc: Global, size: usize, failing: u64, want: &[u8]) -> Result<bool, Fail> {
    let text = Vec::from_slice(alloc, b"4 1 0 2 0\nx\n")?;
    if size == 0 {
        return Err(Fail::from("no pieces"));
    }
    let mut source = MemSource::new(text, size, Vec::from_slice(alloc, &[failing])?);
    let told = tell_all(alloc, &mut source, ENDLESS)?;
    Ok(told.as_slice() == want)
}

/// Sizes of pieces, the call that fails, and what is told.
const PIECES: [(usize, u64, &[u8]); 4] = [
    (1, 0, b"1 adds 4: 1 by 2\n2 is bad\n"),
    (3, 2, b"fault\n"),
    (5, 3, b"1 adds 4: 1 by 2\nfault\n"),
    (50, 2, b"1 adds 4: 1 by 2\n2 is bad\n"),
];

#[test]
fn pieces_and_faults(rt: HostRuntime) -> Result<(), Fail> {
    for (size, failing, want) in PIECES {
        assert!(rt;
            is_told_by_pieces(rt.alloc(), size, failing, want)?,
            "pieces of {size}"
        );
    }
    Ok(())
}

/// Appends the numbers up to this one, with a blank before each.
fn append_numbers(alloc: Global, text: &mut Vec<u8>, last: u64) -> Result<(), Fail> {
    for below in 0..last {
        let number = below.saturating_add(1);
        text.extend_from_slice(format!(in alloc; " {number}")?.as_bytes())?;
    }
    Ok(())
}

/// Appends the numbers up to one, a text, those up to another, and a text.
fn append_both(
    alloc: Global,
    text: &mut Vec<u8>,
    firsts: (u64, &[u8]),
    seconds: (u64, &[u8]),
) -> Result<(), Fail> {
    append_numbers(alloc, text, firsts.0)?;
    text.extend_from_slice(firsts.1)?;
    append_numbers(alloc, text, seconds.0)?;
    text.extend_from_slice(seconds.1)?;
    Ok(())
}

/// A thousand lines of many sizes, and one that is longer than any buffer.
fn long_log(alloc: Global) -> Result<Vec<u8>, Fail> {
    let mut text = Vec::new(alloc);
    for id in 1..1_001u64 {
        text.extend_from_slice(format!(in alloc; "{id}")?.as_bytes())?;
        append_both(alloc, &mut text, (id % 300, b" 0"), (id % 70, b" 0\n"))?;
    }
    text.extend_from_slice(b"1001")?;
    append_both(alloc, &mut text, (3, b" 0"), (100_000, b" 0\n"))?;
    Ok(text)
}

/// What is told of these lines.
fn long_told(alloc: Global) -> Result<Vec<u8>, Fail> {
    let mut told = Vec::new(alloc);
    for id in 1..1_001u64 {
        told.extend_from_slice(format!(in alloc; "{id} adds {id}:")?.as_bytes())?;
        append_both(alloc, &mut told, (id % 300, b" by"), (id % 70, b"\n"))?;
    }
    told.extend_from_slice(b"1001 adds 1001:")?;
    append_both(alloc, &mut told, (3, b" by"), (100_000, b"\nend\n"))?;
    Ok(told)
}

#[test]
fn reads_a_thousand_lines_of_many_sizes(rt: HostRuntime) -> Result<(), Fail> {
    let text = long_log(rt.alloc())?;
    let told = long_told(rt.alloc())?;
    assert!(rt; is_told(rt.alloc(), text.as_slice(), ENDLESS, told.as_slice())?);
    Ok(())
}

/// The clause of the negations of the variables from 300 down to 1.
fn long_clause(alloc: Global) -> Result<Clause, Fail> {
    let mut clause = Clause::new(alloc);
    for index in 0..300u32 {
        clause.push(Lit::from_code(599 - 2 * index))?;
    }
    Ok(clause)
}

/// Writes the line that adds these literals by the greatest id, and one that deletes 4.
fn write_two<K: Sink>(alloc: Global, sink: &mut K, clause: Clause) -> Result<(), Fail> {
    let mut printer = Printer::new(sink);
    let hints = Ids::from_vec(Vec::from_slice(alloc, &[9_223_372_036_854_775_807])?);
    let addition = Line::Add {
        id: 5,
        clause,
        hints,
    };
    write_line(&addition, &mut printer)?;
    let ids = Ids::from_vec(Vec::from_slice(alloc, &[4])?);
    write_line(&Line::Delete { id: 6, ids }, &mut printer)?;
    printer.flush()?;
    Ok(())
}

/// Whether these lines are so long, and begin and end so.
fn is_written(
    alloc: Global,
    clause: Clause,
    len: usize,
    front: &[u8],
    back: &[u8],
) -> Result<bool, Fail> {
    let mut sink = TextSink::new(alloc);
    write_two(alloc, &mut sink, clause)?;
    let text = sink.text();
    Ok(text.len() == len && text.starts_with(front) && text.ends_with(back))
}

#[test]
fn writes_additions_and_deletions(rt: HostRuntime) -> Result<(), Fail> {
    let alloc = rt.alloc();
    let whole = b"5 -2 0 9223372036854775807 0\n6 d 4 0\n";
    let clause = Clause::from_lits(alloc, &[Lit::of_var(2, false)])?;
    assert!(rt; is_written(alloc, clause, 37, whole, whole)?);
    let back = b" -2 -1 0 9223372036854775807 0\n6 d 4 0\n";
    assert!(rt; is_written(alloc, long_clause(alloc)?, 1_426, b"5 -300 -299 ", back)?);
    Ok(())
}
