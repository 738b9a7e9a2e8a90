// What scanners give, told line by line and compared with tables made by hand.
ghost use Rattle.std.specs.Prelude.{◌<◌};

use crate::{ScanError, Scanned, Scanner};
use gr_io::{MemSource, Source, TextSource};
use std::alloc::Global;
use std::test::Fail;

const ENDLESS: u64 = 1 << 40;

/// A text with a comment, a carriage return, an empty line, a tab and no line feed at its end.
const TEXT: &[u8] = b"c note 1\r\np cnf  2 1\n\n\t1 -2\n0\n%";

const TEXT_TOLD: &[u8] = b"1 first c\n1 then note\n1 then 1\n1 ends\n\
    2 first p\n2 then cnf\n2 then 2\n2 then 1\n2 ends\n3 ends\n\
    4 first 1\n4 then -2\n4 ends\n5 first 0\n5 ends\n6 first %\n6 is last\n";

/// What a call gave, but for the line and the token.
fn word_of(next: Result<Scanned, ScanError>) -> &'static str {
    match next {
        Ok(Scanned::Token { first: true, .. }) => "first ",
        Ok(Scanned::Token { first: false, .. }) => "then ",
        Ok(Scanned::LineEnd { .. }) => "ends",
        Ok(Scanned::End { .. }) => "is last",
        Err(ScanError::TooLong { .. }) => "is too long",
        Err(ScanError::ReadFault) => "fault",
        Err(ScanError::OutOfMemory) => "no memory",
    }
}

/// The line of what a call gave.
fn line_of(next: Result<Scanned, ScanError>) -> Option<u64> {
    match next {
        Ok(Scanned::Token { line, .. } | Scanned::LineEnd { line } | Scanned::End { line }) => {
            Some(line)
        }
        Err(ScanError::TooLong { line }) => Some(line),
        Err(_) => None,
    }
}

/// Appends what one call gave, as a line of text.
fn tell(
    told: &mut Vec<u8>,
    alloc: Global,
    next: Result<Scanned, ScanError>,
    token: &[u8],
) -> Result<(), Fail> {
    if let Some(line) = line_of(next) {
        told.extend_from_slice(format!(in alloc; "{line} ")?.as_bytes())?;
    }
    told.extend_from_slice(word_of(next).as_bytes())?;
    if matches!(next, Ok(Scanned::Token { .. })) {
        told.extend_from_slice(token)?;
    }
    told.push(b'\n')?;
    Ok(())
}

/// Appends all that a scanner gives up to the end or an error.
fn tell_rest<S: Source>(
    told: &mut Vec<u8>,
    alloc: Global,
    scanner: &mut Scanner<'_, S>,
) -> Result<(), Fail> {
    for _ in 0..1000u64 {
        let next = scanner.next();
        tell(told, alloc, next, scanner.token())?;
        if !matches!(next, Ok(Scanned::Token { .. } | Scanned::LineEnd { .. })) {
            break;
        }
    }
    Ok(())
}

/// All that a scanner gives up to the end or an error.
fn tell_all<S: Source>(alloc: Global, source: &mut S, max_bytes: u64) -> Result<Vec<u8>, Fail> {
    let mut told = Vec::new(alloc);
    let mut scanner = Scanner::new(alloc, source, max_bytes)?;
    tell_rest(&mut told, alloc, &mut scanner)?;
    Ok(told)
}

/// What a scanner gives where the rest of the first line is skipped behind its first token.
fn tell_skipping<S: Source>(alloc: Global, source: &mut S) -> Result<Vec<u8>, Fail> {
    let mut told = Vec::new(alloc);
    let mut scanner = Scanner::new(alloc, source, ENDLESS)?;
    let first = scanner.next();
    tell(&mut told, alloc, first, scanner.token())?;
    scanner.skip_line()?;
    tell_rest(&mut told, alloc, &mut scanner)?;
    Ok(told)
}

/// Whether this is told of a text of at most so many bytes.
fn is_told(alloc: Global, text: &[u8], max_bytes: u64, want: &[u8]) -> Result<bool, Fail> {
    let mut source = TextSource::new(Vec::from_slice(alloc, text)?);
    let told = tell_all(alloc, &mut source, max_bytes)?;
    Ok(told.as_slice() == want)
}

/// Whether this is told of a text that comes in pieces of a size, where these calls fail.
fn is_told_by_pieces(
    alloc: Global,
    text: &[u8],
    size: usize,
    failing: &[u64],
    want: &[u8],
) -> Result<bool, Fail>
    requires { 0 < size }
{
    let text = Vec::from_slice(alloc, text)?;
    let mut source = MemSource::new(text, size, Vec::from_slice(alloc, failing)?);
    let told = tell_all(alloc, &mut source, ENDLESS)?;
    Ok(told.as_slice() == want)
}

/// Whether this is told of a text that comes in pieces of a size, and whose first line is skipped.
fn is_told_skipping(alloc: Global, text: &[u8], size: usize, want: &[u8]) -> Result<bool, Fail>
    requires { 0 < size }
{
    let text = Vec::from_slice(alloc, text)?;
    let mut source = MemSource::new(text, size, Vec::new(alloc));
    let told = tell_skipping(alloc, &mut source)?;
    Ok(told.as_slice() == want)
}

/// Texts, how many bytes of them may be taken, and what is told of them.
const TEXTS: [(&[u8], u64, &[u8]); 17] = [
    (b"", ENDLESS, b"1 is last\n"),
    (b"\n", ENDLESS, b"1 ends\n2 is last\n"),
    (b" \t\r", ENDLESS, b"1 is last\n"),
    (
        b"a b\n",
        ENDLESS,
        b"1 first a\n1 then b\n1 ends\n2 is last\n",
    ),
    (
        b"\x0b\x00 -0",
        ENDLESS,
        b"1 first \x0b\x00\n1 then -0\n1 is last\n",
    ),
    (TEXT, ENDLESS, TEXT_TOLD),
    // A text is too long where one more byte is wanted.
    (b"a b\ncd", 0, b"1 is too long\n"),
    (b"a b\ncd", 1, b"1 is too long\n"),
    (b"a b\ncd", 2, b"1 first a\n1 is too long\n"),
    (b"a b\ncd", 3, b"1 first a\n1 is too long\n"),
    (
        b"a b\ncd",
        4,
        b"1 first a\n1 then b\n1 ends\n1 is too long\n",
    ),
    (
        b"a b\ncd",
        5,
        b"1 first a\n1 then b\n1 ends\n2 is too long\n",
    ),
    (
        b"a b\ncd",
        6,
        b"1 first a\n1 then b\n1 ends\n2 is too long\n",
    ),
    (
        b"a b\ncd",
        7,
        b"1 first a\n1 then b\n1 ends\n2 first cd\n2 is last\n",
    ),
    // Any number is a limit.
    (TEXT, u64::MAX, TEXT_TOLD),
    (TEXT, u64::MAX - 1, TEXT_TOLD),
    (TEXT, 1 << 63, TEXT_TOLD),
];

#[test]
fn texts_are_cut_into_tokens(rt: HostRuntime) -> Result<(), Fail> {
    for (text, max_bytes, want) in TEXTS {
        assert!(rt;
            is_told(rt.alloc(), text, max_bytes, want)?,
            "{text:?}, at most {max_bytes} bytes"
        );
    }
    Ok(())
}

#[test]
fn pieces_of_any_size_give_the_same_tokens(rt: HostRuntime) -> Result<(), Fail> {
    for more in 0..TEXT.len() {
        assert!(rt;
            is_told_by_pieces(rt.alloc(), TEXT, more + 1, &[], TEXT_TOLD)?,
            "{more} more than one byte a call"
        );
    }
    Ok(())
}

/// Calls of the source that fail, and what is told then of a text in pieces of two bytes.
const FAULTS: [(u64, &[u8]); 6] = [
    (1, b"fault\n"),
    (2, b"fault\n"),
    (3, b"1 first ab\n1 ends\nfault\n"),
    (4, b"1 first ab\n1 ends\n2 ends\nfault\n"),
    (5, b"1 first ab\n1 ends\n2 ends\n3 first c\nfault\n"),
    (6, b"1 first ab\n1 ends\n2 ends\n3 first c\n3 is last\n"),
];

#[test]
fn a_fault_comes_where_the_bytes_before_give_no_more(rt: HostRuntime) -> Result<(), Fail> {
    for (call, want) in FAULTS {
        assert!(rt;
            is_told_by_pieces(rt.alloc(), b"ab \n\nc ", 2, &[call], want)?,
            "call {call} fails"
        );
    }
    Ok(())
}

/// Some bytes, a run of one byte that is longer than any buffer, and some bytes.
fn long_text(alloc: Global, front: &[u8], byte: u8, back: &[u8]) -> Result<Vec<u8>, Fail> {
    let mut text = Vec::from_slice(alloc, front)?;
    for _ in 0..200_000u64 {
        text.push(byte)?;
    }
    text.extend_from_slice(back)?;
    Ok(text)
}

#[test]
fn a_token_may_be_longer_than_the_buffer(rt: HostRuntime) -> Result<(), Fail> {
    let text = long_text(rt.alloc(), b"c", b'x', b"\n1")?;
    let told = long_text(
        rt.alloc(),
        b"1 first c",
        b'x',
        b"\n1 ends\n2 first 1\n2 is last\n",
    )?;
    for size in [7, 4096, 1_000_000] {
        assert!(rt;
            is_told_by_pieces(rt.alloc(), text.as_slice(), size, &[], told.as_slice())?,
            "by {size}"
        );
    }
    Ok(())
}

#[test]
fn the_rest_of_a_line_is_skipped(rt: HostRuntime) -> Result<(), Fail> {
    assert!(rt; is_told_skipping(rt.alloc(), b"a b\n", 9, b"1 first a\n1 ends\n2 is last\n")?);
    // Also where it is longer than the buffer.
    let text = long_text(rt.alloc(), b"c", b' ', b"\n1")?;
    for size in [7, 4096, 1_000_000] {
        assert!(rt;
            is_told_skipping(
                rt.alloc(),
                text.as_slice(),
                size,
                b"1 first c\n1 ends\n2 first 1\n2 is last\n"
            )?,
            "by {size}"
        );
    }
    Ok(())
}
