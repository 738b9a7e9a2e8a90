// The scanner.
ghost use Rattle.std.specs.Prelude.{◌≡◌, ◌≤◌, [], false, Ok, IsOk, IfOk, IfErr, OnOk};
ghost use Rattle.gr_text.specs.Places.{BeginsWord, IsPastEnd, at_start, between, no_token};
ghost use Rattle.gr_text.specs.Scans.{Fails, Reaches, Spans, Scans, Skips, SkipFails, StandsAtEnd, EndsAgain, Advances, IsAnswer, scan_error_of};
ghost use Rattle.gr_text.specs.Stands.{Asked, Goes, Refilled, Refused, Rises, stand};

use crate::holds::Held;
use gr_io::{Source, SourceError};
use std::alloc::Global;
use thiserror::Error;

/// What comes next in a text. Lines are numbered from 1.
#[derive(Clone, Copy, Debug, Drop, PartialEq, Eq)]
pub enum Scanned {
    /// A longest run of bytes other than space, tab, carriage return and line feed, on this line;
    /// `first` tells that it is the first token there.
    Token { line: u64, first: bool },
    /// The line feed that ends this line.
    LineEnd { line: u64 },
    /// The end of the text, on this line.
    End { line: u64 },
}

/// Why a scanner gave nothing.
#[derive(Clone, Copy, Debug, Drop, Error, PartialEq, Eq)]
pub enum ScanError {
    /// The source failed, and what was taken before makes nothing further known.
    #[error("the source failed")]
    ReadFault,
    /// As many bytes were taken as may be, and another is wanted; the last one is on this line.
    #[error("line {line}: the text is too long")]
    TooLong { line: u64 },
    #[error("no memory is left")]
    OutOfMemory,
}

fn scan_error(failed: SourceError) -> ScanError
    ensures { result ≡ scan_error_of failed }
{
    match failed {
        SourceError::Fault => ScanError::ReadFault,
        SourceError::OutOfMemory => ScanError::OutOfMemory,
    }
}

/// Cuts what a source gives into tokens. After an error it may only be dropped.
///
/// `H` is always `Held`. It is a parameter because a caller learns what became of the source behind
/// a `&mut` only where the struct names no type that owns memory.
pub struct Scanner<'a, S: Source, H: Drop = Held> {
    source: &'a mut S,
    held: H,
}

impl<'a, S: Source, H: Drop> Drop for Scanner<'a, S, H> {
    fn drop(self)
        ensures { self.exit.0.now ≡ self.entry.source.now }
    {
        let Scanner { source: _, held: _ } = self;
    }
}

impl<'a, S: Source, H: Drop> Scanner<'a, S, H> {
    /// Lets the source go, and gives back the bytes that are held.
    pub fn into_held(self) -> H
        ensures held { result ≡ self.entry.held }
        ensures source { self.exit.0.now ≡ self.entry.source.now }
    {
        let Scanner { source: _, held } = self;
        held
    }
}

impl<'a, S: Source> Scanner<'a, S> {
    /// A scanner of what the source has left, which takes at most `max_bytes` bytes of it. It never
    /// fails, since it asks for no memory: the first read asks for a buffer of 64 KB, which grows only
    /// for a token that is longer.
    pub fn new(
        alloc: Global,
        source: &'a mut S,
        max_bytes: u64,
    ) -> Result<Scanner<'a, S>, ScanError>
        ensures succeeds { IsOk result }
        ensures same { IfOk result (λ s. s.source.ghost_name ≡ source.entry.ghost_name) }
        ensures source { IfOk result (λ s. s.source.now ≡ source.old) }
        ensures held { IfOk result (λ s. s.held ≡ at_start max_bytes) }
    {
        Ok(Scanner::over(source, Held::new(alloc, max_bytes)))
    }

    /// A scanner of a source with the bytes that are held already.
    pub fn over(source: &'a mut S, held: Held) -> Scanner<'a, S>
        ensures same { result.source.ghost_name ≡ source.entry.ghost_name }
        ensures source { result.source.now ≡ source.old }
        ensures held { result.held ≡ held }
    {
        Scanner { source, held }
    }

    /// Takes more bytes, where none are ahead and the source has not given its end.
    // Out of line it would cost the loops that call it registers: one instruction in twenty, counted.
    #[inline(always)]
    fn refill(&mut self) -> Result<(), ScanError>
        requires ahead { self.old.held.ahead ≡ [] }
        requires open_ { self.old.held.ended ≡ false }
        ensures same { self.new.source.ghost_name ≡ self.old.source.ghost_name }
        ensures ok { OnOk result (Refilled
            (stand S.left S.taken S.faults self.old.held self.old.source.now)
            (stand S.left S.taken S.faults self.new.held self.new.source.now)) }
        ensures err { IfErr result (λ e. Refused e
            (stand S.left S.taken S.faults self.old.held self.old.source.now)
            (stand S.left S.taken S.faults self.new.held self.new.source.now)) }
    {
        if self.held.is_full() {
            return Err(ScanError::TooLong {
                line: self.held.last(),
            });
        }
        match self.held.fill(self.source) {
            Ok(_) => Ok(()),
            Err(failed) => Err(scan_error(failed)),
        }
    }

    /// Passes the spaces that come next: false at the text's end.
    fn reach(&mut self) -> Result<bool, ScanError>
        ensures same { self.new.source.ghost_name ≡ self.old.source.ghost_name }
        ensures ok { IfOk result (λ more. Reaches more (between self.old.held)
            self.old.held (S.left self.old.source.now)
            self.new.held (S.left self.new.source.now)) }
        ensures asked { Asked (between self.old.held) result
            (stand S.left S.taken S.faults self.old.held self.old.source.now)
            (stand S.left S.taken S.faults self.new.held self.new.source.now) }
        ensures again { IsPastEnd self.old.held → (result ≡ Ok false)
            × (self.new.held ≡ no_token self.old.held)
            × (self.new.source.now ≡ self.old.source.now) }
    {
        self.held.skip_spaces();
        while self.held.is_empty() {
            if self.held.is_ended() {
                return Ok(false);
            }
            match self.refill() {
                Ok(()) => {}
                Err(failed) => return Err(failed),
            }
            self.held.skip_spaces();
        }
        Ok(true)
    }

    /// Passes the bytes of the token that begins here.
    fn word(&mut self) -> Result<(), ScanError>
        requires token { self.old.held.token ≡ [] }
        requires begins { BeginsWord self.old.held.ahead }
        ensures same { self.new.source.ghost_name ≡ self.old.source.ghost_name }
        ensures ok { OnOk result (Spans (between self.old.held)
            self.old.held (S.left self.old.source.now)
            self.new.held (S.left self.new.source.now)) }
        ensures asked { Asked (between self.old.held) result
            (stand S.left S.taken S.faults self.old.held self.old.source.now)
            (stand S.left S.taken S.faults self.new.held self.new.source.now) }
    {
        self.held.grow_word();
        while self.held.is_empty() {
            if self.held.is_ended() {
                return Ok(());
            }
            match self.refill() {
                Ok(()) => {}
                Err(failed) => return Err(failed),
            }
            self.held.grow_word();
        }
        Ok(())
    }

    /// The next token, the end of a line, or the end of the text.
    pub fn next(&mut self) -> Result<Scanned, ScanError>
        ensures same { self.new.source.ghost_name ≡ self.old.source.ghost_name }
        ensures ok { IfOk result (λ found. Scans (between self.old.held) found
            self.old.held (S.left self.old.source.now)
            self.new.held (S.left self.new.source.now)) }
        ensures advances { IfOk result (λ found. Advances found self.old.held self.new.held) }
        ensures err { IfErr result (λ e. Fails (between self.old.held) e
            self.old.held (S.left self.old.source.now)
            self.new.held (S.left self.new.source.now)) }
        ensures goes { Goes (stand S.left S.taken S.faults self.old.held self.old.source.now)
            (stand S.left S.taken S.faults self.new.held self.new.source.now) }
        ensures fault { Rises result (S.faults self.old.source.now) (S.faults self.new.source.now) }
        ensures calm { IsAnswer result →
            S.faults self.new.source.now ≡ S.faults self.old.source.now }
        ensures end { IfOk result (λ found. StandsAtEnd found self.new.held) }
        ensures again { EndsAgain result self.old.held self.new.held }
        ensures unasked { IsPastEnd self.old.held → self.new.source.now ≡ self.old.source.now }
    {
        match self.reach() {
            Ok(true) => {}
            Ok(false) => {
                let line = self.held.line();
                return Ok(Scanned::End { line });
            }
            Err(failed) => return Err(failed),
        }
        if self.held.is_at_line_end() {
            let line = self.held.end_line();
            return Ok(Scanned::LineEnd { line });
        }
        match self.word() {
            Ok(()) => {}
            Err(failed) => return Err(failed),
        }
        let first = self.held.end_token();
        let line = self.held.last();
        Ok(Scanned::Token { line, first })
    }

    /// Passes all bytes up to the end of the line, or of the text, and keeps none of them. The
    /// line's end is not passed.
    pub fn skip_line(&mut self) -> Result<(), ScanError>
        ensures same { self.new.source.ghost_name ≡ self.old.source.ghost_name }
        ensures ok { OnOk result (Skips self.old.held (S.left self.old.source.now)
            self.new.held (S.left self.new.source.now)) }
        ensures onward { self.old.held.passed ≤ self.new.held.passed }
        ensures err { IfErr result (λ e. SkipFails e
            self.old.held (S.left self.old.source.now)
            self.new.held (S.left self.new.source.now)) }
        ensures goes { Goes (stand S.left S.taken S.faults self.old.held self.old.source.now)
            (stand S.left S.taken S.faults self.new.held self.new.source.now) }
        ensures fault { Rises result (S.faults self.old.source.now) (S.faults self.new.source.now) }
        ensures calm { IsAnswer result →
            S.faults self.new.source.now ≡ S.faults self.old.source.now }
    {
        self.held.skip_rest();
        while self.held.is_empty() {
            if self.held.is_ended() {
                return Ok(());
            }
            match self.refill() {
                Ok(()) => {}
                Err(failed) => return Err(failed),
            }
            self.held.skip_rest();
        }
        Ok(())
    }

    /// The token that the last call of `next` gave, where it gave one and no other call came since.
    pub fn token(&self) -> &[u8]
        ensures { result.now ≡ self.now.held.token }
    {
        self.held.token()
    }
}
