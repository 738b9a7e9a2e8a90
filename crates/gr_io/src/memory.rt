// A source and a sink over memory whose calls fail by plan, for tests of what faults do.
ghost use Rattle.std.specs.Prelude.{◌≡◌, ◌<◌, ◌≤◌, ◌+◌, ◌++◌, ◌⊎◌, ℕ, List, [], Some, length, take, drop, min, true, false, Ok, Err, IfOk, IfErr, OnOk, OnErr};
ghost use Rattle.gr_io.specs.Pieces.{ComesOff, IsSpent, Gains, GainsPart, Rose};
ghost use Rattle.gr_io.specs.Memory.{Plan, planned, fails_next, after_call, after_fault, Reads, ReadFails, WritesAll, WriteFails};

use crate::sinks::{Sink, SinkError, TextSink};
use crate::sources::{Source, SourceError, TextSource};
use std::alloc::Global;
use std::marker::Model;

/// Which calls fail, and how many were made and failed.
#[derive(Debug, Drop)]
struct Calls {
    fail: Vec<u64>,
    made: u64,
    failed: u64,
}

impl Model for Calls {
    ghost use Rattle.gr_io.specs.Memory.{Plan};

    ghost Value = { Plan };

    ghost view = { λ c. record { fail = c.fail.items; calls = c.made; faults = c.failed } };
}

impl Calls {
    fn new(fail: Vec<u64>) -> Calls
        ensures { result ≡ planned fail.items }
    {
        Calls {
            fail,
            made: 0,
            failed: 0,
        }
    }

    /// Whether the next call is one that fails.
    fn fails_next(&self) -> bool
        ensures { result ≡ fails_next self.now }
    {
        self.fail.contains(&self.made.saturating_add(1))
    }

    fn count(&mut self)
        ensures { self.new ≡ after_call self.old }
    {
        self.made = self.made.saturating_add(1);
    }

    fn count_fault(&mut self)
        ensures counted { self.new ≡ after_fault self.old }
        ensures grows { self.old.faults ≤ self.new.faults }
    {
        self.made = self.made.saturating_add(1);
        self.failed = self.failed.saturating_add(1);
    }
}

/// Gives a text in short pieces; the calls that it was told to fail do so.
#[derive(Debug, Drop)]
pub struct MemSource {
    text: TextSource,
    chunk: usize,
    calls: Calls,
}

impl Model for MemSource {
    ghost use Rattle.std.specs.Prelude.{◌<◌};
    ghost use Rattle.gr_io.specs.Memory.{MemLeft};

    ghost Value = { MemLeft };

    ghost view = { λ s. record {
      left = s.text.left;
      taken = s.text.taken;
      chunk = s.chunk;
      plan = s.calls;
    } };

    ghost invariant = { λ s. 0 < s.chunk };
}

impl MemSource {
    /// A source of this text, at most `chunk` bytes a call, whose calls with these numbers, from 1,
    /// fail. It asks for no memory.
    pub fn new(text: Vec<u8>, chunk: usize, fail: Vec<u64>) -> MemSource
        requires { 0 < chunk }
        ensures { result ≡ record {
          left = text.items;
          taken = 0;
          chunk = chunk;
          plan = planned fail.items;
        } }
    {
        MemSource {
            text: TextSource::new(text),
            chunk,
            calls: Calls::new(fail),
        }
    }
}

impl Source for MemSource {
    ghost left = { λ s. Some s.left };

    ghost taken = { λ s. s.taken };

    ghost faults = { λ s. s.plan.faults };

    fn read(&mut self, buf: &mut [u8]) -> Result<usize, SourceError>
        ensures within { IfOk result (λ n. n ≤ length buf.new) }
        ensures ok { IfOk result (λ n.
            ComesOff (take n buf.new) (Some self.old.left) (Some self.new.left)) }
        ensures end { IfOk result (λ n. n ≡ 0 → 0 < length buf.old → IsSpent (Some self.old.left)) }
        ensures counts { IfOk result (λ n. self.new.taken ≡ self.old.taken + n) }
        ensures err { OnErr result (self.new.left ≡ self.old.left) }
        ensures none { OnErr result (self.new.taken ≡ self.old.taken) }
        ensures fault { IfErr result (λ e. e ≡ SourceError.Fault →
            Rose self.old.plan.faults self.new.plan.faults) }
        ensures calm { OnOk result (self.new.plan.faults ≡ self.old.plan.faults) }
        ensures grows { self.old.plan.faults ≤ self.new.plan.faults }

        // Beyond what each source ensures: which calls fail, and how much the others give.
        ensures count { IfOk result (λ n.
            n ≡ min self.old.chunk (min (length buf.new) (length self.old.left))) }
        ensures reads { IfOk result (λ n. Reads n buf.new self.old self.new) }
        ensures fails { IfErr result (λ e. ReadFails e self.old self.new) }
    {
        if self.calls.fails_next() {
            self.calls.count_fault();
            return Err(SourceError::Fault);
        }
        self.calls.count();
        Ok(self.text.give(self.chunk, buf))
    }
}

/// Keeps what is written in memory; the calls that it was told to fail do so.
#[derive(Debug, Drop)]
pub struct MemSink {
    text: TextSink,
    keep: usize,
    calls: Calls,
}

impl Model for MemSink {
    ghost use Rattle.gr_io.specs.Memory.{MemHeld};

    ghost Value = { MemHeld };

    ghost view = { λ s. record { text = s.text; keep = s.keep; plan = s.calls } };
}

impl MemSink {
    /// A sink that holds nothing, whose calls with these numbers, from 1, fail and keep at most
    /// `keep` bytes of their piece: as many as memory allows. It asks for no memory.
    pub fn new(alloc: Global, fail: Vec<u64>, keep: usize) -> MemSink
        ensures { result ≡ record { text = []; keep = keep; plan = planned fail.items } }
    {
        MemSink {
            text: TextSink::new(alloc),
            keep,
            calls: Calls::new(fail),
        }
    }

    /// What was written.
    pub fn text(&self) -> &[u8]
        ensures { result.now ≡ self.now.text }
    {
        self.text.text()
    }
}

/// Adds at most `keep` bytes of the piece's front, or none for want of memory.
fn keep_front(text: &mut TextSink, keep: usize, piece: &[u8])
    ensures { (text.new ≡ text.old ++ take keep piece.now) ⊎ (text.new ≡ text.old) }
{
    let kept = keep.min(piece.len());
    let _ = text.write(&piece[..kept]);
}

impl Sink for MemSink {
    ghost written = { λ s. Some s.text };

    ghost faults = { λ s. s.plan.faults };

    fn write(&mut self, piece: &[u8]) -> Result<(), SinkError>
        ensures ok { OnOk result (Gains piece.now (Some self.old.text) (Some self.new.text)) }
        ensures err { OnErr result (GainsPart piece.now (Some self.old.text) (Some self.new.text)) }
        ensures fault { IfErr result (λ e. e ≡ SinkError.Fault →
            Rose self.old.plan.faults self.new.plan.faults) }
        ensures calm { OnOk result (self.new.plan.faults ≡ self.old.plan.faults) }
        ensures grows { self.old.plan.faults ≤ self.new.plan.faults }

        // Beyond what each sink ensures: which calls fail, and how much they keep.
        ensures writes { OnOk result (WritesAll piece.now self.old self.new) }
        ensures fails { IfErr result (λ e. WriteFails e piece.now self.old self.new) }
    {
        if self.calls.fails_next() {
            keep_front(&mut self.text, self.keep, piece);
            self.calls.count_fault();
            return Err(SinkError::Fault);
        }
        match self.text.write(piece) {
            Ok(()) => {
                self.calls.count();
                Ok(())
            }
            Err(failed) => Err(failed),
        }
    }
}

#[cfg(test)]
mod tests {
    use super::*;
    use std::test::Fail;

    /// What one call of a source gives, as text.
    fn read<'a, S: Source>(source: &mut S, buf: &'a mut [u8]) -> Result<&'a [u8], SourceError> {
        let count = source.read(buf)?;
        Ok(&buf[..count])
    }

    #[test]
    fn reads_come_in_chunks_and_fail_by_plan(rt: HostRuntime) -> Result<(), Fail> {
        let alloc = rt.alloc();
        let text = Vec::from_slice(alloc, b"abcdefgh")?;
        let fail = Vec::from_slice(alloc, &[2, 5])?;
        let mut source = MemSource::new(text, 3, fail);
        let rows: [(u64, Result<&[u8], SourceError>); 7] = [
            (1, Ok(b"abc".as_slice())),
            (2, Err(SourceError::Fault)),
            (3, Ok(b"def".as_slice())),
            (4, Ok(b"gh".as_slice())),
            (5, Err(SourceError::Fault)),
            (6, Ok(b"".as_slice())),
            (7, Ok(b"".as_slice())),
        ];
        for (call, want) in rows {
            let mut buf = [0u8; 8];
            assert_eq!(rt; read(&mut source, &mut buf), want, "call {call}");
        }
        Ok(())
    }

    #[test]
    fn a_short_buffer_is_filled(rt: HostRuntime) -> Result<(), Fail> {
        let alloc = rt.alloc();
        let mut source = TextSource::new(Vec::from_slice(alloc, b"abc")?);
        let mut buf = [0u8; 2];
        for want in [b"ab".as_slice(), b"c".as_slice(), b"".as_slice()] {
            assert_eq!(rt; read(&mut source, &mut buf), Ok(want));
        }
        Ok(())
    }

    #[test]
    fn writes_fail_by_plan_and_keep_a_front_part(rt: HostRuntime) -> Result<(), Fail> {
        let alloc = rt.alloc();
        let rows: [(usize, &[u8]); 3] = [(0, b"cde"), (2, b"abcdefg"), (9, b"abcdefgh")];
        for (keep, want) in rows {
            let mut sink = MemSink::new(alloc, Vec::from_slice(alloc, &[1, 3])?, keep);
            assert_eq!(rt;
                sink.write(b"ab"),
                Err(SinkError::Fault),
                "keep {keep}, call 1"
            );
            assert_eq!(rt; sink.write(b"cde"), Ok(()), "keep {keep}, call 2");
            assert_eq!(rt;
                sink.write(b"fgh"),
                Err(SinkError::Fault),
                "keep {keep}, call 3"
            );
            let failed = sink.calls.failed;
            assert_eq!(rt; failed, 2, "keep {keep}");
            assert_eq!(rt; sink.text(), want, "keep {keep}");
        }
        Ok(())
    }

    #[test]
    fn a_text_sink_keeps_all(rt: HostRuntime) -> Result<(), Fail> {
        let mut sink = TextSink::new(rt.alloc());
        assert_eq!(rt; sink.text(), b"".as_slice());
        sink.write(b"1 ")?;
        sink.write(b"0\n")?;
        assert_eq!(rt; sink.text(), b"1 0\n".as_slice());
        Ok(())
    }

    #[test]
    fn a_hundred_thousand_bytes_are_written_and_read(rt: HostRuntime) -> Result<(), Fail> {
        let alloc = rt.alloc();
        let text = Vec::from_elem(alloc, b'7', 100_000)?;
        let mut sink = MemSink::new(alloc, Vec::new(alloc), 0);
        sink.write(text.as_slice())?;
        assert!(rt; sink.text() == text.as_slice());
        let mut source = MemSource::new(text, 100_000, Vec::new(alloc));
        let mut buf = Vec::from_elem(alloc, 0u8, 200_000)?;
        assert_eq!(rt; source.read(buf.as_mut_slice())?, 100_000);
        Ok(())
    }
}
