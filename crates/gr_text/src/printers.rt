// The printer.
ghost use Rattle.std.specs.Prelude.{◌≡◌, ◌≤◌, ◌+◌, ◌++◌, ℕ, List, [], length, true, IfErr, OnOk, OnErr};
ghost use Rattle.std.specs.Fmt.{signed_decimal};
ghost use Rattle.gr_io.specs.Pieces.{Gains, GainsPart, Rose};
ghost use Rattle.gr_text.specs.Printing.{Prints};

use gr_io::{Sink, SinkError};
use itoa::Buffer;
use std::marker::Model;

/// How many bytes are kept before they are handed on.
const ROOM: usize = 4096;

/// Bytes that were printed and not yet handed on. A contract sees those bytes.
#[derive(Drop)]
pub struct Pending {
    bytes: [u8; 4096],
    len: usize,
}

impl Model for Pending {
    ghost use Rattle.std.specs.Prelude.{◌≤◌, ℕ, List, take};

    ghost Value = { List ℕ };

    ghost view = { λ p. take p.len p.bytes };

    ghost invariant = { λ p. p.len ≤ 4096 };
}

impl Pending {
    fn new() -> Pending
        ensures { result ≡ [] }
    {
        Pending {
            bytes: [0; 4096],
            len: 0,
        }
    }

    /// Whether that many more bytes find room.
    fn has_room(&self, count: usize) -> bool
        ensures { (result ≡ true) → length self.now + count ≤ 4096 }
    {
        count <= ROOM - self.len
    }

    /// Keeps a piece that finds room.
    fn keep(&mut self, piece: &[u8])
        requires { length self.old + length piece.now ≤ 4096 }
        ensures { self.new ≡ self.old ++ piece.now }
    {
        let end = self.len + piece.len();
        self.bytes[self.len..end].copy_from_slice(piece);
        self.len = end;
    }

    /// Hands all of it on.
    fn send<K: Sink>(&mut self, sink: &mut K) -> Result<(), SinkError>
        ensures ok { OnOk result (Gains self.old (K.written sink.old) (K.written sink.new)) }
        ensures sent { OnOk result (self.new ≡ []) }
        ensures err { OnErr result (GainsPart self.old (K.written sink.old) (K.written sink.new)) }
        ensures fault { IfErr result (λ e. e ≡ SinkError.Fault →
            Rose (K.faults sink.old) (K.faults sink.new)) }
        ensures calm { OnOk result (K.faults sink.new ≡ K.faults sink.old) }
        ensures grows { K.faults sink.old ≤ K.faults sink.new }
    {
        if self.len == 0 {
            return Ok(());
        }
        match sink.write(&self.bytes[..self.len]) {
            Ok(()) => {
                self.len = 0;
                Ok(())
            }
            Err(failed) => Err(failed),
        }
    }
}

/// Prints into a sink, which it hands 4,096 bytes at a time. After an error it may only be dropped.
#[derive(Drop)]
pub struct Printer<'a, K: Sink> {
    sink: &'a mut K,
    pending: Pending,
}

impl<'a, K: Sink> Printer<'a, K> {
    /// A printer that has printed nothing. It asks for no memory.
    pub fn new(sink: &'a mut K) -> Printer<'a, K>
        ensures same { result.sink.ghost_name ≡ sink.entry.ghost_name }
        ensures sink { result.sink.now ≡ sink.old }
        ensures empty { result.pending ≡ [] }
    {
        Printer {
            sink,
            pending: Pending::new(),
        }
    }

    /// Prints these bytes. At every moment, also after an error, the sink has a front part of all
    /// that was printed.
    pub fn bytes(&mut self, bytes: &[u8]) -> Result<(), SinkError>
        ensures same { self.new.sink.ghost_name ≡ self.old.sink.ghost_name }
        ensures ok { OnOk result (Prints bytes.now
            (K.written self.old.sink.now) self.old.pending
            (K.written self.new.sink.now) self.new.pending) }
        ensures err { OnErr result (GainsPart (self.old.pending ++ bytes.now)
            (K.written self.old.sink.now) (K.written self.new.sink.now)) }
        ensures fault { IfErr result (λ e. e ≡ SinkError.Fault →
            Rose (K.faults self.old.sink.now) (K.faults self.new.sink.now)) }
        ensures calm { OnOk result (K.faults self.new.sink.now ≡ K.faults self.old.sink.now) }
        ensures grows { K.faults self.old.sink.now ≤ K.faults self.new.sink.now }
    {
        if self.pending.has_room(bytes.len()) {
            self.pending.keep(bytes);
            return Ok(());
        }
        match self.pending.send(self.sink) {
            Ok(()) => {}
            Err(failed) => return Err(failed),
        }
        if self.pending.has_room(bytes.len()) {
            self.pending.keep(bytes);
            return Ok(());
        }
        match self.sink.write(bytes) {
            Ok(()) => Ok(()),
            Err(failed) => Err(failed),
        }
    }

    /// Prints this number in decimal, with a `-` where it is negative.
    pub fn number(&mut self, n: i64) -> Result<(), SinkError>
        ensures same { self.new.sink.ghost_name ≡ self.old.sink.ghost_name }
        ensures ok { OnOk result (Prints (signed_decimal n)
            (K.written self.old.sink.now) self.old.pending
            (K.written self.new.sink.now) self.new.pending) }
        ensures err { OnErr result (GainsPart (self.old.pending ++ signed_decimal n)
            (K.written self.old.sink.now) (K.written self.new.sink.now)) }
        ensures fault { IfErr result (λ e. e ≡ SinkError.Fault →
            Rose (K.faults self.old.sink.now) (K.faults self.new.sink.now)) }
        ensures calm { OnOk result (K.faults self.new.sink.now ≡ K.faults self.old.sink.now) }
        ensures grows { K.faults self.old.sink.now ≤ K.faults self.new.sink.now }
    {
        let mut buffer = Buffer::new();
        self.bytes(buffer.format(n).as_bytes())
    }

    /// Hands on all that was printed: after Ok the sink has all of it.
    pub fn flush(&mut self) -> Result<(), SinkError>
        ensures same { self.new.sink.ghost_name ≡ self.old.sink.ghost_name }
        ensures ok { OnOk result (Gains self.old.pending
            (K.written self.old.sink.now) (K.written self.new.sink.now)) }
        ensures empty { OnOk result (self.new.pending ≡ []) }
        ensures err { OnErr result (GainsPart self.old.pending
            (K.written self.old.sink.now) (K.written self.new.sink.now)) }
        ensures fault { IfErr result (λ e. e ≡ SinkError.Fault →
            Rose (K.faults self.old.sink.now) (K.faults self.new.sink.now)) }
        ensures calm { OnOk result (K.faults self.new.sink.now ≡ K.faults self.old.sink.now) }
        ensures grows { K.faults self.old.sink.now ≤ K.faults self.new.sink.now }
    {
        self.pending.send(self.sink)
    }
}

#[cfg(test)]
mod tests {
    use super::*;
    use gr_io::{MemSink, TextSink};
    use std::alloc::Global;
    use std::test::Fail;

    /// What a caller can promise that prints piece by piece.
    fn print_both<K: Sink>(
        printer: &mut Printer<'_, K>,
        a: &[u8],
        b: &[u8],
    ) -> Result<(), SinkError>
        ensures same { printer.new.sink.ghost_name ≡ printer.old.sink.ghost_name }
        ensures ok { OnOk result (Gains (printer.old.pending ++ (a.now ++ b.now))
            (K.written printer.old.sink.now) (K.written printer.new.sink.now)) }
        ensures err { OnErr result (GainsPart (printer.old.pending ++ (a.now ++ b.now))
            (K.written printer.old.sink.now) (K.written printer.new.sink.now)) }
        ensures fault { IfErr result (λ e. e ≡ SinkError.Fault →
            Rose (K.faults printer.old.sink.now) (K.faults printer.new.sink.now)) }
        ensures calm { OnOk result (K.faults printer.new.sink.now ≡ K.faults printer.old.sink.now) }
        ensures grows { K.faults printer.old.sink.now ≤ K.faults printer.new.sink.now }
    {
        match printer.bytes(a) {
            Ok(()) => {}
            Err(failed) => return Err(failed),
        }
        match printer.bytes(b) {
            Ok(()) => {}
            Err(failed) => return Err(failed),
        }
        match printer.flush() {
            Ok(()) => Ok(()),
            Err(failed) => Err(failed),
        }
    }

    /// The same of its own sink, which the printer gives back.
    fn print_two<K: Sink>(out: &mut K, a: &[u8], b: &[u8]) -> Result<(), SinkError>
        ensures ok { OnOk result (Gains (a.now ++ b.now) (K.written out.old) (K.written out.new)) }
        ensures err { OnErr result (GainsPart (a.now ++ b.now)
            (K.written out.old) (K.written out.new)) }
        ensures fault { IfErr result (λ e. e ≡ SinkError.Fault →
            Rose (K.faults out.old) (K.faults out.new)) }
        ensures calm { OnOk result (K.faults out.new ≡ K.faults out.old) }
        ensures grows { K.faults out.old ≤ K.faults out.new }
    {
        let mut printer = Printer::new(out);
        print_both(&mut printer, a, b)
    }

    #[test]
    fn two_pieces_reach_the_sink(rt: HostRuntime) -> Result<(), Fail> {
        let mut sink = TextSink::new(rt.alloc());
        print_two(&mut sink, b"v 1", b" 0\n")?;
        assert_eq!(rt; sink.text(), b"v 1 0\n".as_slice());
        Ok(())
    }

    fn print_number<K: Sink>(sink: &mut K, n: i64) -> Result<(), SinkError> {
        let mut printer = Printer::new(sink);
        printer.number(n)?;
        printer.bytes(b" ")?;
        printer.flush()
    }

    /// Whether a number is printed so, with a blank behind it.
    fn is_printed(alloc: Global, n: i64, want: &[u8]) -> Result<bool, Fail> {
        let mut sink = TextSink::new(alloc);
        print_number(&mut sink, n)?;
        Ok(sink.text().strip_suffix(b" ") == Some(want))
    }

    const NUMBERS: [(i64, &[u8]); 7] = [
        (0, b"0"),
        (-7, b"-7"),
        (10, b"10"),
        (-99, b"-99"),
        (1000000, b"1000000"),
        (i64::MAX, b"9223372036854775807"),
        (i64::MIN, b"-9223372036854775808"),
    ];

    #[test]
    fn numbers_are_decimal(rt: HostRuntime) -> Result<(), Fail> {
        for (n, want) in NUMBERS {
            assert!(rt; is_printed(rt.alloc(), n, want)?, "number {n}");
        }
        Ok(())
    }

    /// Prints the numbers from 0 on, and then a piece that is longer than the buffer.
    fn print_much<K: Sink>(sink: &mut K, long: &[u8]) -> Result<(), SinkError> {
        let mut printer = Printer::new(sink);
        for n in 0..3000i64 {
            printer.number(n)?;
            printer.bytes(b"\n")?;
        }
        printer.bytes(long)?;
        printer.flush()
    }

    /// The text that `print_much` is to give.
    fn much(alloc: Global, long: &[u8]) -> Result<Vec<u8>, Fail> {
        let mut text = Vec::new(alloc);
        for n in 0..3000i64 {
            text.extend_from_slice(format!(in alloc; "{n}\n")?.as_bytes())?;
        }
        text.extend_from_slice(long)?;
        Ok(text)
    }

    #[test]
    fn a_long_text_comes_whole(rt: HostRuntime) -> Result<(), Fail> {
        let alloc = rt.alloc();
        let long = [b'x'; 5000];
        let mut sink = TextSink::new(alloc);
        print_much(&mut sink, &long)?;
        assert!(rt; sink.text() == much(alloc, &long)?.as_slice());
        Ok(())
    }

    /// Whether the printing ends where this write fails, with the front of the whole text written.
    fn is_cut(alloc: Global, long: &[u8], whole: &[u8], call: u64) -> Result<bool, Fail> {
        let failing = Vec::from_slice(alloc, &[call])?;
        let mut sink = MemSink::new(alloc, failing, 100);
        let is_failed = print_much(&mut sink, long).is_err();
        Ok(is_failed && whole.starts_with(sink.text()) && sink.text().len() < whole.len())
    }

    #[test]
    fn each_failed_write_ends_the_printing(rt: HostRuntime) -> Result<(), Fail> {
        let long = [b'x'; 5000];
        let whole = much(rt.alloc(), &long)?;
        for call in 1..6u64 {
            assert!(rt;
                is_cut(rt.alloc(), &long, whole.as_slice(), call)?,
                "call {call}"
            );
        }
        Ok(())
    }
}
