// The texts on a proof log that was checked.
ghost use Rattle.std.specs.Prelude.{◌≡◌, ◌≤◌, ◌++◌, IfErr, OnOk, OnErr};
ghost use Rattle.gr_io.specs.Pieces.{Gains, GainsPart, Rose};
ghost use Rattle.gr_text.specs.Printing.{Prints};
ghost use Rattle.gr_top.specs.CheckTexts.{cause_id, cause_name, cause_text, check_text, log_fault_line, log_fault_text, log_kind_line, not_verified_text, refused_line_text};

use crate::statuses::{Cause, LogFault, NotVerified, Status};
use crate::texts::write_fault;
use gr_io::{Sink, SinkError};
use gr_text::Printer;
use itoa::Buffer;

/// Writes what a check comes to; where it could not be told, nothing.
pub fn write_check<K: Sink>(status: Status, out: &mut K) -> Result<(), SinkError>
    ensures ok { OnOk result (Gains (check_text status) (K.written out.old) (K.written out.new)) }
    ensures err { OnErr result (GainsPart (check_text status) (K.written out.old) (K.written out.new)) }
    ensures fault { IfErr result (λ e. e ≡ SinkError.Fault → Rose (K.faults out.old) (K.faults out.new)) }
    ensures calm { OnOk result (K.faults out.new ≡ K.faults out.old) }
    ensures grows { K.faults out.old ≤ K.faults out.new }
{
    match status {
        Status::Verified => out.write(b"s VERIFIED\n"),
        Status::NotVerified(reason) => write_not_verified(reason, out),
        Status::LogGrammar(fault) => write_log_fault(fault, out),
        Status::Grammar(fault) => write_fault(fault, out),
        _ => Ok(()),
    }
}

/// Writes that the log proves nothing, and why.
fn write_not_verified<K: Sink>(reason: NotVerified, out: &mut K) -> Result<(), SinkError>
    ensures ok { OnOk result (Gains (not_verified_text reason) (K.written out.old) (K.written out.new)) }
    ensures err { OnErr result (GainsPart (not_verified_text reason) (K.written out.old) (K.written out.new)) }
    ensures fault { IfErr result (λ e. e ≡ SinkError.Fault → Rose (K.faults out.old) (K.faults out.new)) }
    ensures calm { OnOk result (K.faults out.new ≡ K.faults out.old) }
    ensures grows { K.faults out.old ≤ K.faults out.new }
{
    match reason {
        NotVerified::Line { line, cause } => write_refused_line(line, cause, out),
        NotVerified::NoEmptyClause => out.write(b"s NOT VERIFIED\nc log: NoEmptyClause\n"),
    }
}

/// Writes that the line of this number is the first that is refused, and why.
fn write_refused_line<K: Sink>(line: u64, cause: Cause, out: &mut K) -> Result<(), SinkError>
    ensures ok { OnOk result (Gains (refused_line_text line cause) (K.written out.old) (K.written out.new)) }
    ensures err { OnErr result (GainsPart (refused_line_text line cause) (K.written out.old) (K.written out.new)) }
    ensures fault { IfErr result (λ e. e ≡ SinkError.Fault → Rose (K.faults out.old) (K.faults out.new)) }
    ensures calm { OnOk result (K.faults out.new ≡ K.faults out.old) }
    ensures grows { K.faults out.old ≤ K.faults out.new }
{
    let mut printer = Printer::new(out);
    match print_refused_line(line, cause, &mut printer) {
        Ok(()) => printer.flush(),
        Err(failed) => Err(failed),
    }
}

/// Prints that the line of this number is refused, and why.
fn print_refused_line<K: Sink>(
    line: u64,
    cause: Cause,
    printer: &mut Printer<'_, K>,
) -> Result<(), SinkError>
    ensures same { printer.new.sink.ghost_name ≡ printer.old.sink.ghost_name }
    ensures ok { OnOk result (Prints (refused_line_text line cause)
        (K.written printer.old.sink.now) printer.old.pending
        (K.written printer.new.sink.now) printer.new.pending) }
    ensures err { OnErr result (GainsPart (printer.old.pending ++ refused_line_text line cause)
        (K.written printer.old.sink.now) (K.written printer.new.sink.now)) }
    ensures fault { IfErr result (λ e. e ≡ SinkError.Fault →
        Rose (K.faults printer.old.sink.now) (K.faults printer.new.sink.now)) }
    ensures calm { OnOk result (K.faults printer.new.sink.now ≡ K.faults printer.old.sink.now) }
    ensures grows { K.faults printer.old.sink.now ≤ K.faults printer.new.sink.now }
{
    let mut digits = Buffer::new();
    let line = digits.format(line);
    printer.bytes(b"s NOT VERIFIED\nc log line ")?;
    printer.bytes(line.as_bytes())?;
    print_cause(cause, printer)
}

/// Prints the end of a line on a refused line: the cause and the id that it names.
fn print_cause<K: Sink>(cause: Cause, printer: &mut Printer<'_, K>) -> Result<(), SinkError>
    ensures same { printer.new.sink.ghost_name ≡ printer.old.sink.ghost_name }
    ensures ok { OnOk result (Prints (cause_text cause)
        (K.written printer.old.sink.now) printer.old.pending
        (K.written printer.new.sink.now) printer.new.pending) }
    ensures err { OnErr result (GainsPart (printer.old.pending ++ cause_text cause)
        (K.written printer.old.sink.now) (K.written printer.new.sink.now)) }
    ensures fault { IfErr result (λ e. e ≡ SinkError.Fault →
        Rose (K.faults printer.old.sink.now) (K.faults printer.new.sink.now)) }
    ensures calm { OnOk result (K.faults printer.new.sink.now ≡ K.faults printer.old.sink.now) }
    ensures grows { K.faults printer.old.sink.now ≤ K.faults printer.new.sink.now }
{
    let mut digits = Buffer::new();
    let id = digits.format(cause_id(cause));
    printer.bytes(cause_name(cause).as_bytes())?;
    printer.bytes(id.as_bytes())?;
    printer.bytes(b"\n")
}

/// What follows a refused line's number, up to the id.
fn cause_name(cause: Cause) -> &'static str
    ensures { result.now ≡ cause_name cause }
{
    match cause {
        Cause::IdNotGreater { .. } => ": IdNotGreater ",
        Cause::VarAbove { .. } => ": VarAbove ",
        Cause::NotLive { .. } => ": NotLive ",
        Cause::HintNotUnit { .. } => ": HintNotUnit ",
        Cause::NoConflict { .. } => ": NoConflict ",
    }
}

/// The id that a cause names.
fn cause_id(cause: Cause) -> u64
    ensures { result ≡ cause_id cause }
{
    match cause {
        Cause::IdNotGreater { id } => id,
        Cause::VarAbove { id } => id,
        Cause::NotLive { id } => id,
        Cause::HintNotUnit { id } => id,
        Cause::NoConflict { id } => id,
    }
}

/// Writes the first fault of the proof log's text.
fn write_log_fault<K: Sink>(fault: LogFault, out: &mut K) -> Result<(), SinkError>
    ensures ok { OnOk result (Gains (log_fault_text fault) (K.written out.old) (K.written out.new)) }
    ensures err { OnErr result (GainsPart (log_fault_text fault) (K.written out.old) (K.written out.new)) }
    ensures fault { IfErr result (λ e. e ≡ SinkError.Fault → Rose (K.faults out.old) (K.faults out.new)) }
    ensures calm { OnOk result (K.faults out.new ≡ K.faults out.old) }
    ensures grows { K.faults out.old ≤ K.faults out.new }
{
    let mut printer = Printer::new(out);
    match print_log_fault(fault, &mut printer) {
        Ok(()) => printer.flush(),
        Err(failed) => Err(failed),
    }
}

/// Prints the line on a proof log's fault.
fn print_log_fault<K: Sink>(fault: LogFault, printer: &mut Printer<'_, K>) -> Result<(), SinkError>
    ensures same { printer.new.sink.ghost_name ≡ printer.old.sink.ghost_name }
    ensures ok { OnOk result (Prints (log_fault_text fault)
        (K.written printer.old.sink.now) printer.old.pending
        (K.written printer.new.sink.now) printer.new.pending) }
    ensures err { OnErr result (GainsPart (printer.old.pending ++ log_fault_text fault)
        (K.written printer.old.sink.now) (K.written printer.new.sink.now)) }
    ensures fault { IfErr result (λ e. e ≡ SinkError.Fault →
        Rose (K.faults printer.old.sink.now) (K.faults printer.new.sink.now)) }
    ensures calm { OnOk result (K.faults printer.new.sink.now ≡ K.faults printer.old.sink.now) }
    ensures grows { K.faults printer.old.sink.now ≤ K.faults printer.new.sink.now }
{
    let mut digits = Buffer::new();
    let line = digits.format(log_fault_line(fault));
    printer.bytes(b"c fault: log line ")?;
    printer.bytes(line.as_bytes())?;
    printer.bytes(log_kind_line(fault).as_bytes())
}

/// The line of a proof log's fault.
fn log_fault_line(fault: LogFault) -> u64
    ensures { result ≡ log_fault_line fault }
{
    match fault {
        LogFault::BadLine { line } => line,
        LogFault::RatHint { line } => line,
        LogFault::TooLong { line } => line,
    }
}

/// What follows the line number of a proof log's fault.
fn log_kind_line(fault: LogFault) -> &'static str
    ensures { result.now ≡ log_kind_line fault }
{
    match fault {
        LogFault::BadLine { .. } => ": BadLine\n",
        LogFault::RatHint { .. } => ": RatHint\n",
        LogFault::TooLong { .. } => ": TooLong\n",
    }
}
