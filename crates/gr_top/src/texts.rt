// The texts of the output.
ghost use Rattle.std.specs.Prelude.{◌≡◌, ◌<◌, ◌≤◌, ◌++◌, length, IfErr, OnOk, OnErr};
ghost use Rattle.gr_io.specs.Pieces.{Gains, GainsPart, Rose};
ghost use Rattle.gr_text.specs.Printing.{Prints};
ghost use Rattle.gr_top.specs.Texts.{
  gap,
  next_place,
  literal_text,
  literals_text,
  true_literals,
  satisfiable_text,
  unsatisfiable_line,
  unknown_line,
  kind_line,
  fault_text,
  usage_text,
};

use gr_dimacs::{FaultKind, GrammarFault};
use gr_io::{Sink, SinkError};
use gr_logic::{Assignment, Lit};
use gr_text::Printer;
use itoa::Buffer;

/// How many literals a line of a model has at most.
const LITERALS_PER_LINE: u32 = 20;

/// Writes how the program is called.
pub fn write_usage<K: Sink>(out: &mut K) -> Result<(), SinkError>
    ensures ok { OnOk result (Gains (usage_text) (K.written out.old) (K.written out.new)) }
    ensures err { OnErr result (GainsPart (usage_text) (K.written out.old) (K.written out.new)) }
    ensures fault { IfErr result (λ e. e ≡ SinkError.Fault → Rose (K.faults out.old) (K.faults out.new)) }
    ensures calm { OnOk result (K.faults out.new ≡ K.faults out.old) }
    ensures grows { K.faults out.old ≤ K.faults out.new }
{
    out.write(
        b"c usage: glucored solve CNF LOG [--reducers N] [--conflicts N] [--capacity N] [--offer N] [--keep-all]
c usage: glucored check CNF LOG
c usage: glucored large KIND N
",
    )
}

/// Writes the verdict that no assignment satisfies the formula.
pub fn write_unsatisfiable<K: Sink>(out: &mut K) -> Result<(), SinkError>
    ensures ok { OnOk result (Gains (unsatisfiable_line) (K.written out.old) (K.written out.new)) }
    ensures err { OnErr result (GainsPart (unsatisfiable_line) (K.written out.old) (K.written out.new)) }
    ensures fault { IfErr result (λ e. e ≡ SinkError.Fault → Rose (K.faults out.old) (K.faults out.new)) }
    ensures calm { OnOk result (K.faults out.new ≡ K.faults out.old) }
    ensures grows { K.faults out.old ≤ K.faults out.new }
{
    out.write(b"s UNSATISFIABLE\n")
}

/// Writes the verdict that the limit was spent.
pub fn write_unknown<K: Sink>(out: &mut K) -> Result<(), SinkError>
    ensures ok { OnOk result (Gains (unknown_line) (K.written out.old) (K.written out.new)) }
    ensures err { OnErr result (GainsPart (unknown_line) (K.written out.old) (K.written out.new)) }
    ensures fault { IfErr result (λ e. e ≡ SinkError.Fault → Rose (K.faults out.old) (K.faults out.new)) }
    ensures calm { OnOk result (K.faults out.new ≡ K.faults out.old) }
    ensures grows { K.faults out.old ≤ K.faults out.new }
{
    out.write(b"s UNKNOWN\n")
}

/// Writes the first fault of the formula's text.
pub fn write_fault<K: Sink>(fault: GrammarFault, out: &mut K) -> Result<(), SinkError>
    ensures ok { OnOk result (Gains (fault_text fault) (K.written out.old) (K.written out.new)) }
    ensures err { OnErr result (GainsPart (fault_text fault) (K.written out.old) (K.written out.new)) }
    ensures fault { IfErr result (λ e. e ≡ SinkError.Fault → Rose (K.faults out.old) (K.faults out.new)) }
    ensures calm { OnOk result (K.faults out.new ≡ K.faults out.old) }
    ensures grows { K.faults out.old ≤ K.faults out.new }
{
    let mut printer = Printer::new(out);
    match print_fault(fault, &mut printer) {
        Ok(()) => printer.flush(),
        Err(failed) => Err(failed),
    }
}

/// Prints a fault's line.
fn print_fault<K: Sink>(fault: GrammarFault, printer: &mut Printer<'_, K>) -> Result<(), SinkError>
    ensures same { printer.new.sink.ghost_name ≡ printer.old.sink.ghost_name }
    ensures ok { OnOk result (Prints (fault_text fault)
        (K.written printer.old.sink.now) printer.old.pending
        (K.written printer.new.sink.now) printer.new.pending) }
    ensures err { OnErr result (GainsPart (printer.old.pending ++ fault_text fault)
        (K.written printer.old.sink.now) (K.written printer.new.sink.now)) }
    ensures fault { IfErr result (λ e. e ≡ SinkError.Fault →
        Rose (K.faults printer.old.sink.now) (K.faults printer.new.sink.now)) }
    ensures calm { OnOk result (K.faults printer.new.sink.now ≡ K.faults printer.old.sink.now) }
    ensures grows { K.faults printer.old.sink.now ≤ K.faults printer.new.sink.now }
{
    let mut digits = Buffer::new();
    let line = digits.format(fault.line);
    printer.bytes(b"c fault: line ")?;
    printer.bytes(line.as_bytes())?;
    printer.bytes(kind_line(fault.kind).as_bytes())
}

/// What follows a fault's line number.
fn kind_line(kind: FaultKind) -> &'static str
    ensures { result.now ≡ kind_line kind }
{
    match kind {
        FaultKind::NoHeader => ": NoHeader\n",
        FaultKind::BadHeader => ": BadHeader\n",
        FaultKind::BadToken => ": BadToken\n",
        FaultKind::VarAbove => ": VarAbove\n",
        FaultKind::TooMany => ": TooMany\n",
        FaultKind::TooFew => ": TooFew\n",
        FaultKind::Unended => ": Unended\n",
        FaultKind::TooLarge => ": TooLarge\n",
        FaultKind::TooLong => ": TooLong\n",
    }
}

/// Writes the verdict that this assignment satisfies the formula, and the assignment.
pub fn write_model<K: Sink>(model: &Assignment, out: &mut K) -> Result<(), SinkError>
    ensures ok { OnOk result (Gains (satisfiable_text model.now) (K.written out.old) (K.written out.new)) }
    ensures err { OnErr result (GainsPart (satisfiable_text model.now) (K.written out.old) (K.written out.new)) }
    ensures fault { IfErr result (λ e. e ≡ SinkError.Fault → Rose (K.faults out.old) (K.faults out.new)) }
    ensures calm { OnOk result (K.faults out.new ≡ K.faults out.old) }
    ensures grows { K.faults out.old ≤ K.faults out.new }
{
    let mut printer = Printer::new(out);
    match print_model(model, &mut printer) {
        Ok(()) => printer.flush(),
        Err(failed) => Err(failed),
    }
}

/// Prints the verdict and the assignment.
fn print_model<K: Sink>(model: &Assignment, printer: &mut Printer<'_, K>) -> Result<(), SinkError>
    ensures same { printer.new.sink.ghost_name ≡ printer.old.sink.ghost_name }
    ensures ok { OnOk result (Prints (satisfiable_text model.now)
        (K.written printer.old.sink.now) printer.old.pending
        (K.written printer.new.sink.now) printer.new.pending) }
    ensures err { OnErr result (GainsPart (printer.old.pending ++ satisfiable_text model.now)
        (K.written printer.old.sink.now) (K.written printer.new.sink.now)) }
    ensures fault { IfErr result (λ e. e ≡ SinkError.Fault →
        Rose (K.faults printer.old.sink.now) (K.faults printer.new.sink.now)) }
    ensures calm { OnOk result (K.faults printer.new.sink.now ≡ K.faults printer.old.sink.now) }
    ensures grows { K.faults printer.old.sink.now ≤ K.faults printer.new.sink.now }
{
    printer.bytes(b"s SATISFIABLE\nv")?;
    print_literals(model.values(), printer)
}

/// Prints the literals that are true where the variables from 1 on have these values, in lines of twenty at most.
fn print_literals<K: Sink>(values: &[bool], printer: &mut Printer<'_, K>) -> Result<(), SinkError>
    requires { length values.now ≤ 1_000_000 }
    ensures same { printer.new.sink.ghost_name ≡ printer.old.sink.ghost_name }
    ensures ok { OnOk result (Prints (literals_text 0 (true_literals 0 values.now))
        (K.written printer.old.sink.now) printer.old.pending
        (K.written printer.new.sink.now) printer.new.pending) }
    ensures err { OnErr result (GainsPart (printer.old.pending ++ literals_text 0 (true_literals 0 values.now))
        (K.written printer.old.sink.now) (K.written printer.new.sink.now)) }
    ensures fault { IfErr result (λ e. e ≡ SinkError.Fault →
        Rose (K.faults printer.old.sink.now) (K.faults printer.new.sink.now)) }
    ensures calm { OnOk result (K.faults printer.new.sink.now ≡ K.faults printer.old.sink.now) }
    ensures grows { K.faults printer.old.sink.now ≤ K.faults printer.new.sink.now }
{
    let mut var = 0;
    let mut place = 0;
    for value in values {
        var += 1;
        match print_literal(Lit::of_var(var, *value), place, printer) {
            Ok(()) => place = next_place(place),
            Err(failed) => return Err(failed),
        }
    }
    printer.bytes(b" 0\n")
}

/// What comes before a literal, where the present line has so many.
fn gap(place: u32) -> &'static str
    ensures { result.now ≡ gap place }
{
    if place == LITERALS_PER_LINE {
        "\nv "
    } else {
        " "
    }
}

/// How many literals the present line has after one more.
fn next_place(place: u32) -> u32
    requires { place ≤ LITERALS_PER_LINE }
    ensures next { result ≡ next_place place }
    ensures within { result ≤ LITERALS_PER_LINE }
{
    if place == LITERALS_PER_LINE {
        1
    } else {
        place + 1
    }
}

/// Prints a literal, where the present line has so many.
fn print_literal<K: Sink>(
    lit: Lit,
    place: u32,
    printer: &mut Printer<'_, K>,
) -> Result<(), SinkError>
    ensures same { printer.new.sink.ghost_name ≡ printer.old.sink.ghost_name }
    ensures ok { OnOk result (Prints (literal_text place lit)
        (K.written printer.old.sink.now) printer.old.pending
        (K.written printer.new.sink.now) printer.new.pending) }
    ensures err { OnErr result (GainsPart (printer.old.pending ++ literal_text place lit)
        (K.written printer.old.sink.now) (K.written printer.new.sink.now)) }
    ensures fault { IfErr result (λ e. e ≡ SinkError.Fault →
        Rose (K.faults printer.old.sink.now) (K.faults printer.new.sink.now)) }
    ensures calm { OnOk result (K.faults printer.new.sink.now ≡ K.faults printer.old.sink.now) }
    ensures grows { K.faults printer.old.sink.now ≤ K.faults printer.new.sink.now }
{
    printer.bytes(gap(place).as_bytes())?;
    printer.number(i64::from(lit.number()))
}
