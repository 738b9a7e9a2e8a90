// A formula written to a sink.
ghost use Rattle.std.specs.Prelude.{◌≡◌, ◌≤◌, ◌++◌, length, IfErr, OnErr, OnOk};
ghost use Rattle.std.specs.Fmt.{decimal};
ghost use Rattle.std.specs.List.{flat_map};
ghost use Rattle.gr_io.specs.Pieces.{Gains, GainsPart, Rose};
ghost use Rattle.gr_dimacs.specs.Canonical.{canonical_text, clause_text, header_text, literal_text};
ghost use Rattle.gr_dimacs.specs.Printed.{Printed, output};

use gr_io::{Sink, SinkError};
use gr_logic::{Clause, Formula, Lit};
use gr_text::Printer;

/// Writes the formula: `p cnf V C`, and each clause on a line of its own, its literals in decimal, a space
/// behind each, and then `0`. Takes no memory but what the sink takes.
pub fn write<K: Sink>(formula: &Formula, sink: &mut K) -> Result<(), SinkError>
    ensures ok { OnOk result (Gains (canonical_text formula.now)
        (K.written sink.old) (K.written sink.new)) }
    ensures err { OnErr result (GainsPart (canonical_text formula.now)
        (K.written sink.old) (K.written sink.new)) }
    ensures fault { IfErr result (λ e. e ≡ SinkError.Fault →
        Rose (K.faults sink.old) (K.faults sink.new)) }
    ensures grows { K.faults sink.old ≤ K.faults sink.new }
{
    let mut printer = Printer::new(sink);
    match print_formula(&mut printer, formula) {
        Ok(()) => {}
        Err(failed) => return Err(failed),
    }
    match printer.flush() {
        Ok(()) => Ok(()),
        Err(failed) => Err(failed),
    }
}

/// Prints the header and the clauses.
fn print_formula<K: Sink>(printer: &mut Printer<'_, K>, formula: &Formula) -> Result<(), SinkError>
    ensures same { printer.new.sink.ghost_name ≡ printer.old.sink.ghost_name }
    ensures printed { Printed result (canonical_text formula.now)
        (output (K.written printer.old.sink.now) printer.old.pending (K.faults printer.old.sink.now))
        (output (K.written printer.new.sink.now) printer.new.pending (K.faults printer.new.sink.now)) }
    ensures grows { K.faults printer.old.sink.now ≤ K.faults printer.new.sink.now }
{
    let clauses = formula.clauses();
    match print_header(printer, formula.vars(), clauses.len()) {
        Ok(()) => {}
        Err(failed) => return Err(failed),
    }
    print_clauses(printer, clauses)
}

/// Prints `p cnf V C`.
fn print_header<K: Sink>(
    printer: &mut Printer<'_, K>,
    vars: u32,
    count: usize,
) -> Result<(), SinkError>
    requires vars { vars ≤ 1_000_000 }
    requires count { count ≤ 5_000_000 }
    ensures same { printer.new.sink.ghost_name ≡ printer.old.sink.ghost_name }
    ensures printed { Printed result (header_text vars count)
        (output (K.written printer.old.sink.now) printer.old.pending (K.faults printer.old.sink.now))
        (output (K.written printer.new.sink.now) printer.new.pending (K.faults printer.new.sink.now)) }
    ensures grows { K.faults printer.old.sink.now ≤ K.faults printer.new.sink.now }
{
    match printer.bytes(b"p cnf ") {
        Ok(()) => {}
        Err(failed) => return Err(failed),
    }
    match print_count(printer, vars as u64, b" ") {
        Ok(()) => {}
        Err(failed) => return Err(failed),
    }
    print_count(printer, count as u64, b"\n")
}

/// Prints each clause on a line of its own.
fn print_clauses<K: Sink>(printer: &mut Printer<'_, K>, clauses: &[Clause]) -> Result<(), SinkError>
    ensures same { printer.new.sink.ghost_name ≡ printer.old.sink.ghost_name }
    ensures printed { Printed result (flat_map clause_text clauses.now)
        (output (K.written printer.old.sink.now) printer.old.pending (K.faults printer.old.sink.now))
        (output (K.written printer.new.sink.now) printer.new.pending (K.faults printer.new.sink.now)) }
    ensures grows { K.faults printer.old.sink.now ≤ K.faults printer.new.sink.now }
{
    for clause in clauses {
        match print_clause(printer, clause.lits()) {
            Ok(()) => {}
            Err(failed) => return Err(failed),
        }
    }
    Ok(())
}

/// Prints a clause, and the `0` that ends it.
fn print_clause<K: Sink>(printer: &mut Printer<'_, K>, lits: &[Lit]) -> Result<(), SinkError>
    ensures same { printer.new.sink.ghost_name ≡ printer.old.sink.ghost_name }
    ensures printed { Printed result (clause_text lits.now)
        (output (K.written printer.old.sink.now) printer.old.pending (K.faults printer.old.sink.now))
        (output (K.written printer.new.sink.now) printer.new.pending (K.faults printer.new.sink.now)) }
    ensures grows { K.faults printer.old.sink.now ≤ K.faults printer.new.sink.now }
{
    match print_literals(printer, lits) {
        Ok(()) => {}
        Err(failed) => return Err(failed),
    }
    printer.bytes(b"0\n")
}

/// Prints literals, a space behind each.
fn print_literals<K: Sink>(printer: &mut Printer<'_, K>, lits: &[Lit]) -> Result<(), SinkError>
    ensures same { printer.new.sink.ghost_name ≡ printer.old.sink.ghost_name }
    ensures printed { Printed result (flat_map literal_text lits.now)
        (output (K.written printer.old.sink.now) printer.old.pending (K.faults printer.old.sink.now))
        (output (K.written printer.new.sink.now) printer.new.pending (K.faults printer.new.sink.now)) }
    ensures grows { K.faults printer.old.sink.now ≤ K.faults printer.new.sink.now }
{
    for lit in lits {
        match print_literal(printer, *lit) {
            Ok(()) => {}
            Err(failed) => return Err(failed),
        }
    }
    Ok(())
}

/// Prints a literal and a space.
fn print_literal<K: Sink>(printer: &mut Printer<'_, K>, lit: Lit) -> Result<(), SinkError>
    ensures same { printer.new.sink.ghost_name ≡ printer.old.sink.ghost_name }
    ensures printed { Printed result (literal_text lit)
        (output (K.written printer.old.sink.now) printer.old.pending (K.faults printer.old.sink.now))
        (output (K.written printer.new.sink.now) printer.new.pending (K.faults printer.new.sink.now)) }
    ensures grows { K.faults printer.old.sink.now ≤ K.faults printer.new.sink.now }
{
    match printer.number(lit.number() as i64) {
        Ok(()) => {}
        Err(failed) => return Err(failed),
    }
    printer.bytes(b" ")
}

/// Prints a count and the blank behind it.
fn print_count<K: Sink>(printer: &mut Printer<'_, K>, n: u64, blank: &[u8]) -> Result<(), SinkError>
    requires { n ≤ 5_000_000 }
    ensures same { printer.new.sink.ghost_name ≡ printer.old.sink.ghost_name }
    ensures printed { Printed result (decimal n ++ blank.now)
        (output (K.written printer.old.sink.now) printer.old.pending (K.faults printer.old.sink.now))
        (output (K.written printer.new.sink.now) printer.new.pending (K.faults printer.new.sink.now)) }
    ensures grows { K.faults printer.old.sink.now ≤ K.faults printer.new.sink.now }
{
    match printer.number(n as i64) {
        Ok(()) => {}
        Err(failed) => return Err(failed),
    }
    printer.bytes(blank)
}
