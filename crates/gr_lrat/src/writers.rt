// The writer of lines.
ghost use Rattle.std.specs.Prelude.{◌≡◌, ◌≤◌, ◌<◌, ◌^◌, ◌++◌, ℕ, ℤ, pos, All, IfErr, OnOk, OnErr};
ghost use Rattle.gr_io.specs.Pieces.{GainsPart, Rose};
ghost use Rattle.gr_logic.specs.Literals.{number_of};
ghost use Rattle.gr_logic.specs.Log.{HasIds, IsId};
ghost use Rattle.gr_text.specs.Printing.{Prints};
ghost use Rattle.gr_lrat.specs.Writing.{line_text, clause_text, literals_text, list_text, ids_text, number_text, d_space};

use gr_io::{Sink, SinkError};
use gr_logic::{Line, Lit};
use gr_text::Printer;

/// Prints the line's text. After an error, the front of what was pending and of this text was
/// handed on.
pub fn write_line<K: Sink>(line: &Line, printer: &mut Printer<'_, K>) -> Result<(), SinkError>
    requires { HasIds line.now }
    ensures same { printer.new.sink.ghost_name ≡ printer.old.sink.ghost_name }
    ensures ok { OnOk result (Prints (line_text line.now)
        (K.written printer.old.sink.now) printer.old.pending
        (K.written printer.new.sink.now) printer.new.pending) }
    ensures err { OnErr result (GainsPart (printer.old.pending ++ line_text line.now)
        (K.written printer.old.sink.now) (K.written printer.new.sink.now)) }
    ensures fault { IfErr result (λ e. e ≡ SinkError.Fault →
        Rose (K.faults printer.old.sink.now) (K.faults printer.new.sink.now)) }
    ensures calm { OnOk result (K.faults printer.new.sink.now ≡ K.faults printer.old.sink.now) }
    ensures grows { K.faults printer.old.sink.now ≤ K.faults printer.new.sink.now }
{
    match line {
        Line::Add { id, clause, hints } => write_addition(*id, clause.lits(), hints.all(), printer),
        Line::Delete { id, ids } => write_deletion(*id, ids.all(), printer),
    }
}

fn write_addition<K: Sink>(
    id: u64,
    lits: &[Lit],
    hints: &[u64],
    printer: &mut Printer<'_, K>,
) -> Result<(), SinkError>
    requires id { IsId id }
    requires hints { All IsId hints.now }
    ensures same { printer.new.sink.ghost_name ≡ printer.old.sink.ghost_name }
    ensures ok { OnOk result (Prints (number_text (pos id) ++ (clause_text lits.now ++ list_text
        hints.now))
        (K.written printer.old.sink.now) printer.old.pending
        (K.written printer.new.sink.now) printer.new.pending) }
    ensures err { OnErr result (GainsPart (printer.old.pending ++ (number_text (pos id) ++
        (clause_text lits.now ++ list_text hints.now)))
        (K.written printer.old.sink.now) (K.written printer.new.sink.now)) }
    ensures fault { IfErr result (λ e. e ≡ SinkError.Fault →
        Rose (K.faults printer.old.sink.now) (K.faults printer.new.sink.now)) }
    ensures calm { OnOk result (K.faults printer.new.sink.now ≡ K.faults printer.old.sink.now) }
    ensures grows { K.faults printer.old.sink.now ≤ K.faults printer.new.sink.now }
{
    write_id(id, printer)?;
    write_clause(lits, printer)?;
    write_list(hints, printer)
}

fn write_deletion<K: Sink>(
    id: u64,
    ids: &[u64],
    printer: &mut Printer<'_, K>,
) -> Result<(), SinkError>
    requires id { IsId id }
    requires ids { All IsId ids.now }
    ensures same { printer.new.sink.ghost_name ≡ printer.old.sink.ghost_name }
    ensures ok { OnOk result (Prints (number_text (pos id) ++ (d_space ++ list_text ids.now))
        (K.written printer.old.sink.now) printer.old.pending
        (K.written printer.new.sink.now) printer.new.pending) }
    ensures err { OnErr result (GainsPart (printer.old.pending ++ (number_text (pos id) ++ (d_space
        ++ list_text ids.now)))
        (K.written printer.old.sink.now) (K.written printer.new.sink.now)) }
    ensures fault { IfErr result (λ e. e ≡ SinkError.Fault →
        Rose (K.faults printer.old.sink.now) (K.faults printer.new.sink.now)) }
    ensures calm { OnOk result (K.faults printer.new.sink.now ≡ K.faults printer.old.sink.now) }
    ensures grows { K.faults printer.old.sink.now ≤ K.faults printer.new.sink.now }
{
    write_id(id, printer)?;
    printer.bytes(b"d ")?;
    write_list(ids, printer)
}

/// The literals and the 0 behind them.
fn write_clause<K: Sink>(lits: &[Lit], printer: &mut Printer<'_, K>) -> Result<(), SinkError>
    ensures same { printer.new.sink.ghost_name ≡ printer.old.sink.ghost_name }
    ensures ok { OnOk result (Prints (clause_text lits.now)
        (K.written printer.old.sink.now) printer.old.pending
        (K.written printer.new.sink.now) printer.new.pending) }
    ensures err { OnErr result (GainsPart (printer.old.pending ++ clause_text lits.now)
        (K.written printer.old.sink.now) (K.written printer.new.sink.now)) }
    ensures fault { IfErr result (λ e. e ≡ SinkError.Fault →
        Rose (K.faults printer.old.sink.now) (K.faults printer.new.sink.now)) }
    ensures calm { OnOk result (K.faults printer.new.sink.now ≡ K.faults printer.old.sink.now) }
    ensures grows { K.faults printer.old.sink.now ≤ K.faults printer.new.sink.now }
{
    match write_literals(lits, printer) {
        Ok(()) => printer.bytes(b"0 "),
        Err(failed) => Err(failed),
    }
}

/// The ids, the 0 behind them and the line's end.
fn write_list<K: Sink>(ids: &[u64], printer: &mut Printer<'_, K>) -> Result<(), SinkError>
    requires { All IsId ids.now }
    ensures same { printer.new.sink.ghost_name ≡ printer.old.sink.ghost_name }
    ensures ok { OnOk result (Prints (list_text ids.now)
        (K.written printer.old.sink.now) printer.old.pending
        (K.written printer.new.sink.now) printer.new.pending) }
    ensures err { OnErr result (GainsPart (printer.old.pending ++ list_text ids.now)
        (K.written printer.old.sink.now) (K.written printer.new.sink.now)) }
    ensures fault { IfErr result (λ e. e ≡ SinkError.Fault →
        Rose (K.faults printer.old.sink.now) (K.faults printer.new.sink.now)) }
    ensures calm { OnOk result (K.faults printer.new.sink.now ≡ K.faults printer.old.sink.now) }
    ensures grows { K.faults printer.old.sink.now ≤ K.faults printer.new.sink.now }
{
    match write_ids(ids, printer) {
        Ok(()) => printer.bytes(b"0\n"),
        Err(failed) => Err(failed),
    }
}

fn write_literals<K: Sink>(lits: &[Lit], printer: &mut Printer<'_, K>) -> Result<(), SinkError>
    ensures same { printer.new.sink.ghost_name ≡ printer.old.sink.ghost_name }
    ensures ok { OnOk result (Prints (literals_text lits.now)
        (K.written printer.old.sink.now) printer.old.pending
        (K.written printer.new.sink.now) printer.new.pending) }
    ensures err { OnErr result (GainsPart (printer.old.pending ++ literals_text lits.now)
        (K.written printer.old.sink.now) (K.written printer.new.sink.now)) }
    ensures fault { IfErr result (λ e. e ≡ SinkError.Fault →
        Rose (K.faults printer.old.sink.now) (K.faults printer.new.sink.now)) }
    ensures calm { OnOk result (K.faults printer.new.sink.now ≡ K.faults printer.old.sink.now) }
    ensures grows { K.faults printer.old.sink.now ≤ K.faults printer.new.sink.now }
{
    for lit in lits {
        match write_literal(*lit, printer) {
            Ok(()) => {}
            Err(failed) => return Err(failed),
        }
    }
    Ok(())
}

fn write_ids<K: Sink>(ids: &[u64], printer: &mut Printer<'_, K>) -> Result<(), SinkError>
    requires { All IsId ids.now }
    ensures same { printer.new.sink.ghost_name ≡ printer.old.sink.ghost_name }
    ensures ok { OnOk result (Prints (ids_text ids.now)
        (K.written printer.old.sink.now) printer.old.pending
        (K.written printer.new.sink.now) printer.new.pending) }
    ensures err { OnErr result (GainsPart (printer.old.pending ++ ids_text ids.now)
        (K.written printer.old.sink.now) (K.written printer.new.sink.now)) }
    ensures fault { IfErr result (λ e. e ≡ SinkError.Fault →
        Rose (K.faults printer.old.sink.now) (K.faults printer.new.sink.now)) }
    ensures calm { OnOk result (K.faults printer.new.sink.now ≡ K.faults printer.old.sink.now) }
    ensures grows { K.faults printer.old.sink.now ≤ K.faults printer.new.sink.now }
{
    for id in ids {
        match write_id(*id, printer) {
            Ok(()) => {}
            Err(failed) => return Err(failed),
        }
    }
    Ok(())
}

/// A literal's number and a space.
fn write_literal<K: Sink>(lit: Lit, printer: &mut Printer<'_, K>) -> Result<(), SinkError>
    ensures same { printer.new.sink.ghost_name ≡ printer.old.sink.ghost_name }
    ensures ok { OnOk result (Prints (number_text (number_of lit))
        (K.written printer.old.sink.now) printer.old.pending
        (K.written printer.new.sink.now) printer.new.pending) }
    ensures err { OnErr result (GainsPart (printer.old.pending ++ number_text (number_of lit))
        (K.written printer.old.sink.now) (K.written printer.new.sink.now)) }
    ensures fault { IfErr result (λ e. e ≡ SinkError.Fault →
        Rose (K.faults printer.old.sink.now) (K.faults printer.new.sink.now)) }
    ensures calm { OnOk result (K.faults printer.new.sink.now ≡ K.faults printer.old.sink.now) }
    ensures grows { K.faults printer.old.sink.now ≤ K.faults printer.new.sink.now }
{
    match printer.number(i64::from(lit.number())) {
        Ok(()) => printer.bytes(b" "),
        Err(failed) => Err(failed),
    }
}

/// An id and a space.
fn write_id<K: Sink>(id: u64, printer: &mut Printer<'_, K>) -> Result<(), SinkError>
    requires { IsId id }
    ensures same { printer.new.sink.ghost_name ≡ printer.old.sink.ghost_name }
    ensures ok { OnOk result (Prints (number_text (pos id))
        (K.written printer.old.sink.now) printer.old.pending
        (K.written printer.new.sink.now) printer.new.pending) }
    ensures err { OnErr result (GainsPart (printer.old.pending ++ number_text (pos id))
        (K.written printer.old.sink.now) (K.written printer.new.sink.now)) }
    ensures fault { IfErr result (λ e. e ≡ SinkError.Fault →
        Rose (K.faults printer.old.sink.now) (K.faults printer.new.sink.now)) }
    ensures calm { OnOk result (K.faults printer.new.sink.now ≡ K.faults printer.old.sink.now) }
    ensures grows { K.faults printer.old.sink.now ≤ K.faults printer.new.sink.now }
{
    match printer.number(id as i64) {
        Ok(()) => printer.bytes(b" "),
        Err(failed) => Err(failed),
    }
}
