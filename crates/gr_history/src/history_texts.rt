// A history's log is written line by line, so that no second copy of it is kept.
ghost use Rattle.std.specs.Prelude.{◌≡◌, ◌≤◌, ◌++◌, All, IfErr, OnOk, OnErr};
ghost use Rattle.gr_io.specs.Pieces.{Gains, GainsPart, Rose};
ghost use Rattle.gr_logic.specs.Log.{HasIds};
ghost use Rattle.gr_lrat.specs.Writing.{log_text};
ghost use Rattle.gr_text.specs.Printing.{Prints};
ghost use Rattle.gr_history.specs.HistoryLogs.{lines_in};

use gr_diary::Diary;
use gr_io::{Sink, SinkError};
use gr_lrat::write_line;
use gr_text::Printer;

/// Writes the lines of a diary to a proof log.
pub fn write_history<K: Sink>(diary: &Diary, proof: &mut K) -> Result<(), SinkError>
    requires { All HasIds (lines_in diary.now) }
    ensures ok { OnOk result (Gains (log_text (lines_in diary.now)) (K.written proof.old) (K.written proof.new)) }
    ensures err { OnErr result (GainsPart (log_text (lines_in diary.now)) (K.written proof.old) (K.written proof.new)) }
    ensures fault { IfErr result (λ e. e ≡ SinkError.Fault → Rose (K.faults proof.old) (K.faults proof.new)) }
    ensures calm { OnOk result (K.faults proof.new ≡ K.faults proof.old) }
    ensures grows { K.faults proof.old ≤ K.faults proof.new }
{
    let mut printer = Printer::new(proof);
    match print_history(diary, &mut printer) {
        Ok(()) => printer.flush(),
        Err(failed) => Err(failed),
    }
}

/// Prints the lines of a diary.
fn print_history<K: Sink>(diary: &Diary, printer: &mut Printer<'_, K>) -> Result<(), SinkError>
    requires { All HasIds (lines_in diary.now) }
    ensures same { printer.new.sink.ghost_name ≡ printer.old.sink.ghost_name }
    ensures ok { OnOk result (Prints (log_text (lines_in diary.now))
        (K.written printer.old.sink.now) printer.old.pending
        (K.written printer.new.sink.now) printer.new.pending) }
    ensures err { OnErr result (GainsPart (printer.old.pending ++ log_text (lines_in diary.now))
        (K.written printer.old.sink.now) (K.written printer.new.sink.now)) }
    ensures fault { IfErr result (λ e. e ≡ SinkError.Fault →
        Rose (K.faults printer.old.sink.now) (K.faults printer.new.sink.now)) }
    ensures calm { OnOk result (K.faults printer.new.sink.now ≡ K.faults printer.old.sink.now) }
    ensures grows { K.faults printer.old.sink.now ≤ K.faults printer.new.sink.now }
{
    let mut lines = diary.lines();
    'printing: loop {
        match lines.next() {
            Ok(Some(line)) => match write_line(&line, printer) {
                Ok(()) => {}
                Err(failed) => return Err(failed),
            },
            Ok(None) => return Ok(()),
            Err(_) => return Err(SinkError::OutOfMemory),
        }
    }
}
