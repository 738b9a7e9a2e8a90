// Laws of logs: each is the contract of a function that does nothing.
ghost use Rattle.gr_lrat.specs.Laws.{LogsAreReadByLines, WrittenLinesAreRead, WrittenLogsReadBack};

/// The text of a line spells this line; a deletion is read with 0 as its own id, which means nothing.
pub fn written_lines_are_read()
    ensures { WrittenLinesAreRead }
{}

/// The text of a log that is shorter than the limit is refused where the log is, and verified exactly
/// where the log is accepted.
pub fn written_logs_read_back()
    ensures { WrittenLogsReadBack }
{}

/// A log is read line by line: what the bytes before the first line feed spell, and then what is read of the
/// bytes behind it, one line lower.
pub fn logs_are_read_by_lines()
    ensures { LogsAreReadByLines }
{}
