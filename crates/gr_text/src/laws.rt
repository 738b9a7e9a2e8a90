// Laws of the marks of a text: each is the contract of a function that does nothing.
ghost use Rattle.gr_text.specs.Laws.{MarksReadTheText, NoOtherMarksReadIt, LinesAreCounted};

/// The marks of a text that is shorter than the limit read it: each token is a longest run of bytes
/// other than space, tab, carriage return and line feed, and its line's first where the line had
/// none; each line feed ends a line, and no other byte does; the text's end comes last.
pub fn marks_read_the_text()
    ensures { MarksReadTheText }
{}

/// No other marks read such a text.
pub fn no_other_marks_read_it()
    ensures { NoOtherMarksReadIt }
{}

/// Each mark of a text that is shorter than the limit names the line that is one more than the lines
/// that end before it.
pub fn lines_are_counted()
    ensures { LinesAreCounted }
{}
