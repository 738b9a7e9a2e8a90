// A history's log is checked line by line, as it is written.
ghost use Rattle.std.specs.Prelude.{◌≡◌, ◌↔◌, true, IfOk};
ghost use Rattle.gr_logic.specs.Log.{Accepts};
ghost use Rattle.gr_history.specs.HistoryLogs.{lines_in};

use gr_check::{Checker, Finish, Refused};
use gr_diary::Diary;
use gr_logic::{Formula, OutOfMemory};
use std::alloc::Global;

/// Whether the lines of a diary refute the formula: none is refused, and one adds the empty clause. Only want of
/// memory leaves it open.
pub fn check_history(alloc: Global, formula: &Formula, diary: &Diary) -> Result<bool, OutOfMemory>
    ensures { IfOk result (λ verified. (verified ≡ true) ↔ Accepts formula.now (lines_in diary.now)) }
{
    let mut checker = Checker::new(alloc, formula)?;
    let mut lines = diary.lines();
    'checking: loop {
        match lines.next() {
            Ok(Some(line)) => match checker.line(&line) {
                Ok(()) => {}
                Err(Refused::OutOfMemory) => return Err(OutOfMemory),
                Err(_) => return Ok(false),
            },
            Ok(None) => return Ok(checker.finish() == Finish::Verified),
            Err(_) => return Err(OutOfMemory),
        }
    }
}
