// What may cross threads: these functions are only proved, and never called.
use crate::answers::{Imported, Taken};
use crate::benches::Bench;
use gr_logic::Formula;

fn is_shared<T: Sync>(_shared: &T) {}

fn is_moved<T: Send>(_moved: &T) {}

/// An exchange and what it answers may move between threads, which may share the formula.
pub(crate) fn cross(bench: &Bench, taken: &Taken, imported: &Imported, formula: &Formula) {
    is_moved(bench);
    is_moved(taken);
    is_moved(imported);
    is_shared(formula);
}
