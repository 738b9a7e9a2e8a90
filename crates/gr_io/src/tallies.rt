//! A count that only proofs read. It takes no memory, and its methods do nothing when they run.
ghost use Rattle.std.specs.Prelude.{◌≡◌, ◌+◌, ℕ};
ghost use Rattle.std.specs.Borrow.{ftrue};

use std::marker::Model;

/// How many there were, with no bound. A clause reads it as `count`.
#[derive(Drop)]
pub(crate) struct Tally {
    ghost count: { ℕ },
}

impl Model for Tally {
    ghost also_owns = { λ _. ftrue };
}

// It owns nothing.
unsafe impl Send for Tally {}

unsafe impl Sync for Tally {}

impl Tally {
    pub(crate) fn new() -> Tally
        ensures { result.count ≡ 0 }
    {
        Tally {}
    }

    pub(crate) fn plus(&self, _more: &usize) -> Tally
        ensures { result.count ≡ self.now.count + _more.now }
    {
        Tally {}
    }
}
