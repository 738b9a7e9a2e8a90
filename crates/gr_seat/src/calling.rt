// Calling the reducers that wait for work.
use crossbeam_utils::sync::{Parker, Unparker};
use std::sync::Wait;
use std::sync::atomic::AtomicU64;
use std::sync::atomic::Ordering::SeqCst;
use std::thread;

/// How often a reducer without work looks for a call before it sleeps.
const LOOKS: u32 = 200;

/// What calls the reducers that wait for work. No contract sees it, and no proof rests on it.
#[derive(Drop)]
pub(crate) struct Bell {
    /// One for each reducer.
    unparkers: Vec<Unparker>,
    /// How often it rang.
    calls: AtomicU64,
    /// How many reducers sleep, or are about to.
    sleepers: AtomicU64,
}

impl Bell {
    /// A bell that has not rung.
    pub(crate) fn new(unparkers: Vec<Unparker>) -> Bell {
        Bell {
            unparkers,
            calls: AtomicU64::new(0),
            sleepers: AtomicU64::new(0),
        }
    }

    /// Calls each reducer that waits. One that goes to sleep meanwhile sees the call: it counts itself before its last
    /// look, and the call is counted before the sleepers are.
    pub(crate) fn ring(&self) {
        self.calls.fetch_add(1, SeqCst);
        if self.sleepers.load(SeqCst) > 0 {
            for unparker in &self.unparkers {
                unparker.unpark();
            }
        }
    }

    /// How often it rang by now.
    pub(crate) fn calls(&self) -> u64 {
        self.calls.load(SeqCst)
    }

    /// Waits for a call after those. To sleep and to be woken costs more than some looks, and while the search goes on
    /// the next clause on offer is often near: so it looks for a while first, and lets other threads run between two
    /// looks.
    pub(crate) fn wait<R: Wait>(&self, rt: &R, parker: &Parker, calls: u64) {
        for _ in 0..LOOKS {
            if self.calls() != calls {
                return;
            }
            thread::yield_now();
        }
        self.sleepers.fetch_add(1, SeqCst);
        if self.calls() == calls {
            parker.park(rt);
        }
        self.sleepers.fetch_sub(1, SeqCst);
    }
}
