// Where threads sleep while they wait. No contract sees it, and no proof rests on it.
use std::array;
use std::sync::Wait;
use std::sync::atomic::AtomicU64;
use std::sync::atomic::Ordering::SeqCst;
use std::time::Duration;

/// How often a thread yields for its turn before it sleeps.
pub(crate) const YIELDS: u32 = 20;

/// The longest sleep, in milliseconds. A wake ends it before.
const LONGEST: u64 = 10;

/// A waiting array (Dice and Kogan, Euro-Par 2019): a thread sleeps at the bed of its ticket, and
/// whoever passes the turn on wakes the bed of the next ticket alone.
#[derive(Drop)]
pub(crate) struct WaitingArray {
    beds: [Bed; 16],
}

impl WaitingArray {
    /// No one sleeps.
    pub(crate) fn new() -> WaitingArray {
        WaitingArray {
            beds: array::from_fn(|_| Bed::new()),
        }
    }

    /// The bed of a ticket. Sixteen tickets apart, two share one.
    pub(crate) fn bed(&self, ticket: u64) -> &Bed {
        &self.beds[(ticket % 16) as usize]
    }

    /// Wakes those who sleep at the ticket's bed.
    pub(crate) fn wake(&self, ticket: u64) {
        self.bed(ticket).wake();
    }
}

/// A place to sleep at.
#[derive(Drop)]
pub(crate) struct Bed {
    /// How many sleep, or are about to.
    sleepers: AtomicU64,
    /// How often it was woken: who saw an older number does not fall asleep.
    calls: AtomicU64,
}

impl Bed {
    const fn new() -> Bed {
        Bed {
            sleepers: AtomicU64::new(0),
            calls: AtomicU64::new(0),
        }
    }

    /// Says that a thread is about to sleep, and gives the calls so far.
    pub(crate) fn lie_down(&self) -> u32 {
        let calls = self.calls.load(SeqCst);
        self.sleepers.fetch_add(1, SeqCst);
        (calls % 4_294_967_296) as u32
    }

    /// Sleeps, unless there was a call since.
    pub(crate) fn sleep<R: Wait>(&self, rt: &R, calls: u32) {
        self.calls
            .park_timeout(rt, calls, Duration::from_millis(LONGEST));
    }

    /// Says that the thread is awake.
    pub(crate) fn rise(&self) {
        self.sleepers.fetch_sub(1, SeqCst);
    }

    fn wake(&self) {
        if self.sleepers.load(SeqCst) != 0 {
            self.calls.fetch_add(1, SeqCst);
            self.calls.wake_all();
        }
    }
}
