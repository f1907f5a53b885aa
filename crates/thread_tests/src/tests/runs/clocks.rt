//! Clocks for a `Pace`, so that its waits don't depend on how fast the machine is.

use std::rt::Clock;
use std::sync::atomic::Ordering::SeqCst;
use std::sync::atomic::{AtomicBool, AtomicU32};
use std::time::Duration;
use std::{io, thread};

/// The greatest number of turns for which a thread waits for the other one. `TURN` is its sleep in each of them, in
/// microseconds.
const TURNS: u32 = 1_000_000;

const TURN: u64 = 10;

/// A clock that counts sleeps. The first sleep lasts until it may end, and each further one ends at once.
#[derive(Drop)]
pub(crate) struct Sleeps<'a, R> {
    rt: &'a R,
    // The number of sleeps so far.
    made: AtomicU32,
    // Whether a thread sleeps, or goes on without a sleep.
    is_reached: AtomicBool,
    // Whether the first sleep may end.
    may_end: AtomicBool,
}

impl<'a, R: Clock> Sleeps<'a, R> {
    /// Returns a clock on which no thread has slept.
    pub(crate) fn new(rt: &'a R) -> Sleeps<'a, R> {
        Sleeps {
            rt,
            made: AtomicU32::new(0),
            is_reached: AtomicBool::new(false),
            may_end: AtomicBool::new(false),
        }
    }

    /// The number of sleeps so far.
    pub(crate) fn count(&self) -> u32 {
        self.made.load(SeqCst)
    }

    /// Waits until a thread sleeps, or `pass` is called.
    pub(crate) fn wait_for_sleep(&self) {
        self.wait_for(&self.is_reached);
    }

    /// Lets the other thread go on that waits for a sleep.
    pub(crate) fn pass(&self) {
        self.is_reached.store(true, SeqCst);
    }

    /// Lets the first sleep end.
    pub(crate) fn wake(&self) {
        self.may_end.store(true, SeqCst);
    }

    /// Waits until this flag is set, or all turns are used up.
    fn wait_for(&self, flag: &AtomicBool) {
        for _ in 0..TURNS {
            if flag.load(SeqCst) {
                return;
            }
            thread::sleep(self.rt, Duration::from_micros(TURN));
        }
    }
}

impl<'a, R: Clock> Clock for Sleeps<'a, R> {
    fn monotonic(&self) -> io::Result<Duration> {
        self.rt.monotonic()
    }

    fn since_1970(&self) -> io::Result<Duration> {
        self.rt.since_1970()
    }

    fn sleep(&self, _duration: Duration) {
        self.made.fetch_add(1, SeqCst);
        self.pass();
        self.wait_for(&self.may_end);
    }
}

/// The sleep of a `SlowClock`, in microseconds.
const LONG: u64 = 2_000;

/// A clock whose sleeps are long, so that no thread waits in vain on a busy machine. The 1,000 sleeps of a searcher
/// last two seconds or more.
#[derive(Drop)]
pub(crate) struct SlowClock<'a, R> {
    pub rt: &'a R,
}

impl<'a, R: Clock> Clock for SlowClock<'a, R> {
    fn monotonic(&self) -> io::Result<Duration> {
        self.rt.monotonic()
    }

    fn since_1970(&self) -> io::Result<Duration> {
        self.rt.since_1970()
    }

    fn sleep(&self, _duration: Duration) {
        thread::sleep(self.rt, Duration::from_micros(LONG));
    }
}
