//! `Pace`: a gate at which workers wait for meshers.
ghost use Rattle.std.specs.Prelude.{◌≡◌, ◌+◌, ◌%◌, ◌≤◌, ◌↔◌, IsTrue};

use mesh_lock::{Actor, Gate, Point};
use std::rt::Clock;
use std::sync::atomic::Ordering::SeqCst;
use std::sync::atomic::{AtomicBool, AtomicU32, AtomicU64};
use std::thread;
use std::time::Duration;

/// The greatest number of checks of a waiting thread before it sleeps. The thread yields after each of these checks.
const YIELDS: u32 = 64;

/// The greatest number of checks of a waiting worker after that. `TURN` is the sleep after each of these checks, in
/// microseconds.
const WORKER_TURNS: u32 = 1_000_000;

/// The greatest number of checks of a waiting searcher after that.
const SEARCHER_TURNS: u32 = 1_000;

const TURN: u64 = 10;

/// A gate at which the workers of a run and its meshers wait for one another, so that meshes fall between the calls of
/// short scripts.
///
/// A worker waits behind each `every`-th of its calls until a mesher has made a call since then, or all meshers have
/// ended. The gate sees three kinds of calls of meshers: a searcher arrives at `Point::Class` right after its mesher
/// has taken the views, and a mesher arrives at `Point::Begun` or `Point::Stepped`. A refused call ends no wait.
///
/// So that the rounds aren't over before the scripts, the first searcher of a search waits before each class until a
/// worker has made a call since then. Once a searcher has waited in vain, no searcher waits until a worker makes its
/// next call: so a run whose scripts are over makes its last rounds without a wait.
///
/// Each wait ends: a worker sleeps at most 1,000,000 times and a searcher at most 1,000 times, for 10 microseconds
/// each. A `Pace` changes no answer: it only delays threads, as any gate may. Each run needs a new `Pace`.
#[derive(Drop)]
pub struct Pace<'a, R> {
    rt: &'a R,
    every: u32,
    meshers: u32,
    /// The number of calls of workers that the gate has seen.
    made: AtomicU64,
    /// The number of calls of meshers that the gate has seen.
    calls: AtomicU64,
    /// The number of meshers that have ended.
    ended: AtomicU32,
    /// Whether a searcher has waited in vain since the last call of a worker.
    is_idle: AtomicBool,
    ghost some: { 1 ≤ every },
}

impl<'a, R: Clock> Pace<'a, R> {
    /// Returns a gate at which each worker waits behind each `every`-th of its calls. `every` must be at least 1.
    /// `meshers` is the number of meshers of the run.
    pub fn new(rt: &'a R, every: u32, meshers: u32) -> Pace<'a, R>
        requires { 1 ≤ every }
    {
        Pace {
            rt,
            every,
            meshers,
            made: AtomicU64::new(0),
            calls: AtomicU64::new(0),
            ended: AtomicU32::new(0),
            is_idle: AtomicBool::new(false),
        }
    }

    /// Whether a worker waits behind its call with this number, counted from 0.
    fn is_turn(&self, call: u32) -> bool
        ensures { IsTrue result ↔ ((call + 1) % self.now.every ≡ 0) }
    {
        (u64::from(call) + 1) % u64::from(self.every) == 0
    }

    /// Waits until a mesher makes a call after this number of calls of meshers, all meshers have ended, or all checks
    /// are used up.
    fn wait_for_mesher(&self, before: u64) {
        for _ in 0..YIELDS {
            if self.has_meshed(before) {
                return;
            }
            thread::yield_now();
        }
        for _ in 0..WORKER_TURNS {
            if self.has_meshed(before) {
                return;
            }
            self.sleep();
        }
    }

    /// Whether a mesher has made a call after this number of calls of meshers, or all meshers have ended.
    fn has_meshed(&self, before: u64) -> bool {
        self.calls.load(SeqCst) != before || self.ended.load(SeqCst) >= self.meshers
    }

    /// Waits until a worker makes a call after this number of calls of workers, or all checks are used up. Doesn't wait
    /// if a searcher has waited in vain since the last of these calls.
    fn wait_for_worker(&self, before: u64) {
        for _ in 0..YIELDS {
            if self.has_worked(before) {
                return;
            }
            thread::yield_now();
        }
        for _ in 0..SEARCHER_TURNS {
            if self.has_worked(before) {
                return;
            }
            self.sleep();
        }
        self.is_idle.store(true, SeqCst);
    }

    /// Whether a worker has made a call after this number of calls of workers, or a searcher has waited in vain.
    fn has_worked(&self, before: u64) -> bool {
        self.made.load(SeqCst) != before || self.is_idle.load(SeqCst)
    }

    fn sleep(&self) {
        thread::sleep(self.rt, Duration::from_micros(TURN));
    }
}

impl<'a, R: Clock> Gate for Pace<'a, R> {
    fn arrive(&self, actor: Actor, point: Point) {
        match (actor, point) {
            (Actor::Worker(_), Point::Called(call)) => {
                // Counted before the other side can see this call, so that a worker and a searcher never wait for one
                // another.
                let before = self.calls.load(SeqCst);
                self.made.fetch_add(1, SeqCst);
                self.is_idle.store(false, SeqCst);
                if self.is_turn(call) {
                    self.wait_for_mesher(before);
                }
            }
            (Actor::Searcher(0), Point::Class(_)) => {
                let before = self.made.load(SeqCst);
                self.calls.fetch_add(1, SeqCst);
                self.wait_for_worker(before);
            }
            (Actor::Searcher(_), Point::Class(_))
            | (Actor::Mesher(_), Point::Begun | Point::Stepped(_, _)) => {
                self.calls.fetch_add(1, SeqCst);
            }
            (Actor::Mesher(_), Point::Ended) => {
                self.ended.fetch_add(1, SeqCst);
            }
            _ => {}
        }
    }
}
