//! Tests of a gate at which workers wait for meshers.

use crate::tests::check_that;
use crate::tests::runs::clocks::Sleeps;
use mesh_shared::{Actor, Gate, Pace, Point};
use model_words::StepKind;
use std::process::Abort;
use std::rt::Clock;
use std::sync::Wait;
use std::sync::atomic::AtomicBool;
use std::sync::atomic::Ordering::SeqCst;
use std::thread;
use std::thread::{Threads, join};
use std::time::Duration;

/// The sleep of a mesher before it ends a worker's wait, in microseconds.
const PAUSE: u64 = 2_000;

/// The greatest number of times that a mesher arrives at the point that ends a wait. `TURN` is its sleep after each of
/// them, in microseconds.
const TURNS: u32 = 1_000_000;

const TURN: u64 = 10;

/// A worker and a mesher at a gate for two meshers. The worker waits behind each second call.
#[derive(Drop)]
struct Waiting<'a, R> {
    rt: &'a R,
    pace: &'a Pace<'a, R>,
    // Whether the wait may end.
    may_end: AtomicBool,
    // Whether the wait has ended.
    has_ended: AtomicBool,
}

impl<'a, R: Clock> Waiting<'a, R> {
    /// Arrives behind the worker's fourth call. Returns whether the wait ended only when it could.
    fn wait(&self) -> bool {
        self.pace.arrive(Actor::Worker(0), Point::Called(3));
        let could_end = self.may_end.load(SeqCst);
        self.has_ended.store(true, SeqCst);
        could_end
    }

    /// Arrives at points that end no wait, and then at this one until the worker's wait has ended. Returns whether it
    /// has.
    fn end(&self, actor: Actor, point: Point) -> bool {
        self.pace.arrive(Actor::Mesher(0), Point::Ended);
        self.pace.arrive(Actor::Worker(1), Point::Called(0));
        self.pace.arrive(Actor::Worker(1), Point::Reading(1));
        thread::sleep(self.rt, Duration::from_micros(PAUSE));
        self.may_end.store(true, SeqCst);
        for _ in 0..TURNS {
            self.pace.arrive(actor, point);
            if self.has_ended.load(SeqCst) {
                return true;
            }
            thread::sleep(self.rt, Duration::from_micros(TURN));
        }
        false
    }
}

/// Asserts that a worker waits until an actor arrives at this point.
fn check_wait<R: Abort + Clock + Threads + Wait + Sync>(
    rt: &R,
    actor: Actor,
    point: Point,
    what: &str,
) {
    let pace = Pace::new(rt, 2, 2);
    let waiting = Waiting {
        rt,
        pace: &pace,
        may_end: AtomicBool::new(false),
        has_ended: AtomicBool::new(false),
    };
    let (waited, ended) = join(rt, || waiting.wait(), || waiting.end(actor, point));
    check_that(rt, waited && ended, what);
}

#[test]
fn a_worker_waits_for_a_mesher(rt: HostRuntime) {
    check_wait(&rt, Actor::Searcher(0), Point::Class(16), "for views");
    check_wait(&rt, Actor::Mesher(1), Point::Begun, "for a begin");
    let stepped = Point::Stepped(StepKind::Copy, 3);
    check_wait(&rt, Actor::Mesher(1), stepped, "for a step");
    check_wait(&rt, Actor::Mesher(1), Point::Ended, "for the second end");
}

/// An actor at a point.
type Arrival = (Actor, Point);

/// A thread that arrives at a gate, and another one that arrives there while the first one sleeps.
#[derive(Drop)]
struct Meeting<'a, R> {
    clock: &'a Sleeps<'a, R>,
    pace: &'a Pace<'a, Sleeps<'a, R>>,
}

impl<'a, R: Clock> Meeting<'a, R> {
    /// Makes an arrival, and returns the number of sleeps in it.
    fn sleeps(&self, (actor, point): Arrival) -> u32 {
        let before = self.clock.count();
        self.pace.arrive(actor, point);
        self.clock.pass();
        self.clock.count().saturating_sub(before)
    }

    /// Makes these arrivals once the other thread sleeps, and then lets it go on.
    fn meet(&self, arrivals: &[Arrival]) {
        self.clock.wait_for_sleep();
        for (actor, point) in arrivals {
            self.pace.arrive(*actor, *point);
        }
        self.clock.wake();
    }
}

/// Returns the number of sleeps in an arrival, if another thread makes `others` during the first sleep. At the gate
/// each worker waits behind each third call, for one mesher.
fn sleeps_in<R: Clock + Threads + Wait + Sync>(rt: &R, one: Arrival, others: &[Arrival]) -> u32 {
    let clock = Sleeps::new(rt);
    let pace = Pace::new(&clock, 3, 1);
    let meeting = Meeting {
        clock: &clock,
        pace: &pace,
    };
    let (sleeps, ()) = join(rt, || meeting.sleeps(one), || meeting.meet(others));
    sleeps
}

/// The arrival of worker 0 behind this call, counted from 0.
fn called(call: u32) -> Arrival {
    (Actor::Worker(0), Point::Called(call))
}

/// The arrival of a mesher that has begun a mesh.
const BEGUN: Arrival = (Actor::Mesher(0), Point::Begun);

#[test]
fn a_worker_waits_behind_each_third_call(rt: HostRuntime) {
    let waits = [0, 0, 1, 0, 0, 1, 0, 0, 1];
    for call in 0..9 {
        let sleeps = sleeps_in(&rt, called(call), &[BEGUN]);
        assert_eq!(&rt; sleeps, waits[call as usize], "behind call {call}");
    }
}

/// The arrival of a searcher at the class 16.
fn searching(searcher: u32) -> Arrival {
    (Actor::Searcher(searcher), Point::Class(16))
}

#[test]
fn a_searcher_waits_for_a_worker(rt: HostRuntime) {
    let sleeps = sleeps_in(&rt, searching(0), &[called(0)]);
    check_that(&rt, sleeps == 1, "until a call");
    let others = [
        BEGUN,
        searching(1),
        (Actor::Mesher(1), Point::Ended),
        (Actor::Worker(0), Point::Reading(0)),
    ];
    let sleeps = sleeps_in(&rt, searching(0), &others);
    check_that(&rt, sleeps > 1, "not until anything else");
    let sleeps = sleeps_in(&rt, searching(1), &[called(0)]);
    check_that(&rt, sleeps == 0, "only the first one");
}

#[test]
fn a_searcher_waits_in_vain_once_behind_a_call(rt: HostRuntime) {
    let clock = Sleeps::new(&rt);
    clock.wake();
    let pace = Pace::new(&clock, 3, 1);
    let meeting = Meeting {
        clock: &clock,
        pace: &pace,
    };
    for call in [0, 1] {
        let first = meeting.sleeps(searching(0));
        let second = meeting.sleeps(searching(0));
        check_that(&rt, first > 1 && second == 0, "behind each call");
        check_that(
            &rt,
            meeting.sleeps(called(call)) == 0,
            "no wait of a worker",
        );
    }
}
