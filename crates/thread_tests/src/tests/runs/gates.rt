//! A gate that stops threads at points of a run.

use mesh_shared::{Actor, Gate, Point};
use model_words::StepKind;
use std::rt::Clock;
use std::sync::atomic::AtomicBool;
use std::sync::atomic::Ordering::SeqCst;
use std::thread;
use std::time::Duration;

/// The greatest number of checks of a stopped thread. `TURN` is its sleep before each check, in microseconds.
const TURNS: u32 = 1_000_000;

const TURN: u64 = 10;

/// An event that a test waits for: an actor arrives at a point.
#[derive(Clone, Copy, PartialEq, Eq)]
pub(crate) enum Event {
    // A worker's call, counted from 0, was answered.
    Called(u32, u32),
    // A worker is inside its call that reads.
    Reading(u32, u32),
    // A mesher has begun a mesh.
    Begun(u32),
    // A mesher has made a step of this kind.
    Stepped(u32, StepKind),
    // A searcher is about to work on a class.
    Searching,
    // The same event for the first searcher there, if `Searching` has a mark. Only that searcher is stopped. This event
    // has no mark of its own.
    FirstSearching,
}

impl Event {
    fn of(actor: Actor, point: Point) -> Option<Event> {
        match (actor, point) {
            (Actor::Worker(w), Point::Called(i)) => Some(Event::Called(w, i)),
            (Actor::Worker(w), Point::Reading(i)) => Some(Event::Reading(w, i)),
            (Actor::Mesher(q), Point::Begun) => Some(Event::Begun(q)),
            (Actor::Mesher(q), Point::Stepped(kind, _)) => Some(Event::Stepped(q, kind)),
            (Actor::Searcher(_), Point::Class(_)) => Some(Event::Searching),
            _ => None,
        }
    }
}

/// An event, and whether it has occurred.
#[derive(Drop)]
pub(crate) struct Mark {
    event: Event,
    seen: AtomicBool,
}

impl Mark {
    /// The mark of an event that hasn't occurred.
    pub(crate) fn of(event: Event) -> Mark {
        Mark {
            event,
            seen: AtomicBool::new(false),
        }
    }
}

/// A rule that stops each actor at the first event until all events of the list have occurred. The first actor that
/// arrives there is stopped for at least this number of turns.
#[derive(Clone, Copy)]
pub(crate) struct Hold(pub Event, pub &'static [Event], pub u32);

/// A gate that stops threads. It records a fault if a thread waited in vain, or if an event occurred before an event
/// that had to come first.
#[derive(Drop)]
pub(crate) struct Holding<'a, R> {
    rt: &'a R,
    marks: &'a [Mark],
    holds: &'a [Hold],
    // The second event of a pair must occur before the first.
    orders: &'a [(Event, Event)],
    missed: AtomicBool,
}

impl<'a, R: Clock> Holding<'a, R> {
    /// Returns a gate. `marks` must contain each event that a hold or an order waits for.
    pub(crate) fn new(
        rt: &'a R,
        marks: &'a [Mark],
        holds: &'a [Hold],
        orders: &'a [(Event, Event)],
    ) -> Holding<'a, R> {
        Holding {
            rt,
            marks,
            holds,
            orders,
            missed: AtomicBool::new(false),
        }
    }

    /// Whether all marked events have occurred, no thread waited in vain, and no event occurred too early.
    pub(crate) fn went_well(&self) -> bool {
        let mut all = true;
        for mark in self.marks {
            all = all && mark.seen.load(SeqCst);
        }
        all && !self.missed.load(SeqCst)
    }

    /// Records an event, and returns whether it occurred for the first time. Returns `false` for an event without a
    /// mark.
    fn is_first(&self, event: Event) -> bool {
        for mark in self.marks {
            if mark.event == event {
                return !mark.seen.swap(true, SeqCst);
            }
        }
        false
    }

    fn has_been(&self, event: Event) -> bool {
        for mark in self.marks {
            if mark.event == event {
                return mark.seen.load(SeqCst);
            }
        }
        false
    }

    fn have_been(&self, events: &[Event]) -> bool {
        let mut all = true;
        for event in events {
            all = all && self.has_been(*event);
        }
        all
    }

    /// Records a fault if an event occurs before an event that had to come first.
    fn note_order(&self, event: Event) {
        for order in self.orders {
            if order.0 == event && !self.has_been(order.1) {
                self.missed.store(true, SeqCst);
            }
        }
    }

    /// Stops an actor that arrived at an event, as each rule for that event requires.
    fn hold(&self, event: Event, first: bool) {
        for Hold(at, until, turns) in self.holds {
            if *at == event {
                self.wait_for(until, if first { *turns } else { 0 });
            }
        }
    }

    /// Waits until all these events have occurred, for at least this number of turns and at most `TURNS`.
    fn wait_for(&self, events: &[Event], turns: u32) {
        for turn in 0..TURNS {
            if turn >= turns && self.have_been(events) {
                return;
            }
            thread::sleep(self.rt, Duration::from_micros(TURN));
        }
        self.missed.store(true, SeqCst);
    }
}

impl<'a, R: Clock> Gate for Holding<'a, R> {
    fn arrive(&self, actor: Actor, point: Point) {
        let Some(event) = Event::of(actor, point) else {
            return;
        };
        let first = self.is_first(event);
        self.note_order(event);
        self.hold(event, first);
        if first && event == Event::Searching {
            self.hold(Event::FirstSearching, first);
        }
    }
}
