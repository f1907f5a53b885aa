//! The gate, with the points at which a test can stop a thread.
use model_words::StepKind;

/// The actor that arrives at a gate.
#[derive(Clone, Copy, Debug, PartialEq, Eq)]
pub enum Actor {
    /// A worker, by its number.
    Worker(u32),
    /// A mesher, by its number.
    Mesher(u32),
    /// A searcher, by its number.
    Searcher(u32),
}

/// A point at which an actor arrives. An actor holds the lock only at the point `Reading`.
#[derive(Clone, Copy, Debug, PartialEq, Eq)]
pub enum Point {
    /// A call of a worker has returned. The number is the call's place among all calls of the worker, counted from 0.
    Called(u32),
    /// A mesh has begun.
    Begun,
    /// A mesh has made a step of this kind, and this number of its steps is left.
    Stepped(StepKind, u32),
    /// A searcher starts its part of the first round for the class of this slot size.
    Class(u32),
    /// A worker has taken the shared lock and is inside a reading call. The number is the call's place among all calls
    /// of the worker, counted from 0.
    Reading(u32),
    /// A mesher has ended: it makes no call any more.
    Ended,
}

/// A hook that threads call at each point. The call may wait, and its contract promises nothing.
pub trait Gate {
    /// Reports that an actor has arrived at a point.
    fn arrive(&self, actor: Actor, point: Point);
}

/// A gate that stops no thread.
#[derive(Clone, Copy, Debug, Drop)]
pub struct NoGate;

impl Gate for NoGate {
    fn arrive(&self, _actor: Actor, _point: Point) {}
}
