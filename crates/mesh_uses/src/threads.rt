//! Two mutators that share one book, each on a thread of its own.
use crate::faults::UseError;
use arrayvec::ArrayVec;
use mesh::{Book, Command, Seat, Shared};
use std::sync::Wait;
use std::thread::{Threads, join};

/// Runs two threads on one heap of 16 pages, and returns the length of the one history of both.
pub(crate) fn share<R: AllocGlobal + Threads + Wait + Sync>(rt: &R) -> Result<usize, UseError> {
    let alloc = rt.alloc();
    let book = Book::open(alloc, 16, 64)?;
    let (shared, seats) = Shared::open(alloc, book, &[3, 3])?;
    let seats = served(rt, &shared, seats)?;
    let ended = shared.finish(alloc, seats)?;
    Ok(ended.history.len())
}

/// Runs the work of both threads, and returns the two seats.
fn served<R: AllocGlobal + Threads + Wait + Sync>(
    rt: &R,
    shared: &Shared,
    mut seats: Vec<Seat>,
) -> Result<Vec<Seat>, UseError> {
    let second = seats.pop();
    let first = seats.pop();
    let (Some(mut first), Some(mut second)) = (first, second) else {
        return Err(UseError::Answer("another count of seats"));
    };
    join(
        rt,
        || use_heap(rt, shared, &mut first, 0),
        || use_heap(rt, shared, &mut second, 1),
    );
    Ok(vec![in rt.alloc(); first, second]?)
}

/// Does one mutator's work: makes an object that `cell` names, stores two bytes in the object, and loads them.
fn use_heap<R: Wait>(rt: &R, shared: &Shared, seat: &mut Seat, cell: u8) {
    let mut bytes = ArrayVec::new();
    bytes.push(b'h');
    bytes.push(b'i');
    shared.retry_call(rt, seat, &Command::New(cell, 2048, 0));
    shared.retry_call(rt, seat, &Command::Put(cell, 0, bytes));
    shared.retry_call(rt, seat, &Command::Get(cell, 0, 2));
}
