//! A case in which two seats share a book.
ghost use Rattle.model_words.specs.Commands.{IsInRange};

use crate::ends::{CaseError, End, expect};
use arrayvec::ArrayVec;
use mesh_mutator::{Attempt, Book, Command};
use mesh_shared::{Seat, Shared};
use std::alloc::Global;
use std::sync::Wait;

/// The number of calls that each seat has room for.
const ROOM: usize = 40;

/// Makes calls of every kind by two seats, and settles the book.
pub(crate) fn share<R: Wait>(rt: &R, alloc: Global) -> End {
    let book = Book::open(alloc, 32, 80)?;
    let (shared, mut seats) = Shared::open(alloc, book, &[ROOM, ROOM])?;
    let refused = serve_all(rt, &shared, seats.as_mut_slice())?;
    settle(alloc, shared, seats)?;
    Ok(refused)
}

/// Makes the calls of each seat.
fn serve_all<R: Wait>(rt: &R, shared: &Shared, seats: &mut [Seat]) -> End {
    let mut refused = 0u32;
    let mut first_cell = 0u8;
    for seat in seats.iter_mut() {
        refused = refused.saturating_add(serve(rt, shared, seat, first_cell)?);
        first_cell = 128;
    }
    Ok(refused)
}

/// Settles the book, and checks that the history has an entry for each call.
fn settle(alloc: Global, shared: Shared, seats: Vec<Seat>) -> Result<(), CaseError> {
    let calls = calls_of(seats.as_slice());
    let ended = shared.finish(alloc, seats)?;
    expect(ended.history.len() == calls, "another count of entries")
}

/// Returns the number of calls that the seats have kept.
fn calls_of(seats: &[Seat]) -> usize {
    let mut calls = 0usize;
    for seat in seats.iter() {
        calls = calls.saturating_add(seat.calls().len());
    }
    calls
}

/// Makes the calls of one seat, which uses the cells from `first` on. Returns the number of retries.
fn serve<R: Wait>(rt: &R, shared: &Shared, seat: &mut Seat, first: u8) -> End {
    let mut refused = 0u32;
    for k in 0..24u8 {
        let cell = first.wrapping_add(k);
        refused = refused.saturating_add(make(rt, shared, seat, &Command::New(cell, 2048, 0))?);
    }
    call_each(rt, shared, seat, first, first.wrapping_add(1))?;
    Ok(refused)
}

/// Makes one call of each kind besides `New`, with the objects of two cells.
fn call_each<R: Wait>(
    rt: &R,
    shared: &Shared,
    seat: &mut Seat,
    first: u8,
    next: u8,
) -> Result<(), CaseError> {
    let mut bytes = ArrayVec::new();
    bytes.push(b'w');
    call(rt, shared, seat, Command::Put(first, 0, bytes))?;
    call(rt, shared, seat, Command::Get(first, 0, 1))?;
    call(rt, shared, seat, Command::Copy(next, 0, first, 0, 1))?;
    call(rt, shared, seat, Command::Addr(next))?;
    call(rt, shared, seat, Command::Poke(0x1000, b'p'))?;
    call(rt, shared, seat, Command::Peek(0x1000))?;
    call(rt, shared, seat, Command::Alias(next, first))?;
    call(rt, shared, seat, Command::Free(first))
}

/// Makes a call that allocates nothing, and checks that it doesn't report a failed allocation.
fn call<R: Wait>(
    rt: &R,
    shared: &Shared,
    seat: &mut Seat,
    command: Command,
) -> Result<(), CaseError>
    requires { IsInRange command }
{
    if is_kept(rt, shared, seat, &command)? {
        return Ok(());
    }
    Err(CaseError::Wrong("a call whose allocation failed"))
}

/// Makes a call, and retries if an allocation fails. Returns the number of retries.
fn make<R: Wait>(rt: &R, shared: &Shared, seat: &mut Seat, command: &Command) -> End
    requires { IsInRange command.now }
{
    if is_kept(rt, shared, seat, command)? {
        return Ok(0);
    }
    make_again(rt, shared, seat, command)
}

/// Makes a call after its allocation failed once, and returns 1. A second failure is an error.
fn make_again<R: Wait>(rt: &R, shared: &Shared, seat: &mut Seat, command: &Command) -> End
    requires { IsInRange command.now }
{
    if is_kept(rt, shared, seat, command)? {
        return Ok(1);
    }
    Err(CaseError::Wrong("one allocation was refused twice"))
}

/// Makes a call, and returns whether its allocations succeeded. Checks that the seat keeps the call if and only if they
/// did.
fn is_kept<R: Wait>(
    rt: &R,
    shared: &Shared,
    seat: &mut Seat,
    command: &Command,
) -> Result<bool, CaseError>
    requires { IsInRange command.now }
{
    let before = seat.calls().len();
    let attempt = shared.call(rt, seat, command);
    let kept = seat.calls().len();
    match attempt {
        Attempt::Done(_) => {
            expect(
                kept > before && kept - before == 1,
                "a call that the seat doesn't keep",
            )?;
            Ok(true)
        }
        Attempt::OutOfMemory => {
            expect(kept == before, "the seat keeps a call that found no memory")?;
            Ok(false)
        }
        Attempt::Blocked | Attempt::HistoryFull => Err(CaseError::Wrong(
            "a call that isn't answered",
        )),
    }
}
