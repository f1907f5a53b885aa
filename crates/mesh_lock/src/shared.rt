//! `Shared`: a book under a lock, and the calls of its mutators.
ghost use Rattle.std.specs.Prelude.{◌≡◌, ℕ, ◌↔◌, ◌<◌, ◌≤◌, List, [], length, IsTrue, IfOk, IfErr, true};
ghost use Rattle.model_words.specs.Commands.{IsInRange};
ghost use Rattle.model_memory.specs.Reads.{is_read};
ghost use Rattle.mesh_mutator.specs.declared.attempts.Attempt.{Attempt};
ghost use Rattle.model_memory.specs.Plain.{Entry};
ghost use Rattle.mesh_mutator.specs.Book.{memory_in};
ghost use Rattle.mesh_lock.specs.Seat.{IsEmptySeats, IsTaken};
ghost use Rattle.mesh_lock.specs.Settle.{IsEnd, IsFault};

use crate::calling::Mutator;
use crate::{Ended, FinishError, OpenError, Seat, settle};
use mesh_mutator::{Attempt, Book, Command};
use mesh_search::NoGate;
use std::alloc::{AllocError, Global};
use std::sync::{RwLock, Wait};

/// A book that several mutators share.
#[derive(Drop)]
pub struct Shared {
    /// The book under its lock. A mesher takes this lock too, once for each call on the book.
    pub book: RwLock<Book>,
    /// The number of seats that `open` created, and that `finish` expects.
    pub seats: u32,
}

impl Shared {
    /// Puts a book with an empty journal under a lock, and creates one empty seat per count. There must be 1 to 64
    /// counts. The seats are numbered 0, 1, .. in order, and each has room for its count of calls, which may be 0. The
    /// error is Memory if an allocation for the seats failed.
    pub fn open(
        alloc: Global,
        book: Book,
        counts: &[usize],
    ) -> Result<(Shared, Vec<Seat>), OpenError>
        requires empty { book.entries ≡ [] }
        requires some { 1 ≤ length counts.now }
        requires few { length counts.now ≤ 64 }
        ensures seats { IfOk result (λ opened. IsEmptySeats 0 counts.now opened.1.items) }
        ensures count { IfOk result (λ opened. opened.0.seats ≡ length counts.now) }
    {
        let seats = seats_of(alloc, counts)?;
        Ok((
            Shared {
                book: RwLock::new(book),
                seats: counts.len() as u32,
            },
            seats,
        ))
    }

    /// The number of seats that `open` created.
    pub fn seats(&self) -> u32
        ensures { result ≡ self.now.seats }
    {
        self.seats
    }

    /// Makes one attempt at a command for a seat's mutator, as one atomic step.
    ///
    /// If the seat is full, nothing else is checked, and the result is HistoryFull. A read is answered under the shared
    /// lock, concurrently with other reads, and never enters the journal. Any other command is an attempt at the book
    /// under the exclusive lock. The seat keeps the command and its reply only if the result is Done. Nothing is
    /// allocated, except for a `New` that needs a new span.
    pub fn call<R: Wait>(&self, rt: &R, seat: &mut Seat, command: &Command) -> Attempt
        requires { IsInRange command.now }
        ensures taken { IsTaken seat.old seat.new command.now result }
        ensures full { seat.old.room ≤ length seat.old.calls → result ≡ Attempt.HistoryFull }
        ensures read { is_read command.now ≡ true
            → (result ≡ Attempt.HistoryFull) ↔ (seat.old.room ≤ length seat.old.calls) }
    {
        Mutator::of(rt, &NoGate, self).attempt(seat, command)
    }

    /// Makes attempts as `call` does until one isn't Blocked, and returns that attempt. The function doesn't return
    /// while a mesh keeps the page of a store read-only.
    pub fn retry_call<R: Wait>(&self, rt: &R, seat: &mut Seat, command: &Command) -> Attempt
        requires { IsInRange command.now }
        ensures taken { IsTaken seat.old seat.new command.now result }
        ensures full { seat.old.room ≤ length seat.old.calls → result ≡ Attempt.HistoryFull }
        ensures read { is_read command.now ≡ true
            → (result ≡ Attempt.HistoryFull) ↔ (seat.old.room ≤ length seat.old.calls) }
        ensures not_blocked { result ≡ Attempt.Blocked → ⊥ }
    {
        Mutator::of(rt, &NoGate, self).retry(seat, command)
    }

    /// Takes the book out of the lock, and settles it with the seats (`settle`).
    ///
    /// A contract can't name a book that was under a lock, so these clauses state the result for some journal. The
    /// contract of `settle` states the result for a known book.
    pub fn finish(self, alloc: Global, seats: Vec<Seat>) -> Result<Ended, FinishError>
        ensures ended { IfOk result
            (λ ended. (entries : List Entry)
            × IsEnd self.seats seats.items entries ended.history.items (memory_in ended.heap ended.roots)) }
        ensures fault { IfErr result (λ error. (entries : List Entry) × IsFault self.seats seats.items entries error) }
    {
        settle(alloc, self.book.into_inner(), self.seats, seats)
    }
}

/// Returns an empty seat for each count, numbered from 0. The only error is an allocation failure.
fn seats_of(alloc: Global, counts: &[usize]) -> Result<Vec<Seat>, AllocError>
    requires few { length counts.now ≤ 64 }
    ensures { IfOk result (λ seats. IsEmptySeats 0 counts.now seats.items) }
{
    let mut seats = Vec::with_capacity(alloc, counts.len())?;
    for k in 0..counts.len() {
        let seat = Seat::open(alloc, k as u32, counts[k])?;
        seats.push_reserved(seat);
    }
    Ok(seats)
}
