//! The calls that a mutator makes on the book while the mutator holds the lock.
//!
//! A lock's contract says nothing about the value it guards, so these functions take the `Book` itself and carry the
//! full contract. A call takes the lock and runs one of these functions.
ghost use Rattle.std.specs.Prelude.{◌≡◌, ◌↔◌, ◌<◌, ◌≤◌, Some, false, length, true};
ghost use Rattle.model_words.specs.Commands.{IsInRange};
ghost use Rattle.model_memory.specs.Reads.{is_read};
ghost use Rattle.mesh_mutator.specs.Book.{IsAttempt, IsLooked};
ghost use Rattle.mesh_mutator.specs.declared.attempts.Attempt.{Attempt};
ghost use Rattle.mesh_lock.specs.Seat.{IsNew, IsNoted, IsStore, noted};

use crate::Seat;
use mesh_mutator::{Attempt, Book, Command, Reply};

/// Makes one attempt at a command that isn't a read, for the mutator with the seat's number. If the attempt is Done,
/// the seat keeps the command and its reply.
pub(crate) fn act(book: &mut Book, seat: &mut Seat, command: &Command) -> Attempt
    requires range { IsInRange command.now }
    requires recorded { is_read command.now ≡ false }
    requires room { length seat.old.calls < seat.old.room }
    ensures attempt { IsAttempt book.old book.new seat.old.number command.now result }
    ensures full { (result ≡ Attempt.HistoryFull) ↔ (book.old.room ≤ length book.old.entries) }
    ensures noted { IsNoted seat.old seat.new command.now result }
    ensures blocked { result ≡ Attempt.Blocked → IsStore command.now }
    ensures memory { result ≡ Attempt.OutOfMemory → IsNew command.now }
{
    let attempt = book.act(seat.number(), command);
    if let Attempt::Done(reply) = &attempt {
        seat.keep(command, reply, None);
    }
    attempt
}

/// Answers a read of a seat's mutator from the book, and returns the answer. The seat keeps the read, the answer and
/// the length of the book's journal.
pub(crate) fn look(book: &Book, seat: &mut Seat, command: &Command) -> Reply
    requires range { IsInRange command.now }
    requires read { is_read command.now ≡ true }
    requires room { length seat.old.calls < seat.old.room }
    requires short { length book.now.entries ≤ 65536 }
    ensures looked { IsLooked book.now.heap book.now.cells command.now result }
    ensures noted { seat.new ≡ noted seat.old command.now result (Some (length book.now.entries)) }
{
    let reply = book.look(command);
    let seen = book.journal().len() as u32;
    seat.keep(command, &reply, Some(seen));
    reply
}
