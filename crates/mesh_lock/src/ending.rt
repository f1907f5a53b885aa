//! `settle`: builds one history from a book and its seats.
ghost use Rattle.std.specs.Prelude.{◌≡◌, ◌≤◌, length, IfErr, IfOk};
ghost use Rattle.model_memory.specs.Memory.{Memory};
ghost use Rattle.model_memory.specs.Plain.{IsLegal};
ghost use Rattle.mesh_mutator.specs.Book.{memory_in};
ghost use Rattle.mesh_lock.specs.Settle.{IsEnd, IsFault};

use crate::differing::differing;
use crate::faults::FinishError;
use crate::missing::missing;
use crate::seat::Seat;
use crate::walk::weave;
use mesh_mutator::{Book, Entry, Journal, Roots};
use mesh_steps::Heap;
use model_memory::read_laws::{built_has_calls, built_is_legal};
use std::alloc::Global;

/// The result of `settle`.
#[derive(Drop)]
pub struct Ended {
    /// The heap.
    pub heap: Heap,
    /// The root cells.
    pub roots: Roots,
    /// The history: all entries of the journal and all reads of the seats, in one order.
    pub history: Vec<Entry>,
}

/// Builds one history from a book and the seats of its mutators, in one walk of the journal. Returns heap, root cells
/// and history.
///
/// `count` is the expected number of seats. A read that saw n entries comes after the first n entries of the journal
/// and before the next entry. Reads at the same place are ordered by seat, and reads of one seat keep their order.
///
/// The error is the first that applies, in this order: SeatMissing, SeatDiffers, ReadDiffers. If an allocation fails,
/// the result is Memory in place of ReadDiffers or of the history. Memory never takes the place of SeatMissing or
/// SeatDiffers, because checking for those two allocates nothing. On an error the heap, the cells and the history are
/// dropped.
///
/// The contract determines the result, except that an allocation failure is possible. The cases of its clauses exclude
/// one another and leave no other case: a seat is missing, or a seat differs from the journal, or a read is wrong, or
/// all reads are right.
pub fn settle(alloc: Global, book: Book, count: u32, seats: Vec<Seat>) -> Result<Ended, FinishError>
    ensures ended { IfOk result
        (λ ended. IsEnd count seats.items book.entries ended.history.items (memory_in ended.heap ended.roots)) }
    ensures heap { IfOk result (λ ended. ended.heap ≡ book.heap) }
    ensures roots { IfOk result (λ ended. ended.roots ≡ book.cells) }
    ensures fault { IfErr result (IsFault count seats.items book.entries) }
{
    let history = history_of(alloc, seats.as_slice(), count, book.journal())?;
    let (heap, roots, _journal) = book.into_parts();
    Ok(Ended {
        heap,
        roots,
        history,
    })
}

/// Builds the one history of a journal and the seats of its mutators. The errors are those of `settle`.
fn history_of(
    alloc: Global,
    seats: &[Seat],
    count: u32,
    journal: &Journal,
) -> Result<Vec<Entry>, FinishError>
    requires { length journal.now.entries ≤ 65536 }
    ensures ended { IfOk result
        (λ history. (memory : Memory) → IsLegal journal.now.entries memory
        → IsEnd count seats.now journal.now.entries history.items memory) }
    ensures fault { IfErr result (IsFault count seats.now journal.now.entries) }
{
    if let Some(seat) = missing(seats, count, journal) {
        return Err(FinishError::SeatMissing(seat));
    }
    if let Some((seat, call)) = differing(seats, journal) {
        return Err(FinishError::SeatDiffers { seat, call });
    }
    built_is_legal();
    built_has_calls();
    let history = weave(alloc, seats, journal)?;
    Ok(history)
}
