//! A case that makes objects in a book, and retries each call whose allocation fails.
ghost use Rattle.std.specs.Prelude.{◌≡◌, ◌≤◌};
ghost use Rattle.model_words.specs.Commands.{IsInRange};

use crate::ends::{CaseError, End, expect};
use crate::orders::{Maker, Order, PAGES, make_all};
use mesh_mutator::{Attempt, Book, Command, Reply};
use mesh_steps::Report;
use std::alloc::Global;

/// The number of cells that are used. Each cell is written several times.
const CELLS: u32 = 8;

/// Opens a book, and fills it.
pub(crate) fn fill(alloc: Global) -> End {
    let mut book = Book::open(alloc, PAGES, 200).map_err(|_| CaseError::Memory)?;
    make_all(&mut book)
}

impl Maker for Book {
    fn make(&mut self, order: &Order, k: u32, serial: u32) -> End {
        let wanted = Reply::Object(serial, order.address(k));
        make(self, (k % CELLS) as u8, order.len, &wanted)
    }
}

/// The state of a book that a failed `New` must not change.
#[derive(Drop)]
struct Before {
    // The answer to a load of the object that the cell names.
    seen: Reply,
    report: Report,
    entries: usize,
}

impl Before {
    /// Returns the state of a book before a `New` that would write a cell.
    fn of(book: &Book, cell: u8) -> Before {
        Before {
            seen: book.look(&Command::Get(cell, 0, 16)),
            report: book.report(),
            entries: book.journal().len(),
        }
    }

    /// Returns `Ok` if the book is still in this state, and otherwise the difference as an error.
    fn check(&self, book: &Book, cell: u8) -> Result<(), CaseError> {
        let seen = book.look(&Command::Get(cell, 0, 16));
        if seen != self.seen {
            return Err(CaseError::Wrong("a refused New wrote its cell"));
        }
        if book.report() != self.report {
            return Err(CaseError::Wrong("a refused New changed the report"));
        }
        expect(
            book.journal().len() == self.entries,
            "a refused New was recorded",
        )
    }
}

/// Makes an object, stores its reference in a cell, and retries if an allocation fails. Returns the number of retries.
fn make(book: &mut Book, cell: u8, len: u32, wanted: &Reply) -> End {
    let before = Before::of(book, cell);
    if has_room(book, cell, len, wanted)? {
        return Ok(0);
    }
    before.check(book, cell)?;
    make_again(book, cell, len, wanted)
}

/// Makes an object after an allocation failed once, and returns 1. A second failure is an error.
fn make_again(book: &mut Book, cell: u8, len: u32, wanted: &Reply) -> End {
    if has_room(book, cell, len, wanted)? {
        return Ok(1);
    }
    Err(CaseError::Wrong("one allocation was refused twice"))
}

/// Makes an object, and returns whether the allocations of the call succeeded. If they did, the answer must be
/// `wanted`.
fn has_room(book: &mut Book, cell: u8, len: u32, wanted: &Reply) -> Result<bool, CaseError> {
    match book.act(0, &Command::New(cell, len, 0)) {
        Attempt::Done(reply) => {
            expect(reply == *wanted, "another serial or address")?;
            Ok(true)
        }
        Attempt::OutOfMemory => Ok(false),
        Attempt::Blocked | Attempt::HistoryFull => Err(CaseError::Wrong(
            "a New that isn't answered",
        )),
    }
}
