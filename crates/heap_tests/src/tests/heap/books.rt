//! A book that gets the calls of a heap. The cell that names an object has the object's serial as its number.
ghost use Rattle.std.specs.Prelude.{◌≤◌, IfSome};
ghost use Rattle.model_words.specs.Commands.{IsInRange};

use crate::tests::heap::calls::{
    BLOCKED, Call, DONE, NO_MEMORY, Told, UNMADE, freed, left, loaded, made, mesher_answer, number,
    refused, reported, running, stepped,
};
use crate::tests::heap::heaps::{MAX_OBJECTS, check_length, class_at};
use arrayvec::ArrayVec;
use mesh_mutator::{Attempt, Book};
use model_words::{Command, MAX_BYTES, Reply};
use std::alloc::{AllocError, Global};
use std::process::Abort;

/// The capacity of the journal, in entries. No test makes as many calls.
const ROOM: u32 = 400;

/// A book, and the number of objects that it has made.
#[derive(Drop)]
pub(crate) struct TriedBook {
    book: Book,
    objects: u8,
}

impl TriedBook {
    /// Returns a book without objects.
    pub(crate) fn open(alloc: Global, pages: u32) -> Result<TriedBook, AllocError>
        requires some { 1 ≤ pages }
        requires most { pages ≤ 4096 }
    {
        Ok(TriedBook {
            book: Book::open(alloc, pages, ROOM)?,
            objects: 0,
        })
    }

    /// Makes a call, and returns its answer.
    pub(crate) fn answer(&mut self, rt: &impl Abort, call: Call) -> Told {
        match command_of(rt, self.objects, call) {
            Some(command) => self.act(&command),
            None => meshed(rt, &mut self.book, call),
        }
    }

    /// Runs a command, and returns its answer.
    fn act(&mut self, command: &Command) -> Told
        requires { IsInRange command.now }
    {
        let attempt = self.book.act(0, command);
        if let Attempt::Done(Reply::Object(_, _)) = &attempt {
            self.objects = self.objects.saturating_add(1);
        }
        told(&attempt)
    }
}

/// Returns the command for a mutator's call on a book that has made `objects` objects, or `None` for a mesher's call.
fn command_of(rt: &impl Abort, objects: u8, call: Call) -> Option<Command>
    ensures { IfSome result (λ command. IsInRange command) }
{
    Some(match call {
        Call::New(len, word) => {
            assert!(rt; usize::from(objects) < MAX_OBJECTS, "too many objects");
            Command::New(objects, len, word)
        },
        Call::Read(serial, off, len) => {
            check_length(rt, len);
            Command::Get(cell(rt, objects, serial), off, len)
        },
        Call::Write(serial, off, bytes) => {
            let stored = bytes_of(rt, bytes);
            assert!(rt; !stored.is_empty(), "a write of no byte");
            Command::Put(cell(rt, objects, serial), off, stored)
        },
        Call::Copy(to, to_off, from, from_off, len) => {
            check_length(rt, len);
            let target = cell(rt, objects, to);
            let source = cell(rt, objects, from);
            Command::Copy(target, to_off, source, from_off, len)
        },
        Call::Peek(addr) => Command::Peek(addr),
        Call::Poke(addr, byte) => Command::Poke(addr, byte),
        Call::Free(serial) => Command::Free(cell(rt, objects, serial)),
        _ => return None,
    })
}

/// Returns the cell that names the object with a serial. Asserts that the serial is below `objects`.
fn cell(rt: &impl Abort, objects: u8, serial: u32) -> u8 {
    let cell = u8::try_from(serial).expect(rt, "a cell");
    assert!(rt; cell < objects, "no object {serial}");
    cell
}

/// Returns bytes in the type that a command stores. Asserts that there are at most 32.
fn bytes_of(rt: &impl Abort, bytes: &[u8]) -> ArrayVec<u8, MAX_BYTES> {
    let mut stored = ArrayVec::new();
    let extended = stored.try_extend_from_slice(bytes);
    assert!(rt; extended.is_ok(), "a write of too many bytes");
    stored
}

/// Returns the answer of an attempt, in the form that is compared.
fn told(attempt: &Attempt) -> Told {
    match attempt {
        Attempt::Done(reply) => replied(reply),
        Attempt::Blocked => BLOCKED,
        Attempt::HistoryFull => UNMADE,
        Attempt::OutOfMemory => NO_MEMORY,
    }
}

/// Returns a reply in the form that is compared.
fn replied(reply: &Reply) -> Told {
    match reply {
        Reply::Object(serial, addr) => made(*serial, *addr),
        Reply::Done => DONE,
        Reply::Bytes(bytes) => loaded(bytes.len(), number(bytes.as_slice())),
        Reply::At(_) => UNMADE,
        Reply::Byte(byte) => loaded(1, *byte as u64),
        Reply::Refused(refusal) => refused(*refusal),
    }
}

/// Makes a mesher's call, and returns its answer.
fn meshed(rt: &impl Abort, book: &mut Book, call: Call) -> Told {
    mesher_answer!(rt, book, call)
}
