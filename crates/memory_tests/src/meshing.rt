//! A case with commands between the steps of two running meshes. No step and no command there allocates memory.
ghost use Rattle.std.specs.Prelude.{◌≡◌, ◌∷◌, []};
ghost use Rattle.model_words.specs.Commands.{IsInRange};

use crate::ends::{CaseError, End, expect};
use arrayvec::ArrayVec;
use mesh_class::{Class, class_of};
use mesh_mutator::{Attempt, Book, Command, Reply};
use mesh_steps::Report;
use model_words::MAX_BYTES;
use std::alloc::Global;

/// Makes meshes step by step, with commands between the steps. A line is printed before and after the part in which no
/// call allocates.
pub(crate) fn mesh<R: Print>(rt: &R, alloc: Global) -> End {
    match Book::open(alloc, 16, 400) {
        Ok(mut book) => mesh_in(rt, &mut book),
        Err(_) => Err(CaseError::Memory),
    }
}

/// Makes the meshes of a fresh book.
fn mesh_in<R: Print>(rt: &R, book: &mut Book) -> End {
    set_up(book)?;
    let (Ok(large), Ok(small)) = (class_of(2048), class_of(1024)) else {
        return Err(CaseError::Wrong("no class"));
    };
    go_between(rt, book, large, small)
}

/// Runs the part in which no call allocates, and prints a line before and after it.
fn go_between<R: Print>(rt: &R, book: &mut Book, large: Class, small: Class) -> End {
    tell(rt, "mesh: a stretch begins in which nothing takes memory\n")?;
    let end = go_through(book, large, small);
    tell(rt, "mesh: the stretch ends\n")?;
    end?;
    Ok(0)
}

/// Prints a line.
fn tell<R: Print>(rt: &R, line: &str) -> Result<(), CaseError> {
    match print!(rt; "{line}") {
        Ok(()) => Ok(()),
        Err(_) => Err(CaseError::Wrong("a line can't be written")),
    }
}

/// The objects that are made before the meshes: the cell and the length in bytes of each.
static OBJECTS: [(u8, u32); 14] = [
    (0, 2048),
    (1, 2048),
    (2, 2048),
    (3, 2048),
    (10, 1024),
    (11, 1024),
    (12, 1024),
    (13, 1024),
    (14, 1024),
    (15, 1024),
    (16, 1024),
    (17, 1024),
    (20, 16),
    (21, 64),
];

/// The cells of the objects that are freed once all objects are made.
static FREED: [u8; 7] = [0, 3, 10, 11, 16, 17, 20];

/// Makes six groups. Groups 0 and 1 are of one class and can be meshed. Groups 2 and 3 are of another class and can be
/// meshed. Group 4 is empty, and group 5 has one object.
fn set_up(book: &mut Book) -> Result<(), CaseError> {
    for (cell, len) in OBJECTS.iter() {
        make(book, *cell, *len)?;
    }
    for cell in FREED.iter() {
        done(book, Command::Free(*cell))?;
    }
    Ok(())
}

/// Makes an object, and stores its reference in a cell.
fn make(book: &mut Book, cell: u8, len: u32) -> Result<(), CaseError> {
    match book.act(0, &Command::New(cell, len, 0)) {
        Attempt::Done(Reply::Object(_, _)) => Ok(()),
        Attempt::OutOfMemory => Err(CaseError::Memory),
        _ => Err(CaseError::Wrong("a New that makes nothing")),
    }
}

/// Runs a command, and checks its answer.
fn answered(
    book: &mut Book,
    command: Command,
    reply: Reply,
    what: &'static str,
) -> Result<(), CaseError>
    requires { IsInRange command }
{
    expect(book.act(0, &command) == Attempt::Done(reply), what)
}

/// Runs a command, and checks that it is done.
fn done(book: &mut Book, command: Command) -> Result<(), CaseError>
    requires { IsInRange command }
{
    answered(book, command, Reply::Done, "a command that isn't done")
}

/// Runs the part in which no call allocates. Two meshes run at once: one is finished, the other is cancelled after an
/// object of its source was freed. Then the cancelled mesh is made in one call, and the empty group is swept.
fn go_through(book: &mut Book, large: Class, small: Class) -> Result<(), CaseError> {
    begin_both(book, small)?;
    step_through(book, large, small)?;
    finish(book)
}

/// Begins both meshes, makes one step of the mesh of the smaller class, and frees an object of that mesh's source.
fn begin_both(book: &mut Book, small: Class) -> Result<(), CaseError> {
    done(book, put(2, b'm'))?;
    if book.begin(1, 0) != Ok(6) {
        return Err(CaseError::Wrong("another mesh of the class 2048"));
    }
    if book.begin(3, 2).is_err() {
        return Err(CaseError::Wrong("no mesh of the class 1024"));
    }
    if book.step(small).is_err() {
        return Err(CaseError::Wrong("no step of the class 1024"));
    }
    done(book, Command::Free(15))
}

/// Makes all steps of the mesh of the larger class, and runs each other kind of call after every step. The mesh of the
/// smaller class is cancelled after the second step.
fn step_through(book: &mut Book, large: Class, small: Class) -> Result<(), CaseError> {
    let mut left = 6u32;
    for _ in 0..6u32 {
        left = step(book, large, left)?;
        attempt_all(book)?;
        if left == 4 {
            unwind(book, small)?;
        }
    }
    expect(left == 0, "a mesh that isn't over")
}

/// The expected report of the book after the part in which no call allocates.
const REPORT: Report = Report {
    objects: 6,
    bytes: 2 * 2048 + 3 * 1024 + 64,
    mapped: 5,
    taken: 3,
    saved: 2,
};

/// Makes the cancelled mesh in one call, and sweeps the empty group.
fn finish(book: &mut Book) -> Result<(), CaseError> {
    if book.mesh_whole(3, 2) != Ok(1) {
        return Err(CaseError::Wrong("another mesh made whole"));
    }
    if book.sweep(4) != Ok(1) {
        return Err(CaseError::Wrong("another sweep"));
    }
    expect(book.report() == REPORT, "another report")
}

/// Makes a step of a mesh that has `left` steps left. Checks that the step leaves one step fewer, and returns the
/// number of steps left after it.
fn step(book: &mut Book, class: Class, left: u32) -> Result<u32, CaseError> {
    let Ok(step) = book.step(class) else {
        return Err(CaseError::Wrong("a step that is refused"));
    };
    expect(
        step.left.checked_add(1) == Some(left),
        "a step that isn't counted",
    )?;
    Ok(step.left)
}

/// Cancels the mesh of a class after its first step, and makes the one step that unprotects its page.
fn unwind(book: &mut Book, class: Class) -> Result<(), CaseError> {
    let Ok(left) = book.cancel(class) else {
        return Err(CaseError::Wrong("a cancel that is refused"));
    };
    expect(
        step(book, class, left)? == 0,
        "a cancelled mesh that isn't over",
    )
}

/// A store of one byte.
fn put(cell: u8, byte: u8) -> Command
    ensures { IsInRange result }
{
    Command::Put(cell, 0, one(byte))
}

/// One byte, as the argument of a store or the result of a load.
fn one(byte: u8) -> ArrayVec<u8, MAX_BYTES>
    ensures { result.items ≡ byte ∷ [] }
{
    let mut bytes = ArrayVec::new();
    bytes.push(byte);
    bytes
}

/// Runs each kind of command, tries to sweep a group that isn't empty, and checks the report's number of objects. A
/// store into the source may be blocked.
fn attempt_all(book: &mut Book) -> Result<(), CaseError> {
    read_all(book)?;
    store_all(book)?;
    make_and_free(book)?;
    if book.sweep(2).is_ok() {
        return Err(CaseError::Wrong("a sweep of a group with objects"));
    }
    expect(book.report().objects == 6, "another count of objects")
}

/// Runs each command that reads.
fn read_all(book: &mut Book) -> Result<(), CaseError> {
    answered(
        book,
        Command::Get(2, 0, 1),
        Reply::Bytes(one(b'm')),
        "another byte",
    )?;
    answered(book, Command::Addr(2), Reply::At(0x2000), "another address")?;
    answered(
        book,
        Command::Peek(0x2000),
        Reply::Byte(b'm'),
        "another byte at the address",
    )
}

/// Runs each command that stores.
fn store_all(book: &mut Book) -> Result<(), CaseError> {
    done(book, Command::Alias(30, 2))?;
    done(book, put(1, b'x'))?;
    done_or_blocked(book, Command::Poke(0x2000, b'm'))?;
    done_or_blocked(book, Command::Copy(2, 1, 1, 1, 8))?;
    done_or_blocked(book, put(2, b'm'))
}

/// Frees an object a second time, which must be refused, and then makes and frees another object.
fn make_and_free(book: &mut Book) -> Result<(), CaseError> {
    expect(
        book.act(0, &Command::Free(0)) != Attempt::Done(Reply::Done),
        "an object freed twice",
    )?;
    make(book, 22, 64)?;
    done(book, Command::Free(22))
}

/// Runs a store, and checks that the store is done or blocked.
fn done_or_blocked(book: &mut Book, command: Command) -> Result<(), CaseError>
    requires { IsInRange command }
{
    let attempt = book.act(0, &command);
    expect(
        attempt == Attempt::Done(Reply::Done) || attempt == Attempt::Blocked,
        "a store that is refused",
    )
}
