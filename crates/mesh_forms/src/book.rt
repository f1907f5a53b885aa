//! `mesh_mutator`.
ghost use Rattle.std.specs.Prelude.{◌≤◌};
ghost use Rattle.model_words.specs.Commands.{IsInRange};
ghost use Rattle.mesh_mutator.specs.Attempts.{IsLook};

use arrayvec::ArrayVec;
use mesh_class::{Class, Refusal};
use mesh_mutator::{Attempt, Book, Command, Entry, Journal, Reply, Roots};
use mesh_search::{ClassView, StepKind};
use mesh_steps::{Heap, Report, StepDone};
use std::alloc::{AllocError, Global};

pub fn open(alloc: Global, pages: u32, history: u32) -> Result<(Heap, Roots, Journal), AllocError>
    requires some { 1 ≤ pages }
    requires most { pages ≤ 4096 }
    requires limit { history ≤ 65536 }
{
    let book: Book = Book::open(alloc, pages, history)?;
    Ok(book.into_parts())
}

pub fn act(book: &mut Book, worker: u32, command: &Command) -> Option<Reply>
    requires { IsInRange command.now }
{
    match book.act(worker, command) {
        Attempt::Done(reply) => Some(reply),
        Attempt::Blocked | Attempt::HistoryFull | Attempt::OutOfMemory => None,
    }
}

pub fn look(book: &Book, command: &Command) -> Reply
    requires { IsLook command.now }
{
    book.look(command)
}

pub fn commands(bytes: ArrayVec<u8, 32>) -> [Command; 9] {
    let (cell, other) = (0u8, 1u8);
    [
        Command::New(cell, 2048, u64::MAX),
        Command::Put(cell, 0, bytes),
        Command::Get(cell, 0, 32),
        Command::Free(cell),
        Command::Alias(other, cell),
        Command::Addr(cell),
        Command::Peek(4096),
        Command::Poke(4096, 255),
        Command::Copy(other, 0, cell, 0, 32),
    ]
}

pub fn reply(reply: &Reply) -> u64 {
    match reply {
        Reply::Object(serial, addr) => u64::from(*serial) + u64::from(*addr),
        Reply::Done => 0,
        Reply::Bytes(bytes) => bytes.len() as u64,
        Reply::At(addr) => u64::from(*addr),
        Reply::Byte(byte) => u64::from(*byte),
        Reply::Refused(refusal) => u64::from(refusal.number()),
    }
}

pub fn entry(entry: Entry) -> (u32, Command, Reply) {
    let Entry {
        worker,
        command,
        reply,
    } = entry;
    (worker, command, reply)
}

pub fn views(book: &Book, alloc: Global) -> Result<Vec<ClassView>, AllocError> {
    book.views(alloc)
}

pub fn begin(book: &mut Book, src: u32, dst: u32) -> Result<u32, Refusal> {
    let left: u32 = book.begin(src, dst)?;
    Ok(left)
}

pub fn step(book: &mut Book, class: Class) -> Result<(StepKind, u32), Refusal> {
    let StepDone { kind, left } = book.step(class)?;
    Ok((kind, left))
}

pub fn cancel(book: &mut Book, class: Class) -> Result<u32, Refusal> {
    let left: u32 = book.cancel(class)?;
    Ok(left)
}

pub fn running(book: &Book, class: Class) -> bool {
    book.running(class)
}

pub fn sweep(book: &mut Book, group: u32) -> Result<u32, Refusal> {
    let pages: u32 = book.sweep(group)?;
    Ok(pages)
}

pub fn mesh_whole(book: &mut Book, src: u32, dst: u32) -> Result<u32, Refusal> {
    let pages: u32 = book.mesh_whole(src, dst)?;
    Ok(pages)
}

pub fn begin_alone(book: &mut Book, src: u32, dst: u32) -> Result<u32, Refusal> {
    book.begin_alone(src, dst)
}

pub fn whole_alone(book: &mut Book, src: u32, dst: u32) -> Result<u32, Refusal> {
    book.whole_alone(src, dst)
}

pub fn report(book: &Book) -> Report {
    book.report()
}
