//! A book, whose journal is a legal history of a reference memory of separate objects.
ghost use Rattle.model_words.specs.Commands.{IsInRange};

use crate::faults::UseError;
use arrayvec::ArrayVec;
use mesh::{Attempt, Book, Command};

/// Performs commands of two workers with a mesh between them, and returns how many entries the journal has.
pub(crate) fn keep_a_journal(book: &mut Book) -> Result<usize, UseError> {
    let mut bytes = ArrayVec::new();
    bytes.push(b'h');
    bytes.push(b'i');
    act(book, 0, &Command::New(0, 2048, 0))?;
    act(book, 0, &Command::New(1, 2048, 0))?;
    act(book, 1, &Command::New(2, 2048, 0))?;
    act(book, 0, &Command::Free(0))?;
    act(book, 1, &Command::Put(2, 0, bytes))?;
    let _ = book.mesh_whole(1, 0)?;
    act(book, 1, &Command::Get(2, 0, 2))?;
    act(book, 1, &Command::Addr(2))?;
    act(book, 0, &Command::Get(0, 0, 1))?;
    Ok(book.journal().len())
}

/// Performs a command of a worker. The error is Memory if an allocation fails, and Answer if the command is blocked or
/// the journal is full.
fn act(book: &mut Book, worker: u32, command: &Command) -> Result<(), UseError>
    requires { IsInRange command.now }
{
    match book.act(worker, command) {
        Attempt::Done(_) => Ok(()),
        Attempt::OutOfMemory => Err(UseError::Memory),
        _ => Err(UseError::Answer("a command that isn't done")),
    }
}
