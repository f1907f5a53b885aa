//! Commands and replies as plain values, for the tables of the tests.
ghost use Rattle.std.specs.Prelude.{◌≡◌, ◌≤◌};
ghost use Rattle.model_words.specs.Commands.{IsInRange};

use arrayvec::ArrayVec;
use mesh_mutator::{Command, Reply};
use model_words::{MAX_BYTES, Refusal};
use std::process::Abort;

/// A command.
#[derive(Clone, Copy)]
pub(crate) enum Call {
    // Cell, length in bytes.
    New(u8, u32),
    // Cell, offset, 1 to 32 bytes.
    Put(u8, u32, &'static [u8]),
    // Cell, offset, number of bytes, 1 to 32.
    Get(u8, u32, u32),
    Free(u8),
    Alias(u8, u8),
    // Written cell and offset, read cell and offset, number of bytes, 1 to 32.
    Copy(u8, u32, u8, u32, u32),
    Addr(u8),
    Peek(u32),
    Poke(u32, u8),
}

/// The answer to a command.
#[derive(Clone, Copy)]
pub(crate) enum Answer {
    // The serial and the address of a new object.
    Object(u32, u32),
    Done,
    Bytes(&'static [u8]),
    At(u32),
    Byte(u8),
    Refused(Refusal),
}

/// Calls that make two groups of the class 2,048 with one object each. The cells 1 and 2 name the two objects.
pub(crate) const GROUPS: &[Call] = &[
    Call::New(0, 2048),
    Call::New(1, 2048),
    Call::New(2, 2048),
    Call::New(3, 2048),
    Call::Free(0),
    Call::Free(3),
];

/// Returns the command of a call. Asserts that a load, store or copy has 1 to 32 bytes.
pub(crate) fn command_of(rt: &impl Abort, call: Call) -> Command
    ensures { IsInRange result }
{
    match call {
        Call::New(cell, len) => Command::New(cell, len, 0),
        Call::Put(cell, off, bytes) => put(rt, cell, off, bytes),
        Call::Get(cell, off, len) => Command::Get(cell, off, checked(rt, len)),
        Call::Free(cell) => Command::Free(cell),
        Call::Alias(to, from) => Command::Alias(to, from),
        Call::Copy(to, to_off, from, from_off, len) => {
            Command::Copy(to, to_off, from, from_off, checked(rt, len))
        },
        Call::Addr(cell) => Command::Addr(cell),
        Call::Peek(addr) => Command::Peek(addr),
        Call::Poke(addr, byte) => Command::Poke(addr, byte),
    }
}

/// Returns the number of bytes that a command loads or copies. Asserts that the number is 1 to 32.
fn checked(rt: &impl Abort, len: u32) -> u32
    ensures same { result ≡ len }
    ensures some { 1 ≤ result }
    ensures most { result ≤ 32 }
{
    assert!(rt; 1 <= len && len <= 32, "{len} bytes");
    len
}

/// Returns a store of these bytes. Asserts that there are 1 to 32 bytes.
fn put(rt: &impl Abort, cell: u8, off: u32, bytes: &[u8]) -> Command
    ensures { IsInRange result }
{
    assert!(rt;
        !bytes.is_empty() && bytes.len() <= MAX_BYTES,
        "a store of {} bytes",
        bytes.len()
    );
    Command::Put(cell, off, bytes_of(rt, bytes))
}

/// Returns the reply of an answer.
pub(crate) fn reply_of(rt: &impl Abort, answer: Answer) -> Reply {
    match answer {
        Answer::Object(serial, addr) => Reply::Object(serial, addr),
        Answer::Done => Reply::Done,
        Answer::Bytes(bytes) => Reply::Bytes(bytes_of(rt, bytes)),
        Answer::At(addr) => Reply::At(addr),
        Answer::Byte(byte) => Reply::Byte(byte),
        Answer::Refused(refusal) => Reply::Refused(refusal),
    }
}

/// Returns bytes in the type of the bytes of commands and replies. Asserts that there are at most 32.
fn bytes_of(rt: &impl Abort, bytes: &[u8]) -> ArrayVec<u8, MAX_BYTES>
    ensures { result.items ≡ bytes.now }
{
    let mut kept = ArrayVec::new();
    let extended = kept.try_extend_from_slice(bytes);
    assert!(rt; extended.is_ok(), "more than 32 bytes");
    kept
}
