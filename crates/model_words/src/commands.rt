//! The nine commands of mutators, their replies, and the kinds of step of a mesh.
ghost use Rattle.std.specs.Prelude.{◌≡◌};

use crate::Refusal;
use arrayvec::ArrayVec;
use std::alloc::AllocError;

/// The greatest number of bytes that one command stores or loads.
pub const MAX_BYTES: usize = 32;

/// A mutator's request to the heap. A cell is one of the 256 root cells, which all workers share.
///
/// An offset counts bytes from the object's start. `Put`, `Get` and `Copy` store, load or copy 1 to 32 bytes.
#[derive(Debug, Drop, PartialEq, Eq)]
pub enum Command {
    /// `New(cell, len, word)`: make an object of `len` zero bytes, and store its reference in `cell`. The word selects
    /// the slot.
    New(u8, u32, u64),
    /// `Put(cell, off, bytes)`: store the bytes at offset `off` of the object that `cell` names.
    Put(u8, u32, ArrayVec<u8, MAX_BYTES>),
    /// `Get(cell, off, len)`: load `len` bytes from offset `off` of the object that `cell` names.
    Get(u8, u32, u32),
    /// `Free(cell)`: free the object that `cell` names. The cell keeps its reference, which is stale afterwards.
    Free(u8),
    /// `Alias(to, from)`: store in `to` the reference that `from` holds.
    Alias(u8, u8),
    /// `Addr(cell)`: return the address of the object that `cell` names.
    Addr(u8),
    /// `Peek(addr)`: load the byte at address `addr`.
    Peek(u32),
    /// `Poke(addr, byte)`: store `byte` at address `addr`.
    Poke(u32, u8),
    /// `Copy(to, to_off, from, from_off, len)`: copy `len` bytes from offset `from_off` of the object that `from` names
    /// to offset `to_off` of the object that `to` names. The two ranges may overlap: all bytes are read before any is
    /// written.
    Copy(u8, u32, u8, u32, u32),
}

impl Command {
    /// Returns a copy of the command. It allocates nothing.
    pub fn copied(&self) -> Command
        ensures { result ≡ self.now }
    {
        match self {
            Command::New(cell, len, word) => Command::New(*cell, *len, *word),
            Command::Put(cell, off, bytes) => Command::Put(*cell, *off, copied_bytes(bytes)),
            Command::Get(cell, off, len) => Command::Get(*cell, *off, *len),
            Command::Free(cell) => Command::Free(*cell),
            Command::Alias(to, from) => Command::Alias(*to, *from),
            Command::Addr(cell) => Command::Addr(*cell),
            Command::Peek(addr) => Command::Peek(*addr),
            Command::Poke(addr, byte) => Command::Poke(*addr, *byte),
            Command::Copy(to, to_off, from, from_off, len) => {
                Command::Copy(*to, *to_off, *from, *from_off, *len)
            }
        }
    }
}

impl Clone for Command {
    ghost is_clone = { λ command copy. copy ≡ command };

    ghost is_infallible = { λ command. Unit {0} };

    /// Returns a copy of the command. It allocates nothing.
    fn clone(&self) -> Result<Command, AllocError> {
        Ok(self.copied())
    }
}

/// The answer to a mutator's command.
#[derive(Debug, Drop, PartialEq, Eq)]
pub enum Reply {
    /// `Object(serial, addr)`: the object was made.
    Object(u32, u32),
    /// The command was done and has no other answer.
    Done,
    /// The bytes that were loaded.
    Bytes(ArrayVec<u8, MAX_BYTES>),
    /// The address of the object.
    At(u32),
    /// The byte at the address.
    Byte(u8),
    /// The command was refused and changed nothing.
    Refused(Refusal),
}

impl Reply {
    /// Returns a copy of the reply. It allocates nothing.
    pub fn copied(&self) -> Reply
        ensures { result ≡ self.now }
    {
        match self {
            Reply::Object(serial, addr) => Reply::Object(*serial, *addr),
            Reply::Done => Reply::Done,
            Reply::Bytes(bytes) => Reply::Bytes(copied_bytes(bytes)),
            Reply::At(addr) => Reply::At(*addr),
            Reply::Byte(byte) => Reply::Byte(*byte),
            Reply::Refused(refusal) => Reply::Refused(*refusal),
        }
    }
}

impl Clone for Reply {
    ghost is_clone = { λ reply copy. copy ≡ reply };

    ghost is_infallible = { λ reply. Unit {0} };

    /// Returns a copy of the reply. It allocates nothing.
    fn clone(&self) -> Result<Reply, AllocError> {
        Ok(self.copied())
    }
}

/// Returns a copy of the bytes. It allocates nothing.
fn copied_bytes(bytes: &ArrayVec<u8, MAX_BYTES>) -> ArrayVec<u8, MAX_BYTES>
    ensures { result ≡ bytes.now }
{
    let mut copy = ArrayVec::new();
    copy.try_extend_from_slice(bytes.as_slice()).unwrap();
    copy
}

/// The kinds of step of a running mesh, in the order in which the steps are made. The order is this project's own
/// choice.
#[derive(Clone, Copy, Debug, PartialEq, Eq)]
pub enum StepKind {
    /// One virtual page of the source becomes read-only.
    Protect,
    /// The object in one slot of the source, if there is one, is copied to the destination's physical pages.
    Copy,
    /// One virtual page of the source is mapped to the destination's physical page of the same index.
    Remap,
    /// One virtual page of the source becomes writable.
    Unprotect,
    /// One physical page of the source is returned to the arena.
    Release,
}
