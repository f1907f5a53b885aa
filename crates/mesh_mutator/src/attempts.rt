//! What each command does to heap and roots, and its answer.
ghost use Rattle.std.specs.Prelude.{◌≡◌, ◌+◌, ◌-◌, ◌^◌, ◌<◌, ◌≤◌, Err, length, IfOk, IfErr};
ghost use Rattle.model_words.specs.Commands.{IsInRange};
ghost use Rattle.model_memory.specs.Plain.{named_by};
ghost use Rattle.mesh_mutator.specs.Book.{AreRooted, IsLooked, IsNamedBy, IsPerformed, attempt_of, memory_in};

use crate::roots::Roots;
use crate::{Command, Refusal, Reply};
use mesh_steps::{Heap, NewFault, Ref, Stored};

/// The result of an attempt at a command.
#[derive(Debug, Drop, PartialEq, Eq)]
pub enum Attempt {
    /// The command was answered, and its answer is in the journal.
    Done(Reply),
    /// The command would write to a read-only page. Nothing changed.
    Blocked,
    /// The journal has no room for a further entry. Nothing changed.
    HistoryFull,
    /// An allocation for a new span failed. Nothing changed.
    OutOfMemory,
}

/// Makes one attempt at a command, on heap and roots. Never returns `HistoryFull`.
pub fn perform(heap: &mut Heap, roots: &mut Roots, command: &Command) -> Attempt
    requires range { IsInRange command.now }
    requires serials { heap.old.next_serial < 2 ^ 32 - 1 }
    requires cells { length roots.old ≡ 256 }
    requires rooted { AreRooted heap.old roots.old }
    ensures performed { IsPerformed heap.old heap.new roots.old roots.new command.now result }
    ensures rooted { AreRooted heap.new roots.new }
    ensures cells { length roots.new ≡ 256 }
    ensures serials { heap.new.next_serial ≤ heap.old.next_serial + 1 }
{
    match command {
        Command::New(cell, len, word) => make(heap, roots, *cell, *len, *word),
        Command::Put(cell, off, bytes) => put(heap, roots, *cell, *off, bytes.as_slice()),
        Command::Get(cell, off, len) => Attempt::Done(get(heap, roots, *cell, *off, *len)),
        Command::Free(cell) => Attempt::Done(free(heap, roots, *cell)),
        Command::Alias(to, from) => Attempt::Done(alias(heap, roots, *to, *from)),
        Command::Addr(cell) => Attempt::Done(address(heap, roots, *cell)),
        Command::Peek(addr) => Attempt::Done(peek(heap, roots, *addr)),
        Command::Poke(addr, byte) => poke(heap, roots, *addr, *byte),
        Command::Copy(to, to_off, from, from_off, len) => {
            copy(heap, roots, *to, *to_off, *from, *from_off, *len)
        }
    }
}

/// Makes an object, and stores its reference in a cell. If no object is made, the cell is unchanged.
fn make(heap: &mut Heap, roots: &mut Roots, cell: u8, len: u32, word: u64) -> Attempt
    requires serials { heap.old.next_serial < 2 ^ 32 - 1 }
    requires cells { length roots.old ≡ 256 }
    requires rooted { AreRooted heap.old roots.old }
    ensures performed { IsPerformed heap.old heap.new roots.old roots.new (Command.New cell len word) result }
    ensures rooted { AreRooted heap.new roots.new }
    ensures cells { length roots.new ≡ 256 }
    ensures serials { heap.new.next_serial ≤ heap.old.next_serial + 1 }
{
    match heap.new(len, word) {
        Ok(object) => {
            roots.set(cell, object);
            Attempt::Done(Reply::Object(object.serial, object.addr))
        }
        Err(NewFault::Refused(refusal)) => Attempt::Done(Reply::Refused(refusal)),
        Err(NewFault::Memory) => Attempt::OutOfMemory,
    }
}

/// Stores bytes in the object that a cell names.
fn put(heap: &mut Heap, roots: &Roots, cell: u8, off: u32, bytes: &[u8]) -> Attempt
    requires some { 1 ≤ length bytes.now }
    requires few { length bytes.now ≤ 32 }
    requires rooted { AreRooted heap.old roots.now }
    ensures performed { IsPerformed heap.old heap.new roots.now roots.now
        (Command.Put cell off (record { items = bytes.now })) result }
    ensures rooted { AreRooted heap.new roots.now }
    ensures serial { heap.new.next_serial ≡ heap.old.next_serial }
{
    match roots.get(cell) {
        Some(object) => stored(heap.write(object, off, bytes)),
        None => Attempt::Done(Reply::Refused(Refusal::Empty)),
    }
}

/// Copies bytes from the object that the cell `from` names to the object that the cell `to` names.
fn copy(
    heap: &mut Heap,
    roots: &Roots,
    to: u8,
    to_off: u32,
    from: u8,
    from_off: u32,
    len: u32,
) -> Attempt
    requires some { 1 ≤ len }
    requires few { len ≤ 32 }
    requires rooted { AreRooted heap.old roots.now }
    ensures performed { IsPerformed heap.old heap.new roots.now roots.now
        (Command.Copy to to_off from from_off len) result }
    ensures rooted { AreRooted heap.new roots.now }
    ensures serial { heap.new.next_serial ≡ heap.old.next_serial }
{
    let Some(target) = roots.get(to) else {
        return Attempt::Done(Reply::Refused(Refusal::Empty));
    };
    let Some(source) = roots.get(from) else {
        return Attempt::Done(Reply::Refused(Refusal::Empty));
    };
    stored(heap.copy(target, to_off, source, from_off, len))
}

/// Stores a byte at an address.
fn poke(heap: &mut Heap, roots: &Roots, addr: u32, byte: u8) -> Attempt
    requires { AreRooted heap.old roots.now }
    ensures performed { IsPerformed heap.old heap.new roots.now roots.now (Command.Poke addr byte) result }
    ensures rooted { AreRooted heap.new roots.now }
    ensures serial { heap.new.next_serial ≡ heap.old.next_serial }
{
    stored(heap.poke(addr, byte))
}

/// Returns the attempt for the answer to a store.
fn stored(stored: Stored) -> Attempt
    ensures { result ≡ attempt_of stored }
{
    match stored {
        Stored::Done => Attempt::Done(Reply::Done),
        Stored::Blocked => Attempt::Blocked,
        Stored::Refused(refusal) => Attempt::Done(Reply::Refused(refusal)),
    }
}

/// Loads bytes from the object that a cell names.
pub fn get(heap: &Heap, roots: &Roots, cell: u8, off: u32, len: u32) -> Reply
    requires some { 1 ≤ len }
    requires few { len ≤ 32 }
    requires rooted { AreRooted heap.now roots.now }
    ensures { IsLooked heap.now roots.now (Command.Get cell off len) result }
{
    match roots.get(cell) {
        Some(object) => match heap.read(object, off, len) {
            Ok(bytes) => Reply::Bytes(bytes),
            Err(refusal) => Reply::Refused(refusal),
        },
        None => Reply::Refused(Refusal::Empty),
    }
}

/// Frees the object that a cell names. The cell keeps its reference.
fn free(heap: &mut Heap, roots: &Roots, cell: u8) -> Reply
    requires { AreRooted heap.old roots.now }
    ensures performed { IsPerformed heap.old heap.new roots.now roots.now (Command.Free cell) (Attempt.Done result) }
    ensures rooted { AreRooted heap.new roots.now }
    ensures serial { heap.new.next_serial ≡ heap.old.next_serial }
{
    match roots.get(cell) {
        Some(object) => match heap.free(object) {
            Ok(()) => Reply::Done,
            Err(refusal) => Reply::Refused(refusal),
        },
        None => Reply::Refused(Refusal::Empty),
    }
}

/// If the cell `from` names a live object, stores the reference to this object in the cell `to`.
fn alias(heap: &Heap, roots: &mut Roots, to: u8, from: u8) -> Reply
    requires cells { length roots.old ≡ 256 }
    requires rooted { AreRooted heap.now roots.old }
    ensures performed { IsPerformed heap.now heap.now roots.old roots.new (Command.Alias to from)
        (Attempt.Done result) }
    ensures rooted { AreRooted heap.now roots.new }
    ensures cells { length roots.new ≡ 256 }
{
    match live(heap, roots, from) {
        Ok(object) => {
            roots.set(to, object);
            Reply::Done
        }
        Err(refusal) => Reply::Refused(refusal),
    }
}

/// The address of the object that a cell names.
pub fn address(heap: &Heap, roots: &Roots, cell: u8) -> Reply
    requires { AreRooted heap.now roots.now }
    ensures { IsLooked heap.now roots.now (Command.Addr cell) result }
{
    match live(heap, roots, cell) {
        Ok(object) => Reply::At(object.addr),
        Err(refusal) => Reply::Refused(refusal),
    }
}

/// The byte at an address.
pub fn peek(heap: &Heap, roots: &Roots, addr: u32) -> Reply
    ensures { IsLooked heap.now roots.now (Command.Peek addr) result }
{
    match heap.peek(addr) {
        Ok(byte) => Reply::Byte(byte),
        Err(refusal) => Reply::Refused(refusal),
    }
}

/// Returns the reference to the live object that a cell names. The error is EMPTY if the cell has no reference, and
/// FREED if the referenced object isn't live.
fn live(heap: &Heap, roots: &Roots, cell: u8) -> Result<Ref, Refusal>
    requires { AreRooted heap.now roots.now }
    ensures named { IfOk result (IsNamedBy heap.now roots.now cell) }
    ensures refused { IfErr result (λ refusal. named_by (memory_in heap.now roots.now) cell ≡ Err refusal) }
{
    let Some(object) = roots.get(cell) else {
        return Err(Refusal::Empty);
    };
    if heap.is_live(object) {
        Ok(object)
    } else {
        Err(Refusal::Freed)
    }
}
