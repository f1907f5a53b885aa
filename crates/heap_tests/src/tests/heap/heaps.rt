//! A heap that gets calls, each of which names an object by its serial.
ghost use Rattle.std.specs.Prelude.{◌≤◌};

use crate::tests::heap::calls::{
    BLOCKED, Call, DONE, NO_MEMORY, Told, UNMADE, freed, left, loaded, made, mesher_answer, number,
    refused, reported, running, stepped,
};
use arrayvec::ArrayVec;
use mesh_class::{Class, class_of};
use mesh_steps::{Heap, NewFault, Ref, Stored};
use model_words::MAX_BYTES;
use std::alloc::{AllocError, Global};
use std::process::Abort;

/// Asserts that a load or a copy of `len` bytes is allowed: 1 to 32.
pub(crate) fn check_length(rt: &impl Abort, len: u32)
    ensures some { 1 ≤ len }
    ensures most { len ≤ 32 }
{
    assert!(rt; 1 <= len && len <= 32, "{len} bytes");
}

/// The greatest number of objects that a test makes.
pub(crate) const MAX_OBJECTS: usize = 32;

/// A heap, and the address of each of its objects by the object's serial.
#[derive(Drop)]
pub(crate) struct TriedHeap {
    heap: Heap,
    addresses: ArrayVec<u32, MAX_OBJECTS>,
}

impl TriedHeap {
    /// Returns a heap without objects.
    pub(crate) fn open(alloc: Global, pages: u32) -> Result<TriedHeap, AllocError>
        requires some { 1 ≤ pages }
        requires most { pages ≤ 4096 }
    {
        Ok(TriedHeap {
            heap: Heap::open(alloc, pages)?,
            addresses: ArrayVec::new(),
        })
    }

    /// Makes a call, and returns its answer.
    pub(crate) fn answer(&mut self, rt: &impl Abort, call: Call) -> Told {
        match call {
            Call::New(len, word) => self.make(len, word),
            Call::Read(serial, off, len) => {
                read(
                    rt,
                    &self.heap,
                    object(rt, &self.addresses, serial),
                    off,
                    len,
                )
            },
            Call::Write(serial, off, bytes) => {
                write(
                    rt,
                    &mut self.heap,
                    object(rt, &self.addresses, serial),
                    off,
                    bytes,
                )
            },
            Call::Copy(to, to_off, from, from_off, len) => {
                check_length(rt, len);
                let target = object(rt, &self.addresses, to);
                let source = object(rt, &self.addresses, from);
                told(self.heap.copy(target, to_off, source, from_off, len))
            },
            Call::Poke(addr, byte) => told(self.heap.poke(addr, byte)),
            Call::Peek(addr) => peek(&self.heap, addr),
            Call::Free(serial) => free(&mut self.heap, object(rt, &self.addresses, serial)),
            _ => meshed(rt, &mut self.heap, call),
        }
    }

    /// Makes an object.
    fn make(&mut self, len: u32, word: u64) -> Told {
        if self.heap.is_full() || self.addresses.is_full() {
            return UNMADE;
        }
        match self.heap.new(len, word) {
            Ok(object) => {
                self.addresses.push(object.addr);
                made(object.serial, object.addr)
            },
            Err(NewFault::Refused(refusal)) => refused(refusal),
            Err(NewFault::Memory) => NO_MEMORY,
        }
    }
}

/// Returns the reference to the object with a serial. `addresses` has the address of each object.
fn object(rt: &impl Abort, addresses: &ArrayVec<u32, MAX_OBJECTS>, serial: u32) -> Ref {
    let addr = addresses.get(serial as usize).expect(rt, "an object");
    Ref {
        serial,
        addr: *addr,
    }
}

/// Reads `len` bytes from an offset of an object. Asserts that `len` is 1 to 32.
fn read(rt: &impl Abort, heap: &Heap, object: Ref, off: u32, len: u32) -> Told {
    check_length(rt, len);
    match heap.read(object, off, len) {
        Ok(bytes) => loaded(bytes.len(), number(bytes.as_slice())),
        Err(refusal) => refused(refusal),
    }
}

/// Writes bytes from an offset of an object. Asserts that there are 1 to 32 bytes.
fn write(rt: &impl Abort, heap: &mut Heap, object: Ref, off: u32, bytes: &[u8]) -> Told {
    assert!(rt;
        !bytes.is_empty() && bytes.len() <= MAX_BYTES,
        "a write of too few or too many"
    );
    told(heap.write(object, off, bytes))
}

/// Loads the byte at an address.
fn peek(heap: &Heap, addr: u32) -> Told {
    match heap.peek(addr) {
        Ok(byte) => loaded(1, byte as u64),
        Err(refusal) => refused(refusal),
    }
}

/// Frees an object.
fn free(heap: &mut Heap, object: Ref) -> Told {
    match heap.free(object) {
        Ok(()) => DONE,
        Err(refusal) => refused(refusal),
    }
}

/// Returns a store's result in the form that is compared.
fn told(stored: Stored) -> Told {
    match stored {
        Stored::Done => DONE,
        Stored::Blocked => BLOCKED,
        Stored::Refused(refusal) => refused(refusal),
    }
}

/// Makes a mesher's call, and returns its answer.
fn meshed(rt: &impl Abort, heap: &mut Heap, call: Call) -> Told {
    mesher_answer!(rt, heap, call)
}

/// Returns the class with this slot size in bytes. Asserts that there is one.
pub(crate) fn class_at(rt: &impl Abort, size: u32) -> Class {
    class_of(size).expect(rt, "a class")
}
