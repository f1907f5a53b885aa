//! `mesh_steps`.
ghost use Rattle.std.specs.Prelude.{◌-◌, ◌^◌, ◌<◌, ◌≤◌, length};

use arrayvec::ArrayVec;
use mesh_class::{Class, Refusal};
use mesh_search::{ClassView, StepKind};
use mesh_steps::{Heap, NewFault, Ref, Report, StepDone, Stored};
use std::alloc::{AllocError, Global};

pub fn open(alloc: Global, pages: u32) -> Result<Heap, AllocError>
    requires some { 1 ≤ pages }
    requires most { pages ≤ 4096 }
{
    Heap::open(alloc, pages)
}

pub fn new(heap: &mut Heap, len: u32, word: u64) -> Result<(u32, u32), Option<Refusal>>
    requires { heap.old.next_serial < 2 ^ 32 - 1 }
{
    match heap.new(len, word) {
        Ok(Ref { serial, addr }) => Ok((serial, addr)),
        Err(NewFault::Refused(refusal)) => Err(Some(refusal)),
        Err(NewFault::Memory) => Err(None),
    }
}

pub fn read(heap: &Heap, object: Ref, off: u32, len: u32) -> Result<ArrayVec<u8, 32>, Refusal>
    requires some { 1 ≤ len }
    requires few { len ≤ 32 }
{
    heap.read(object, off, len)
}

pub fn write(heap: &mut Heap, object: Ref, off: u32, bytes: &[u8]) -> Result<bool, Refusal>
    requires some { 1 ≤ length bytes.now }
    requires few { length bytes.now ≤ 32 }
{
    is_done(heap.write(object, off, bytes))
}

fn is_done(stored: Stored) -> Result<bool, Refusal> {
    match stored {
        Stored::Done => Ok(true),
        Stored::Blocked => Ok(false),
        Stored::Refused(refusal) => Err(refusal),
    }
}

pub fn copy(
    heap: &mut Heap,
    to: Ref,
    to_off: u32,
    from: Ref,
    from_off: u32,
    len: u32,
) -> Result<bool, Refusal>
    requires some { 1 ≤ len }
    requires few { len ≤ 32 }
{
    is_done(heap.copy(to, to_off, from, from_off, len))
}

pub fn peek(heap: &Heap, addr: u32) -> Result<u8, Refusal> {
    heap.peek(addr)
}

pub fn poke(heap: &mut Heap, addr: u32, byte: u8) -> Result<bool, Refusal> {
    is_done(heap.poke(addr, byte))
}

pub fn free(heap: &mut Heap, object: Ref) -> Result<(), Refusal> {
    heap.free(object)
}

pub fn views(heap: &Heap, alloc: Global) -> Result<Vec<ClassView>, AllocError> {
    heap.views(alloc)
}

pub fn begin(heap: &mut Heap, src: u32, dst: u32) -> Result<u32, Refusal> {
    let left: u32 = heap.begin(src, dst)?;
    Ok(left)
}

pub fn step(heap: &mut Heap, class: Class) -> Result<(StepKind, u32), Refusal> {
    let StepDone { kind, left } = heap.step(class)?;
    Ok((kind, left))
}

pub fn cancel(heap: &mut Heap, class: Class) -> Result<u32, Refusal> {
    let left: u32 = heap.cancel(class)?;
    Ok(left)
}

pub fn running(heap: &Heap, class: Class) -> bool {
    heap.running(class)
}

pub fn sweep(heap: &mut Heap, group: u32) -> Result<u32, Refusal> {
    let pages: u32 = heap.sweep(group)?;
    Ok(pages)
}

pub fn mesh_whole(heap: &mut Heap, src: u32, dst: u32) -> Result<u32, Refusal> {
    let pages: u32 = heap.mesh_whole(src, dst)?;
    Ok(pages)
}

pub fn begin_alone(heap: &mut Heap, src: u32, dst: u32) -> Result<u32, Refusal> {
    heap.begin_alone(src, dst)
}

pub fn whole_alone(heap: &mut Heap, src: u32, dst: u32) -> Result<u32, Refusal> {
    heap.whole_alone(src, dst)
}

pub fn report(heap: &Heap) -> [u32; 5] {
    let Report {
        objects,
        bytes,
        mapped,
        taken,
        saved,
    } = heap.report();
    [objects, bytes, mapped, taken, saved]
}
