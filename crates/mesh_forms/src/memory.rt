//! `mesh_plain`.
ghost use Rattle.std.specs.Prelude.{◌-◌, ◌^◌, ◌<◌, ◌≤◌};
ghost use Rattle.model_memory.specs.Memory.{next_serial};
ghost use Rattle.model_memory.specs.Plain.{IsVacantRange};

use arrayvec::ArrayVec;
use mesh_plain::{Plain, PlainFault};
use std::alloc::Global;

pub fn new(alloc: Global) -> Plain {
    Plain::new(alloc)
}

pub fn make(plain: &mut Plain, cell: u8, len: u32, addr: u32) -> Result<u32, PlainFault>
    requires some { 1 ≤ len }
    requires most { len ≤ 2048 }
    requires few { next_serial plain.old < 2 ^ 32 - 1 }
    requires vacant { IsVacantRange plain.old addr len }
{
    plain.make(cell, len, addr)
}

pub fn objects(plain: &mut Plain, cell: u8, off: u32, bytes: &[u8]) -> Result<u32, PlainFault> {
    plain.put(cell, off, bytes)?;
    let addr: u32 = plain.addr(cell)?;
    plain.free(cell)?;
    Ok(addr)
}

pub fn get(plain: &Plain, cell: u8, off: u32, len: u32) -> Result<ArrayVec<u8, 32>, PlainFault>
    requires some { 1 ≤ len }
    requires few { len ≤ 32 }
{
    plain.get(cell, off, len)
}

pub fn cells(plain: &mut Plain, to: u8, from: u8) -> Result<(), PlainFault> {
    plain.alias(to, from)
}

pub fn addresses(plain: &mut Plain, addr: u32, byte: u8) -> Result<u8, PlainFault> {
    let was: u8 = plain.peek(addr)?;
    plain.poke(addr, byte)?;
    Ok(was)
}

pub fn copy(
    plain: &mut Plain,
    to: u8,
    to_off: u32,
    from: u8,
    from_off: u32,
    len: u32,
) -> Result<(), PlainFault>
    requires some { 1 ≤ len }
    requires few { len ≤ 32 }
{
    plain.copy(to, to_off, from, from_off, len)
}

pub fn place(fault: PlainFault) -> u32 {
    match fault {
        PlainFault::Empty => 0,
        PlainFault::Freed => 1,
        PlainFault::Outside => 2,
        PlainFault::Stray => 3,
        PlainFault::Memory => 4,
    }
}
