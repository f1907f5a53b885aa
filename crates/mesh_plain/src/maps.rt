//! Functions on the two maps of a memory: objects by serial, and serials by root cell.
ghost use Rattle.std.specs.Prelude.{◌≡◌, ◌≢◌, ◌+◌, Some, None, [], OnOk, OnErr, slice_range};
ghost use Rattle.std.specs.Ordering.{nat_cmp};
ghost use Rattle.std.specs.BTreeMap.{IsOrdered, Updates, get};
ghost use Rattle.model_memory.specs.Memory.{Object, has_address, overwritten};
ghost use Rattle.mesh_plain.specs.Maps.{HasRange, IsCopied, IsHolder, IsOverwritten, IsSameAt, IsSetAt, first_holder};

use crate::bytes::{copy_within, store_at};
use crate::faults::PlainFault;
use crate::stored::Stored;
use std::alloc::{AllocError, Global};
use std::collections::BTreeMap;
use std::mem;

/// Adds an object and stores its serial in a cell. The only error is an allocation failure, after which nothing has
/// changed.
pub fn add(
    objects: &mut BTreeMap<u32, Stored>,
    roots: &mut BTreeMap<u8, u32>,
    cell: u8,
    serial: u32,
    object: Stored,
) -> Result<(), AllocError>
    requires new { get nat_cmp objects.old serial ≡ None }
    ensures objects { OnOk result (Updates nat_cmp objects.old objects.new serial (Some object)) }
    ensures roots { OnOk result (Updates nat_cmp roots.old roots.new cell (Some serial)) }
    ensures same_objects { OnErr result (IsSameAt (get nat_cmp objects.old) (get nat_cmp objects.new)) }
    ensures same_roots { OnErr result (IsSameAt (get nat_cmp roots.old) (get nat_cmp roots.new)) }
{
    if objects.insert(serial, object).is_err() {
        return Err(AllocError);
    }
    if roots.insert(cell, serial).is_err() {
        objects.remove(&serial);
        return Err(AllocError);
    }
    Ok(())
}

/// Stores a serial in a cell. The only error is an allocation failure, after which nothing has changed.
pub fn point(roots: &mut BTreeMap<u8, u32>, cell: u8, serial: u32) -> Result<(), AllocError>
    ensures done { OnOk result (Updates nat_cmp roots.old roots.new cell (Some serial)) }
    ensures same { OnErr result (IsSameAt (get nat_cmp roots.old) (get nat_cmp roots.new)) }
{
    match roots.insert(cell, serial) {
        Ok(_) => Ok(()),
        Err(_) => Err(AllocError),
    }
}

/// The least serial whose object has the address, or `None` if no object has it.
pub fn holder(objects: &BTreeMap<u32, Stored>, address: u32) -> Option<u32>
    ensures { IsHolder (get nat_cmp objects.now) address result }
{
    first_reaching(objects, address)
}

/// Returns the first serial in the map's order whose object has the address, or `None` if no object has it.
fn first_reaching(objects: &BTreeMap<u32, Stored>, address: u32) -> Option<u32>
    ensures first { result ≡ first_holder objects.now.entries address }
    ensures ordered { IsOrdered nat_cmp objects.now }
{
    for (serial, object) in objects.iter() {
        if reaches(object, address) {
            return Some(*serial);
        }
    }
    None
}

/// Whether the address is in the object's range.
fn reaches(object: &Stored, address: u32) -> bool
    ensures { result ≡ has_address object.now address }
{
    object.address <= address && ((address - object.address) as usize) < object.bytes.len()
}

/// Stores bytes in the live object of a serial, from offset `off` on. The error is the first that applies, in this
/// order: `Freed`, `Outside`.
pub fn overwrite(
    objects: &mut BTreeMap<u32, Stored>,
    serial: u32,
    off: u32,
    bytes: &[u8],
) -> Result<(), PlainFault>
    ensures { IsOverwritten (get nat_cmp objects.old) (get nat_cmp objects.new) serial off bytes.now result }
{
    let Some(object) = objects.get_mut(&serial) else {
        return Err(PlainFault::Freed);
    };
    let start = off as usize;
    if object.bytes.len() < start + bytes.len() {
        return Err(PlainFault::Outside);
    }
    store_at(&mut object.bytes, start, bytes);
    Ok(())
}

/// Copies `len` bytes from one live object to another, or within one object. `to` and `from` are each a serial and an
/// offset. The error is the first that applies, in this order: `Freed`, `Outside`.
pub fn copy(
    alloc: Global,
    objects: &mut BTreeMap<u32, Stored>,
    to: (u32, u32),
    from: (u32, u32),
    len: u32,
) -> Result<(), PlainFault>
    ensures { IsCopied (get nat_cmp objects.old) (get nat_cmp objects.new) to.0 to.1 from.0 from.1 len result }
{
    let (Some(target), Some(source)) = (objects.get(&to.0), objects.get(&from.0)) else {
        return Err(PlainFault::Freed);
    };
    let (to_start, from_start, count) = (to.1 as usize, from.1 as usize, len as usize);
    if target.bytes.len() < to_start + count || source.bytes.len() < from_start + count {
        return Err(PlainFault::Outside);
    }
    if to.0 == from.0 {
        copy_in_one(objects, to.0, to_start, from_start, count);
    } else {
        copy_between(alloc, objects, to.0, to_start, from.0, from_start, count);
    }
    Ok(())
}

/// Copies a range of bytes within one object.
fn copy_in_one(objects: &mut BTreeMap<u32, Stored>, serial: u32, to: usize, from: usize, len: usize)
    requires { HasRange (get nat_cmp objects.old serial) to len × HasRange (get nat_cmp objects.old serial) from len }
    ensures { (x : Object) → get nat_cmp objects.old serial ≡ Some x
        → IsSetAt (get nat_cmp objects.old) (get nat_cmp objects.new) serial
        (Some (record x { bytes = overwritten x.bytes to (slice_range x.bytes from (from + len)) })) }
{
    if let Some(object) = objects.get_mut(&serial) {
        copy_within(&mut object.bytes, to, from, len);
    }
}

/// Removes the bytes from an object and returns them.
fn take_bytes(alloc: Global, objects: &mut BTreeMap<u32, Stored>, serial: u32) -> Vec<u8>
    ensures { (x : Object) → get nat_cmp objects.old serial ≡ Some x
        → (result.items ≡ x.bytes)
        × IsSetAt (get nat_cmp objects.old) (get nat_cmp objects.new) serial (Some (record x { bytes = [] })) }
{
    match objects.get_mut(&serial) {
        Some(object) => mem::replace(&mut object.bytes, Vec::new(alloc)),
        None => Vec::new(alloc),
    }
}

/// Sets the bytes of an object.
fn give_bytes(objects: &mut BTreeMap<u32, Stored>, serial: u32, bytes: Vec<u8>)
    ensures { (x : Object) → get nat_cmp objects.old serial ≡ Some x
        → IsSetAt (get nat_cmp objects.old) (get nat_cmp objects.new) serial (Some (record x { bytes = bytes.items })) }
{
    if let Some(object) = objects.get_mut(&serial) {
        object.bytes = bytes;
    }
}

/// Copies a range of an object's bytes into another object.
fn copy_between(
    alloc: Global,
    objects: &mut BTreeMap<u32, Stored>,
    to: u32,
    to_start: usize,
    from: u32,
    from_start: usize,
    len: usize,
)
    requires other { to ≢ from }
    requires target { HasRange (get nat_cmp objects.old to) to_start len }
    requires source { HasRange (get nat_cmp objects.old from) from_start len }
    ensures { (x y : Object) → get nat_cmp objects.old to ≡ Some x → get nat_cmp objects.old from ≡ Some y
        → IsSetAt (get nat_cmp objects.old) (get nat_cmp objects.new) to
        (Some (record x { bytes = overwritten x.bytes to_start (slice_range y.bytes from_start (from_start + len)) })) }
{
    let mut bytes = take_bytes(alloc, objects, to);
    if let Some(source) = objects.get(&from) {
        store_at(
            &mut bytes,
            to_start,
            &source.bytes[from_start..from_start + len],
        );
    }
    give_bytes(objects, to, bytes);
}
