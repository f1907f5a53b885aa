//! How far a running mesh is.
ghost use Rattle.std.specs.Prelude.{◌≡◌, ◌<◌, slice_get};
ghost use Rattle.model_words.specs.Classes.{slots_of};
ghost use Rattle.otherwise_frames.specs.Copies.{copied_slots, differs, is_at_slot, is_uncopied, mesh_row, misses, place_in};

use crate::rows::slot_address;
use draw_picture::{MeshProgress, RunningMesh};
use explore_otherwise::{Stage, Stages};
use explore_pages::{Heap, Mesh, byte_at};
use mesh_plain::Plain;
use model_otherwise::Spot;

/// The number of bytes of a page.
const PAGE_BYTES: u32 = 4096;

/// Returns the running mesh of a mesher, if its mesh runs.
pub(crate) fn mesh_row(
    memory: &Plain,
    heap: &Heap,
    stages: &Stages,
    mesher: usize,
) -> Option<RunningMesh>
    ensures { result ≡ mesh_row memory.now heap.now.spots (slice_get stages.now mesher) }
{
    match stages.of(mesher) {
        Some(Stage::Running(mesh)) => {
            let copied = copied_slots(memory, heap.spots.as_slice(), mesh);
            Some(RunningMesh {
                class: mesh.class,
                source: mesh.source,
                destination: mesh.destination,
                progress: MeshProgress::Moves(mesh.made, copied),
            })
        }
        _ => None,
    }
}

/// Returns the number of slots, from the first one on, whose objects have their bytes on the destination's pages.
fn copied_slots(memory: &Plain, spots: &[Spot], mesh: &Mesh) -> u32
    ensures { result ≡ copied_slots memory.now spots.now mesh.now }
{
    for slot in 0..mesh.class.slots() {
        if is_uncopied(memory, spots, mesh, slot) {
            return slot;
        }
    }
    mesh.class.slots()
}

/// Whether an object in a slot of the source hasn't its bytes on the destination's pages.
fn is_uncopied(memory: &Plain, spots: &[Spot], mesh: &Mesh, slot: u32) -> bool
    requires few { slot < slots_of mesh.now.class }
    ensures { result ≡ is_uncopied memory.now spots.now mesh.now slot }
{
    for serial in 0..memory.next_serial() {
        if misses(memory, spots, mesh, slot, serial) {
            return true;
        }
    }
    false
}

/// Whether the object of a serial is in this slot of the source, and hasn't its bytes on the destination's pages.
fn misses(memory: &Plain, spots: &[Spot], mesh: &Mesh, slot: u32, serial: u32) -> bool
    requires few { slot < slots_of mesh.now.class }
    ensures { result ≡ misses memory.now spots.now mesh.now slot serial }
{
    match memory.live(serial) {
        Some((address, bytes)) => {
            is_in_slot(mesh, address, slot) && differs(spots, mesh, slot * mesh.class.size(), bytes)
        }
        None => false,
    }
}

/// Whether an address is that of a slot of one of the source's members.
fn is_in_slot(mesh: &Mesh, address: u32, slot: u32) -> bool
    requires few { slot < slots_of mesh.now.class }
    ensures { result ≡ is_at_slot mesh.now address slot }
{
    mesh.members.as_slice().iter().any(|member| address == slot_address(mesh.class, *member, slot))
}

/// Whether the bytes from an offset of the destination's span on aren't these.
fn differs(spots: &[Spot], mesh: &Mesh, offset: u32, bytes: &[u8]) -> bool
    requires few { offset < 12288 }
    ensures { result ≡ differs spots.now mesh.now offset bytes.now }
{
    for k in 0..bytes.len() {
        if byte_at(spots, place_in(mesh, offset as usize + k)) != bytes[k] {
            return true;
        }
    }
    false
}

/// Returns the place of an offset of the destination's span.
fn place_in(mesh: &Mesh, offset: usize) -> u32
    ensures { result ≡ place_in mesh.now offset }
{
    let page = match mesh.into.get(offset / PAGE_BYTES as usize) {
        Some(page) => *page,
        None => 0,
    };
    PAGE_BYTES * u32::from(page) + (offset % PAGE_BYTES as usize) as u32
}
