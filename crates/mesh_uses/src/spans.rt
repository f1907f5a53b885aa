//! Two groups are meshed at once, and their objects are read back at their old addresses.
use crate::faults::UseError;
use crate::objects::{Objects, two_groups};
use mesh::{Heap, Ref};

/// Makes two groups, stores into their objects, meshes the groups and reads the objects back. Returns the number of
/// pages that became free.
pub(crate) fn mesh_two_spans(heap: &mut Heap) -> Result<usize, UseError> {
    let Objects { high, low } = two_groups(heap)?;
    let _ = heap.write(high, 0, b"high".as_slice());
    let _ = heap.write(low, 0, b"low!".as_slice());
    let pages = heap.mesh_whole(1, 0)?;
    if reads(heap, high, b"high".as_slice())? && reads(heap, low, b"low!".as_slice())? {
        Ok(pages as usize)
    } else {
        Err(UseError::Answer("other bytes than were stored"))
    }
}

/// Whether an object begins with these four bytes.
fn reads(heap: &Heap, object: Ref, bytes: &[u8]) -> Result<bool, UseError> {
    let read = heap.read(object, 0, 4)?;
    Ok(read.as_slice() == bytes)
}
