//! A mesh step by step, with a store between the steps.
use crate::faults::UseError;
use crate::objects::{is_done, two_groups};
use mesh::{Heap, class_of};

/// Meshes two groups, and before each step tries to store into the object that the mesh moves. Returns the number of
/// blocked stores: those between the step that makes the object's page read-only and the step that makes the page
/// writable again.
pub(crate) fn store_between_steps(heap: &mut Heap) -> Result<usize, UseError> {
    let class = class_of(2048)?;
    let objects = two_groups(heap)?;
    let steps = heap.begin(1, 0)?;
    let mut blocked = 0usize;
    for _ in 0..steps {
        if !is_done(heap.write(objects.low, 0, b"x".as_slice()))? {
            blocked = blocked.saturating_add(1);
        }
        let _ = heap.step(class)?;
    }
    Ok(blocked)
}
