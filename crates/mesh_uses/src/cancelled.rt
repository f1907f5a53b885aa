//! A mesh that is cancelled.
use crate::faults::UseError;
use crate::objects::{is_done, two_groups};
use mesh::{Heap, class_of};

/// Begins a mesh, cancels it after its first step, and unwinds it. Then checks that a store to an object of the source
/// isn't blocked. Returns the number of steps of the unwinding.
pub(crate) fn cancel_a_mesh(heap: &mut Heap) -> Result<usize, UseError> {
    let class = class_of(2048)?;
    let objects = two_groups(heap)?;
    let _ = heap.begin(1, 0)?;
    let _ = heap.step(class)?;
    let steps = heap.cancel(class)?;
    for _ in 0..steps {
        let _ = heap.step(class)?;
    }
    if heap.running(class) || !is_done(heap.write(objects.low, 0, b"x".as_slice()))? {
        return Err(UseError::Answer("a mesh that isn't unwound"));
    }
    Ok(steps as usize)
}
