//! Two groups that can be meshed, with an object in each.
use crate::faults::UseError;
use mesh::{Heap, Ref, Stored};

/// The objects of two groups with no common occupied slot.
#[derive(Clone, Copy)]
pub(crate) struct Objects {
    /// The object in slot 1 of group 0.
    pub high: Ref,
    /// The object in slot 0 of group 1.
    pub low: Ref,
}

/// Makes three objects of 2,048 bytes, and frees the first. The first two fill group 0, and the third is in group 1.
pub(crate) fn two_groups(heap: &mut Heap) -> Result<Objects, UseError> {
    let freed = make(heap)?;
    let high = make(heap)?;
    let low = make(heap)?;
    heap.free(freed)?;
    Ok(Objects { high, low })
}

/// Makes an object of 2,048 bytes, in the first free slot. The error is Answer if no serial is left, Refused if `new`
/// is refused, and Memory if an allocation fails.
fn make(heap: &mut Heap) -> Result<Ref, UseError> {
    if heap.is_full() {
        return Err(UseError::Answer("no serial is left"));
    }
    let object = heap.new(2048, 0)?;
    Ok(object)
}

/// Whether a store was done. `false` if the store was blocked. The error is Refused if the store was refused.
pub(crate) fn is_done(stored: Stored) -> Result<bool, UseError> {
    match stored {
        Stored::Done => Ok(true),
        Stored::Blocked => Ok(false),
        Stored::Refused(refusal) => Err(UseError::Refused(refusal)),
    }
}
