//! `ObjectAccesses`, the effects of accesses on the bytes of an object.
ghost use Rattle.std.specs.Prelude.{◌≡◌};
ghost use Rattle.history_object.specs.ObjectBytes.{meet};

use crate::access::Access;
use crate::bytes::ObjectBytes;
use crate::calls::Calls;
use std::alloc::{AllocError, Global};

/// The calls of an object whose state is its bytes, for a judge.
pub struct ObjectAccesses;

impl Calls for ObjectAccesses {
    ghost use Rattle.history_object.specs.ObjectBytes.{conflict, effect, reads};

    type State = ObjectBytes;

    type Call = Access;

    ghost effect = { effect };

    ghost reads = { reads };

    ghost conflict = { conflict };

    fn effect(
        alloc: Global,
        state: &ObjectBytes,
        access: &Access,
    ) -> Result<Option<ObjectBytes>, AllocError> {
        match access {
            Access::Store(off, bytes) => {
                if state.ends_past(*off, bytes.len()) {
                    return Ok(None);
                }
                Ok(Some(state.stored(alloc, *off, bytes.as_slice())?))
            }
            Access::Load(off, len, answered) => {
                if !state.answers(*off, *len, answered.as_slice()) {
                    return Ok(None);
                }
                Ok(Some(state.copied(alloc)?))
            }
            Access::Nothing => Ok(Some(state.copied(alloc)?)),
            Access::Elsewhere(_) => Ok(None),
        }
    }

    fn reads(state: &ObjectBytes, access: &Access) -> bool {
        match access {
            Access::Load(off, len, answered) => state.answers(*off, *len, answered.as_slice()),
            Access::Nothing => true,
            Access::Store(..) | Access::Elsewhere(_) => false,
        }
    }

    fn conflict(access: &Access, other: &Access) -> bool {
        match (access, other) {
            (Access::Store(off, new), Access::Store(from, bytes))
            | (Access::Store(off, new), Access::Load(from, _, bytes))
            | (Access::Load(off, _, new), Access::Store(from, bytes)) => {
                meet(*off, new.len(), *from, bytes.len())
            }
            _ => false,
        }
    }

    fn copied(alloc: Global, state: &ObjectBytes) -> Result<ObjectBytes, AllocError> {
        state.copied(alloc)
    }

    fn laws() {}
}

/// Whether the ranges of `len` bytes from offset `off` on and of `count` bytes from offset `from` on have a byte in
/// common.
fn meet(off: u64, len: usize, from: u64, count: usize) -> bool
    ensures { result ≡ meet off len from count }
{
    if off < from {
        from - off < len as u64
    } else if from < off {
        off - from < count as u64
    } else {
        0 < len && 0 < count
    }
}
