//! A case that makes objects in a heap, and retries each call whose allocation fails.
use crate::ends::{CaseError, End, expect};
use crate::orders::{Maker, Order, PAGES, make_all};
use mesh_steps::{Heap, NewFault, Ref};
use std::alloc::Global;

/// Opens a heap, and fills it.
pub(crate) fn fill(alloc: Global) -> End {
    let mut heap = Heap::open(alloc, PAGES).map_err(|_| CaseError::Memory)?;
    make_all(&mut heap)
}

impl Maker for Heap {
    fn make(&mut self, order: &Order, k: u32, serial: u32) -> End {
        let addr = order.address(k);
        make(self, order.len, Ref { serial, addr })
    }
}

/// Makes an object, and retries if an allocation fails. Returns the number of retries.
fn make(heap: &mut Heap, len: u32, wanted: Ref) -> End {
    let before = heap.report();
    if has_room(heap, len, wanted)? {
        return Ok(0);
    }
    if heap.report() != before {
        return Err(CaseError::Wrong("a refused new changed the report"));
    }
    make_again(heap, len, wanted)
}

/// Makes an object after an allocation failed once, and returns 1. A second failure is an error.
fn make_again(heap: &mut Heap, len: u32, wanted: Ref) -> End {
    if has_room(heap, len, wanted)? {
        return Ok(1);
    }
    Err(CaseError::Wrong("one allocation was refused twice"))
}

/// Makes an object, and returns whether the allocations of the call succeeded. If they did, the object must be
/// `wanted`.
fn has_room(heap: &mut Heap, len: u32, wanted: Ref) -> Result<bool, CaseError> {
    if heap.is_full() {
        return Err(CaseError::Wrong("too many objects"));
    }
    match heap.new(len, 0) {
        Ok(object) => {
            expect(object == wanted, "another serial or address")?;
            Ok(true)
        }
        Err(NewFault::Memory) => Ok(false),
        Err(NewFault::Refused(_)) => Err(CaseError::Wrong("a refusal")),
    }
}
