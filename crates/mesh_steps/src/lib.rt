//! A heap of objects in slots of spans, over physical pages and a page map.
//!
//! A mutator makes, reads, writes, copies and frees objects. Meanwhile, a mesher puts two groups on one physical span,
//! step by step. The addresses and bytes of objects don't change.
//!
//! In contracts, a heap consists of its physical pages, its page map, its span index, the next virtual page, the
//! running meshes and the next serial.
#![tactic(auto)]

mod answers;
mod heap;

pub use answers::{Ref, Stored};
pub use heap::Heap;
pub use mesh_page_heap::{Mapping, NewFault, Progress, Report, Running, StepDone};
