//! A heap that is compacted by meshing while mutators use it.
//!
//! This crate is the public API of the library. Two groups of one size class with no common occupied slot are put on
//! one physical span, and the virtual pages of both groups are mapped there. Addresses don't change, and no pointer
//! needs updating:
//!
//! ```text
//! let mut heap = Heap::open(alloc, 16)?;
//! let freed = heap.new(2048, 0)?;             // the first span: slots 0 and 1
//! let high = heap.new(2048, 0)?;
//! let low = heap.new(2048, 0)?;               // the next span: slot 0
//! heap.free(freed)?;
//! heap.write(high, 0, b"high".as_slice());
//! heap.write(low, 0, b"low".as_slice());
//! let pages = heap.mesh_whole(1, 0)?;         // 1: both are on one physical page
//! let bytes = heap.read(low, 0, 3)?;          // "low", at the same address as before
//! ```
//!
//! Call `is_full` before each `new`: `new` requires that a serial number is left, and `is_full` returns whether all are
//! used up. The programs of `mesh_uses` are complete, proved and run.
//!
//! - A `Heap` makes, reads, writes, copies and frees objects by their `Ref`. A mesher's `begin`, `step` and `cancel`
//!   mesh two groups one step at a time, and `mesh_whole` meshes them at once. A store to a page that a mesh made
//!   read-only is `Blocked`, and a load never waits.
//! - A `ClassView` lists the groups of one size class that may be paired. `search_one` and `search` find pairs among
//!   them, on one thread or on several.
//! - A `Book` is a heap with 256 root cells, driven by `Command`s. Its `Journal` is a legal history of a reference
//!   memory of separate objects (called plain memory in the code).
//! - A `Shared` is a book behind a lock. Each mutator has a `Seat`, and `finish` makes one history of all seats' calls.
//!   `run_threads` runs whole scripts on threads, while other threads search and mesh.
#![tactic(auto)]

pub use mesh_class::{Class, all_classes, class_of};
pub use mesh_lock::{Ended, FinishError, Kept, OpenError, Seat};
pub use mesh_mutator::{Attempt, Book, Command, Entry, Journal, Roots};
pub use mesh_search::{
    Candidate, ClassView, Found, Pairs, SearchError, search, search_one, shuffle,
};
pub use mesh_shared::{
    Actor, Gate, MeshPlan, NoGate, Point, RunError, Shared, run_abandoned, run_threads,
};
pub use mesh_steps::{Heap, NewFault, Ref, Report, StepDone, Stored};
pub use model_words::{MAX_BYTES, Refusal, Reply, StepKind};
