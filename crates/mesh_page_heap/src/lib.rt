//! The page heap: physical pages, page map, span index and running meshes together.
//!
//! The page heap assigns no serials, and doesn't define the meaning of a heap (the reference memory that a heap
//! represents).
//!
//! `PageHeap` places, finds, reads, stores and clears objects in slots, and begins, steps and cancels meshes.
//! `StepOrder` of `mesh_running` gives the number of steps of a mesh and the next step. The module `steps` applies a
//! step to pages and page map. The crate `mesh_steps` builds the heap of objects for mutators on this crate.
//!
//! In contracts, a page heap consists of its physical pages, its page map, its span index, the next virtual page and
//! the running meshes.
#![tactic(auto)]

mod answers;
mod busy;
mod effects;
mod growth;
mod page_heap;
mod progress;
mod running;
mod step_order;
mod steps;

pub use answers::{Occupied, Report};
pub use busy::Busy;
pub use effects::effects_are_determined;
pub use mesh_pagemap::Mapping;
pub use mesh_running::{Progress, Running};
pub use model_words::{NewFault, StepDone};
pub use page_heap::PageHeap;
pub use progress::{meshes_by_steps, unwinding_by_steps};
