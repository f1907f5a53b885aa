//! Replays the allocations of a recorded program on two heaps side by side: one that meshes and one that doesn't.
//!
//! Each of the two heaps is a `Placement`: the span index without pages and bytes, with counts of used and taken pages.
//! A `Placement` makes and frees objects, sweeps and meshes as a heap does, and only counts the pages of its groups.
//! Contracts describe a placement by its table, by the record of each slot, and by the next serial.
//!
//! An `AllocError` means that an allocation failed.
#![tactic(auto)]

mod calls;
mod cells;
mod class_counts;
pub mod class_laws;
mod counts;
mod growth;
mod heaps;
pub mod laws;
mod live;
mod meshed;
mod meshing;
mod objects;
mod placement;
mod savings;
mod settings;
pub mod sweep_laws;
mod taken;
mod words;

pub use calls::{Call, call_of};
pub use counts::{Counts, MeshCounts};
pub use history_reading::RecordedEntry;
pub use placement::Placement;
pub use savings::Savings;
pub use settings::{Rounds, Settings, Words};
pub use taken::Taken;
