//! Runs scripts in threads, on a book that they share, while other threads search and mesh.
//!
//! `run_threads` makes the calls of each script in a thread of its own (`worker`). Meshers, each in its own thread,
//! search for pairs and mesh them (`mesher`). At the end `run_threads` merges the journal and the seats into one
//! history. All threads call a gate, at which a test can stop a thread.
//!
//! `run_abandoned` lets meshers stop early and workers give up. `run_within` also returns what each mesher and each
//! worker did.
#![tactic(auto)]

mod calls;
mod counts;
mod guarded;
mod joining;
mod mesher;
mod pace;
mod plan;
pub mod run_laws;
mod stops;
mod threads;
mod worker;

pub use counts::MeshCounts;
pub use mesh_lock::{
    Actor, Ended, FinishError, Gate, Kept, NoGate, OpenError, Point, Seat, Shared, is_read, settle,
};
pub use mesher::Meshed;
pub use pace::Pace;
pub use plan::{Limits, MeshPlan};
pub use stops::RunError;
pub use threads::{Ran, run_abandoned, run_threads, run_within};
pub use worker::Worked;
