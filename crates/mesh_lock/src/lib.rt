//! A book that several mutators share under one lock, and one history of all their calls.
//!
//! `Shared` contains the book. A call that may change something is recorded under the exclusive lock. A read runs under
//! the shared lock and leaves the journal unchanged. Each mutator has a seat, which keeps the mutator's calls. For a
//! read, the seat also keeps the length of the journal when the read ran.
//!
//! At the end `settle` builds one history from the journal and all seats, or returns why they form no history. The
//! reads of a `Mutator` arrive at a gate. `mesh_shared` runs whole scripts in threads.
#![tactic(auto)]

mod call_budget;
mod calling;
mod differing;
mod ending;
mod faults;
mod guarded;
mod kept;
mod missing;
mod reads;
mod rest;
mod seat;
mod shared;
mod walk;

pub use call_budget::CallBudget;
pub use calling::{Mutator, call_number};
pub use ending::{Ended, settle};
pub use faults::{FinishError, OpenError};
pub use kept::{Kept, is_read};
pub use mesh_search::{Actor, Gate, NoGate, Point};
pub use seat::Seat;
pub use shared::Shared;
