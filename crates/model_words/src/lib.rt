//! The words that every layer of Mesh shares: commands, answers, refusals, faults, and the size classes.
//!
//! The crate also defines how steps that can be refused are chained: the first refused step ends the chain with its
//! refusal.
#![tactic(auto)]

mod answers;
mod commands;
mod faults;
mod refusals;
mod versions;

pub use answers::{NewFault, StepDone};
pub use commands::{Command, MAX_BYTES, Reply, StepKind};
pub use faults::{FaultKind, TextFault};
pub use refusals::Refusal;
pub use versions::Version;
