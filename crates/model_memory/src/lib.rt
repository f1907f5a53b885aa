//! The reference memory of separate objects: steps, legal histories, and the calls and reads that seats record.
//!
//! The code calls the reference memory plain memory. The crate contains only definitions, and lemmas about these
//! definitions. Each file has one topic.
#![tactic(auto)]

pub mod address_laws;
pub mod copy_laws;
pub mod history_laws;
pub mod read_laws;
pub mod refusal_laws;
pub mod seat_laws;
pub mod step_laws;
