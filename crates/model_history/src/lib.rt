//! Histories recorded from any allocator: the reference memory, with an allocator's bounds and choices as parameters.
//!
//! The reference memory is called plain memory in the code.
//!
//! The crate contains definitions and proved lemmas about these definitions, and no other code.
#![tactic(auto)]

pub mod recorded_laws;
