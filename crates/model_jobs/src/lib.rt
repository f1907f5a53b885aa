//! Jobs: their texts, how a text is read, how each line is answered, and what a whole text prints.
//!
//! The crate has only definitions and lemmas about these definitions alone. Each file has one topic.
#![tactic(auto)]

pub mod job_laws;
pub mod reader_laws;
pub mod refusal_laws;
pub mod text_laws;
