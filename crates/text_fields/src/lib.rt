//! Splits texts into lines and lines into fields, and reads the fields of numbers, of bytes and of commands.
//!
//! A text is split into lines, and each line is checked for bytes that aren't allowed. A line is split at single spaces
//! into its fields. The first field is called the line's word. Each number has exactly one accepted spelling: `07`
//! isn't a spelling of 7. If a field isn't accepted, an error gives the kind of fault. In contracts, a text and a field
//! are lists of bytes. Results are stated by the definitions of job files.
#![tactic(auto)]

pub mod bases;
pub mod commands;
pub mod faults;
pub mod hex;
pub mod lines;
pub mod numbers;
pub mod quick;
