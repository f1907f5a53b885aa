//! What the tests share: devices in memory, a source that returns one byte per call, the golden files, and tables
//! written as one text.

pub mod files;
mod ran;
mod slow;
mod tables;

pub use ran::{InMemory, Ran, in_memory};
pub use slow::{Bytes, SlowSource};
pub use tables::{ROW_END, faulty_files, fields};
