//! The reference memory as a program: separate objects by serial, with no spans, pages or meshes.
//!
//! The code calls the reference memory the plain memory. `Plain` is slow, but its code shows directly what each command
//! must answer. In contracts, a `Plain` is the reference memory of the definitions: the objects by serial, and for each
//! of the 256 root cells the serial that the cell holds.
#![tactic(auto)]

mod bytes;
mod commands;
mod copies;
mod faults;
mod fingerprints;
mod maps;
mod packed;
mod plain;
mod stored;

pub use faults::PlainFault;
pub use packed::Packed;
pub use plain::Plain;
