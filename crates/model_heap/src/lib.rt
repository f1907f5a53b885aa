//! The heap without its bytes: the table, the steps of a mesh, the places of addresses, and the meaning of a heap.
//!
//! The crate contains definitions and lemmas about these definitions, one topic per file. The only other code is the
//! type `Occupant`: each type that contains a table stores the object in a slot as an `Occupant`.
#![tactic(auto)]

pub mod effect_laws;
pub mod meaning_laws;
pub mod mesh_laws;
pub mod new_laws;
mod occupant;
pub mod page_laws;
pub mod place_laws;
pub mod protection_laws;
pub mod record_laws;
pub mod refusal_laws;
pub mod table_laws;
pub mod tied_laws;

pub use occupant::Occupant;
