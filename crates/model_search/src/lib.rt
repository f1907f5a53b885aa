//! The split search: which groups a mesher may pair.
//!
//! The crate contains the definition of the search and proved lemmas about that definition, and no other code.
#![tactic(auto)]

pub mod search_laws;
