//! Loads and stores of bytes at virtual addresses, over an arena of physical pages and a page map.
//!
//! An address is a virtual page times 4,096 plus an offset. Its byte is at this offset of the physical page to which
//! the virtual page is mapped.
//!
//! Contracts describe a store by its two public fields. They refer to bytes by address (`byte_of`, and the records
//! `AreBacked` and `Saves` of `specs/Places.antt`), never by the pages that a range touches. Only `open` allocates.
#![tactic(auto)]

mod store;

pub use store::Store;
