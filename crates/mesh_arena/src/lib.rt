//! The modelled physical memory: an arena of pages of 4,096 bytes, each free or taken.
//!
//! All memory is allocated when the arena is created. No later call allocates or deallocates. In contracts, an arena is
//! the list of its pages: `None` for a free page, and the bytes of a taken page. Each call is specified twice: as an
//! equation on that list, and by places. The second form uses `is_taken`, `byte_at`, `free_count` and the records
//! `Takes`, `Gives`, `Writes` of `specs/Pages.antt`, so a caller need not look inside the list.
#![tactic(auto)]

mod arena;
mod frame;
mod frames;
mod page;

pub use arena::{Arena, MAX_PAGES};
pub use frame::PAGE_BYTES;
pub use page::Page;
