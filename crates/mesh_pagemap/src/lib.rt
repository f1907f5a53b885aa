//! The modelled page map: for each virtual page, at most one physical page and a protection.
//!
//! All memory is allocated when the map is created. Each later call reads or writes one entry of the map's table. The
//! first `map` of a page may also append empty entries to the table.
//!
//! In contracts, a page map is the finite map from virtual pages to their entries. Each call is specified twice: as an
//! equation on that map, and by virtual page. The second form uses `is_mapped`, `page_of`, `is_read_only` and the
//! records `Maps`, `Unmaps`, `Remaps`, `Protects` of `specs/Entries.antt`, so a caller need not look inside the map.
#![tactic(auto)]

mod mapping;
mod pagemap;
mod prot;

pub use mapping::Mapping;
pub use pagemap::{LAST_VIRTUAL_PAGE, PageMap};
pub use prot::Prot;
