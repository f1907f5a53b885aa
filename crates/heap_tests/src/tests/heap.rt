//! Tests of the heap, its meshes and the book, call by call, and of the calls that allocate.

mod books;
mod calls;
mod heaps;
mod memory;
mod meshes;
pub(crate) mod searches;
mod tried;
