//! Numbers of pages, by what they are counted in.

/// A number of pages in the heap that doesn't mesh, in the heap that meshes, and with perfect packing.
#[derive(Clone, Copy, Debug)]
pub struct Pages {
    pub without: u128,
    pub with: u128,
    pub perfect: u128,
}

/// A number of pages in the heap that doesn't mesh, and in the heap that meshes.
#[derive(Clone, Copy, Debug)]
pub struct Both {
    pub without: u128,
    pub with: u128,
}

/// The numbers of a row of the table.
#[derive(Clone, Copy, Debug)]
pub struct Row {
    /// Pages of small objects.
    pub small: Pages,
    /// Live bytes of small objects, in whole pages.
    pub live: u128,
    /// Pages of large objects.
    pub large: u128,
    /// Pages of small and large objects together.
    pub all: Both,
}
