//! The input of the figures: samples, the window of the measured calls, and counts of the whole run.

/// The number of size classes.
pub const CLASSES: usize = 10;

/// What is measured after a call. Each array has one number of physical pages per class, in the order of the class
/// table. A group is held if it has an object, and empty otherwise.
#[derive(Clone, Copy, Debug)]
pub struct Sample {
    /// Pages of the held groups of the heap that doesn't mesh.
    pub without: [u32; CLASSES],
    /// Pages of the held groups of the meshing heap.
    pub with: [u32; CLASSES],
    /// Pages that the live objects would take if they were packed perfectly.
    pub perfect: [u32; CLASSES],
    /// Bytes of the live objects of up to 2,048 bytes.
    pub live_bytes: u64,
    /// Pages of the live objects above 2,048 bytes, if the length of each object is rounded up to whole pages. The
    /// number can need more than 64 bits.
    pub large_pages: u128,
    /// Pages of the empty groups of the heap that doesn't mesh.
    pub empty_without: u32,
    /// Pages of the empty groups of the meshing heap.
    pub empty_with: u32,
}

/// The calls that are measured, counted from 1. If `from` is above `to`, no call is measured.
#[derive(Clone, Copy, Debug)]
pub struct Window {
    /// The number of the first measured call.
    pub from: u32,
    /// The number of the last measured call.
    pub to: u32,
}

/// Counts over a whole run, independent of the window.
#[derive(Clone, Copy, Debug)]
pub struct Counts {
    /// The greatest number of objects of up to 2,048 bytes that were live at once.
    pub most_objects: u32,
    /// The number of objects of more than 2,048 bytes that were made.
    pub large: u32,
    /// The number of meshes that were made.
    pub meshes: u64,
    /// The number of meshes that were refused.
    pub refused: u64,
    /// The number of bytes in the objects that meshes moved.
    pub copied: u64,
    /// The number of mesh rounds.
    pub rounds: u32,
    /// How often two groups were compared in searches. The number can need more than 64 bits.
    pub tries: u128,
    /// The number of virtual pages used by the meshing heap.
    pub virtual_pages: u32,
    /// Whether each class ever held an object, in the order of the class table.
    pub used: [bool; CLASSES],
}
