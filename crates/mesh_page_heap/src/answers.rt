//! The results of the page heap's calls.
ghost use Rattle.std.specs.Prelude.{◌+◌, ◌<◌, ◌≤◌};
ghost use Rattle.std.specs.Bool.{OnFalse, OnTrue};

use mesh_spans::{Slot, Span};

/// The counts of a heap.
#[derive(Clone, Copy, Debug, PartialEq, Eq)]
pub struct Report {
    /// The number of live objects.
    pub objects: u32,
    /// The total length of the live objects, in bytes.
    pub bytes: u32,
    /// The number of mapped virtual pages.
    pub mapped: u32,
    /// The number of taken physical pages.
    pub taken: u32,
    /// The number of mapped virtual pages minus the number of taken physical pages: the pages that meshing saves.
    pub saved: u32,
}

/// The object whose slot contains a given address, with its span and slot, and the offset of the address in the slot.
#[derive(Clone, Copy)]
pub struct Occupied {
    /// The object's span.
    pub span: Span,
    /// The object's slot.
    pub slot: Slot,
    /// The address's offset in the slot.
    pub offset: u32,
    /// The object's serial.
    pub serial: u32,
    /// The object's length.
    pub len: u32,
}

impl Occupied {
    /// Whether the `len` bytes from offset `off` on are within the object.
    pub fn has_range(self, off: u32, len: u32) -> bool
        ensures within { OnTrue result (off + len ≤ self.len) }
        ensures past { OnFalse result (self.len < off + len) }
    {
        len <= self.len && off <= self.len - len
    }
}
