//! `Progress`, the progress of a mesh.

/// The progress of a mesh.
#[derive(Clone, Copy, PartialEq, Eq)]
pub enum Progress {
    /// `Made(d)`: the mesh has made `d` steps.
    Made(u32),
    /// `Unwinding(q, u)`: the mesh was cancelled. Of the `q` pages that the mesh had protected, `u` are writable again.
    Unwinding(u32, u32),
}
