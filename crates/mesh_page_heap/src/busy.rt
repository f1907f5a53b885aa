//! `Busy`: the running meshes that prevent a mesh from beginning.

/// The running meshes that make a class busy. No mesh of a busy class can begin.
#[derive(Clone, Copy)]
pub enum Busy {
    /// A mesh of the class.
    OfClass,
    /// A mesh of any class.
    Any,
}
