//! The text that an exploration reports.

/// The selection of the text that an exploration reports.
#[derive(Clone, Copy)]
pub enum Wanted<'a> {
    /// All answers and outcomes.
    All,
    /// A job file that leads to the outcome with this number, counted from 0.
    Outcome(u32),
    /// A job file that ends with this answer in a phase of a mesh.
    Answer(Shown<'a>),
}

/// An answer to a command, in a phase of a mesh.
#[derive(Clone, Copy)]
pub struct Shown<'a> {
    /// The line of the command in the job file, counted from 1.
    pub line: u32,
    /// The answer as it is printed, for example `done` or `blocked`.
    pub answer: &'a [u8],
    /// The phase as it is printed. With the prefix `mesh K: `, it is a phase of the mesh of mesher K, counted from 0.
    /// Without this prefix, it is a phase of any mesh.
    pub phase: &'a [u8],
}
