//! The steps of a mesh, and the lists that they are made in.

/// A step of a mesh. Most steps are made for each virtual page of the source, one page in a move.
#[derive(Clone, Copy, Debug, PartialEq, Eq)]
pub enum Step {
    /// The virtual page becomes read-only.
    Protect,
    /// Loads and stores of the virtual page are blocked.
    Hide,
    /// The object that is in a slot of the source now is copied from the source's physical pages to the destination's.
    /// One slot in a move.
    Copy,
    /// The same in pieces of so many bytes, one piece of a slot in a move. 0 stands for 1.
    CopyPiece(u32),
    /// What the objects of the source have on one page of the span is copied. One page in a move.
    CopyPage,
    /// The virtual page is mapped to the destination's physical page. It keeps its protection, or allows loads and
    /// stores if it wasn't mapped.
    Remap,
    /// The virtual page isn't mapped any more.
    Unmap,
    /// Loads and stores of the virtual page are allowed.
    Unprotect,
    /// A physical page of the source is released, and its bytes become zero. One physical page in a move.
    Release,
    /// A physical page of the source is released, and keeps its bytes. One physical page in a move.
    ReleaseDirty,
    /// The two groups become one, which is open to new objects. One move.
    Merge,
    /// Both groups are open to new objects, and remain two. One move.
    Open,
    /// The source is open to new objects. One move.
    OpenSource,
    /// The destination is open to new objects. One move.
    OpenDestination,
    /// No command is between its two moves. One move.
    Fence,
    /// Copies from now on are of the objects that are in the source now. One move.
    Look,
}

/// A part of a move: a step, for one number.
#[derive(Clone, Copy, Debug, PartialEq, Eq)]
pub struct Part {
    /// The step.
    pub step: Step,
    /// The number of the page or slot, counted from 0.
    pub number: u32,
}
