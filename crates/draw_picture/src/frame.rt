//! The content of a picture of a heap.
use mesh_class::Class;
pub use mesh_pagemap::Mapping;
use mesh_running::Progress;

/// A member of a group: one virtual span of the group.
#[derive(Clone, Copy, PartialEq, Eq)]
pub struct Member {
    /// The group's number.
    pub group: u32,
    /// The group's class, which determines how many pages and slots the span has.
    pub class: Class,
    /// The span's first virtual page.
    pub first: u32,
}

/// A live object.
#[derive(Clone, Copy, PartialEq, Eq)]
pub struct Object {
    /// The first virtual page of the object's span.
    pub member: u32,
    /// The object's slot.
    pub slot: u32,
    /// The object's serial.
    pub serial: u32,
    /// The object's length in bytes.
    pub len: u32,
}

/// A physical page of a group.
#[derive(Clone, Copy, PartialEq, Eq)]
pub struct Home {
    /// The group's number.
    pub group: u32,
    /// The page's index among the group's pages.
    pub place: u32,
    /// The physical page.
    pub page: u32,
    /// Whether the page is still taken. A mesh releases the pages of its source one by one.
    pub taken: bool,
}

/// How far a running mesh is.
#[derive(Clone, Copy, PartialEq, Eq)]
pub enum MeshProgress {
    /// The progress of a mesh that makes the steps of the heap's own meshes.
    Steps(Progress),
    /// The number of moves that a mesh by another list of steps has made, and the number of slots, from the first one
    /// on, whose objects it has copied.
    Moves(u32, u32),
}

/// A page on which something is wrong.
#[derive(Clone, Copy, PartialEq, Eq)]
pub enum Mark {
    /// A virtual page.
    Virtual(u32),
    /// A physical page.
    Physical(u32),
}

/// A running mesh.
#[derive(Clone, Copy, PartialEq, Eq)]
pub struct RunningMesh {
    /// The class of the mesh's two groups.
    pub class: Class,
    /// The number of the source.
    pub source: u32,
    /// The number of the destination.
    pub destination: u32,
    /// The progress of the mesh.
    pub progress: MeshProgress,
}

/// The page counts of a heap.
#[derive(Clone, Copy, Default, PartialEq, Eq)]
pub struct Counts {
    /// The number of mapped virtual pages.
    pub mapped: u32,
    /// The number of taken physical pages.
    pub taken: u32,
    /// The number of mapped virtual pages less the number of taken physical pages.
    pub saved: u32,
}

/// The content of a picture of a heap.
pub struct Frame {
    /// The members of all groups, with groups ascending by number. Each group's members are in the group's order.
    pub members: Vec<Member>,
    /// The mappings of the members' pages, in the order of `members`. Each member's pages are in ascending order.
    pub leads: Vec<Mapping>,
    /// The objects of the members, in the order of `members`. Each member's objects are ascending by slot.
    pub objects: Vec<Object>,
    /// The physical pages of the groups, with groups ascending by number. Each group's pages are in the group's order.
    pub homes: Vec<Home>,
    /// The running meshes, in the order in which they began.
    pub meshes: Vec<RunningMesh>,
    /// The read-only virtual pages of which loads are blocked, too.
    pub hidden: Vec<u32>,
    /// A page on which something is wrong.
    pub mark: Option<Mark>,
    /// The page counts of the heap.
    pub counts: Counts,
}

#[rattlefmt::skip]
impl Drop for Frame {
    fn drop(self) { let Frame { members: _, leads: _, objects: _, homes: _, meshes: _, hidden: _, mark: _, counts: _ } = self; }
}
