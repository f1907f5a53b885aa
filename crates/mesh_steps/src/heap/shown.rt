//! Queries of a heap without side effects, for pictures, tests and debuggers.
ghost use Rattle.std.specs.Prelude.{◌≡◌, ◌<◌, ◌≤◌, IfSome, slice_get};
ghost use Rattle.std.specs.Option.{option_map};
ghost use Rattle.mesh_arena.specs.Pages.{is_taken};
ghost use Rattle.model_heap.specs.Table.{group_of};
ghost use Rattle.mesh_page_heap.specs.MeshLayouts.{mesh_from};
ghost use Rattle.mesh_steps.specs.Heap.{arena_of, index_of, map_of, table_of};
ghost use Rattle.mesh_page_heap.specs.Shown.{home_at, lead_at, member_at, object_at, released_of};

use super::Heap;
use crate::{Mapping, Running};
use mesh_class::Class;

impl Heap {
    /// The lowest virtual page that was never used, 1 to 65,536. All group numbers are below this number.
    pub fn next_page(&self) -> u32
        ensures { result ≡ (table_of self.now).next_page }
    {
        self.pages.next_page()
    }

    /// The class of a group. `None` if no group has this number.
    pub fn class_of(&self, group: u32) -> Option<Class>
        ensures { result ≡ option_map (λ g. g.class) (group_of (table_of self.now) group) }
    {
        self.pages.class_of(group)
    }

    /// Returns the first virtual page of the member at index `place` of a group. A group has 1 to 8 members, in the
    /// order in which they joined the group. Returns `None` if there is no such member.
    pub fn member(&self, group: u32, place: usize) -> Option<u32>
        ensures value { result ≡ member_at (group_of (table_of self.now) group) place }
        ensures range { IfSome result (λ first. (1 ≤ first) × (first < 65536)) }
    {
        self.pages.member(group, place)
    }

    /// Returns the serial and the length, in bytes, of the object that a member of a group has in a slot. The member is
    /// the one at index `place`. Returns `None` if there is no such object.
    pub fn object(&self, group: u32, place: usize, slot: u32) -> Option<(u32, u32)>
        ensures { result ≡ object_at (group_of (table_of self.now) group) place slot }
    {
        self.pages.object(group, place, slot)
    }

    /// Returns the physical page at index `place` in the list of a group's pages, or `None` if there is no such page.
    /// The class determines the number of pages.
    ///
    /// If the group is the source of a mesh, the last steps of the mesh free the group's pages one by one. The freed
    /// pages stay in the list until the mesh has ended.
    pub fn home(&self, group: u32, place: usize) -> Option<u32>
        ensures { result ≡ home_at (index_of self.now) group place }
    {
        self.pages.home(group, place)
    }

    /// Whether a physical page, numbered from 0, is taken: a group has the page, and no mesh has released it. False if
    /// there is no page with this number.
    pub fn is_taken(&self, page: u32) -> bool
        ensures { result ≡ is_taken (arena_of self.now) page }
    {
        self.pages.is_taken(page)
    }

    /// Returns how many physical pages of a group were freed by the running mesh from this group, or 0 if no such mesh
    /// runs. The freed pages are the first of the group's pages.
    pub fn released(&self, group: u32) -> u32
        ensures { result ≡ released_of (group_of (table_of self.now) group)
            (mesh_from group (table_of self.now).meshes) }
    {
        self.pages.released(group)
    }

    /// The mapping of a virtual page, numbered from 1. `None` if the page isn't mapped.
    pub fn lead(&self, page: u32) -> Option<Mapping>
        requires { 1 ≤ page }
        ensures { result ≡ lead_at (map_of self.now) page }
    {
        self.pages.lead(page)
    }

    /// Returns the running mesh at index `place`, in the order in which the meshes began. Returns `None` if there is no
    /// mesh at this index.
    pub fn mesh(&self, place: usize) -> Option<Running>
        ensures { result ≡ slice_get (table_of self.now).meshes place }
    {
        self.pages.mesh(place)
    }
}
