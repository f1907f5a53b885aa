//! Queries of a page heap without side effects.
ghost use Rattle.std.specs.Prelude.{◌≡◌, ◌<◌, ◌≤◌, IfSome, slice_get};
ghost use Rattle.mesh_arena.specs.Pages.{is_taken};
ghost use Rattle.model_heap.specs.Table.{group_of};
ghost use Rattle.mesh_page_heap.specs.Indexes.{members_in};
ghost use Rattle.mesh_page_heap.specs.MeshLayouts.{mesh_from};
ghost use Rattle.mesh_spans.specs.Index.{group_at};
ghost use Rattle.mesh_page_heap.specs.PageHeap.{table_in};
ghost use Rattle.mesh_page_heap.specs.Shown.{home_at, lead_at, member_at, object_at, released_of};

use super::PageHeap;
use crate::running::mesh_of;
use crate::step_order::order_of;
use mesh_pagemap::{Mapping, Prot};
use mesh_running::{Progress, Running};
use mesh_spans::{Slot, Span, Spans};

impl PageHeap {
    /// The lowest virtual page that was never used.
    pub fn next_page(&self) -> u32
        ensures { result ≡ (table_in self.now).next_page }
    {
        self.next_page
    }

    /// Returns the first virtual page of the member at index `place` of group `n`. Returns `None` if no group has the
    /// number `n`, or the group has no member at this index.
    pub fn member(&self, n: u32, place: usize) -> Option<u32>
        ensures value { result ≡ member_at (group_of (table_in self.now) n) place }
        ensures range { IfSome result (λ first. (1 ≤ first) × (first < 65536)) }
    {
        self.spans.sound();
        let span = member_span(&self.spans, n, place)?;
        Some(self.spans.first_page(span))
    }

    /// Returns the serial and the length, in bytes, of the object that a member of group `n` has in a slot. The member
    /// is the one at index `place`. Returns `None` if there is no such object.
    pub fn object(&self, n: u32, place: usize, slot: u32) -> Option<(u32, u32)>
        ensures { result ≡ object_at (group_of (table_in self.now) n) place slot }
    {
        self.spans.sound();
        let span = member_span(&self.spans, n, place)?;
        self.spans.record(span, Slot::numbered(slot))
    }

    /// Returns the physical page at index `place` in the list of group `n`'s pages. Returns `None` if no group has the
    /// number `n`, or the list has no such index.
    pub fn home(&self, n: u32, place: usize) -> Option<u32>
        ensures { result ≡ home_at self.now.index n place }
    {
        let group = self.spans.group(n)?;
        let page = group.pages().get(place)?;
        Some(page.number())
    }

    /// Returns the mapping of a virtual page, or `None` if the page isn't mapped.
    pub fn lead(&self, v: u32) -> Option<Mapping>
        requires { 1 ≤ v }
        ensures { result ≡ lead_at self.now.map v }
    {
        if v >= self.next_page {
            return None;
        }
        let (page, prot) = self.store.map.lookup(v)?;
        Some(Mapping {
            virtual_page: v,
            physical_page: page.number(),
            read_only: prot == Prot::ReadOnly,
        })
    }

    /// Whether a physical page is taken.
    pub fn is_taken(&self, page: u32) -> bool
        ensures { result ≡ is_taken self.now.arena page }
    {
        self.store.arena.is_taken(page)
    }

    /// Returns how many physical pages of group `n` were freed by the running mesh that has this group as its source.
    /// Returns 0 if no group has the number `n`, or if no such mesh runs.
    pub fn released(&self, n: u32) -> u32
        ensures { result ≡ released_of (group_of (table_in self.now) n) (mesh_from n self.now.meshes) }
    {
        let Some(_group) = self.spans.group(n) else {
            return 0;
        };
        let Some(mesh) = mesh_of(self.meshes.as_slice(), n) else {
            return 0;
        };
        match mesh.progress() {
            Progress::Made(made) => order_of(&self.spans, n).released_after(made),
            Progress::Unwinding(_, _) => 0,
        }
    }

    /// Returns the running mesh at index `place`, in the order in which the meshes began. Returns `None` if the list
    /// has no such index.
    pub fn mesh(&self, place: usize) -> Option<Running>
        ensures { result ≡ slice_get self.now.meshes place }
    {
        self.meshes.get(place).copied()
    }
}

/// Returns the span that is the member at index `place` of group `n`. Returns `None` if there is no such member.
fn member_span(spans: &Spans, n: u32, place: usize) -> Option<Span>
    ensures { result ≡ slice_get (members_in (group_at spans.now.groups n)) place }
{
    let group = spans.group(n)?;
    group.members().get(place).copied()
}
