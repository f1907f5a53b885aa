//! The sweeps and meshes of a placement.
ghost use Rattle.std.specs.Prelude.{◌≡◌, Err, IfErr, IfOk, sum_by};
ghost use Rattle.model_heap.specs.Mesh.{may_begin, mesh_of_class, mesh_whole};
ghost use Rattle.model_heap.specs.Table.{len_in};
ghost use Rattle.savings_replay.specs.Mesher.{IsMeshedWithin, IsRefusedWithin};
ghost use Rattle.savings_replay.specs.Meshes.{MayMesh};
ghost use Rattle.mesh_spans.specs.Index.{IsGroup};
ghost use Rattle.savings_replay.specs.Placement.{IsMeshed, IsSwept, IsSweptAt, table_of};

use super::Placement;
use crate::meshed::Meshed;
use crate::placement::pages::held_pages_of;
use mesh_class::Class;
use mesh_spans::{Group, Slot};
use model_words::Refusal;

impl Placement {
    /// Removes each group that has no object, and frees the group's physical pages. The group's virtual pages are never
    /// reused.
    ///
    /// If some group has no object, the call visits every number that a group can have.
    pub fn sweep_empty(&mut self)
        ensures { IsSwept self.old self.new }
    {
        if self.empty_pages() == 0 {
            self.sound();
            return;
        }
        for n in 0..self.next_page {
            self.sound();
            self.sweep(n);
        }
        self.sound();
    }

    /// Removes a group if it has no object.
    fn sweep(&mut self, n: u32)
        ensures { IsSweptAt self.old self.new n }
    {
        self.spans.sound();
        let Some(group) = self.spans.group(n) else {
            return;
        };
        if !group.is_empty() {
            return;
        }
        let pages = group.class().pages();
        self.spans.retire(n);
        self.taken_pages -= pages;
    }

    /// Meshes the group `source` into the group `destination`. The members and objects of `source` become members and
    /// objects of `destination`, and the pages of `source` become free. No object changes its slot or its address.
    ///
    /// The error is the first that applies, in this order: NO_GROUP, SAME, CLASS, OVERLAP, MEMBERS. After an error,
    /// nothing has changed.
    pub fn mesh(&mut self, source: u32, destination: u32) -> Result<Meshed, Refusal>
        ensures meshed { IfOk result (λ done. IsMeshed self.old self.new source destination done.pages done.bytes) }
        ensures refused { IfErr result (λ refusal.
            (mesh_whole mesh_of_class (table_of self.old) source destination ≡ Err refusal) × (self.new ≡ self.old)) }
    {
        self.spans.sound();
        let (class, held, meshed) = self.may_mesh(source, destination)?;
        self.spans.merge(destination, source);
        self.held_pages.lower(class, held);
        self.taken_pages -= meshed.pages;
        Ok(meshed)
    }

    /// Meshes the group `source` into the group `destination`, if the two have at most `most` members together.
    /// Otherwise the error is MEMBERS. The other errors are those of `mesh`.
    pub(crate) fn mesh_within(
        &mut self,
        most: u32,
        source: u32,
        destination: u32,
    ) -> Result<Meshed, Refusal>
        ensures meshed { IfOk result (IsMeshedWithin self.old self.new most source destination) }
        ensures refused { IfErr result (IsRefusedWithin self.old self.new most source destination) }
    {
        if self.members_of(source) + self.members_of(destination) > most {
            return Err(Refusal::Members);
        }
        self.mesh(source, destination)
    }

    /// Returns the class of two groups, the number of pages by which those of groups with an object would become fewer,
    /// and the result that a mesh of the groups would have, if they may be meshed. Otherwise the error is the one that
    /// `mesh` returns.
    fn may_mesh(&self, source: u32, destination: u32) -> Result<(Class, u32, Meshed), Refusal>
        ensures may { IfOk result
            (λ done. MayMesh self.now.index source destination done.0 done.2.pages done.1 done.2.bytes) }
        ensures refused { IfErr result
            (λ refusal. may_begin mesh_of_class (table_of self.now) source destination ≡ Err refusal) }
    {
        self.spans.sound();
        let from = self.spans.may_merge(source, destination, false)?;
        let class = from.class();
        let held = match self.spans.group(destination) {
            Some(to) => held_pages_of(from).min(held_pages_of(to)),
            None => 0,
        };
        let meshed = Meshed {
            pages: class.pages(),
            bytes: bytes_of(from),
        };
        Ok((class, held, meshed))
    }
}

/// Returns the total length of a group's objects, in bytes.
fn bytes_of(group: &Group) -> u32
    requires { IsGroup group.now }
    ensures { result ≡ sum_by len_in group.now.slots }
{
    let mut bytes = 0;
    for k in 0..group.class().slots() {
        bytes += group.object_len(Slot::numbered(k)).unwrap_or(0);
    }
    bytes
}
