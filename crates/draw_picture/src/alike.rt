//! Whether two frames look alike.
ghost use Rattle.std.specs.Prelude.{◌≡◌};
ghost use Rattle.draw_picture.specs.Alike.{copied_slots, members_in, order_in};
ghost use Rattle.mesh_running.specs.StepOrders.{IsStepOrder};

use crate::frame::{Counts, Frame, MeshProgress, RunningMesh};
use crate::numbers::{narrow, plus};
use mesh_running::{MAX_MEMBERS, Progress, StepOrder};
use std::alloc::{AllocError, Global};

/// Returns a copy of a frame. The only error is an allocation failure.
pub fn copied(frame: &Frame) -> Result<Frame, AllocError> {
    Ok(Frame {
        members: frame.members.clone()?,
        leads: frame.leads.clone()?,
        objects: frame.objects.clone()?,
        homes: frame.homes.clone()?,
        meshes: frame.meshes.clone()?,
        hidden: frame.hidden.clone()?,
        mark: frame.mark,
        counts: frame.counts,
    })
}

/// Returns the frame of an empty heap.
pub fn empty_frame(alloc: Global) -> Frame {
    Frame {
        members: Vec::new(alloc),
        leads: Vec::new(alloc),
        objects: Vec::new(alloc),
        homes: Vec::new(alloc),
        meshes: Vec::new(alloc),
        hidden: Vec::new(alloc),
        mark: None,
        counts: Counts::default(),
    }
}

/// Whether a frame has neither members nor running meshes.
pub fn shows_nothing(frame: &Frame) -> bool {
    frame.members.is_empty() && frame.meshes.is_empty()
}

/// Whether two frames have the same members, mappings, objects, physical pages and marks, and meshes that look alike.
/// The page counts are not compared.
pub fn are_alike(one: &Frame, other: &Frame) -> bool {
    one.members.as_slice() == other.members.as_slice()
        && one.leads.as_slice() == other.leads.as_slice()
        && one.objects.as_slice() == other.objects.as_slice()
        && one.homes.as_slice() == other.homes.as_slice()
        && one.hidden.as_slice() == other.hidden.as_slice()
        && one.mark == other.mark
        && have_alike_meshes(one, other)
}

/// Whether two frames have the same number of meshes, and each mesh of `one` looks like the mesh of `other` with the
/// same index: both have the same groups, and have copied the same number of objects, or both were cancelled.
fn have_alike_meshes(one: &Frame, other: &Frame) -> bool {
    if one.meshes.len() != other.meshes.len() {
        return false;
    }
    for (mine, its) in one.meshes.iter().zip(other.meshes.iter()) {
        let same_groups = mine.source == its.source && mine.destination == its.destination;
        if !same_groups || copied_objects(one, mine) != copied_objects(other, its) {
            return false;
        }
    }
    true
}

/// Returns the step order of a mesh. If the mesh's source has more members than a group can have, returns the order for
/// the greatest number of members.
pub fn order_of(frame: &Frame, mesh: &RunningMesh) -> StepOrder
    ensures order { IsStepOrder result }
    ensures value { result ≡ order_in frame.now mesh.now }
{
    let members = members_in(frame, mesh.source).min(MAX_MEMBERS as u32);
    StepOrder::new(mesh.class, members as usize)
}

/// Returns the number of members of a group.
fn members_in(frame: &Frame, group: u32) -> u32
    ensures { result ≡ members_in frame.now group }
{
    let mut count = 0u32;
    let mut rest = frame.members.as_slice();
    while let [member, behind @ ..] = rest {
        if member.group == group {
            count = plus(count, 1);
        }
        rest = behind;
    }
    count
}

/// Returns how many slots of its source a mesh has copied. The number is 0 for a cancelled mesh.
pub fn copied_slots(frame: &Frame, mesh: &RunningMesh) -> u32
    ensures { result ≡ copied_slots frame.now mesh.now }
{
    match mesh.progress {
        MeshProgress::Steps(Progress::Unwinding(_, _)) => 0,
        MeshProgress::Steps(Progress::Made(made)) => order_of(frame, mesh).copied_after(made),
        MeshProgress::Moves(_, copied) => copied,
    }
}

/// Returns how many objects of its source a mesh has copied, or `None` if the mesh was cancelled.
fn copied_objects(frame: &Frame, mesh: &RunningMesh) -> Option<u32> {
    if let MeshProgress::Steps(Progress::Unwinding(_, _)) = mesh.progress {
        return None;
    }
    let slots = copied_slots(frame, mesh);
    let mut count = 0u32;
    for member in frame.members.as_slice() {
        if member.group == mesh.source {
            count = count.saturating_add(objects_below(frame, member.first, slots));
        }
    }
    Some(count)
}

/// Returns how many objects the member with the first page `first` has in the slots below `slots`.
fn objects_below(frame: &Frame, first: u32, slots: u32) -> u32 {
    let objects = frame.objects.iter();
    narrow(
        objects
            .filter(|o| o.member == first && o.slot < slots)
            .count(),
    )
}
