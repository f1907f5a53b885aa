//! The frame of a state.
ghost use Rattle.std.specs.Prelude.{◌≡◌, ◌++◌, ◌<◌, IfOk, OnOk};
ghost use Rattle.model_words.specs.Classes.{slots_of};
ghost use Rattle.otherwise_frames.specs.Frames.{IsFrameOf, counts_of, group_homes, group_members, group_objects, hidden_in, homes_of, leads_in, lost_homes, member_objects, members_of, meshes_of, objects_of, slot_objects};

use crate::copies::mesh_row;
use crate::rows::{add, hidden_at, home_at, is_lost, lead_at, object_at};
use draw_picture::{Counts, Frame, Home, Mapping, Member, Object, RunningMesh};
use explore_otherwise::{Stages, StateAt};
use explore_pages::{Group, Heap};
use mesh_plain::Plain;
use model_otherwise::Entry;
use std::alloc::{AllocError, Global};

/// The number of the group of pages that are no group's.
const NO_GROUP: u32 = u32::MAX;

/// Returns what a picture shows of a state. Nothing is marked as wrong.
pub fn frame_of(alloc: Global, at: &StateAt<'_>) -> Result<Frame, AllocError>
    ensures { IfOk result (IsFrameOf at.now.state) }
{
    let memory = at.memory()?;
    let heap = at.heap();
    Ok(Frame {
        members: members_of(alloc, heap.groups.as_slice())?,
        leads: leads_in(alloc, heap.entries.as_slice())?,
        objects: objects_of(alloc, &memory, heap.groups.as_slice())?,
        homes: homes_of(alloc, heap)?,
        meshes: meshes_of(alloc, &memory, heap, at.stages())?,
        hidden: hidden_in(alloc, heap.entries.as_slice())?,
        mark: None,
        counts: counts_of(alloc, heap)?,
    })
}

/// Returns the members of groups.
fn members_of(alloc: Global, groups: &[Group]) -> Result<Vec<Member>, AllocError>
    ensures { IfOk result (λ rows. rows.items ≡ members_of groups.now) }
{
    let mut rows = Vec::new(alloc);
    for group in groups {
        add_members(&mut rows, group)?;
    }
    Ok(rows)
}

/// Adds the members of a group.
fn add_members(rows: &mut Vec<Member>, group: &Group) -> Result<(), AllocError>
    ensures { OnOk result (rows.new.items ≡ rows.old.items ++ group_members group.now) }
{
    for first in group.members.as_slice() {
        rows.push(Member {
            group: group.number,
            class: group.class,
            first: u32::from(*first),
        })?;
    }
    Ok(())
}

/// Returns the mappings of the virtual pages that are mapped. Also returns an error if a page's number needs more than
/// 32 bits.
fn leads_in(alloc: Global, entries: &[Option<Entry>]) -> Result<Vec<Mapping>, AllocError>
    ensures { IfOk result (λ rows. rows.items ≡ leads_in entries.now) }
{
    let mut rows = Vec::new(alloc);
    for page in 0..entries.len() {
        add(&mut rows, lead_at(entries, page)?)?;
    }
    Ok(rows)
}

/// Returns the virtual pages of which loads are blocked. Also returns an error if a page's number needs more than 32
/// bits.
fn hidden_in(alloc: Global, entries: &[Option<Entry>]) -> Result<Vec<u32>, AllocError>
    ensures { IfOk result (λ rows. rows.items ≡ hidden_in entries.now) }
{
    let mut rows = Vec::new(alloc);
    for page in 0..entries.len() {
        add(&mut rows, hidden_at(entries, page)?)?;
    }
    Ok(rows)
}

/// Returns the objects of groups.
fn objects_of(alloc: Global, memory: &Plain, groups: &[Group]) -> Result<Vec<Object>, AllocError>
    ensures { IfOk result (λ rows. rows.items ≡ objects_of memory.now groups.now) }
{
    let mut rows = Vec::new(alloc);
    for group in groups {
        add_objects(&mut rows, memory, group)?;
    }
    Ok(rows)
}

/// Adds the objects of a group.
fn add_objects(rows: &mut Vec<Object>, memory: &Plain, group: &Group) -> Result<(), AllocError>
    ensures { OnOk result (rows.new.items ≡ rows.old.items ++ group_objects memory.now group.now) }
{
    for member in group.members.as_slice() {
        add_member_objects(rows, memory, group, *member)?;
    }
    Ok(())
}

/// Adds the objects of a member of a group.
fn add_member_objects(
    rows: &mut Vec<Object>,
    memory: &Plain,
    group: &Group,
    member: u16,
) -> Result<(), AllocError>
    ensures { OnOk result
        (rows.new.items ≡ rows.old.items ++ member_objects memory.now group.now.class member) }
{
    for slot in 0..group.class.slots() {
        add_slot_objects(rows, memory, group, member, slot)?;
    }
    Ok(())
}

/// Adds the object in a slot of a member, if there is one.
fn add_slot_objects(
    rows: &mut Vec<Object>,
    memory: &Plain,
    group: &Group,
    member: u16,
    slot: u32,
) -> Result<(), AllocError>
    requires few { slot < slots_of group.now.class }
    ensures { OnOk result
        (rows.new.items ≡ rows.old.items ++ slot_objects memory.now group.now.class member slot) }
{
    for serial in 0..memory.next_serial() {
        add(rows, object_at(memory, group.class, member, slot, serial)?)?;
    }
    Ok(())
}

/// Returns the physical pages of groups, and those that are taken and no group's.
fn homes_of(alloc: Global, heap: &Heap) -> Result<Vec<Home>, AllocError>
    ensures { IfOk result (λ rows. rows.items ≡ homes_of heap.now) }
{
    let mut rows = Vec::new(alloc);
    for group in heap.groups.as_slice() {
        add_homes(&mut rows, heap, group)?;
    }
    add_lost(&mut rows, heap)?;
    Ok(rows)
}

/// Adds the physical pages of a group.
fn add_homes(rows: &mut Vec<Home>, heap: &Heap, group: &Group) -> Result<(), AllocError>
    ensures { OnOk result (rows.new.items ≡ rows.old.items ++ group_homes heap.now.taken group.now) }
{
    for place in 0..group.pages.len() {
        add(rows, home_at(heap.taken.as_slice(), group, place)?)?;
    }
    Ok(())
}

/// Adds the physical pages that are taken and no group's.
fn add_lost(rows: &mut Vec<Home>, heap: &Heap) -> Result<(), AllocError>
    ensures { OnOk result (rows.new.items ≡ rows.old.items ++ lost_homes heap.now) }
{
    for page in heap.taken.as_slice() {
        if is_lost(heap.groups.as_slice(), *page) {
            rows.push(Home {
                group: NO_GROUP,
                place: 0,
                page: u32::from(*page),
                taken: true,
            })?;
        }
    }
    Ok(())
}

/// Returns the running meshes.
fn meshes_of(
    alloc: Global,
    memory: &Plain,
    heap: &Heap,
    stages: &Stages,
) -> Result<Vec<RunningMesh>, AllocError>
    ensures { IfOk result (λ rows. rows.items ≡ meshes_of memory.now heap.now stages.now) }
{
    let mut rows = Vec::new(alloc);
    for mesher in 0..stages.count() {
        add(&mut rows, mesh_row(memory, heap, stages, mesher))?;
    }
    Ok(rows)
}

/// Returns the page counts of a heap. Also returns an error if a number needs more than 32 bits.
fn counts_of(alloc: Global, heap: &Heap) -> Result<Counts, AllocError>
    ensures { IfOk result (λ counts. counts ≡ counts_of heap.now) }
{
    let leads = leads_in(alloc, heap.entries.as_slice())?;
    let (Ok(mapped), Ok(taken)) = (u32::try_from(leads.len()), u32::try_from(heap.taken.len()))
    else {
        return Err(AllocError);
    };
    Ok(Counts {
        mapped,
        taken,
        saved: mapped.saturating_sub(taken),
    })
}
