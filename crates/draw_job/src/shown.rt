//! Reads a frame from a heap.
ghost use Rattle.std.specs.Prelude.{◌≡◌, ◌<◌, ◌≤◌, ◌++◌, IfOk, IfSome, OnOk, length, slice_get};
ghost use Rattle.std.specs.Option.{option_map};
ghost use Rattle.model_heap.specs.Table.{report_of};
ghost use Rattle.mesh_steps.specs.Heap.{arena_of, table_of};
ghost use Rattle.draw_job.specs.Frames.{AddsGroup, IsFrame, counts_row, first_in, home_row, homes_of_class, leads_of_class, leads_of_member, listed, listing, member_row, members_of_class, mesh_row, meshes_of, object_row, objects_of_class, objects_of_member};

use draw_picture::{Counts, Frame, Home, Mapping, Member, MeshProgress, Object, RunningMesh};
use mesh_class::Class;
use mesh_steps::Heap;
use std::alloc::{AllocError, Global};

/// The greatest number of members of a group.
const MAX_MEMBERS: usize = 8;

/// The greatest number of meshes that run at once.
const MAX_MESHES: usize = 10;

/// The frame of a heap: what a picture shows of it.
pub fn frame_of(alloc: Global, heap: &Heap) -> Result<Frame, AllocError>
    ensures { IfOk result (IsFrame heap.now) }
{
    let mut frame = Frame {
        members: Vec::new(alloc),
        leads: Vec::new(alloc),
        objects: Vec::new(alloc),
        homes: Vec::new(alloc),
        meshes: meshes_of(alloc, heap)?,
        hidden: Vec::new(alloc),
        mark: None,
        counts: counts_of(heap),
    };
    for group in 0..heap.next_page() {
        add_group(&mut frame, heap, group)?;
    }
    Ok(frame)
}

/// Adds the contents of a group, if the group exists.
fn add_group(frame: &mut Frame, heap: &Heap, group: u32) -> Result<(), AllocError>
    ensures { OnOk result (AddsGroup heap.now group frame.old frame.new) }
{
    let Some(class) = heap.class_of(group) else {
        return Ok(());
    };
    add_members(&mut frame.members, heap, group, class)?;
    add_leads(&mut frame.leads, heap, group, class)?;
    add_objects(&mut frame.objects, heap, group, class)?;
    add_homes(&mut frame.homes, heap, group, class)
}

/// Adds the members of a group.
fn add_members(
    rows: &mut Vec<Member>,
    heap: &Heap,
    group: u32,
    class: Class,
) -> Result<(), AllocError>
    ensures { OnOk result (rows.new.items ≡ rows.old.items ++ members_of_class heap.now group class) }
{
    for place in 0..MAX_MEMBERS {
        add(rows, member_at(heap, group, class, place))?;
    }
    Ok(())
}

/// The member of a group at a place, or `None` if no member is there.
fn member_at(heap: &Heap, group: u32, class: Class, place: usize) -> Option<Member>
    ensures { result ≡ member_row heap.now group class place }
{
    let first = heap.member(group, place)?;
    Some(Member {
        group,
        class,
        first,
    })
}

/// Adds the mappings of the pages of a group's members.
fn add_leads(
    rows: &mut Vec<Mapping>,
    heap: &Heap,
    group: u32,
    class: Class,
) -> Result<(), AllocError>
    ensures { OnOk result (rows.new.items ≡ rows.old.items ++ leads_of_class heap.now group class) }
{
    for place in 0..MAX_MEMBERS {
        add_member_leads(rows, heap, class, heap.member(group, place))?;
    }
    Ok(())
}

/// Adds the mappings of the pages of a member, if there is a member.
fn add_member_leads(
    rows: &mut Vec<Mapping>,
    heap: &Heap,
    class: Class,
    member: Option<u32>,
) -> Result<(), AllocError>
    requires { IfSome member (λ first. (1 ≤ first) × (first < 65536)) }
    ensures { OnOk result (rows.new.items ≡ rows.old.items ++ listing member (leads_of_member heap.now class)) }
{
    let Some(first) = member else {
        return Ok(());
    };
    for place in 0..class.pages() {
        add(rows, heap.lead(first + place))?;
    }
    Ok(())
}

/// Adds the objects of a group's members.
fn add_objects(
    rows: &mut Vec<Object>,
    heap: &Heap,
    group: u32,
    class: Class,
) -> Result<(), AllocError>
    ensures { OnOk result (rows.new.items ≡ rows.old.items ++ objects_of_class heap.now group class) }
{
    for place in 0..MAX_MEMBERS {
        add_member_objects(rows, heap, group, class, place)?;
    }
    Ok(())
}

/// Adds the objects of the member at a place of a group, if that member exists.
fn add_member_objects(
    rows: &mut Vec<Object>,
    heap: &Heap,
    group: u32,
    class: Class,
    place: usize,
) -> Result<(), AllocError>
    ensures { OnOk result
        (rows.new.items ≡ rows.old.items
        ++ listing (first_in heap.now group place) (objects_of_member heap.now group class place)) }
{
    let Some(first) = heap.member(group, place) else {
        return Ok(());
    };
    for slot in 0..class.slots() {
        add(rows, object_at(heap, group, place, first, slot))?;
    }
    Ok(())
}

/// The object in a slot of the member at a place of a group, or `None` if no object is there. The member begins at
/// virtual page `member`.
fn object_at(heap: &Heap, group: u32, place: usize, member: u32, slot: u32) -> Option<Object>
    ensures { result ≡ object_row heap.now group place member slot }
{
    let (serial, len) = heap.object(group, place, slot)?;
    Some(Object {
        member,
        slot,
        serial,
        len,
    })
}

/// Adds the physical pages of a group.
fn add_homes(rows: &mut Vec<Home>, heap: &Heap, group: u32, class: Class) -> Result<(), AllocError>
    ensures { OnOk result (rows.new.items ≡ rows.old.items ++ homes_of_class heap.now group class) }
{
    for place in 0..class.pages() {
        add(rows, home_at(heap, group, place))?;
    }
    Ok(())
}

/// The physical page at a place of a group, or `None` if no page is there.
fn home_at(heap: &Heap, group: u32, place: u32) -> Option<Home>
    ensures { result ≡ home_row heap.now group place }
{
    let page = heap.home(group, place as usize)?;
    Some(Home {
        group,
        place,
        page,
        taken: place >= heap.released(group),
    })
}

/// The running meshes.
fn meshes_of(alloc: Global, heap: &Heap) -> Result<Vec<RunningMesh>, AllocError>
    ensures { IfOk result (λ rows. rows.items ≡ meshes_of heap.now) }
{
    let mut rows = Vec::new(alloc);
    for place in 0..MAX_MESHES {
        add(&mut rows, mesh_at(heap, place))?;
    }
    Ok(rows)
}

/// The running mesh at a place, or `None` if no mesh is there.
fn mesh_at(heap: &Heap, place: usize) -> Option<RunningMesh>
    ensures { result ≡ option_map mesh_row (slice_get (table_of heap.now).meshes place) }
{
    let mesh = heap.mesh(place)?;
    Some(RunningMesh {
        class: mesh.class(),
        source: mesh.source(),
        destination: mesh.destination(),
        progress: MeshProgress::Steps(mesh.progress()),
    })
}

/// The page counts of a heap.
fn counts_of(heap: &Heap) -> Counts
    ensures { result ≡ counts_row (report_of (length (arena_of heap.now)) (table_of heap.now)) }
{
    let report = heap.report();
    Counts {
        mapped: report.mapped,
        taken: report.taken,
        saved: report.saved,
    }
}

/// Adds a row, if there is one.
fn add<T: Drop>(rows: &mut Vec<T>, row: Option<T>) -> Result<(), AllocError>
    ensures { OnOk result (rows.new.items ≡ rows.old.items ++ listed row) }
{
    if let Some(row) = row {
        rows.push(row)?;
    }
    Ok(())
}
