//! Drawing the map of occupancy: a row for each member of each group.
ghost use Rattle.std.specs.Prelude.{◌≡◌, ◌++◌, OnOk};
ghost use Rattle.std.specs.List.{flat_map};
ghost use Rattle.draw_picture.specs.Occupancy.{is_held, left_out_text, map_text, member_text, occupied, occupied_text, role_text, row_text, rows_text, slots_text, state_text};

use crate::frame::{Frame, Member, Object, RunningMesh};
use crate::layout::{MAX_ROWS, PAD, ROW};
use crate::lettering::{Face, Label};
use crate::numbers::{narrow, plus, share, times};
use crate::pages::write_counts;
use crate::parts::{GROUP_COLOURS, has_page};
use draw_svg::{Area, Look, end_group, write_group, write_rect};
use std::alloc::AllocError;

/// The width of the area that shows a member's slots.
const SLOTS: u32 = 3_000;

/// The left or right sides of a row's columns.
const CLASS: u32 = 1_250;

const SPAN: u32 = 1_350;

const MAP: u32 = 2_150;

const COUNT: u32 = 5_700;

const HELD: u32 = 5_800;

const MESH: u32 = 6_500;

/// The upper side of the first row.
const TOP: u32 = 200;

/// Appends the map of a frame: the counts, a row for each member up to `MAX_ROWS` rows, and the number of members that
/// are left out.
#[tactic(auto, unfolding(crate::specs::Occupancy::map_text))]
pub(crate) fn write_map(text: &mut Vec<u8>, frame: &Frame, card: u32) -> Result<(), AllocError>
    ensures { OnOk result (text.new.items ≡ text.old.items ++ map_text frame.now card) }
{
    write_counts(text, &frame.counts, card, 110)?;
    let members = frame.members.as_slice();
    let shown = members.len().min(MAX_ROWS);
    write_rows(text, frame, &members[..shown])?;
    write_left_out(text, narrow(members.len() - shown))
}

/// Appends a row for each of these members.
fn write_rows(text: &mut Vec<u8>, frame: &Frame, members: &[Member]) -> Result<(), AllocError>
    ensures { OnOk result (text.new.items ≡ text.old.items ++ rows_text frame.now 0 members.now) }
{
    let mut row = 0u32;
    let mut rest = members;
    while let [member, behind @ ..] = rest {
        write_row(text, frame, row, member)?;
        row = plus(row, 1);
        rest = behind;
    }
    Ok(())
}

/// Appends the number of members that are left out, if there are any.
#[tactic(auto, unfolding(crate::specs::Occupancy::left_out_text))]
fn write_left_out(text: &mut Vec<u8>, members: u32) -> Result<(), AllocError>
    ensures { OnOk result (text.new.items ≡ text.old.items ++ left_out_text members) }
{
    if members == 0 {
        return Ok(());
    }
    let line = plus(TOP + 110, times(MAX_ROWS as u32, ROW));
    Label::start(Face::Plain, "soft", PAD, line).say(text, ".. and # more spans", &[members])
}

/// Appends the row of a member.
#[tactic(auto, unfolding(crate::specs::Occupancy::row_text))]
fn write_row(text: &mut Vec<u8>, frame: &Frame, row: u32, member: &Member) -> Result<(), AllocError>
    ensures { OnOk result (text.new.items ≡ text.old.items ++ row_text frame.now row member.now) }
{
    write_group(text, PAD, plus(TOP, times(row, ROW)))?;
    write_member(text, member)?;
    write_slots(text, frame, member)?;
    write_state(text, frame, member)?;
    write_roles(text, frame, member.group)?;
    end_group(text)
}

/// Appends the roles of a group in running meshes.
fn write_roles(text: &mut Vec<u8>, frame: &Frame, group: u32) -> Result<(), AllocError>
    ensures { OnOk result (text.new.items ≡ text.old.items ++ flat_map (role_text group) frame.now.meshes.items) }
{
    for mesh in frame.meshes.as_slice() {
        write_role(text, group, mesh)?;
    }
    Ok(())
}

/// Appends the group, the class and the span of a member.
#[tactic(auto, unfolding(crate::specs::Occupancy::member_text))]
fn write_member(text: &mut Vec<u8>, member: &Member) -> Result<(), AllocError>
    ensures { OnOk result (text.new.items ≡ text.old.items ++ member_text member.now) }
{
    Label::start(Face::Strong, "", 0, 110)
        .inked("k", member.group % GROUP_COLOURS)
        .within(CLASS - 480)
        .say(text, "group #", &[member.group])?;
    Label::end(Face::Plain, "soft", CLASS, 110).say(text, "# B", &[member.class.size()])?;
    Label::start(Face::Plain, "soft", SPAN, 110)
        .within(MAP - SPAN - 60)
        .say(text, "span #", &[member.first])
}

/// Appends which slots of a member are occupied.
#[tactic(auto, unfolding(crate::specs::Occupancy::slots_text))]
fn write_slots(text: &mut Vec<u8>, frame: &Frame, member: &Member) -> Result<(), AllocError>
    ensures { OnOk result (text.new.items ≡ text.old.items ++ slots_text frame.now member.now) }
{
    let look = Look::of(if is_held(frame, member) { "rom" } else { "pg" });
    let area = Area {
        x: MAP,
        y: 20,
        w: SLOTS,
        h: 110,
    };
    write_rect(text, &look, &area, 0)?;
    write_all_occupied(text, frame, member)
}

/// Appends the occupied slots of a member.
fn write_all_occupied(text: &mut Vec<u8>, frame: &Frame, member: &Member) -> Result<(), AllocError>
    ensures { OnOk result
        (text.new.items ≡ text.old.items ++ flat_map (occupied_text member.now) frame.now.objects.items) }
{
    for object in frame.objects.as_slice() {
        write_occupied(text, member, object)?;
    }
    Ok(())
}

/// Whether a page of a member is read-only.
fn is_held(frame: &Frame, member: &Member) -> bool
    ensures { result ≡ is_held frame.now member.now }
{
    let mut rest = frame.leads.as_slice();
    while let [lead, behind @ ..] = rest {
        if lead.read_only && has_page(member, lead.virtual_page) {
            return true;
        }
        rest = behind;
    }
    false
}

/// Appends an occupied slot of a member, if the object is one of the member's.
#[tactic(auto, unfolding(crate::specs::Occupancy::occupied_text))]
fn write_occupied(text: &mut Vec<u8>, member: &Member, object: &Object) -> Result<(), AllocError>
    ensures { OnOk result (text.new.items ≡ text.old.items ++ occupied_text member.now object.now) }
{
    if object.member != member.first {
        return Ok(());
    }
    let slots = member.class.slots();
    let area = Area {
        x: plus(MAP, share(SLOTS, object.slot, slots)),
        y: 30,
        w: share(SLOTS, 1, slots),
        h: 90,
    };
    write_rect(text, &Look::of("occ"), &area, 0)
}

/// Returns the number of a member's objects.
fn occupied(frame: &Frame, member: &Member) -> u32
    ensures { result ≡ occupied frame.now member.now }
{
    let mut count = 0u32;
    let mut rest = frame.objects.as_slice();
    while let [object, behind @ ..] = rest {
        if object.member == member.first {
            count = plus(count, 1);
        }
        rest = behind;
    }
    count
}

/// Appends the number of occupied slots of a member, and a mark if a page of the member is read-only.
#[tactic(auto, unfolding(crate::specs::Occupancy::state_text))]
fn write_state(text: &mut Vec<u8>, frame: &Frame, member: &Member) -> Result<(), AllocError>
    ensures { OnOk result (text.new.items ≡ text.old.items ++ state_text frame.now member.now) }
{
    let objects = occupied(frame, member);
    Label::end(Face::Plain, "ink", COUNT, 110).say(text, "#/#", &[objects, member.class.slots()])?;
    if is_held(frame, member) {
        Label::start(Face::Strong, "amber", HELD, 110).say(text, "read-only", &[])
    } else {
        Ok(())
    }
}

/// Appends the role of a group in a running mesh, if it is the mesh's source or destination.
#[tactic(auto, unfolding(crate::specs::Occupancy::role_text))]
fn write_role(text: &mut Vec<u8>, group: u32, mesh: &RunningMesh) -> Result<(), AllocError>
    ensures { OnOk result (text.new.items ≡ text.old.items ++ role_text group mesh.now) }
{
    let label = Label::start(Face::Strong, "blue", MESH, 110);
    if mesh.source == group {
        label.say(text, "goes into #", &[mesh.destination])
    } else if mesh.destination == group {
        label.say(text, "takes in #", &[mesh.source])
    } else {
        Ok(())
    }
}
