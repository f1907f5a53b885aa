//! The text of a point of a plan: a line, and the heap after it.
ghost use Rattle.std.specs.Prelude.{◌≡◌, ◌++◌, codes, decimal, OnOk};
ghost use Rattle.std.specs.List.{flat_map};
ghost use Rattle.draw_text.specs.Points.{frame_text, head_line, point_text};
ghost use Rattle.draw_text.specs.Rows.{home_line, lead_line, member_line, mesh_line, object_line};

use crate::rows::{add_counts, add_home, add_lead, add_member, add_mesh, add_object};
use draw_picture::{Frame, Home, Mapping, Member, Object, RunningMesh};
use std::alloc::AllocError;
use text_words::add_decimal;

/// A line of a plan with its answer, and the heap after the line.
#[derive(Clone, Copy)]
pub struct Point<'a> {
    /// The line's number in the plan, counted from 1.
    pub number: u32,
    /// The line, with the command that a worker attempts.
    pub words: &'a [u8],
    /// The answer, as a replay prints it.
    pub answer: &'a [u8],
    /// The heap after the line.
    pub frame: &'a Frame,
}

/// Appends the line `line N: WORDS -> ANSWER`, and behind it a line for each row of the frame, two spaces before each:
///
/// - `group G class C span V` for each member of a group: its first virtual page V;
/// - `page V at P` for each virtual page of a member: its physical page, with ` read-only` if stores are blocked;
/// - `object S span V slot K length L` for each live object: its serial number, its member, its slot, and its bytes;
/// - `physical P group G` for each physical page of a group, with ` released` if a mesh has returned it;
/// - `mesh SRC:DST class C steps D` for each running mesh: the number of steps that it has made. A cancelled mesh has
///   `cancelled protected Q unprotected U` instead of its steps;
/// - `pages mapped M taken T saved S`.
pub fn add_point(text: &mut Vec<u8>, point: &Point<'_>) -> Result<(), AllocError>
    ensures { OnOk result (text.new.items ≡ text.old.items
        ++ point_text point.now.number point.now.words.now point.now.answer.now point.now.frame.now) }
{
    add_head(text, point)?;
    add_frame(text, point.frame)
}

/// Appends the line of a point.
fn add_head(text: &mut Vec<u8>, point: &Point<'_>) -> Result<(), AllocError>
    ensures { OnOk result (text.new.items ≡ text.old.items
        ++ head_line point.now.number point.now.words.now point.now.answer.now) }
{
    text.extend_from_slice(b"line ")?;
    add_decimal(text, u64::from(point.number))?;
    text.extend_from_slice(b": ")?;
    text.extend_from_slice(point.words)?;
    text.extend_from_slice(b" -> ")?;
    text.extend_from_slice(point.answer)?;
    text.push(b'\n')?;
    Ok(())
}

/// Appends the rows of a frame.
fn add_frame(text: &mut Vec<u8>, frame: &Frame) -> Result<(), AllocError>
    ensures { OnOk result (text.new.items ≡ text.old.items ++ frame_text frame.now) }
{
    add_members(text, frame.members.as_slice())?;
    add_leads(text, frame.leads.as_slice())?;
    add_objects(text, frame.objects.as_slice())?;
    add_homes(text, frame.homes.as_slice())?;
    add_meshes(text, frame.meshes.as_slice())?;
    add_counts(text, frame.counts)
}

fn add_members(text: &mut Vec<u8>, members: &[Member]) -> Result<(), AllocError>
    ensures { OnOk result (text.new.items ≡ text.old.items ++ flat_map member_line members.now) }
{
    let mut rest = members;
    while let [member, behind @ ..] = rest {
        add_member(text, *member)?;
        rest = behind;
    }
    Ok(())
}

fn add_leads(text: &mut Vec<u8>, leads: &[Mapping]) -> Result<(), AllocError>
    ensures { OnOk result (text.new.items ≡ text.old.items ++ flat_map lead_line leads.now) }
{
    let mut rest = leads;
    while let [lead, behind @ ..] = rest {
        add_lead(text, *lead)?;
        rest = behind;
    }
    Ok(())
}

fn add_objects(text: &mut Vec<u8>, objects: &[Object]) -> Result<(), AllocError>
    ensures { OnOk result (text.new.items ≡ text.old.items ++ flat_map object_line objects.now) }
{
    let mut rest = objects;
    while let [object, behind @ ..] = rest {
        add_object(text, *object)?;
        rest = behind;
    }
    Ok(())
}

fn add_homes(text: &mut Vec<u8>, homes: &[Home]) -> Result<(), AllocError>
    ensures { OnOk result (text.new.items ≡ text.old.items ++ flat_map home_line homes.now) }
{
    let mut rest = homes;
    while let [home, behind @ ..] = rest {
        add_home(text, *home)?;
        rest = behind;
    }
    Ok(())
}

fn add_meshes(text: &mut Vec<u8>, meshes: &[RunningMesh]) -> Result<(), AllocError>
    ensures { OnOk result (text.new.items ≡ text.old.items ++ flat_map mesh_line meshes.now) }
{
    let mut rest = meshes;
    while let [mesh, behind @ ..] = rest {
        add_mesh(text, *mesh)?;
        rest = behind;
    }
    Ok(())
}
