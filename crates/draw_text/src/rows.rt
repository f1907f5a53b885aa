//! The lines of a frame's rows.
ghost use Rattle.std.specs.Prelude.{◌≡◌, ◌++◌, codes, decimal, OnOk};
ghost use Rattle.draw_text.specs.Rows.{counts_line, home_line, lead_line, member_line, mesh_line, mesh_progress_text, object_line, progress_text};

use draw_picture::{Counts, Home, Mapping, Member, MeshProgress, Object, RunningMesh};
use mesh_running::Progress;
use std::alloc::AllocError;
use text_words::add_decimal;

/// Appends `group G class C span V`.
pub(crate) fn add_member(text: &mut Vec<u8>, member: Member) -> Result<(), AllocError>
    ensures { OnOk result (text.new.items ≡ text.old.items ++ member_line member) }
{
    add_count(text, b"  group ", member.group)?;
    add_count(text, b" class ", member.class.size())?;
    add_count(text, b" span ", member.first)?;
    text.push(b'\n')?;
    Ok(())
}

/// Appends `page V at P`, with ` read-only` if stores are blocked.
pub(crate) fn add_lead(text: &mut Vec<u8>, lead: Mapping) -> Result<(), AllocError>
    ensures { OnOk result (text.new.items ≡ text.old.items ++ lead_line lead) }
{
    add_count(text, b"  page ", lead.virtual_page)?;
    add_count(text, b" at ", lead.physical_page)?;
    if lead.read_only {
        text.extend_from_slice(b" read-only")?;
    }
    text.push(b'\n')?;
    Ok(())
}

/// Appends `object S span V slot K length L`.
pub(crate) fn add_object(text: &mut Vec<u8>, object: Object) -> Result<(), AllocError>
    ensures { OnOk result (text.new.items ≡ text.old.items ++ object_line object) }
{
    add_count(text, b"  object ", object.serial)?;
    add_count(text, b" span ", object.member)?;
    add_count(text, b" slot ", object.slot)?;
    add_count(text, b" length ", object.len)?;
    text.push(b'\n')?;
    Ok(())
}

/// Appends `physical P group G`, with ` released` if a mesh has returned the page.
pub(crate) fn add_home(text: &mut Vec<u8>, home: Home) -> Result<(), AllocError>
    ensures { OnOk result (text.new.items ≡ text.old.items ++ home_line home) }
{
    add_count(text, b"  physical ", home.page)?;
    add_count(text, b" group ", home.group)?;
    if !home.taken {
        text.extend_from_slice(b" released")?;
    }
    text.push(b'\n')?;
    Ok(())
}

/// Appends `mesh SRC:DST class C` and the progress of the mesh.
pub(crate) fn add_mesh(text: &mut Vec<u8>, mesh: RunningMesh) -> Result<(), AllocError>
    ensures { OnOk result (text.new.items ≡ text.old.items ++ mesh_line mesh) }
{
    add_count(text, b"  mesh ", mesh.source)?;
    add_count(text, b":", mesh.destination)?;
    add_count(text, b" class ", mesh.class.size())?;
    add_progress(text, mesh.progress)?;
    text.push(b'\n')?;
    Ok(())
}

/// Appends the progress of a mesh: that of its steps, or ` moves M`.
fn add_progress(text: &mut Vec<u8>, progress: MeshProgress) -> Result<(), AllocError>
    ensures { OnOk result (text.new.items ≡ text.old.items ++ mesh_progress_text progress) }
{
    match progress {
        MeshProgress::Steps(progress) => add_steps(text, progress),
        MeshProgress::Moves(made, _) => add_count(text, b" moves ", made),
    }
}

/// Appends ` steps D`, or ` cancelled protected Q unprotected U`.
fn add_steps(text: &mut Vec<u8>, progress: Progress) -> Result<(), AllocError>
    ensures { OnOk result (text.new.items ≡ text.old.items ++ progress_text progress) }
{
    match progress {
        Progress::Made(steps) => add_count(text, b" steps ", steps),
        Progress::Unwinding(protected, unprotected) => {
            add_count(text, b" cancelled protected ", protected)?;
            add_count(text, b" unprotected ", unprotected)
        }
    }
}

/// Appends `pages mapped M taken T saved S`.
pub(crate) fn add_counts(text: &mut Vec<u8>, counts: Counts) -> Result<(), AllocError>
    ensures { OnOk result (text.new.items ≡ text.old.items ++ counts_line counts) }
{
    add_count(text, b"  pages mapped ", counts.mapped)?;
    add_count(text, b" taken ", counts.taken)?;
    add_count(text, b" saved ", counts.saved)?;
    text.push(b'\n')?;
    Ok(())
}

/// Appends words and a number.
fn add_count(text: &mut Vec<u8>, words: &[u8], count: u32) -> Result<(), AllocError>
    ensures { OnOk result (text.new.items ≡ text.old.items ++ (words.now ++ decimal count)) }
{
    text.extend_from_slice(words)?;
    add_decimal(text, u64::from(count))
}
