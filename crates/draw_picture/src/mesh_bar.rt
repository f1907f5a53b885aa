//! Drawing the bars of running meshes.
ghost use Rattle.std.specs.Prelude.{◌≡◌, ◌++◌, OnOk};
ghost use Rattle.draw_picture.specs.Meshes.{bar_text, kind_part, kind_words, made_of, mesh_text, moves_text, part_area, progress_text, steps_text, unwinding_text, unwinding_words};
ghost use Rattle.mesh_running.specs.StepOrders.{IsStepOrder, steps_before};

use crate::alike::order_of;
use crate::frame::{Frame, MeshProgress, RunningMesh};
use crate::layout::PAD;
use crate::lettering::{Face, Label};
use crate::numbers::{plus, share, times};
use draw_svg::{Area, Look, end_group, words_of, write_group, write_rect};
use mesh_running::{Progress, StepOrder, kind_name};
use model_words::StepKind;
use std::alloc::AllocError;

/// The least width of a part of a bar in which steps are counted: the longest words have 15 letters.
const COUNTED: u32 = 1_000;

/// Appends the bar of a running mesh at the height `y` of a card with the width `card`: the numbers of its two groups,
/// and its progress.
#[tactic(auto, unfolding(crate::specs::Meshes::mesh_text))]
pub(crate) fn write_mesh(
    text: &mut Vec<u8>,
    frame: &Frame,
    card: u32,
    y: u32,
    mesh: &RunningMesh,
) -> Result<(), AllocError>
    ensures { OnOk result (text.new.items ≡ text.old.items ++ mesh_text frame.now card y mesh.now) }
{
    write_group(text, PAD, y)?;
    Label::start(Face::Strong, "blue", 0, 120).say(
        text,
        "mesh # -> #",
        &[mesh.source, mesh.destination],
    )?;
    write_progress(text, frame, card, mesh)?;
    end_group(text)
}

/// Appends the progress of a mesh: that of its steps, or the number of its moves.
#[tactic(auto, unfolding(crate::specs::Meshes::progress_text))]
fn write_progress(
    text: &mut Vec<u8>,
    frame: &Frame,
    card: u32,
    mesh: &RunningMesh,
) -> Result<(), AllocError>
    ensures { OnOk result (text.new.items ≡ text.old.items ++ progress_text frame.now card mesh.now mesh.now.progress) }
{
    match mesh.progress {
        MeshProgress::Steps(progress) => write_steps(text, frame, card, mesh, progress),
        MeshProgress::Moves(made, _) => write_moves(text, made),
    }
}

/// Appends the progress of a mesh's steps: a part for each kind of step, or what a cancelled mesh has to do.
#[tactic(auto, unfolding(crate::specs::Meshes::steps_text))]
fn write_steps(
    text: &mut Vec<u8>,
    frame: &Frame,
    card: u32,
    mesh: &RunningMesh,
    progress: Progress,
) -> Result<(), AllocError>
    ensures { OnOk result (text.new.items ≡ text.old.items ++ steps_text frame.now card mesh.now progress) }
{
    match progress {
        Progress::Made(made) => {
            let width = card.saturating_sub(2 * PAD) / 5;
            write_bar(text, order_of(frame, mesh), made, width)
        }
        Progress::Unwinding(all, undone) => write_unwinding(text, all.saturating_sub(undone)),
    }
}

/// Appends the number of moves that a mesh by another list of steps has made.
#[tactic(auto, unfolding(crate::specs::Meshes::moves_text))]
fn write_moves(text: &mut Vec<u8>, made: u32) -> Result<(), AllocError>
    ensures { OnOk result (text.new.items ≡ text.old.items ++ moves_text made) }
{
    Label::start(Face::Plain, "ink", 0, 280).say(text, "moves made: #", &[made])
}

/// Appends what a cancelled mesh has to do: it must still unprotect this number of pages.
#[tactic(auto, unfolding(crate::specs::Meshes::unwinding_text))]
fn write_unwinding(text: &mut Vec<u8>, pages: u32) -> Result<(), AllocError>
    ensures { OnOk result (text.new.items ≡ text.old.items ++ unwinding_text pages) }
{
    Label::start(Face::Strong, "red", 0, 280).say(text, unwinding_words(pages), &[pages])
}

/// Returns the words for a cancelled mesh that must still unprotect this number of pages.
fn unwinding_words(pages: u32) -> &'static str
    ensures { result.now ≡ unwinding_words pages }
{
    if pages == 1 {
        "cancelled: # page to unprotect"
    } else {
        "cancelled: # pages to unprotect"
    }
}

/// Appends a part of the width `width` for each kind of step of a mesh that has made `made` steps.
#[tactic(auto, unfolding(crate::specs::Meshes::bar_text))]
fn write_bar(text: &mut Vec<u8>, order: StepOrder, made: u32, width: u32) -> Result<(), AllocError>
    requires { IsStepOrder order }
    ensures { OnOk result (text.new.items ≡ text.old.items ++ bar_text order made width) }
{
    write_kind(text, order, made, StepKind::Protect, 0, width)?;
    write_kind(text, order, made, StepKind::Copy, 1, width)?;
    write_kind(text, order, made, StepKind::Remap, 2, width)?;
    write_kind(text, order, made, StepKind::Unprotect, 3, width)?;
    write_kind(text, order, made, StepKind::Release, 4, width)
}

/// Returns how many steps of a kind are among the first `made` steps.
fn made_of(order: StepOrder, made: u32, kind: StepKind) -> u32
    requires { IsStepOrder order }
    ensures { result ≡ made_of order made kind }
{
    made.saturating_sub(steps_before(order, kind))
        .min(order.steps_of(kind))
}

/// Returns the number of steps before those of a kind.
fn steps_before(order: StepOrder, kind: StepKind) -> u32
    requires { IsStepOrder order }
    ensures { result ≡ steps_before order kind }
{
    match kind {
        StepKind::Protect => 0,
        StepKind::Copy => order.virtual_pages,
        StepKind::Remap => order.virtual_pages + order.slots,
        StepKind::Unprotect => 2 * order.virtual_pages + order.slots,
        StepKind::Release => 3 * order.virtual_pages + order.slots,
    }
}

/// Appends the part of a bar for one kind of step, at the index `place` of the bar.
#[tactic(auto, unfolding(crate::specs::Meshes::kind_part))]
fn write_kind(
    text: &mut Vec<u8>,
    order: StepOrder,
    made: u32,
    kind: StepKind,
    place: u32,
    width: u32,
) -> Result<(), AllocError>
    requires { IsStepOrder order }
    ensures { OnOk result (text.new.items ≡ text.old.items ++ kind_part order made width kind place) }
{
    let all = order.steps_of(kind);
    let done = made_of(order, made, kind);
    let area = part_area(times(place, width), width.saturating_sub(30));
    write_rect(text, &Look::of("ahead"), &area, 30)?;
    write_rect(
        text,
        &Look::of("made"),
        &part_area(area.x, share(area.w, done, all)),
        30,
    )?;
    write_kind_name(text, kind, done, all, area)
}

/// Appends the name of a kind of step in its part of a bar, with the number of steps that were made and that of all
/// steps if there is room for them.
#[tactic(auto, unfolding(crate::specs::Meshes::kind_words))]
fn write_kind_name(
    text: &mut Vec<u8>,
    kind: StepKind,
    done: u32,
    all: u32,
    area: Area,
) -> Result<(), AllocError>
    ensures { OnOk result (text.new.items ≡ text.old.items ++ kind_words kind done all area) }
{
    let label = Label::middle(Face::Plain, "ink", plus(area.x, area.w / 2), 278);
    let name = kind_name(kind).as_bytes();
    if area.w < COUNTED {
        return label.write(text, name);
    }
    let words = words_of(*text.allocator(), name, " #/#", &[done, all])?;
    label.write(text, words.as_slice())
}

/// Returns the area of a part of a bar.
fn part_area(x: u32, w: u32) -> Area
    ensures { result ≡ part_area x w }
{
    Area {
        x,
        y: 160,
        w,
        h: 160,
    }
}
