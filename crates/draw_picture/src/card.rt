//! Drawing a card: a frame of a heap, with the lines of the plan above it.
ghost use Rattle.std.specs.Prelude.{◌≡◌, ◌++◌, OnOk};
ghost use Rattle.draw_picture.specs.Cards.{bars_text, card_text, heap_text};

use crate::frame::{Frame, RunningMesh};
use crate::gathering::Gathering;
use crate::layout::{BAR, above};
use crate::mesh_bar::write_mesh;
use crate::numbers::{narrow, plus, times};
use crate::occupancy::write_map;
use crate::pages::{Scene, write_pages};
use crate::pills::{LINE, write_captions};
use draw_svg::{Area, Look, end_group, write_group, write_rect};
use std::alloc::AllocError;

/// Appends a card in this area: its rectangle, the gathered lines, the running meshes, and the heap below them.
#[tactic(auto, unfolding(crate::specs::Cards::card_text))]
pub(crate) fn write_card(
    text: &mut Vec<u8>,
    gathering: &Gathering,
    scene: Scene<'_>,
    area: Area,
) -> Result<(), AllocError>
    ensures { OnOk result
        (text.new.items ≡ text.old.items
        ++ card_text gathering.now scene.entry.layout.now scene.entry.now.now scene.entry.before.now area) }
{
    write_rect(text, &Look::of("card"), &area, 60)?;
    write_group(text, area.x, area.y)?;
    write_captions(text, gathering)?;
    write_bars(text, scene, plus(times(gathering.height(), LINE), 120))?;
    write_heap(
        text,
        scene,
        above(gathering.height(), narrow(scene.now.meshes.len())),
    )?;
    end_group(text)
}

/// Appends the bars of the running meshes, one below the other from the height `top` on.
fn write_bars(text: &mut Vec<u8>, scene: Scene<'_>, top: u32) -> Result<(), AllocError>
    ensures { OnOk result
        (text.new.items ≡ text.old.items ++ bars_text scene.entry.now.now scene.entry.layout.now.card top scene.entry.now.now.meshes.items) }
{
    let mut y = top;
    let mut rest = scene.now.meshes.as_slice();
    while let [mesh, behind @ ..] = rest {
        write_mesh(text, scene.now, scene.layout.card, y, mesh)?;
        y = plus(y, BAR);
        rest = behind;
    }
    Ok(())
}

/// Appends the heap from the height `top` on: its pages, or a map of occupancy.
#[tactic(auto, unfolding(crate::specs::Cards::heap_text))]
fn write_heap(text: &mut Vec<u8>, scene: Scene<'_>, top: u32) -> Result<(), AllocError>
    ensures { OnOk result
        (text.new.items ≡ text.old.items ++ heap_text scene.entry.layout.now scene.entry.now.now scene.entry.before.now top) }
{
    write_group(text, 0, top)?;
    if scene.layout.by_pages {
        write_pages(text, scene)?;
    } else {
        write_map(text, scene.now, scene.layout.card)?;
    }
    end_group(text)
}
