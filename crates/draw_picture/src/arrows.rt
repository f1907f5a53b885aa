//! Drawing the arrow from each virtual page to its physical page.
ghost use Rattle.std.specs.Prelude.{◌≡◌, ◌++◌, ◌∷◌, [], OnOk};
ghost use Rattle.draw_picture.specs.Arrows.{arrow_style, arrow_text, arrows_text, curve_text, head_text, lead_text, line_rule, middle, moved_from, was_text};
ghost use Rattle.draw_svg.specs.Shapes.{style_of};

use crate::frame::{Frame, Mapping};
use crate::layout::{Layout, PAGE_HEIGHT};
use crate::numbers::plus;
use crate::objects::add_point;
use crate::pages::{PHYSICAL, Scene, VIRTUAL};
use crate::parts::{groups_colour, lead_of};
use draw_svg::{Look, Way, write_path};
use std::alloc::AllocError;

/// The upper end and the lower end of an arrow.
const HIGH: u32 = VIRTUAL + PAGE_HEIGHT + 310;

const LOW: u32 = PHYSICAL - 40;

/// The length of the straight part at both ends of an arrow.
const BEND: u32 = 260;

/// Appends an arrow from each virtual page that has a place to the physical page that it is mapped to.
#[tactic(auto, unfolding(crate::specs::Arrows::arrows_text))]
pub(crate) fn write_arrows(text: &mut Vec<u8>, scene: Scene<'_>) -> Result<(), AllocError>
    ensures { OnOk result
        (text.new.items ≡ text.old.items ++ arrows_text scene.entry.layout.now scene.entry.now.now scene.entry.before.now) }
{
    for lead in scene.now.leads.as_slice() {
        write_lead(text, scene, lead)?;
    }
    Ok(())
}

/// Appends the arrow of a mapping, if the virtual page has a place.
#[tactic(auto, unfolding(crate::specs::Arrows::lead_text))]
fn write_lead(text: &mut Vec<u8>, scene: Scene<'_>, lead: &Mapping) -> Result<(), AllocError>
    ensures { OnOk result
        (text.new.items ≡ text.old.items ++ lead_text scene.entry.layout.now scene.entry.now.now scene.entry.before.now lead.now) }
{
    match scene.layout.span_of(lead.virtual_page) {
        None => Ok(()),
        Some(span) => {
            let place = lead.virtual_page.saturating_sub(span.first);
            let from = plus(scene.layout.page_left(&span, place), scene.layout.page / 2);
            write_arrow(text, scene, lead, from)
        }
    }
}

/// Returns the horizontal middle of a physical page.
fn middle(layout: &Layout, page: u32) -> u32
    ensures { result ≡ middle layout.now page }
{
    plus(layout.physical_left(page), layout.page / 2)
}

/// Appends the arrow of a mapping, which starts at `from`. If the virtual page was mapped to another physical page in
/// the frame before, also appends a curve to that page.
#[tactic(auto, unfolding(crate::specs::Arrows::arrow_text))]
fn write_arrow(
    text: &mut Vec<u8>,
    scene: Scene<'_>,
    lead: &Mapping,
    from: u32,
) -> Result<(), AllocError>
    ensures { OnOk result
        (text.new.items ≡ text.old.items ++ arrow_text scene.entry.layout.now scene.entry.now.now scene.entry.before.now lead.now from) }
{
    let was = moved_from(scene.before, lead);
    write_was(text, scene.layout, was, from)?;
    let look = arrow_look(scene.now, lead, was.is_some());
    let to = middle(scene.layout, lead.physical_page);
    write_curve(
        text,
        look.with(line_rule(lead.read_only, was.is_some())),
        from,
        to,
    )?;
    write_head(text, look, to)
}

/// Returns the physical page that a virtual page was mapped to in the frame before. Returns `None` if it is the same
/// now, or if the virtual page wasn't mapped.
fn moved_from(before: &Frame, lead: &Mapping) -> Option<u32>
    ensures { result ≡ moved_from before.now lead.now }
{
    match lead_of(before, lead.virtual_page) {
        None => None,
        Some(was) => if was.physical_page == lead.physical_page {
            None
        } else {
            Some(was.physical_page)
        },
    }
}

/// Appends a curve to the physical page that a virtual page was mapped to before, if there is one.
#[tactic(auto, unfolding(crate::specs::Arrows::was_text))]
fn write_was(
    text: &mut Vec<u8>,
    layout: &Layout,
    was: Option<u32>,
    from: u32,
) -> Result<(), AllocError>
    ensures { OnOk result (text.new.items ≡ text.old.items ++ was_text layout.now from was) }
{
    match was {
        None => Ok(()),
        Some(page) => write_curve(text, Look::of("was"), from, middle(layout, page)),
    }
}

/// Returns the colour of an arrow: that of changes if the mapping has changed, and otherwise that of the page's group.
fn arrow_look(frame: &Frame, lead: &Mapping, changed: bool) -> Look
    ensures { style_of result ≡ arrow_style frame.now lead.now changed }
{
    if changed {
        Look::of("chg")
    } else {
        Look::nth("a", groups_colour(frame, lead.virtual_page))
    }
}

/// Returns the rule of an arrow's line: dashed if the page is read-only, and bold if the mapping has changed.
fn line_rule(read_only: bool, changed: bool) -> &'static str
    ensures { result.now ≡ line_rule read_only changed }
{
    match (read_only, changed) {
        (false, false) => "",
        (true, false) => "hold",
        (false, true) => "bold",
        (true, true) => "bold hold",
    }
}

/// Appends a curve from below the virtual pages to the physical pages.
#[tactic(auto, unfolding(crate::specs::Arrows::curve_text))]
fn write_curve(text: &mut Vec<u8>, look: Look, from: u32, to: u32) -> Result<(), AllocError>
    ensures { OnOk result (text.new.items ≡ text.old.items ++ curve_text (style_of look) from to) }
{
    let mut points = Vec::new(*text.allocator());
    add_point(&mut points, Way::Move, from, HIGH)?;
    add_point(&mut points, Way::Curve, from, HIGH + BEND)?;
    add_point(&mut points, Way::Bend, to, LOW - BEND)?;
    add_point(&mut points, Way::Bend, to, LOW)?;
    write_path(text, &look, points.as_slice())
}

/// Appends the head of an arrow.
#[tactic(auto, unfolding(crate::specs::Arrows::head_text))]
fn write_head(text: &mut Vec<u8>, look: Look, to: u32) -> Result<(), AllocError>
    ensures { OnOk result (text.new.items ≡ text.old.items ++ head_text (style_of look) to) }
{
    let mut points = Vec::new(*text.allocator());
    add_point(&mut points, Way::Move, to.saturating_sub(42), LOW - 65)?;
    add_point(&mut points, Way::Line, to, LOW)?;
    add_point(&mut points, Way::Line, plus(to, 42), LOW - 65)?;
    write_path(text, &look, points.as_slice())
}
