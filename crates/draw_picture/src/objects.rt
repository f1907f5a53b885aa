//! Drawing the slots and the objects of a page whose upper left corner is at 0, 0.
ghost use Rattle.std.specs.Prelude.{◌≡◌, ◌++◌, ◌∷◌, [], OnOk};
ghost use Rattle.draw_picture.specs.Objects.{below, bounds, bytes_area, filled_rule, fits, grid_text, part_style, part_text, rest_rule, row_bound, row_bytes, serial_label, serial_text, slot_area, slot_bound, filled_text};
ghost use Rattle.draw_picture.specs.Lettering.{lettering_of};
ghost use Rattle.draw_svg.specs.Shapes.{style_of};
ghost use Rattle.model_words.specs.Classes.{slots_of};

use crate::layout::PAGE_HEIGHT;
use crate::lettering::{Face, Label, width_of};
use crate::numbers::{plus, quotient, remainder, share, times};
use crate::parts::{PAGE_BYTES, Part, State};
use draw_svg::{Area, Look, Point, Way, words_of, write_path, write_rect};
use mesh_class::Class;
use std::alloc::AllocError;

/// The greatest number of slots that are side by side in a page. If a page has more slots, they are in several rows.
const SLOTS_IN_ROW: u32 = 16;

/// The number of colours of objects.
const OBJECT_COLOURS: u32 = 12;

/// Returns the number of bytes in one row of a page's slots.
fn row_bytes(size: u32) -> u32
    ensures { result ≡ row_bytes size }
{
    times(size, SLOTS_IN_ROW).min(PAGE_BYTES)
}

/// Returns the area of the bytes from `from` to `to` in a page with slots of `size` bytes and the width `page`. All of
/// these bytes must be in one row.
#[tactic(auto, unfolding(crate::specs::Objects::bytes_area))]
fn bytes_area(size: u32, from: u32, to: u32, page: u32) -> Area
    ensures { result ≡ bytes_area size from to page }
{
    let row = row_bytes(size);
    let height = share(PAGE_HEIGHT, row, PAGE_BYTES);
    Area {
        x: share(page, remainder(from, row), row),
        y: times(quotient(from, row), height),
        w: share(page, to.saturating_sub(from), row),
        h: height,
    }
}

/// Returns an area without a small border on each side.
fn slot_area(area: Area) -> Area
    ensures { result ≡ slot_area area }
{
    Area {
        x: plus(area.x, 6),
        y: plus(area.y, 6),
        w: area.w.saturating_sub(12).max(6),
        h: area.h.saturating_sub(12).max(6),
    }
}

/// Appends the bounds of the slots in one page of a span. `place` is the page's index in the span.
#[tactic(auto, unfolding(crate::specs::Objects::grid_text))]
pub(crate) fn write_grid(
    text: &mut Vec<u8>,
    class: Class,
    place: u32,
    page: u32,
) -> Result<(), AllocError>
    ensures { OnOk result (text.new.items ≡ text.old.items ++ grid_text class place page) }
{
    let mut points = Vec::new(*text.allocator());
    add_bounds(&mut points, class, place, page)?;
    write_path(text, &Look::of("grid"), points.as_slice())
}

/// Adds the bounds of the rows of slots, and of the slots of the first row, to a path.
fn add_bounds(
    points: &mut Vec<Point>,
    class: Class,
    place: u32,
    page: u32,
) -> Result<(), AllocError>
    ensures { OnOk result (points.new.items ≡ points.old.items ++ bounds class place page) }
{
    add_row_bounds(points, quotient(PAGE_BYTES, row_bytes(class.size())), page)?;
    add_slot_bounds(points, class, place, page)
}

/// Adds the bounds of the rows of slots to a path.
fn add_row_bounds(points: &mut Vec<Point>, rows: u32, page: u32) -> Result<(), AllocError>
    ensures { OnOk result (points.new.items ≡ points.old.items ++ below rows (row_bound rows page)) }
{
    for row in 0..rows {
        add_row_bound(points, row, rows, page)?;
    }
    Ok(())
}

/// Adds the bounds of the slots of the first row to a path.
fn add_slot_bounds(
    points: &mut Vec<Point>,
    class: Class,
    place: u32,
    page: u32,
) -> Result<(), AllocError>
    ensures { OnOk result
        (points.new.items ≡ points.old.items ++ below (slots_of class) (slot_bound class place page)) }
{
    for slot in 0..class.slots() {
        add_slot_bound(points, class, slot, place, page)?;
    }
    Ok(())
}

/// Adds the upper bound of a row of slots to a path. The first row has none.
fn add_row_bound(points: &mut Vec<Point>, row: u32, rows: u32, page: u32) -> Result<(), AllocError>
    ensures { OnOk result (points.new.items ≡ points.old.items ++ row_bound rows page row) }
{
    if row == 0 {
        return Ok(());
    }
    let y = share(PAGE_HEIGHT, row, rows);
    add_point(points, Way::Move, 0, y)?;
    add_point(points, Way::Line, page, y)
}

/// Adds the left bound of a slot to a path, if it is within the first row of a page.
fn add_slot_bound(
    points: &mut Vec<Point>,
    class: Class,
    slot: u32,
    place: u32,
    page: u32,
) -> Result<(), AllocError>
    ensures { OnOk result (points.new.items ≡ points.old.items ++ slot_bound class place page slot) }
{
    let from = times(slot, class.size()).saturating_sub(times(place, PAGE_BYTES));
    if from == 0 || row_bytes(class.size()) <= from {
        return Ok(());
    }
    let x = share(page, from, row_bytes(class.size()));
    add_point(points, Way::Move, x, 0)?;
    add_point(points, Way::Line, x, PAGE_HEIGHT)
}

/// Adds a point to a path.
pub(crate) fn add_point(points: &mut Vec<Point>, way: Way, x: u32, y: u32) -> Result<(), AllocError>
    ensures { OnOk result (points.new.items ≡ points.old.items ++ record { way = way; x = x; y = y } ∷ []) }
{
    Ok(points.push(Point { way, x, y })?)
}

/// Returns the style of an object's slot or bytes: the object's colour, and this rule.
fn look_of(part: &Part, rule: &'static str) -> Look
    ensures { style_of result ≡ part_style part.now rule.now }
{
    Look::nth("o", part.serial % OBJECT_COLOURS).with(rule)
}

/// Returns the style rule of the slot of an object in this state.
fn rest_rule(state: State) -> &'static str
    ensures { result.now ≡ rest_rule state }
{
    match state {
        State::Live => "rest",
        State::Copied => "restc",
        State::Old => "resto",
    }
}

/// Returns the style rule of the bytes of an object in this state.
fn filled_rule(state: State) -> &'static str
    ensures { result.now ≡ filled_rule state }
{
    match state {
        State::Live => "",
        State::Copied => "copy",
        State::Old => "old",
    }
}

/// Appends the part of an object in a page: its slot, the filled part of the slot, and its serial.
#[tactic(auto, unfolding(crate::specs::Objects::part_text))]
pub(crate) fn write_part(text: &mut Vec<u8>, part: &Part, page: u32) -> Result<(), AllocError>
    ensures { OnOk result (text.new.items ≡ text.old.items ++ part_text page part.now) }
{
    let slot = slot_area(bytes_area(part.size, part.from, part.to, page));
    write_rect(text, &look_of(part, rest_rule(part.state)), &slot, 0)?;
    write_filled(text, part, page)?;
    write_serial(text, part, slot)
}

/// Appends the filled part of an object's slot in a page, if it is there.
#[tactic(auto, unfolding(crate::specs::Objects::filled_text))]
fn write_filled(text: &mut Vec<u8>, part: &Part, page: u32) -> Result<(), AllocError>
    ensures { OnOk result (text.new.items ≡ text.old.items ++ filled_text page part.now) }
{
    if part.filled <= part.from {
        return Ok(());
    }
    let area = slot_area(bytes_area(part.size, part.from, part.filled, page));
    write_rect(text, &look_of(part, filled_rule(part.state)), &area, 0)
}

/// Appends an object's serial, if there is room for it.
#[tactic(auto, unfolding(crate::specs::Objects::serial_text))]
fn write_serial(text: &mut Vec<u8>, part: &Part, slot: Area) -> Result<(), AllocError>
    ensures { OnOk result (text.new.items ≡ text.old.items ++ serial_text part.now slot) }
{
    let digits = words_of(*text.allocator(), b"", "#", &[part.serial])?;
    if !fits(digits.as_slice(), slot) {
        return Ok(());
    }
    serial_label(part, slot).write(text, digits.as_slice())
}

/// Whether words fit into a slot.
fn fits(digits: &[u8], slot: Area) -> bool
    ensures { result ≡ fits digits.now slot }
{
    115 <= slot.h && width_of(Face::Strong, digits) <= slot.w
}

/// Returns the label of an object's serial in its slot.
fn serial_label(part: &Part, slot: Area) -> Label
    ensures { lettering_of result ≡ serial_label part.now slot }
{
    let x = plus(slot.x, slot.w / 2);
    let y = plus(plus(slot.y, slot.h / 2), 38);
    match part.state {
        State::Live => Label::middle(Face::Strong, "", x, y).inked(
            "u",
            part.serial % OBJECT_COLOURS,
        ),
        State::Copied => Label::middle(Face::Strong, "ink", x, y),
        State::Old => Label::middle(Face::Strong, "soft", x, y),
    }
}
