//! The axes of the plot. The vertical axis shows pages, in pages and in MiB, and the horizontal axis shows calls.
ghost use Rattle.std.specs.Prelude.{◌<◌};

use crate::plot::courses::Course;
use crate::plot::lines::{PLOT, across, calls_end, height};
use crate::plot::scale::{Axis, MARKS};
use crate::plot::style::MARK;
use crate::plot::words::{spell_calls, spell_mib, spell_number, write};
use draw_svg::{Anchor, Look, Shapes, Way};

/// The length of a mark on the axis of calls.
const TICK: u32 = 50;

/// The right end of the numbers of pages at the marks.
const PAGES: u32 = PLOT.x - 80;

/// The right end of the numbers of MiB at the marks.
const MIB: u32 = PLOT.x - 720;

/// Draws the axis of pages, with a line across the plot at each mark.
pub fn draw_pages(shapes: &mut Shapes, axis: Axis) {
    for place in 0..MARKS {
        if let Some(pages) = axis.mark(place) {
            draw_height(shapes, axis, pages);
        }
    }
    let pages = shapes.spell(b"pages", "", &[]);
    write_mark(shapes, Anchor::End, PAGES, PLOT.y - 110, pages);
    let mib = shapes.spell(b"MiB", "", &[]);
    write_mark(shapes, Anchor::End, MIB, PLOT.y - 110, mib);
}

/// Writes the words of a mark.
fn write_mark(shapes: &mut Shapes, anchor: Anchor, x: u32, y: u32, words: Vec<u8>) {
    write(shapes, Look::of("soft").with(MARK), anchor, x, y, words);
}

/// Draws a mark of the axis of pages.
fn draw_height(shapes: &mut Shapes, axis: Axis, pages: u32) {
    let y = height(axis.last.max(1), pages);
    shapes.point(Way::Move, PLOT.x, y);
    shapes.point(Way::Line, PLOT.x + PLOT.w, y);
    shapes.path(Look::of("grid"));
    let none = shapes.spell(b"", "", &[]);
    let words = spell_number(shapes, none, pages);
    write_mark(shapes, Anchor::End, PAGES, y.saturating_add(40), words);
    let none = shapes.spell(b"", "", &[]);
    let words = spell_mib(shapes, none, pages);
    write_mark(shapes, Anchor::End, MIB, y.saturating_add(40), words);
}

/// Draws the axis of calls.
pub fn draw_calls(shapes: &mut Shapes, course: &Course)
    requires { course.now.before < 4294967295 }
{
    let axis = Axis::of_calls(course.before, calls_end(course));
    for place in 0..MARKS {
        if let Some(calls) = axis.mark(place) {
            draw_call(shapes, across(course, calls), calls);
        }
    }
    let words = shapes.spell(b"calls", "", &[]);
    let line = PLOT.bottom().saturating_add(420);
    write_mark(shapes, Anchor::Middle, PLOT.middle(), line, words);
}

/// Draws a mark of the axis of calls at a horizontal position.
fn draw_call(shapes: &mut Shapes, x: u32, calls: u32) {
    let y = PLOT.bottom();
    shapes.point(Way::Move, x, y);
    shapes.point(Way::Line, x, y.saturating_add(TICK));
    shapes.path(Look::of("tick"));
    let words = spell_calls(shapes, calls);
    write_mark(shapes, Anchor::Middle, x, y.saturating_add(200), words);
}
