//! The values at the right ends of the curves, and the mark of the call after which meshing saves the most pages.
ghost use Rattle.std.specs.Prelude.{◌<◌};

use crate::plot::courses::Course;
use crate::plot::lines::{Curve, PLOT, across, height};
use crate::plot::readings::Reading;
use crate::plot::style::NOTE;
use crate::plot::words::{spell_mib, spell_number, write};
use crate::table::Moment;
use draw_svg::{Anchor, Look, Shapes, Way};

/// The distance between the baselines of two values.
const ROW: u32 = 150;

/// The distance of a value's baseline below the end of its curve.
const BASE: u32 = 40;

/// Writes the four values of a reading at the right of the plot, each beside the end of its curve, but below the value
/// above it. So no two values overlap.
pub fn draw_ends(shapes: &mut Shapes, last: &Reading, top: u32)
    requires { 0 < top }
{
    let mut least = PLOT.y;
    let mut most = PLOT.bottom().saturating_sub(3 * ROW);
    for curve in &by_height(last) {
        let pages = value(*curve, last);
        let y = height(top, pages).max(least).min(most);
        draw_end(shapes, *curve, pages, y);
        least = y.saturating_add(ROW);
        most = most.saturating_add(ROW);
    }
}

/// Returns the curves by their values, the greatest first. Perfect packing needs at most the pages of either heap, and
/// no fewer than the live bytes.
fn by_height(last: &Reading) -> [Curve; 4] {
    if last.with <= last.without {
        [Curve::Without, Curve::With, Curve::Perfect, Curve::Live]
    } else {
        [Curve::With, Curve::Without, Curve::Perfect, Curve::Live]
    }
}

/// Returns the value of a curve.
fn value(curve: Curve, reading: &Reading) -> u32 {
    match curve {
        Curve::Without => reading.without,
        Curve::With => reading.with,
        Curve::Perfect => reading.perfect,
        Curve::Live => reading.live,
    }
}

/// Returns the short name of a curve, with a space.
fn short_name(curve: Curve) -> &'static str {
    match curve {
        Curve::Without => "without ",
        Curve::With => "with ",
        Curve::Perfect => "perfect ",
        Curve::Live => "live bytes ",
    }
}

/// Writes the value of a curve at a height, behind a piece of the curve.
fn draw_end(shapes: &mut Shapes, curve: Curve, pages: u32, y: u32) {
    let x = PLOT.x + PLOT.w;
    shapes.point(Way::Move, x + 60, y);
    shapes.point(Way::Line, x + 240, y);
    shapes.path(curve.look());
    let words = shapes.spell(b"", short_name(curve), &[]);
    let words = spell_pages(shapes, words, pages);
    let look = Look::of("ink").with(NOTE);
    let base = y.saturating_add(BASE);
    write(shapes, look, Anchor::Start, x + 310, base, words);
}

/// Appends a number of pages, and the same in MiB.
fn spell_pages(shapes: &mut Shapes, words: Vec<u8>, pages: u32) -> Vec<u8> {
    let words = spell_number(shapes, words, pages);
    let words = shapes.spell(words.as_slice(), " pages (", &[]);
    let words = spell_mib(shapes, words, pages);
    shapes.spell(words.as_slice(), " MiB)", &[])
}

/// Marks the call after which meshing saves the most pages. If meshing saves nothing, draws nothing.
pub fn draw_most_saved(shapes: &mut Shapes, course: &Course, top: u32)
    requires before { course.now.before < 4294967295 }
    requires top { 0 < top }
{
    if let Some(moment) = course.most_saved {
        if moment.with < moment.without {
            draw_saved(shapes, across(course, moment.call), &moment, top);
        }
    }
}

/// Draws the mark of a call: a line from one heap's curve to the other, and the pages that are saved, above the plot.
fn draw_saved(shapes: &mut Shapes, x: u32, moment: &Moment, top: u32)
    requires { 0 < top }
{
    shapes.point(Way::Move, x, PLOT.y);
    shapes.point(Way::Line, x, height(top, moment.without));
    shapes.path(Look::of("guide"));
    shapes.point(Way::Move, x, height(top, moment.without));
    shapes.point(Way::Line, x, height(top, moment.with));
    shapes.path(Look::of("saved"));
    let words = shapes.spell(b"most saved ", "", &[]);
    let saved = moment.without.saturating_sub(moment.with);
    let words = spell_number(shapes, words, saved);
    let words = shapes.spell(words.as_slice(), " of ", &[]);
    let words = spell_number(shapes, words, moment.without);
    let words = shapes.spell(words.as_slice(), " pages at call ", &[]);
    let words = spell_number(shapes, words, moment.call);
    let anchor = if x < PLOT.middle() {
        Anchor::Start
    } else {
        Anchor::End
    };
    let look = Look::of("ink").with(NOTE);
    write(shapes, look, anchor, x, PLOT.y - 60, words);
}
