//! The legend: a piece of each curve, with the name of the curve.
use crate::plot::lines::{CURVES, Curve, PLOT};
use crate::plot::style::NOTE;
use crate::plot::words::write;
use draw_svg::{Anchor, Look, Shapes, Way};

/// The distance between the starts of two names.
const COLUMN: u32 = 1_900;

/// The length of a piece of a curve.
const PIECE: u32 = 420;

/// The baseline of the names.
const LINE: u32 = 850;

/// Draws the legend.
pub fn draw_legend(shapes: &mut Shapes) {
    let mut x = PLOT.x;
    for curve in &CURVES {
        draw_entry(shapes, *curve, x);
        x = x.saturating_add(COLUMN);
    }
}

/// Draws a curve's entry.
fn draw_entry(shapes: &mut Shapes, curve: Curve, x: u32) {
    let end = x.saturating_add(PIECE);
    shapes.point(Way::Move, x, LINE - 40);
    shapes.point(Way::Line, end, LINE - 40);
    shapes.path(curve.look());
    let name = shapes.spell(b"", curve.name(), &[]);
    let look = Look::of("ink").with(NOTE);
    write(
        shapes,
        look,
        Anchor::Start,
        end.saturating_add(90),
        LINE,
        name,
    );
}
