//! The whole plot.
ghost use Rattle.std.specs.Prelude.{◌≡◌, ◌*◌, ◌++◌, ◌<◌, ◌≤◌, [], IfSome, Some, max};
ghost use Rattle.draw_svg.specs.Shapes.{Draws};
ghost use Rattle.draw_svg.specs.Texts.{Adds};
ghost use Rattle.savings_report.specs.Courses.{series_in};
ghost use Rattle.savings_report.specs.PlotCurves.{IsPlot, curve_text, curves_text};

use crate::plot::axes::{draw_calls, draw_pages};
use crate::plot::captions::{Caption, TITLE, draw_caption};
use crate::plot::courses::Course;
use crate::plot::ends::{draw_ends, draw_most_saved};
use crate::plot::legend::draw_legend;
use crate::plot::lines::{Curve, PLOT, curve_points, most_pages};
use crate::plot::scale::Axis;
use crate::plot::style::{DARK_RULES, NOTE, RULES};
use crate::plot::words::write;
use draw_svg::{Anchor, Area, Look, Shape, Shapes, Text};

/// The width of the picture.
const WIDTH: u32 = 10_400;

const HEIGHT: u32 = 4_950;

/// Appends the plot as an SVG file.
pub fn draw_plot(text: &mut Text, course: &Course, caption: &Caption)
    requires { course.now.before < 4294967295 }
    ensures { text.old ≡ Some [] → IfSome text.new (IsPlot (series_in course.now)) }
{
    let pages = Axis::of_pages(most_pages(course.intervals));
    text.add_root(TITLE.as_bytes(), WIDTH, HEIGHT);
    text.add_style(RULES, DARK_RULES);
    add_frame(text, course, caption, pages);
    add_curves(text, course, pages.last);
    add_labels(text, course, pages.last);
    text.add(b"</svg>\n");
}

/// Appends what the curves are drawn on.
fn add_frame(text: &mut Text, course: &Course, caption: &Caption, pages: Axis)
    requires { course.now.before < 4294967295 }
    ensures { Draws text.old text.new }
{
    let mut shapes = Shapes::new(text.alloc());
    draw_frame(&mut shapes, course, caption, pages);
    text.draw(&shapes);
}

/// Appends what is drawn over the curves.
fn add_labels(text: &mut Text, course: &Course, top: u32)
    requires before { course.now.before < 4294967295 }
    requires top { 0 < top }
    ensures { Draws text.old text.new }
{
    let mut shapes = Shapes::new(text.alloc());
    match course.intervals.last() {
        Some(interval) => {
            draw_ends(&mut shapes, &interval.last, top);
            draw_most_saved(&mut shapes, course, top);
        }
        None => draw_nothing(&mut shapes),
    }
    text.draw(&shapes);
}

/// Appends the four curves.
fn add_curves(text: &mut Text, course: &Course, top: u32)
    requires before { course.now.before < 4294967295 }
    requires top { 0 < top }
    ensures { Adds text.old text.new (curves_text (series_in course.now) top) }
{
    add_curve(text, course, top, Curve::Without);
    add_curve(text, course, top, Curve::With);
    add_curve(text, course, top, Curve::Perfect);
    add_curve(text, course, top, Curve::Live);
}

/// Appends a curve.
#[tactic(auto, unfolding(crate::specs::PlotCurves::curve_text))]
fn add_curve(text: &mut Text, course: &Course, top: u32, curve: Curve)
    requires before { course.now.before < 4294967295 }
    requires top { 0 < top }
    ensures { Adds text.old text.new (curve_text (series_in course.now) top curve) }
{
    match curve_points(text.alloc(), course, top, curve) {
        Ok(points) => text.add_shape(&Shape::Path(curve.look(), points)),
        Err(_) => text.refuse(),
    }
}

/// Draws the background, the words above the plot, and the axes.
fn draw_frame(shapes: &mut Shapes, course: &Course, caption: &Caption, pages: Axis)
    requires { course.now.before < 4294967295 }
{
    shapes.rect(Look::of("bg"), Area::at(0, 0, WIDTH, HEIGHT), 0);
    shapes.rect(Look::of("card"), PLOT, 0);
    draw_caption(shapes, course, caption);
    draw_legend(shapes);
    draw_pages(shapes, pages);
    draw_calls(shapes, course);
}

/// Draws a note that there are no curves.
fn draw_nothing(shapes: &mut Shapes) {
    let note = shapes.spell(b"no call was measured", "", &[]);
    let soft = Look::of("soft").with(NOTE);
    let middle = PLOT.y + PLOT.h / 2;
    write(shapes, soft, Anchor::Middle, PLOT.middle(), middle, note);
}
