//! The curves, and the points that they are drawn through.
ghost use Rattle.std.specs.Prelude.{◌≡◌, ◌+◌, ◌<◌, ◌↔◌, IfOk, IsTrue, List, min, max};
ghost use Rattle.draw_svg.specs.Shapes.{plain, style_of};
ghost use Rattle.savings_report.specs.Courses.{series_in};
ghost use Rattle.savings_report.specs.PlotCurves.{across, calls_end, curve_name, curve_points, curve_span, first_height, height, is_rising, last_height, most_in, most_of, way_after};
ghost use Rattle.savings_report.specs.declared.plot.lines.Curve.{Curve};

use crate::plot::courses::Course;
use crate::plot::scale::share;
use crate::plot::spans::{Interval, Span};
use draw_svg::{Area, Look, Point, Way};
use std::alloc::{AllocError, Global};

/// The left side, the width, the lower side and the height of the area between the axes. All lengths are in tenths of a
/// pixel.
const LEFT: u32 = 1_250;

const WIDTH: u32 = 6_600;

const BOTTOM: u32 = 4_350;

const HEIGHT: u32 = 3_200;

/// The area between the axes.
pub const PLOT: Area = Area {
    x: LEFT,
    y: BOTTOM - HEIGHT,
    w: WIDTH,
    h: HEIGHT,
};

/// A curve.
#[derive(Clone, Copy)]
pub enum Curve {
    /// Pages of the heap that doesn't mesh.
    Without,
    /// Pages of the heap that meshes.
    With,
    /// The pages that the live objects would need if they were packed perfectly.
    Perfect,
    /// The live bytes in whole pages, rounded up.
    Live,
}

/// The curves, in the order of the legend. Later curves are drawn on top of earlier ones.
pub static CURVES: [Curve; 4] = [Curve::Without, Curve::With, Curve::Perfect, Curve::Live];

impl Curve {
    /// Returns the name of the curve.
    pub fn name(self) -> &'static str {
        match self {
            Curve::Without => "without meshing",
            Curve::With => "with meshing",
            Curve::Perfect => "perfect packing",
            Curve::Live => "live bytes",
        }
    }

    /// Returns the style rule of the curve.
    pub fn look(self) -> Look
        ensures { style_of result ≡ plain (curve_name self) }
    {
        match self {
            Curve::Without => Look::of("without"),
            Curve::With => Look::of("with"),
            Curve::Perfect => Look::of("perfect"),
            Curve::Live => Look::of("live"),
        }
    }

    /// Returns the least and the greatest value of the curve in an interval.
    pub fn span(self, interval: &Interval) -> Span
        ensures { result ≡ curve_span self interval.now }
    {
        match self {
            Curve::Without => interval.without,
            Curve::With => interval.with,
            Curve::Perfect => interval.perfect,
            Curve::Live => interval.live,
        }
    }
}

/// Returns the greatest number of pages in any curve.
pub fn most_pages(intervals: &[Interval]) -> u32
    ensures { result ≡ most_in intervals.now }
{
    let mut most = 0u32;
    for interval in intervals {
        most = most.max(most_of(interval));
    }
    most
}

/// Returns the greatest number of pages in any curve of an interval.
#[tactic(auto, unfolding(crate::specs::PlotCurves::most_of))]
fn most_of(interval: &Interval) -> u32
    ensures { result ≡ most_of interval.now }
{
    let heaps = interval.without.greatest.max(interval.with.greatest);
    let bounds = interval.perfect.greatest.max(interval.live.greatest);
    heaps.max(bounds)
}

/// Returns the number of the call at the right end of the plot.
pub fn calls_end(course: &Course) -> u32
    requires { course.now.before < 4294967295 }
    ensures { result ≡ calls_end (series_in course.now) }
{
    course.last.max(course.before + 1)
}

/// Returns the points of a curve: for each interval one at its first call, and one at its last call. They show the
/// least and the greatest value. Which of these values came first isn't recorded: if the curve rises, the least value
/// is drawn first. The only error is an allocation failure.
pub fn curve_points(
    alloc: Global,
    course: &Course,
    top: u32,
    curve: Curve,
) -> Result<Vec<Point>, AllocError>
    requires before { course.now.before < 4294967295 }
    requires top { 0 < top }
    ensures { IfOk result (λ points. points.items ≡ curve_points (series_in course.now) top curve) }
{
    let mut points = Vec::new(alloc);
    let mut span_before: Option<Span> = None;
    let mut done = course.before;
    for interval in course.intervals {
        let span = curve.span(interval);
        let rising = is_rising(span_before, span);
        let last = course.end_after(done);
        let first = first_call(done, last);
        points.push(Point {
            way: way_after(span_before),
            x: across(course, first),
            y: height(top, first_height(rising, span)),
        })?;
        points.push(Point {
            way: Way::Line,
            x: across(course, last),
            y: height(top, last_height(rising, span)),
        })?;
        span_before = Some(span);
        done = last;
    }
    Ok(points)
}

/// Returns the number of the first call of an interval that begins after call number `done` and ends with call number
/// `last`.
fn first_call(done: u32, last: u32) -> u32
    ensures { result ≡ min (done + 1) last }
{
    done.saturating_add(1).min(last)
}

/// Returns how the path reaches the first point of an interval, by the span of the interval before.
fn way_after(before: Option<Span>) -> Way
    ensures { result ≡ way_after before }
{
    match before {
        None => Way::Move,
        Some(_) => Way::Line,
    }
}

/// Whether a curve doesn't fall from the interval before to this interval, by the middles of its spans. True if there
/// is no interval before.
#[tactic(auto, unfolding(crate::specs::PlotCurves::is_rising))]
fn is_rising(before: Option<Span>, span: Span) -> bool
    ensures { result ≡ is_rising before span }
{
    match before {
        None => true,
        Some(before) => before.middle() <= span.middle(),
    }
}

/// Returns the number of pages at the first call of an interval.
#[tactic(auto, unfolding(crate::specs::PlotCurves::first_height))]
fn first_height(rising: bool, span: Span) -> u32
    ensures { result ≡ first_height rising span }
{
    if rising { span.least } else { span.greatest }
}

/// Returns the number of pages at the last call of an interval.
#[tactic(auto, unfolding(crate::specs::PlotCurves::last_height))]
fn last_height(rising: bool, span: Span) -> u32
    ensures { result ≡ last_height rising span }
{
    if rising { span.greatest } else { span.least }
}

/// Returns the horizontal position of a call.
#[tactic(auto, unfolding(crate::specs::PlotCurves::across))]
pub fn across(course: &Course, call: u32) -> u32
    requires { course.now.before < 4294967295 }
    ensures { result ≡ across (series_in course.now) call }
{
    let calls = calls_end(course).saturating_sub(course.before);
    let part = u64::from(call.saturating_sub(course.before));
    LEFT + share(6_600 * part, calls, WIDTH)
}

/// Returns the vertical position of a number of pages, if the axis ends at `top` pages.
#[tactic(auto, unfolding(crate::specs::PlotCurves::height))]
pub fn height(top: u32, pages: u32) -> u32
    requires { 0 < top }
    ensures { result ≡ height top pages }
{
    BOTTOM - share(3_200 * u64::from(pages), top, HEIGHT)
}
