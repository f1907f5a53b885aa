//! The picture of a shortest plan to the first thing that is wrong.
ghost use Rattle.std.specs.Prelude.{◌≡◌, ◌+◌, ◌≤◌, ℕ, IfOk, OnOk, codes, length, option_map};
ghost use Rattle.draw_svg.specs.Begins.{Begins};
ghost use Rattle.explore_otherwise.specs.Settings.{setting_of};
ghost use Rattle.otherwise_report.specs.Pictures.{AreDrawn, IsPicture};
ghost use Rattle.otherwise_report.specs.Points.{IsPlan, IsPointOf};

use crate::finding::first_finding;
use crate::points::{FoundPlan, point_at};
use draw_picture::{Drawn, Frame, Header, Line, Measure, Picture, Text};
use explore_otherwise::{Asking, Explorer, Setting};
use model_words::Version;
use states_reach::{Reached, path_to};
use std::alloc::{AllocError, Global};

/// The greatest number of moves of a plan that is drawn.
const MOST_MOVES: usize = 1_000_000;

/// How a picture is drawn.
#[derive(Clone, Copy)]
pub struct PictureOptions<'a> {
    /// The title above the picture.
    pub title: &'a str,
    /// The number of cards in a row. 0 is the number that fits.
    pub columns: u32,
}

/// A point of a plan, as a painter takes it.
#[derive(Clone, Copy)]
struct Point<'a> {
    plan: &'a FoundPlan<'a>,
    line: &'a Line<'a>,
    frame: &'a Frame,
}

/// A consumer of the points of a plan.
trait Painter {
    /// The number of the point that the painter takes next.
    ghost next: { Self → ℕ };

    /// Takes the next point, and adds the point's drawing to `text`.
    fn take(&mut self, point: &Point<'_>, text: &mut Text) -> Result<(), AllocError>
        requires next { point.now.line.now.number ≡ next self.old }
        requires shown { IsPointOf point.now.plan.now point.now.line.now.number
            point.now.line.now.words.now point.now.line.now.answer.now point.now.frame.now }
        ensures { OnOk result (next self.new ≡ next self.old + 1) };
}

impl Painter for Measure {
    ghost next = { λ measure. measure };

    fn take(&mut self, point: &Point<'_>, _text: &mut Text) -> Result<(), AllocError> {
        self.point(point.line, point.frame)
    }
}

impl Painter for Picture {
    ghost next = { λ picture. picture.next };

    fn take(&mut self, point: &Point<'_>, text: &mut Text) -> Result<(), AllocError> {
        self.point(point.line, point.frame, text)?;
        Ok(())
    }
}

/// Returns the picture of a shortest plan to the first thing that is wrong, or `None` if nothing is. Also returns an
/// error if an address, a length or a number needs more than 32 bits, or if the plan has more than a million moves.
pub(crate) fn picture_of(
    alloc: Global,
    options: &PictureOptions<'_>,
    setting: &Setting<'_>,
    reached: &Reached<Explorer<'_>>,
) -> Result<Option<Vec<u8>>, AllocError>
    requires { reached.now.system.setting ≡ setting_of setting.now }
    ensures { IfOk result (λ picture. IsPicture reached.now (option_map (λ p. p.items) picture)) }
{
    let Some(finding) = first_finding(alloc, reached)? else {
        return Ok(None);
    };
    let moves = path_to(alloc, reached, finding.place())?;
    if moves.len() > MOST_MOVES {
        return Err(AllocError);
    }
    let plan = FoundPlan {
        setting,
        reached,
        finding: &finding,
        moves: moves.as_slice(),
    };
    let picture = drawn(alloc, options, &plan)?;
    Ok(Some(picture))
}

/// Draws the points of a plan, and returns the picture.
fn drawn(
    alloc: Global,
    options: &PictureOptions<'_>,
    plan: &FoundPlan<'_>,
) -> Result<Vec<u8>, AllocError>
    requires { IsPlan plan.now }
    ensures { IfOk result (λ picture. Begins (codes "<svg") picture.items) }
{
    let mut measure = Measure::new(alloc, 0);
    let mut nothing = Text::new(alloc);
    show_points(alloc, plan, &mut measure, &mut nothing)?;
    let measured = measure.next_line();
    let mut picture = Picture::new(alloc, measure, header_of(plan.setting), drawn_by(options))?;
    let mut text = Text::new(alloc);
    picture.head(&mut text);
    let mut all = text.whole()?.to_vec(alloc)?;
    text.clear();
    show_points(alloc, plan, &mut picture, &mut text)?;
    all_drawn(plan, measured, picture.next_line());
    picture.end(&mut text)?;
    all.extend_from_slice(text.whole()?)?;
    Ok(all)
}

/// States by its requirement that each point of the plan was measured and drawn. The function does nothing.
fn all_drawn(plan: &FoundPlan<'_>, measured: usize, drawn: usize)
    requires { AreDrawn plan.now measured drawn }
{}

/// Passes the points of a plan to a painter, one after the other.
fn show_points<P: Painter>(
    alloc: Global,
    plan: &FoundPlan<'_>,
    painter: &mut P,
    text: &mut Text,
) -> Result<(), AllocError>
    requires plan { IsPlan plan.now }
    requires first { P.next painter.old ≡ 0 }
    ensures { OnOk result (P.next painter.new ≡ length plan.now.moves.now + 2) }
{
    for number in 0..plan.moves.len() + 2 {
        let point = point_at(alloc, plan, number)?;
        let line = Line {
            number: number as u32,
            words: point.words.as_slice(),
            answer: point.answer.as_slice(),
        };
        let shown = Point {
            plan: &*plan,
            line: &line,
            frame: &point.frame,
        };
        painter.take(&shown, text)?;
    }
    Ok(())
}

/// Returns what is drawn, as `draw_picture` takes it.
fn drawn_by<'a>(options: &PictureOptions<'a>) -> Drawn<'a>
    ensures { result.first ≡ 0 }
{
    Drawn {
        title: options.title,
        columns: match options.columns {
            0 => None,
            columns => Some(columns),
        },
        first: 0,
    }
}

/// Returns what the note below the title has.
fn header_of(setting: &Setting<'_>) -> Header {
    Header {
        version: match setting.version {
            Version::One => 1,
            Version::Two => 2,
        },
        pages: u32::from(setting.pages),
        workers: match setting.asking {
            Asking::Scripts(scripts) => Some(scripts.count() as u32),
            Asking::Client(_) => None,
        },
    }
}
