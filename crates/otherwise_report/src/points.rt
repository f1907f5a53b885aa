//! The points of a shortest plan to the first thing that is wrong.
ghost use Rattle.std.specs.Prelude.{◌≡◌, IfOk, codes};
ghost use Rattle.explore_otherwise.specs.Settings.{setting_of};
ghost use Rattle.otherwise_report.specs.Points.{IsFindingPoint, IsMovePoint, IsPlan, IsPointOf, IsPointWith, last_of, place_behind};

use crate::captions::{add_move_answer, add_move_words};
use crate::finding::{Finding, add_finding_answer, add_finding_words, mark_of};
use draw_picture::Frame;
use explore_otherwise::{Explorer, Setting, StateAt};
use otherwise_frames::frame_of;
use states_reach::{Origin, Reached};
use std::alloc::{AllocError, Global};

/// The first thing that is wrong, and a shortest plan to it.
#[derive(Clone, Copy)]
pub(crate) struct FoundPlan<'a> {
    pub setting: &'a Setting<'a>,
    pub reached: &'a Reached<Explorer<'a>>,
    pub finding: &'a Finding,
    pub moves: &'a [Origin],
}

/// A point of a plan: the last move and its answer, and what the heap looks like after it.
#[derive(Drop)]
pub(crate) struct PlanPoint {
    pub words: Vec<u8>,
    pub answer: Vec<u8>,
    pub frame: Frame,
}

/// Returns a point of a plan: that before its first move, that after a move, or, behind all moves, what is wrong.
pub(crate) fn point_at(
    alloc: Global,
    plan: &FoundPlan<'_>,
    number: usize,
) -> Result<PlanPoint, AllocError>
    requires { IsPlan plan.now }
    ensures { IfOk result (λ point. IsPointOf plan.now number point.words.items point.answer.items point.frame) }
{
    let place = place_behind(plan.moves, number, plan.finding.place());
    let Some(at) = plan.reached.system.at(place) else {
        return Err(AllocError);
    };
    let frame = frame_of(alloc, &at)?;
    if plan.moves.len() < number {
        return point_of(alloc, plan.setting, &at, plan.finding, frame);
    }
    match last_of(plan.moves, number) {
        Some(origin) => point_behind(alloc, plan.setting, plan.reached, origin, frame),
        None => first_point(alloc, frame),
    }
}

/// Returns the last of the first moves of a plan, as many as `number`, if there is one.
fn last_of(moves: &[Origin], number: usize) -> Option<Origin>
    ensures { result ≡ last_of moves.now number }
{
    match number.checked_sub(1) {
        Some(before) => moves.get(before).copied(),
        None => None,
    }
}

/// Returns the place of the state after the first moves of a plan, as many as `number`. `last` is that of the state
/// after all moves.
fn place_behind(moves: &[Origin], number: usize, last: usize) -> usize
    ensures { result ≡ place_behind moves.now number last }
{
    match moves.get(number) {
        Some(origin) => origin.state as usize,
        None => last,
    }
}

/// Returns the point before the first move.
fn first_point(alloc: Global, frame: Frame) -> Result<PlanPoint, AllocError>
    ensures { IfOk result (λ point. IsPointWith (codes "start") (codes "done") frame
        point.words.items point.answer.items point.frame) }
{
    let mut words = Vec::new(alloc);
    words.extend_from_slice(b"start")?;
    let mut answer = Vec::new(alloc);
    answer.extend_from_slice(b"done")?;
    Ok(PlanPoint {
        words,
        answer,
        frame,
    })
}

/// Returns the point after a move.
fn point_behind(
    alloc: Global,
    setting: &Setting<'_>,
    reached: &Reached<Explorer<'_>>,
    origin: Origin,
    frame: Frame,
) -> Result<PlanPoint, AllocError>
    requires setting { reached.now.system.setting ≡ setting_of setting.now }
    ensures { IfOk result (λ point. IsMovePoint (setting_of setting.now) reached.now.system.states origin frame
        point.words.items point.answer.items point.frame) }
{
    let Some(at) = reached.system.at(origin.state as usize) else {
        return Err(AllocError);
    };
    let mut words = Vec::new(alloc);
    add_move_words(&mut words, setting, &at, origin.number as usize)?;
    let mut answer = Vec::new(alloc);
    add_move_answer(alloc, &mut answer, setting, &at, origin.number as usize)?;
    Ok(PlanPoint {
        words,
        answer,
        frame,
    })
}

/// Returns the point of what is wrong. Its page is marked.
fn point_of(
    alloc: Global,
    setting: &Setting<'_>,
    at: &StateAt<'_>,
    finding: &Finding,
    frame: Frame,
) -> Result<PlanPoint, AllocError>
    requires setting { at.now.setting ≡ setting_of setting.now }
    ensures { IfOk result (λ point. IsFindingPoint (setting_of setting.now) at.now.state finding.now frame
        point.words.items point.answer.items point.frame) }
{
    let mut words = Vec::new(alloc);
    add_finding_words(&mut words, setting, at, finding)?;
    let mut answer = Vec::new(alloc);
    add_finding_answer(&mut answer, finding)?;
    let mut frame = frame;
    frame.mark = mark_of(at, finding)?;
    Ok(PlanPoint {
        words,
        answer,
        frame,
    })
}
