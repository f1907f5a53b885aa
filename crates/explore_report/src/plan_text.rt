//! The text of a plan.
ghost use Rattle.std.specs.Prelude.{◌≡◌, ◌+◌, ◌++◌, ◌∷◌, ◌<◌, ◌≤◌, ◌^◌, IfOk, OnOk, map};
ghost use Rattle.explore_report.specs.OutcomeTexts.{comma_before, goes_on, is_same_step, lines_text, plan_text, times_text};
ghost use Rattle.text_job.specs.Plan.{line_of};

use crate::outcome_text::add_numbered;
use std::alloc::AllocError;
use text_job::{PlanLine, add_plan_line};

/// Adds the line `  plan: LINE, LINE ..`. A step that comes several times, one right after another, is written once, as
/// `step times 6` or `step 2048 times 6`.
pub(crate) fn add_plan(text: &mut Vec<u8>, lines: &[PlanLine]) -> Result<(), AllocError>
    ensures { OnOk result (text.new.items ≡ text.old.items ++ plan_text (map line_of lines.now)) }
{
    text.extend_from_slice(b"  plan:")?;
    add_lines(text, lines)?;
    text.extend_from_slice(b"\n")
}

/// Adds lines, each after a space, with commas between them.
fn add_lines(text: &mut Vec<u8>, lines: &[PlanLine]) -> Result<(), AllocError>
    ensures { OnOk result (text.new.items ≡ text.old.items ++ lines_text 0 (map line_of lines.now)) }
{
    let mut times = 0;
    let mut left = lines;
    while let [line, rest @ ..] = left {
        times = add_line(text, times, line, rest)?;
        left = rest;
    }
    Ok(())
}

/// Adds a line that has come `times` times before. Returns 0. If the first of the lines after it, `rest`, is the same
/// step, adds nothing and returns how many times the line has come.
fn add_line(
    text: &mut Vec<u8>,
    times: u64,
    line: &PlanLine,
    rest: &[PlanLine],
) -> Result<u64, AllocError>
    requires { times + 1 < 2 ^ 64 }
    ensures few { IfOk result (λ now. now ≤ times + 1) }
    ensures text { IfOk result
        (λ now. text.new.items ++ lines_text now (map line_of rest.now)
        ≡ text.old.items ++ lines_text times (line_of line.now ∷ map line_of rest.now)) }
{
    if goes_on(line, rest) {
        return Ok(times + 1);
    }
    text.push(b' ')?;
    add_times(text, line, times + 1)?;
    add_comma(text, rest)?;
    Ok(0)
}

/// Whether the first of the lines `rest` is the same step as `line`.
fn goes_on(line: &PlanLine, rest: &[PlanLine]) -> bool
    ensures { result ≡ goes_on (line_of line.now) (map line_of rest.now) }
{
    match rest {
        [next, ..] => is_same_step(line, next),
        _ => false,
    }
}

/// Whether both lines are the same line `step` or `step CLASS`.
fn is_same_step(line: &PlanLine, other: &PlanLine) -> bool
    ensures { result ≡ is_same_step (line_of line.now) (line_of other.now) }
{
    match (line, other) {
        (PlanLine::Step, PlanLine::Step) => true,
        (PlanLine::StepClass(class), PlanLine::StepClass(other)) => class.size() == other.size(),
        _ => false,
    }
}

/// Adds a line that comes a number of times.
fn add_times(text: &mut Vec<u8>, line: &PlanLine, times: u64) -> Result<(), AllocError>
    ensures { OnOk result (text.new.items ≡ text.old.items ++ times_text (line_of line.now) times) }
{
    add_plan_line(text, line)?;
    if times == 1 {
        return Ok(());
    }
    add_numbered(text, b" times", times)
}

/// Adds a comma if lines follow.
fn add_comma(text: &mut Vec<u8>, rest: &[PlanLine]) -> Result<(), AllocError>
    ensures { OnOk result (text.new.items ≡ text.old.items ++ comma_before (map line_of rest.now)) }
{
    match rest {
        [_, ..] => text.extend_from_slice(b","),
        _ => Ok(()),
    }
}
